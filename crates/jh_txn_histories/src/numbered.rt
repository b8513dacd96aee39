//! Transactions with numbers in place of keys and elements. `specs/Histories.antt` says which numbers stand for what; what
//! has a number keeps it while the tables grow.

ghost use Rattle.std.specs.Prelude.{◌≡◌, ◌∷◌, ℕ, IfOk, None, OnOk};
ghost use Rattle.std.specs.List.{All, AllZip};
ghost use Rattle.jh_edn.specs.Normal.{normal};
ghost use Rattle.jh_edn.specs.View.{view, views};
ghost use Rattle.jh_numbers.specs.Numbers.{HasNumber};
ghost use Rattle.jh_ops.specs.Operation.{operations};
ghost use Rattle.jh_txn_histories.specs.Histories as rule;
ghost use Rattle.jh_txn_histories.specs.Histories.{IsNumbered, IsTxnOf};
ghost use Rattle.jh_txn_histories.specs.ReadingInside.{TablesGrow, Stays, written, written_ops};

use crate::asked::{txn_outcome, txn_said};
use crate::tables::Tables;
use crate::written::WrittenOp;
use jh_edn::Value;
use jh_numbers::Numbers;
use jh_ops::{Op, Pair};
use jh_txn::{Elements, MicroOp, MicroOps, Txn};
use std::alloc::{AllocError, Global};

/// The transactions of a history, and what their numbers stand for.
#[derive(Drop)]
pub struct Transactions {
    pub txns: Vec<Txn>,
    /// What each key is. Its owner is 0.
    pub keys: Numbers,
    /// What each element is. Its owner is the number of its key, so elements of two keys have two numbers.
    pub elements: Numbers,
}

/// The numbers of elements of a key.
fn number_elements(
    alloc: Global,
    elements: &mut Numbers,
    key: usize,
    seen: &[Value],
) -> Result<Vec<usize>, AllocError>
    ensures numbers { IfOk result (λ numbers. AllZip
        (λ element number. HasNumber elements.new (key, normal element) number)
        (views seen.now) numbers.items) }
    ensures stays { OnOk result (Stays elements.old elements.new) }
{
    let mut numbers = Vec::with_capacity(alloc, seen.len())?;
    for element in seen {
        numbers.push(elements.number(alloc, key, element)?)?;
    }
    Ok(numbers)
}

/// A micro-operation by its numbers.
fn number_op(alloc: Global, tables: &mut Tables, op: &WrittenOp) -> Result<MicroOp, AllocError>
    ensures numbered { IfOk result (IsNumbered tables.new.keys tables.new.elements (written op.now)) }
    ensures grows { OnOk result (TablesGrow tables.old tables.new) }
{
    match op {
        WrittenOp::Append { key, element } => {
            let key = tables.keys.number(alloc, 0, key)?;
            let element = tables.elements.number(alloc, key, element)?;
            Ok(MicroOp::Append { key, element })
        }
        WrittenOp::Read { key, seen } => {
            let key = tables.keys.number(alloc, 0, key)?;
            let seen = Elements::of(number_elements(alloc, &mut tables.elements, key, seen)?);
            Ok(MicroOp::Read { key, seen })
        }
    }
}

/// Micro-operations by their numbers.
fn number_ops(
    alloc: Global,
    tables: &mut Tables,
    ops: &[WrittenOp],
) -> Result<Vec<MicroOp>, AllocError>
    ensures numbered { IfOk result (λ numbered. AllZip
        (IsNumbered tables.new.keys tables.new.elements) (written_ops ops.now) numbered.items) }
    ensures grows { OnOk result (TablesGrow tables.old tables.new) }
{
    let mut numbered = Vec::with_capacity(alloc, ops.len())?;
    for op in ops {
        numbered.push(number_op(alloc, tables, op)?)?;
    }
    Ok(numbered)
}

/// The transaction of a pair that has no bad value.
fn txn_of(alloc: Global, tables: &mut Tables, history: &[Op], pair: Pair) -> Result<Txn, AllocError>
    requires good { rule.bad_value_place (operations history.now) pair ≡ None }
    ensures txn { IfOk result
        (IsTxnOf (operations history.now) tables.new.keys tables.new.elements pair) }
    ensures grows { OnOk result (TablesGrow tables.old tables.new) }
{
    let Some(said) = txn_said(alloc, history, pair)? else {
        unreachable!()
    };
    let ops = number_ops(alloc, tables, &said)?;
    Ok(Txn {
        invoked: pair.invoke,
        completed: pair.outcome,
        outcome: txn_outcome(history, pair),
        ops: MicroOps::of(ops),
    })
}

/// The transactions of pairs that have no bad value, in order.
pub(crate) fn txns_of(
    alloc: Global,
    tables: &mut Tables,
    history: &[Op],
    pairs: &[Pair],
) -> Result<Vec<Txn>, AllocError>
    requires good { All (λ pair. rule.bad_value_place (operations history.now) pair ≡ None) pairs.now }
    ensures { IfOk result (λ txns. AllZip
        (IsTxnOf (operations history.now) tables.new.keys tables.new.elements) pairs.now txns.items) }
{
    let mut txns = Vec::with_capacity(alloc, pairs.len())?;
    for pair in pairs {
        txns.push(txn_of(alloc, tables, history, *pair)?)?;
    }
    Ok(txns)
}

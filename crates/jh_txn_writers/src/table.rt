//! A table of who appends each element, made in one pass. `specs/Writers.antt` says what it holds.

ghost use Rattle.std.specs.Prelude.{◌≡◌, ◌+◌, ◌<◌, ℕ, [], None, Some, length, replicate};
ghost use Rattle.std.specs.Prelude.{slice_set, IfOk, IfSome};
ghost use Rattle.std.specs.List.{All};
ghost use Rattle.jh_txn.specs.Transactions.{appended, ops_at, IsKeyBelow};
ghost use Rattle.jh_txn_writers.specs.Numbers.{AreNumbersOf};
ghost use Rattle.jh_txn_writers.specs.TableInside.{AreEntriesBefore, AreEntriesUpTo, AreNoneLast};
ghost use Rattle.jh_txn_writers.specs.TableInside.{IsEnterable};
ghost use Rattle.jh_txn_writers.specs.TableInside.{last_at, last_behind, last_without};
ghost use Rattle.jh_txn_writers.specs.TableInside.{table_behind, table_with, with_next};
ghost use Rattle.jh_txn_writers.specs.Writers.{AreWriters};

use crate::writer::Writer;
use jh_txn::{MicroOp, Txn};
use std::alloc::{AllocError, Global};

/// A table that is being made.
#[derive(Debug, Drop)]
pub(crate) struct Entries {
    /// For each element its append, among those that were gone through.
    table: Vec<Option<Writer>>,
    /// For each key the last element that the transaction at hand appended to it.
    last: Vec<Option<usize>>,
}

/// Who appends each element below `elements`: at the index of an element its append, if there is one.
///
/// All keys are below `keys` and all elements below `elements`, and each element is appended at most
/// once, to one key.
///
/// Errors: where there is no memory for the table.
///
/// Takes time linear in the keys, the elements, the transactions and their micro-operations, and
/// memory linear in the keys and the elements.
pub fn writers_of(
    alloc: Global,
    txns: &[Txn],
    keys: usize,
    elements: usize,
) -> Result<Vec<Option<Writer>>, AllocError>
    requires { AreNumbersOf txns.now keys elements }
    ensures { IfOk result (λ table. AreWriters txns.now elements table.items) }
{
    let mut entries = no_entries(alloc, keys, elements)?;
    for place in 0..txns.len() {
        enter_transaction(&mut entries, txns, place);
    }
    Ok(entries.table)
}

/// No entry for any element, and no last element of any key.
fn no_entries(alloc: Global, keys: usize, elements: usize) -> Result<Entries, AllocError>
    ensures table { IfOk result (λ entries. entries.table.items ≡ replicate elements None) }
    ensures last { IfOk result (λ entries. entries.last.items ≡ replicate keys None) }
{
    let table = vec![in alloc; None; elements]?;
    let last = vec![in alloc; None; keys]?;
    Ok(Entries { table, last })
}

/// Enters what the transaction at a place appends.
fn enter_transaction(entries: &mut Entries, txns: &[Txn], place: usize)
    requires numbered { AreNumbersOf txns.now (length entries.old.last.items) (length entries.old.table.items) }
    requires place { place < length txns.now }
    requires before { AreEntriesBefore txns.now place entries.old }
    ensures after { AreEntriesBefore txns.now (place + 1) entries.new }
    ensures keys { length entries.new.last.items ≡ length entries.old.last.items }
    ensures elements { length entries.new.table.items ≡ length entries.old.table.items }
{
    enter_appends(entries, txns, place);
    forget(entries, ops_of(txns, place));
}

/// The micro-operations of the transaction at a place.
fn ops_of(txns: &[Txn], place: usize) -> &[MicroOp]
    requires { place < length txns.now }
    ensures { result.now ≡ ops_at txns.now place }
{
    txns[place].ops.as_slice()
}

/// Enters each append of the transaction at a place, in order.
fn enter_appends(entries: &mut Entries, txns: &[Txn], place: usize)
    requires numbered { AreNumbersOf txns.now (length entries.old.last.items) (length entries.old.table.items) }
    requires place { place < length txns.now }
    requires before { AreEntriesUpTo txns.now place 0 entries.old }
    ensures after { AreEntriesUpTo txns.now place (length (ops_at txns.now place)) entries.new }
    ensures keys { length entries.new.last.items ≡ length entries.old.last.items }
    ensures elements { length entries.new.table.items ≡ length entries.old.table.items }
{
    for op in ops_of(txns, place) {
        enter_op(entries, place, op);
    }
}

/// Enters a micro-operation, if it is an append.
fn enter_op(entries: &mut Entries, place: usize, op: &MicroOp)
    requires { IsEnterable entries.old.table.items entries.old.last.items op.now }
    ensures table { entries.new.table.items
        ≡ table_behind entries.old.table.items entries.old.last.items place op.now }
    ensures last { entries.new.last.items ≡ last_behind entries.old.last.items op.now }
{
    match op {
        MicroOp::Append { key, element } => enter(entries, place, *key, *element),
        MicroOp::Read { .. } => {}
    }
}

/// Enters an append: behind the last one of its key, which gets it as its next one.
fn enter(entries: &mut Entries, place: usize, key: usize, element: usize)
    requires key { key < length entries.old.last.items }
    requires element { element < length entries.old.table.items }
    requires previous { IfSome (last_at entries.old.last.items key)
        (λ other. other < length entries.old.table.items) }
    ensures table { entries.new.table.items ≡ table_with entries.old.table.items place key element
        (last_at entries.old.last.items key) }
    ensures last { entries.new.last.items ≡ slice_set entries.old.last.items key (Some element) }
{
    let previous = entries.last[key];
    if let Some(other) = previous {
        set_next(entries, other, element);
    }
    entries.table[element] = Some(Writer {
        key,
        place,
        previous,
        next: None,
    });
    entries.last[key] = Some(element);
}

/// Sets what is appended just behind an element.
fn set_next(entries: &mut Entries, element: usize, next: usize)
    requires { element < length entries.old.table.items }
    ensures table { entries.new.table.items ≡ with_next entries.old.table.items element next }
    ensures last { entries.new.last.items ≡ entries.old.last.items }
{
    entries.table[element] = entries.table[element].map(|writer| Writer {
        next: Some(next),
        ..writer
    });
}

/// Forgets the last elements of a transaction, by its micro-operations.
fn forget(entries: &mut Entries, ops: &[MicroOp])
    requires last { (key : ℕ) → appended key ops.now ≡ []
        → last_at entries.old.last.items key ≡ None }
    requires keys { All (IsKeyBelow (length entries.old.last.items)) ops.now }
    ensures last { AreNoneLast entries.new.last.items }
    ensures keys { length entries.new.last.items ≡ length entries.old.last.items }
    ensures table { entries.new.table.items ≡ entries.old.table.items }
{
    for op in ops {
        forget_op(entries, op);
    }
}

/// Forgets the last element of the key of an append.
fn forget_op(entries: &mut Entries, op: &MicroOp)
    requires { IsKeyBelow (length entries.old.last.items) op.now }
    ensures last { entries.new.last.items ≡ last_without entries.old.last.items op.now }
    ensures table { entries.new.table.items ≡ entries.old.table.items }
{
    match op {
        MicroOp::Append { key, .. } => entries.last[*key] = None,
        MicroOp::Read { .. } => {}
    }
}

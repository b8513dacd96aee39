//! Appends that were there before. Each append is noted in tables of numbers, and one that is in them already is a
//! repeated one: `specs/ReadingInside.antt` says what the tables have then.

ghost use Rattle.std.specs.Prelude.{◌≡◌, ◌∷◌, [], IfOk};
ghost use Rattle.jh_edn.specs.View.{view};
ghost use Rattle.jh_ops.specs.Operation.{operations};
ghost use Rattle.jh_txn_histories.specs.Histories.{IsRepeatedAt};
ghost use Rattle.jh_txn_histories.specs.ReadingInside.{IsLeastPlace, NotesAppends, NotesPair, written};
ghost use Rattle.jh_txn_histories.specs.ReadingInside.{written_ops};
ghost use Rattle.jh_txn_histories.specs.Written.{appends_of};

use crate::asked::txn_asked;
use crate::least::lesser;
use crate::tables::Tables;
use crate::written::WrittenOp;
use jh_edn::Value;
use jh_ops::{Op, Pair};
use std::alloc::{AllocError, Global};

/// Notes an append; whether it was there before.
fn note_append(
    alloc: Global,
    tables: &mut Tables,
    key: &Value,
    element: &Value,
) -> Result<bool, AllocError>
    ensures { IfOk result
        (NotesAppends tables.old tables.new ((view key.now, view element.now) ∷ [])) }
{
    let key = tables.keys.number(alloc, 0, key)?;
    let count = tables.elements.len();
    tables.elements.number(alloc, key, element)?;
    Ok(tables.elements.len() == count)
}

/// Notes a micro-operation, if it is an append; whether that was there before.
fn note_op(alloc: Global, tables: &mut Tables, op: &WrittenOp) -> Result<bool, AllocError>
    ensures { IfOk result (NotesAppends tables.old tables.new (appends_of (written op.now ∷ []))) }
{
    match op {
        WrittenOp::Append { key, element } => note_append(alloc, tables, key, element),
        WrittenOp::Read { .. } => Ok(false),
    }
}

/// Notes the appends among micro-operations; whether one was there before.
fn note_ops(alloc: Global, tables: &mut Tables, ops: &[WrittenOp]) -> Result<bool, AllocError>
    ensures { IfOk result (NotesAppends tables.old tables.new (appends_of (written_ops ops.now))) }
{
    let mut again = false;
    for op in ops {
        again |= note_op(alloc, tables, op)?;
    }
    Ok(again)
}

/// Notes the appends of a pair; its place, where one of them was there before.
fn note_pair(
    alloc: Global,
    tables: &mut Tables,
    history: &[Op],
    pair: Pair,
) -> Result<Option<usize>, AllocError>
    ensures { IfOk result (NotesPair (operations history.now) tables.old tables.new pair) }
{
    let Some(asked) = txn_asked(alloc, history, pair)? else {
        return Ok(None);
    };
    if note_ops(alloc, tables, &asked)? {
        Ok(Some(pair.invoke))
    } else {
        Ok(None)
    }
}

/// The least place of a pair that appends something again, if there is one.
pub(crate) fn least_repeated(
    alloc: Global,
    history: &[Op],
    pairs: &[Pair],
) -> Result<Option<usize>, AllocError>
    ensures { IfOk result (IsLeastPlace (IsRepeatedAt (operations history.now) pairs.now)) }
{
    let mut tables = Tables::new(alloc);
    let mut least = None;
    for pair in pairs {
        least = lesser(least, note_pair(alloc, &mut tables, history, *pair)?);
    }
    Ok(least)
}

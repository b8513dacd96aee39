//! Whether a register whose values are written once each is linearizable. The files below, in the
//! order in which they are asked: `writers.rt`, `marks.rt`, `behind.rt`, `lists.rt`, `keys.rt`,
//! `flat.rt`, `late.rt`, `nils.rt`.

ghost use Rattle.std.specs.Prelude.{◌≡◌, ◌+◌, IfOk, length};
ghost use Rattle.jh_unique.specs.Judged.{IsUniqueVerdict};
ghost use Rattle.jh_unique.specs.LayoutInside.{IsAnswerOfOnce};
ghost use Rattle.jh_unique.specs.Lists.{HaveLists};
ghost use Rattle.jh_linear.specs.Order.{EndAfterInvoked};
ghost use Rattle.jh_unique.specs.Sorted.{IsTurnOfOps};
ghost use Rattle.jh_unique.specs.Steps.{AreStandingMarks};
ghost use Rattle.jh_unique.specs.Tables.{KnowsOps, IsWriterTable};
ghost use Rattle.jh_unique.specs.Unique.{WriteOnce};

use crate::behind::{Known, Nexts, nexts_of, reads_by_value};
use crate::flat::{find_missing, laid_out};
use crate::late::find_late;
use crate::lists::lists_of;
use crate::marks::marks_of;
use crate::nils::with_reads;
use crate::sorted::turn_of;
use crate::verdict::{UniqueReason, UniqueVerdict};
use crate::writers::{Writers, writers_of};
use jh_linear::{Linearization, RegOp};
use std::alloc::{AllocError, Global};
use std::collections::BTreeMap;

/// The answer, from the clusters.
fn judge_lists(
    alloc: Global,
    ops: &[RegOp],
    initial: Option<i64>,
    turn: &[usize],
    there: &[bool],
    lists: &[Vec<usize>],
) -> Result<UniqueVerdict, AllocError>
    requires once { WriteOnce ops.now initial }
    requires ends { EndAfterInvoked ops.now }
    requires turn { IsTurnOfOps ops.now turn.now }
    requires there { AreStandingMarks ops.now there.now }
    requires lists { HaveLists ops.now initial lists.now }
    ensures { IfOk result (IsAnswerOfOnce ops.now initial) }
{
    let flat = laid_out(alloc, ops, lists)?;
    let missing = find_missing(alloc, ops, there, flat.as_slice())?;
    if let Some(number) = missing {
        return Ok(UniqueVerdict::Invalid(UniqueReason::Nowhere(number)));
    }
    if let Some((first, second)) = find_late(ops, flat.as_slice()) {
        return Ok(UniqueVerdict::Invalid(UniqueReason::Behind(first, second)));
    }
    let order = with_reads(alloc, ops, initial, turn, flat.as_slice())?;
    Ok(UniqueVerdict::Valid(Linearization::of(order)))
}

/// The answer, from what must stand.
fn judge_known(
    alloc: Global,
    ops: &[RegOp],
    initial: Option<i64>,
    turn: &[usize],
    known: &Known,
) -> Result<UniqueVerdict, AllocError>
    requires once { WriteOnce ops.now initial }
    requires ends { EndAfterInvoked ops.now }
    requires turn { IsTurnOfOps ops.now turn.now }
    requires known { KnowsOps ops.now known.now }
    ensures { IfOk result (IsAnswerOfOnce ops.now initial) }
{
    let lists = lists_of(alloc, ops, initial, known)?;
    judge_lists(alloc, ops, initial, turn, &known.there, &lists)
}

/// The answer where each value is written once.
fn judge_once(
    alloc: Global,
    ops: &[RegOp],
    initial: Option<i64>,
    writers: &BTreeMap<i64, usize>,
) -> Result<UniqueVerdict, AllocError>
    requires once { WriteOnce ops.now initial }
    requires ends { EndAfterInvoked ops.now }
    requires writers { IsWriterTable ops.now writers.now }
    ensures { IfOk result (IsAnswerOfOnce ops.now initial) }
{
    let there = marks_of(alloc, ops, writers)?;
    match nexts_of(alloc, ops, &there)? {
        Nexts::Twice(first, second) => {
            Ok(UniqueVerdict::Invalid(UniqueReason::FromOne(first, second)))
        }
        Nexts::Once(nexts) => {
            let turn = turn_of(alloc, ops)?;
            let reads = reads_by_value(alloc, ops, &there, &turn)?;
            let known = Known {
                there,
                reads,
                nexts,
            };
            judge_known(alloc, ops, initial, &turn, &known)
        }
    }
}

/// Whether the operations of a register with this initial value are linearizable: an order, or the
/// reason why there is none.
///
/// Each value is to be written by one operation at most, and the initial one by none: else the
/// verdict names two operations that write one value, or one that writes the initial value.
/// Operations that failed do not count. Operations are given in any order, and go by their numbers
/// in the list. Each one has to end after its invocation, as those do that `reg_ops` finds.
///
/// That this can be decided is due to Gibbons and Korach, "Testing shared memories" (SIAM J.
/// Comput. 26, 1997). Compare-and-set and operations of unknown outcome are this project's own.
///
/// Errors: out of memory.
///
/// Takes time in the order of n log n for n operations, and memory linear in them.
pub fn judge_unique(
    alloc: Global,
    ops: &[RegOp],
    initial: Option<i64>,
) -> Result<UniqueVerdict, AllocError>
    requires ends { EndAfterInvoked ops.now }
    ensures { IfOk result (IsUniqueVerdict ops.now initial) }
{
    let writers = writers_of(alloc, ops, initial)?;
    match writers {
        Writers::Twice(first, second) => Ok(UniqueVerdict::Repeated(first, second)),
        Writers::Initial(number) => Ok(UniqueVerdict::WritesInitial(number)),
        Writers::Once(writers) => judge_once(alloc, ops, initial, &writers),
    }
}

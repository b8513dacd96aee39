//! Clusters, one after another.

ghost use Rattle.std.specs.Prelude.{◌≡◌, ◌≢◌, ◌<◌, ◌+◌, ◌↔◌, ℤ, Option, None, IfOk, IsTrue, length};
ghost use Rattle.std.specs.List.{All, flat_map};
ghost use Rattle.jh_unique.specs.LayoutInside.{IsLaidOut, IsMissingFrom};
ghost use Rattle.jh_unique.specs.Lists.{AreLists, members_in};
ghost use Rattle.jh_unique.specs.Marks.{AreMarksOfList, IsMarkedThere};
ghost use Rattle.jh_unique.specs.Steps.{AreStandingMarks};
ghost use Rattle.jh_unique.specs.Unique.{reg_call_at};
ghost use Rattle.jh_linear.specs.declared.register.RegCall.TheVariants.{Read};

use crate::keys::clusters_of;
use crate::marks::mark;
use jh_linear::{RegCall, RegOp};
use std::alloc::{AllocError, Global};

/// The operations of the clusters, in this order.
fn flat_of(
    alloc: Global,
    lists: &[Vec<usize>],
    clusters: &[usize],
) -> Result<Vec<usize>, AllocError>
    requires { All (λ cluster. cluster < length lists.now) clusters.now }
    ensures { IfOk result (λ flat. flat.items ≡ flat_map (members_in lists.now) clusters.now) }
{
    let mut flat = Vec::new(alloc);
    for cluster in clusters {
        flat.extend_from_slice(lists[*cluster].as_slice())?;
    }
    Ok(flat)
}

/// All that is in clusters, in an order of the clusters.
pub(crate) fn laid_out(
    alloc: Global,
    ops: &[RegOp],
    lists: &[Vec<usize>],
) -> Result<Vec<usize>, AllocError>
    requires { length lists.now ≡ length ops.now + 1 }
    ensures { IfOk result (λ flat. (initial : Option ℤ) → AreLists ops.now initial lists.now
        → IsLaidOut ops.now initial (members_in lists.now) flat.items) }
{
    let clusters = clusters_of(alloc, ops, lists)?;
    let flat = flat_of(alloc, lists, clusters.as_slice())?;
    Ok(flat)
}

/// Marks of what is in a list.
fn marks_in(alloc: Global, count: usize, flat: &[usize]) -> Result<Vec<bool>, AllocError>
    requires { All (λ number. number < count) flat.now }
    ensures { IfOk result (λ marks. AreMarksOfList count flat.now marks.items) }
{
    let mut marks = vec![in alloc; false; count]?;
    for number in flat {
        mark(&mut marks, *number);
    }
    Ok(marks)
}

/// Whether a call is a read of nil.
pub(crate) fn is_nil(call: RegCall) -> bool
    ensures { IsTrue result ↔ (call ≡ Read None) }
{
    match call {
        RegCall::Read(None) => true,
        _ => false,
    }
}

/// Whether an operation must stand, and is missing though it is no read of nil.
fn is_missing(ops: &[RegOp], there: &[bool], marks: &[bool], number: usize) -> bool
    requires there { length there.now ≡ length ops.now }
    requires marks { length marks.now ≡ length ops.now }
    requires number { number < length ops.now }
    ensures { IsTrue result ↔ (IsMarkedThere there.now number
        × (reg_call_at ops.now number ≢ Read None)
        × (IsMarkedThere marks.now number → ⊥)) }
{
    there[number] && !is_nil(ops[number].call) && !marks[number]
}

/// An operation that must stand, and is missing though it is no read of nil.
pub(crate) fn find_missing(
    alloc: Global,
    ops: &[RegOp],
    there: &[bool],
    flat: &[usize],
) -> Result<Option<usize>, AllocError>
    requires there { AreStandingMarks ops.now there.now }
    requires low { All (λ number. number < length ops.now) flat.now }
    ensures { IfOk result (IsMissingFrom ops.now flat.now) }
{
    let marks = marks_in(alloc, ops.len(), flat)?;
    for number in 0..ops.len() {
        if is_missing(ops, there, &marks, number) {
            return Ok(Some(number));
        }
    }
    Ok(None)
}

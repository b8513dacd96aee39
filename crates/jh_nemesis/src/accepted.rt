//! The accepted steps that a nemesis keeps, over which undo and redo walk, and the stamps of the
//! faults that they make active. The stamp of a fault is the index of its begin among these steps.
//! `specs/AcceptedInside.antt` says what a step makes of the active stamps.

ghost use Rattle.std.specs.Prelude.{◌≡◌, ◌==◌, ◌≤◌, ◌<◌, ◌++◌, ◌∷◌, [], OnErr, OnOk, IfSome};
ghost use Rattle.std.specs.Prelude.{◌≢◌, filter, insert, is_some, length, map, nat_lt, not, take};
ghost use Rattle.std.specs.Prelude.{IfOk};
ghost use Rattle.std.specs.List.{Contains, position_or_len};
ghost use Rattle.jh_nemesis.specs.State as spec;
ghost use Rattle.jh_nemesis.specs.AcceptedInside.{faults_at, begun_fault, stamps_after};
ghost use Rattle.jh_nemesis.specs.AcceptedInside.{stamps_before, accepted_at, AreStamps, IsBegin};
ghost use Rattle.jh_nemesis.specs.AcceptedInside.{stamps_changed};
ghost use Rattle.jh_nemesis.specs.Steps.{max_active};

use crate::steps::MAX_ACTIVE;
use arrayvec::ArrayVec;
use jh_env::Fault;
use std::alloc::{AllocError, Global};

/// Stamps of active faults, ascending.
pub type Stamps = ArrayVec<usize, MAX_ACTIVE>;

/// An accepted step, with what it takes to undo it and to redo it.
#[derive(Debug, Drop)]
pub enum AcceptedStep {
    /// The fault was begun under the id.
    Begun(u32, Fault),
    /// The fault of the stamp was withdrawn.
    Withdrawn(usize),
    /// The faults of the stamps, which were all that were active, were withdrawn.
    WithdrawnAll(Vec<usize>),
}

/// Puts a step at the cursor, in place of all steps from there on. Memory is taken first: where it
/// is refused, all steps stay.
pub fn put_at(
    accepted: &mut Vec<AcceptedStep>,
    cursor: usize,
    step: AcceptedStep,
) -> Result<(), AllocError>
    requires { cursor ≤ length accepted.old.items }
    ensures ok { OnOk result (accepted.new.items ≡ take cursor accepted.old.items ++ step ∷ []) }
    ensures err { OnErr result (accepted.new.items ≡ accepted.old.items) }
{
    accepted.reserve(1)?;
    accepted.truncate(cursor);
    accepted.push_reserved(step);
    Ok(())
}

/// Takes a stamp out.
fn take_out(active: &mut Stamps, stamp: usize)
    ensures { active.new.items ≡ filter (λ other. not (other == stamp)) active.old.items }
{
    active.retain(|other| *other != stamp);
}

/// Puts a stamp back, before those that are higher.
fn put_back(active: &mut Stamps, stamp: usize)
    requires { length active.old.items < max_active }
    ensures { active.new.items
        ≡ insert active.old.items (position_or_len (nat_lt stamp) active.old.items) stamp }
{
    let higher = active.iter().position(|other| *other > stamp);
    active.insert(higher.unwrap_or(active.len()), stamp);
}

/// Makes the stamps active that are in the list.
fn put_all(active: &mut Stamps, stamps: &[usize])
    requires { length stamps.now ≤ max_active }
    ensures { active.new.items ≡ stamps.now }
{
    active.clear();
    let _ = active.try_extend_from_slice(stamps);
}

/// Changes the active stamps as the step at this index does.
pub fn apply_to_active(accepted: &[AcceptedStep], index: usize, active: &mut Stamps)
    requires known { index < length accepted.now }
    requires room { length (stamps_after index (accepted_at accepted.now index) active.old.items)
        ≤ max_active }
    ensures { active.new.items ≡ stamps_after index (accepted_at accepted.now index) active.old.items }
{
    match &accepted[index] {
        AcceptedStep::Begun(_, _) => active.push(index),
        AcceptedStep::Withdrawn(stamp) => take_out(active, *stamp),
        AcceptedStep::WithdrawnAll(_) => active.clear(),
    }
}

/// Changes the active stamps back to what they were before the step at this index.
pub fn revert_in_active(accepted: &[AcceptedStep], index: usize, active: &mut Stamps)
    requires known { index < length accepted.now }
    requires room { length (stamps_before (accepted_at accepted.now index) active.old.items)
        ≤ max_active }
    ensures { active.new.items ≡ stamps_before (accepted_at accepted.now index) active.old.items }
{
    match &accepted[index] {
        AcceptedStep::Begun(_, _) => {
            let _ = active.pop();
        }
        AcceptedStep::Withdrawn(stamp) => put_back(active, *stamp),
        AcceptedStep::WithdrawnAll(stamps) => put_all(active, stamps),
    }
}

/// Whether the step begins a fault under the id.
fn is_begin_of(step: &AcceptedStep, id: u32) -> bool
    requires { IsBegin step.now }
    ensures { result ≡ spec.has_id id (begun_fault step.now) }
{
    match step {
        AcceptedStep::Begun(other, _) => *other == id,
        _ => false,
    }
}

/// The stamp of the fault of the id, of these stamps.
pub fn stamp_of(accepted: &[AcceptedStep], stamps: &[usize], id: u32) -> Option<usize>
    requires { AreStamps accepted.now stamps.now }
    ensures variant { is_some result ≡ spec.is_active (faults_at accepted.now stamps.now) id }
    ensures stamp { IfSome result
        (λ stamp. Contains stamps.now stamp
        × ((begun_fault (accepted_at accepted.now stamp)).0 ≡ id)) }
{
    for stamp in stamps {
        if is_begin_of(&accepted[*stamp], id) {
            return Some(*stamp);
        }
    }
    None
}

/// The faults of these stamps.
pub fn faults_of<'a>(
    alloc: Global,
    accepted: &'a [AcceptedStep],
    stamps: &[usize],
) -> Result<Vec<&'a Fault>, AllocError>
    requires { AreStamps accepted.now stamps.now }
    ensures faults { IfOk result
        (λ faults. map (λ f. f.now) faults.items
        ≡ spec.faults_in (faults_at accepted.now stamps.now)) }
    ensures memory { OnErr result (spec.faults_in (faults_at accepted.now stamps.now) ≢ []) }
{
    let mut faults = Vec::new(alloc);
    for stamp in stamps {
        if let AcceptedStep::Begun(_, fault) = &accepted[*stamp] {
            faults.push(fault)?;
        }
    }
    Ok(faults)
}

/// The faults that the step at this index begins or ends.
pub fn changed_at<'a>(
    alloc: Global,
    accepted: &'a [AcceptedStep],
    index: usize,
) -> Result<Vec<&'a Fault>, AllocError>
    requires known { index < length accepted.now }
    requires begins { AreStamps accepted.now (stamps_changed index (accepted_at accepted.now index)) }
    ensures faults { IfOk result
        (λ faults. map (λ f. f.now) faults.items
        ≡ spec.faults_in
        (faults_at accepted.now (stamps_changed index (accepted_at accepted.now index)))) }
    ensures memory { OnErr result
        (spec.faults_in
        (faults_at accepted.now (stamps_changed index (accepted_at accepted.now index))) ≢ []) }
{
    match &accepted[index] {
        AcceptedStep::Begun(_, _) => faults_of(alloc, accepted, &[index]),
        AcceptedStep::Withdrawn(stamp) => faults_of(alloc, accepted, &[*stamp]),
        AcceptedStep::WithdrawnAll(stamps) => faults_of(alloc, accepted, stamps),
    }
}

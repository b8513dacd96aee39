//! Which transactions have started and committed, point by point.

ghost use Rattle.std.specs.Prelude.{◌≡◌, ◌<◌, ◌↔◌, ℕ, length, IsTrue, IfOk, Some, []};
ghost use Rattle.std.specs.Prelude.{slice_get, slice_index_or, set};
ghost use Rattle.jh_txn.specs.SnapshotCheckInside.{ArePointsInTurn, ArePhases, ArePlaced};
ghost use Rattle.jh_txn.specs.SnapshotCheckInside.{IsPhaseSettled};
ghost use Rattle.jh_txn.specs.SnapshotCheckInside.{place_of_point, phase_before, phase_behind};
ghost use Rattle.jh_txn.specs.declared.phases.Phase.TheVariants.{New, Open, Over};

use crate::order_check::{is_done, is_possible};
use crate::txn::{Point, Txn};
use std::alloc::{AllocError, Global};

/// How far a transaction is.
#[derive(Clone, Copy)]
pub(crate) enum Phase {
    /// It did not start yet.
    New,
    /// It started, and did not commit yet.
    Open,
    /// It committed.
    Over,
}

/// Starts a transaction that is new; whether it was.
fn start(phases: &mut [Phase], place: usize) -> bool
    ensures new { IsTrue result ↔ (slice_get phases.old place ≡ Some New) }
    ensures started { IsTrue result → phases.new ≡ set phases.old place Open }
{
    match phases.get(place) {
        Some(Phase::New) => {
            phases[place] = Phase::Open;
            true
        }
        _ => false,
    }
}

/// Commits a transaction that is open; whether it was.
fn commit(phases: &mut [Phase], place: usize) -> bool
    ensures open { IsTrue result ↔ (slice_get phases.old place ≡ Some Open) }
    ensures committed { IsTrue result → phases.new ≡ set phases.old place Over }
{
    match phases.get(place) {
        Some(Phase::Open) => {
            phases[place] = Phase::Over;
            true
        }
        _ => false,
    }
}

/// Passes a point, where its transaction is in the phase before it; whether it is.
fn pass(phases: &mut [Phase], point: Point) -> bool
    ensures fits { IsTrue result
        ↔ (slice_get phases.old (place_of_point point) ≡ Some (phase_before point)) }
    ensures passed { IsTrue result
        → phases.new ≡ set phases.old (place_of_point point) (phase_behind point) }
{
    match point {
        Point::Start(place) => start(phases, place),
        Point::Commit(place) => commit(phases, place),
    }
}

/// Passes points as long as the transaction of each is in the phase before it; whether all are.
fn pass_all(phases: &mut [Phase], points: &[Point]) -> bool
    requires new { ArePhases (length phases.old) [] phases.old }
    ensures turn { IsTrue result ↔ ArePointsInTurn (length phases.old) points.now }
    ensures behind { IsTrue result → ArePhases (length phases.old) points.now phases.new }
{
    for point in points {
        if !pass(phases, *point) {
            return false;
        }
    }
    true
}

/// Whether a transaction that ended in this phase is as it has to be: done and committed, or not
/// done and not there, or unsure and either of both.
fn is_settled(txns: &[Txn], place: usize, phase: Phase) -> bool
    ensures { IsTrue result ↔ IsPhaseSettled txns.now place phase }
{
    match phase {
        Phase::New => !is_done(txns, place),
        Phase::Open => false,
        Phase::Over => is_possible(txns, place),
    }
}

/// Whether each transaction is as it has to be.
fn are_settled(txns: &[Txn], phases: &[Phase]) -> bool
    requires { length phases.now ≡ length txns.now }
    ensures { IsTrue result ↔ ((place : ℕ) → place < length txns.now
        → IsPhaseSettled txns.now place (slice_index_or phases.now place New)) }
{
    for place in 0..txns.len() {
        if !is_settled(txns, place, phases[place]) {
            return false;
        }
    }
    true
}

/// Whether points that all transactions are new before place each transaction as it has to be.
fn are_settled_behind(phases: &mut [Phase], txns: &[Txn], points: &[Point]) -> bool
    requires count { length phases.old ≡ length txns.now }
    requires new { ArePhases (length phases.old) [] phases.old }
    ensures { IsTrue result ↔ ArePlaced txns.now points.now }
{
    if !pass_all(phases, points) {
        return false;
    }
    are_settled(txns, phases)
}

/// Whether these are the points of distinct transactions, each done one among them and none that
/// failed.
pub(crate) fn are_placed(alloc: Global, txns: &[Txn], points: &[Point]) -> Result<bool, AllocError>
    ensures { IfOk result (λ yes. IsTrue yes ↔ ArePlaced txns.now points.now) }
{
    let mut phases = vec![in alloc; Phase::New; txns.len()]?;
    Ok(are_settled_behind(&mut phases, txns, points))
}

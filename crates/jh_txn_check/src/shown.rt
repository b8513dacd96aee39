//! What a finding shows of a history. `specs/Found.antt` says what that is.

ghost use Rattle.std.specs.Prelude.{◌≡◌, ◌<◌, length, map, IfOk};
ghost use Rattle.std.specs.List.{All};
ghost use Rattle.jh_ops.specs.Operation.{operations};
ghost use Rattle.jh_ops.specs.Pairing.{IsPairWithin};
ghost use Rattle.jh_txn.specs.SnapshotCheckInside.{place_of_point};
ghost use Rattle.jh_txn_check.specs.Found.{AreShown};
ghost use Rattle.jh_txn_check.specs.FoundInside.{IsBadReadFound, IsCycleFound};
ghost use Rattle.jh_txn_findings.specs.Found.{AreStepsNumbered};

use jh_check::operations_of;
use jh_ops::{Op, Pair};
use jh_txn::{Point, Step};
use jh_txn_findings::{TxnFinding, found_steps};
use jh_txn_histories::Transactions;
use jh_txn_reads::BadReadAt;
use std::alloc::{AllocError, Global};

/// The finding of a bad read.
pub(crate) fn bad_read_found(
    alloc: Global,
    history: &[Op],
    pairs: &[Pair],
    explain: bool,
    at: BadReadAt,
) -> Result<TxnFinding, AllocError>
    requires within { All (IsPairWithin (length history.now)) pairs.now }
    requires there { at.place < length pairs.now }
    ensures { IfOk result (IsBadReadFound (operations history.now) pairs.now explain at) }
{
    let operations = shown_at(alloc, history, pairs, explain, &[at.place])?;
    Ok(TxnFinding::BadRead {
        place: at.place,
        index: at.index,
        kind: at.kind,
        operations,
    })
}

/// The finding of a cycle.
pub(crate) fn cycle_found(
    alloc: Global,
    history: &[Op],
    pairs: &[Pair],
    explain: bool,
    read: &Transactions,
    steps: &[Step],
) -> Result<TxnFinding, AllocError>
    requires within { All (IsPairWithin (length history.now)) pairs.now }
    requires there { All (λ place. place < length pairs.now) (map (λ step. step.place) steps.now) }
    requires numbered { AreStepsNumbered (length read.now.keys) (length read.now.elements) steps.now }
    ensures { IfOk result (IsCycleFound (operations history.now) pairs.now explain read.now steps.now) }
{
    let places = places_of(alloc, steps)?;
    let operations = shown_at(alloc, history, pairs, explain, &places)?;
    let steps = found_steps(alloc, &read.keys, &read.elements, steps)?;
    Ok(TxnFinding::Cycle { steps, operations })
}

/// The places of steps.
fn places_of(alloc: Global, steps: &[Step]) -> Result<Vec<usize>, AllocError>
    ensures { IfOk result (λ places. places.items ≡ map (λ step. step.place) steps.now) }
{
    steps.iter().map(|step| step.place).collect(alloc)
}

/// The places of points, one after another.
pub(crate) fn places_of_points(alloc: Global, points: &[Point]) -> Result<Vec<usize>, AllocError>
    ensures { IfOk result (λ places. places.items ≡ map place_of_point points.now) }
{
    points.iter().map(|point| place_of(*point)).collect(alloc)
}

/// The place of the transaction of a point.
fn place_of(point: Point) -> usize
    ensures { result ≡ place_of_point point }
{
    match point {
        Point::Start(place) => place,
        Point::Commit(place) => place,
    }
}

/// The operations of the transactions at these places, where they are to be shown.
fn shown_at(
    alloc: Global,
    history: &[Op],
    pairs: &[Pair],
    explain: bool,
    places: &[usize],
) -> Result<Option<Vec<Op>>, AllocError>
    requires within { All (IsPairWithin (length history.now)) pairs.now }
    requires places { All (λ place. place < length pairs.now) places.now }
    ensures { IfOk result (AreShown (operations history.now) pairs.now explain places.now) }
{
    if explain {
        Ok(Some(operations_of(alloc, history, pairs, places)?))
    } else {
        Ok(None)
    }
}

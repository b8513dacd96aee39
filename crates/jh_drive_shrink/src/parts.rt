//! Parts of the schedule of a test, by the places of their entries. `specs/PartsInside.antt` says what stands
//! at places.

ghost use Rattle.std.specs.Prelude.{◌≡◌, ◌≢◌, ◌<◌, IfOk, MatchBool, length, slice_index};
ghost use Rattle.jh_drive_shrink.specs.DriveShrink.{test_of_part};
ghost use Rattle.jh_drive_shrink.specs.PartsInside.{all_places, part_at, place_numbers, standing_at};

use jh_nemesis::Step;
use jh_simnode::{Entry, Schedule};
use jh_test_parts::{Test, TestEntry};
use std::alloc::{AllocError, Global};

/// All places of the schedule of a test.
pub(crate) fn all_places(alloc: Global, test: &Test) -> Result<Schedule, AllocError>
    ensures { IfOk result (λ places. places ≡ all_places test.now) }
{
    // The answer is not used: this call's contract says that the test can be made.
    let _clients = test.clients();
    let count = test.schedule().len();
    let mut places = Vec::new(alloc);
    for place in 0..count {
        // `jh_shrink` takes entries out of schedules of simulated runs, whose entries are due by
        // calls alone, and never by milliseconds. So an entry there stands for the one at its place
        // here, and its step for nothing.
        places.push(Entry {
            at: place as u32,
            step: Step::Undo,
        })?;
    }
    match Schedule::of(places) {
        Ok(places) => Ok(places),
        Err(_) => unreachable!(),
    }
}

/// The numbers of places.
pub(crate) fn numbers_of(alloc: Global, places: &Schedule) -> Result<Vec<u32>, AllocError>
    ensures { IfOk result (λ numbers. numbers.items ≡ place_numbers places.now) }
{
    places.entries().iter().map(|place| place.at).collect(alloc)
}

/// Whether this place is the next that is named, where so many were found.
fn is_next(places: &[Entry], found: usize, place: usize) -> bool
    ensures { MatchBool result
        ((found < length places.now) × (slice_index (place_numbers places.now) found ≡ place))
        (found < length places.now → slice_index (place_numbers places.now) found ≢ place) }
{
    found < places.len() && places[found].at as usize == place
}

/// The entries that stand at these places.
fn entries_at(
    alloc: Global,
    entries: &[TestEntry],
    places: &[Entry],
) -> Result<Vec<TestEntry>, AllocError>
    ensures { IfOk result
        (λ part. part.items ≡ standing_at 0 entries.now (place_numbers places.now)) }
{
    let mut part = Vec::new(alloc);
    let mut found = 0;
    for place in 0..entries.len() {
        if is_next(places, found, place) {
            part.push(entries[place].copy(alloc)?)?;
            found += 1;
        }
    }
    Ok(part)
}

/// The test with the entries at these places alone.
///
/// Error: memory was refused.
pub(crate) fn test_at(alloc: Global, test: &Test, places: &Schedule) -> Result<Test, AllocError>
    ensures { IfOk result (λ made. made ≡ test_of_part test.now (part_at test.now places.now)) }
{
    // The answer is not used: this call's contract says that the test can be made.
    let _clients = test.clients();
    let part = entries_at(alloc, test.schedule(), places.entries())?;
    test.with_schedule(alloc, part, test.seed())
}

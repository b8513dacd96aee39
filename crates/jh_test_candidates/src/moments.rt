//! When the faults of a candidate begin and end. `specs/Candidates.antt` has the rules.

ghost use Rattle.std.specs.Prelude.{◌≡◌};
ghost use Rattle.jh_test_candidates.specs.Candidates as rule;
ghost use Rattle.jh_test_candidates.specs.CandidatesInside.{IsAfterBeginning, IsWritableWithin};

use jh_random_faults::{Draw, begin_within, end_within, heal_within};
use jh_test_parts::{Test, When};

/// Whether another moment is known to be later than this one.
pub(crate) fn is_due_later(at: When, other: When) -> bool
    ensures { result ≡ rule.is_due_later at other }
{
    match (at, other) {
        (When::Calls(calls), When::Calls(other)) => calls < other,
        (When::Milliseconds(ms), When::Milliseconds(other)) => ms < other,
        _ => false,
    }
}

/// Until when faults begin and end: the time limit of the test, or all of its calls.
fn faults_until(test: &Test) -> When
    ensures until { result ≡ rule.faults_until test.now }
    ensures some { IsAfterBeginning result }
    ensures writable { IsWritableWithin test.now result }
{
    // The answer is not used: this call's contract says that the test can be made.
    let _clients = test.clients();
    match test.time_limit() {
        Some(limit) => When::Milliseconds(limit.max(1)),
        None => When::Calls(test.ops()),
    }
}

/// When a candidate heals, where it does.
pub(crate) fn heal_of(test: &Test) -> When
    ensures at { result ≡ rule.heal_before (rule.faults_until test.now) }
    ensures writable { IsWritableWithin test.now result }
{
    match faults_until(test) {
        When::Calls(calls) => When::Calls(heal_within(calls)),
        When::Milliseconds(ms) => When::Milliseconds(heal_within(ms)),
    }
}

/// When a fault begins.
pub(crate) fn begin_of(test: &Test, draw: Draw) -> When
    ensures at { result ≡ rule.begin_before (rule.faults_until test.now) draw }
    ensures writable { IsWritableWithin test.now result }
{
    match faults_until(test) {
        When::Calls(calls) => When::Calls(begin_within(calls, draw)),
        When::Milliseconds(ms) => When::Milliseconds(begin_within(ms, draw)),
    }
}

/// When it is withdrawn.
pub(crate) fn end_of(test: &Test, draw: Draw) -> When
    ensures at { result ≡ rule.end_before (rule.faults_until test.now) draw }
    ensures writable { IsWritableWithin test.now result }
{
    match faults_until(test) {
        When::Calls(calls) => When::Calls(end_within(calls, draw)),
        When::Milliseconds(ms) => When::Milliseconds(end_within(ms, draw)),
    }
}

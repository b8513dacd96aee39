//! Laws, each the contract of a function that does nothing.

ghost use Rattle.std.specs.Prelude.{◌≡◌};
ghost use Rattle.jh_slots.specs.Events.{SlotLaws};
ghost use Rattle.jh_slots.specs.Sizes.{max_claimed, max_log_rows, row_words};

use crate::answers::{MAX_CLAIMED, MAX_ROWS, ROW_WORDS};

/// The sizes that code can name are the numbers of the definitions.
pub fn limits()
    ensures rows { MAX_ROWS ≡ max_log_rows }
    ensures claimed { MAX_CLAIMED ≡ max_claimed }
    ensures words { ROW_WORDS ≡ row_words }
{}

/// After every list of events of a log's seats, by any of them in any order: a row that was seen
/// keeps its mark for every seat, a publisher has seen its own record, claims are disjoint and lie
/// above what their seats had seen, and two seats that are joined agree. `specs/Events.antt` says
/// it in full.
pub fn slot_laws()
    ensures { SlotLaws }
{}

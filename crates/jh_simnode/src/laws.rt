//! Laws, each the contract of a function that does nothing. `specs/Laws.antt` states those of
//! journals.

ghost use Rattle.std.specs.Prelude.{◌≡◌};
ghost use Rattle.jh_simnode.specs.Limits.{max_entries, max_events, max_rows};
ghost use Rattle.jh_simnode.specs.Laws.{OverlayStands, QuietStays, WithdrawLeaves};
ghost use Rattle.jh_simnode.specs.Laws.{WithdrawAllLeaves, UndoRestoresWorld, RedoRestoresWorld};

use crate::events::MAX_EVENTS;
use crate::plan::MAX_ROWS;
use crate::schedule::MAX_ENTRIES;

/// The limits that code can name are the numbers of the definitions.
pub fn limits()
    ensures events { MAX_EVENTS ≡ max_events }
    ensures entries { MAX_ENTRIES ≡ max_entries }
    ensures rows { MAX_ROWS ≡ max_rows }
{}

/// What holds at every place of every legal journal. The environment is what the active faults make
/// of the starting one; client calls, ticks and refused steps change neither; a withdrawal leaves
/// what the other faults alone make, one of all the start; undo gives back the environment and
/// active faults from before the last change that stands, redo those from before the undo.
pub fn world_laws()
    ensures overlay { OverlayStands }
    ensures quiet { QuietStays }
    ensures withdraw { WithdrawLeaves }
    ensures withdraw_all { WithdrawAllLeaves }
    ensures undo { UndoRestoresWorld }
    ensures redo { RedoRestoresWorld }
{}

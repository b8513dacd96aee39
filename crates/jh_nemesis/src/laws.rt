//! Laws of the steps, each a function that does nothing and whose contract is the law.
//! `specs/Laws.antt` states them, and `specs/WorkLaws.antt` those of what is written.

ghost use Rattle.std.specs.Prelude.{◌≡◌};
ghost use Rattle.jh_nemesis.specs.Steps.{max_active, max_steps};
ghost use Rattle.jh_nemesis.specs.Laws.{
  RefusedStays,
  UndoRestores,
  RedoRestores,
  UndoTakesRedoBack,
  RedosLeadBack,
  ChangeEndsFuture,
  IdsAreOnce,
  WithdrawalLeavesOthers,
  OthersAloneMake,
  WithdrawingAllLeavesStart,
  EnvironmentIsOverlay,
  WithdrawalEndsBegin,
  CutsOfOthersStay,
  CutsOfStartStay,
};
ghost use Rattle.jh_nemesis.specs.WorkLaws.{
  BeginWritesItsFault,
  RedoWritesItsUndo,
  RefusedWritesNothing,
  UndoWritesItsRedo,
  UndoWritesItsStep,
  WithdrawalWritesItsFault,
  WithdrawingAllWritesAll,
};

use crate::steps::{MAX_ACTIVE, MAX_STEPS};

/// The limits that code can name are the numbers of the definitions.
pub fn limits()
    ensures active { MAX_ACTIVE ≡ max_active }
    ensures steps { MAX_STEPS ≡ max_steps }
{}

/// A refused step changes nothing.
pub fn refused_stays()
    ensures { RefusedStays }
{}

/// For every list of steps: the environment of a nemesis (`Nemesis::env`) is what the active faults
/// make of the environment in which it was begun.
pub fn environment_is_overlay()
    ensures { EnvironmentIsOverlay }
{}

/// An undo after an accepted begin or withdrawal gives back the active faults, in their order, over
/// the same start, and so the environment.
pub fn undo_restores()
    ensures { UndoRestores }
{}

/// A redo after an undo gives back what the undo took, and an undo after a redo what the redo took;
/// so do as many redos after undos.
pub fn redo_restores()
    ensures redo { RedoRestores }
    ensures undo { UndoTakesRedoBack }
    ensures many { RedosLeadBack }
{}

/// After an accepted begin or withdrawal nothing can be redone.
pub fn change_ends_future()
    ensures { ChangeEndsFuture }
{}

/// Whatever the steps were, no two active faults have one id.
pub fn ids_are_once()
    ensures { IdsAreOnce }
{}

/// Whatever the steps were, a withdrawal leaves the other faults, in their order, and the
/// environment that these alone make of the start.
pub fn withdrawal_leaves_others()
    ensures faults { WithdrawalLeavesOthers }
    ensures environment { OthersAloneMake }
{}

/// Withdrawing all faults leaves the starting environment.
pub fn withdrawing_all_leaves_start()
    ensures { WithdrawingAllLeavesStart }
{}

/// A fault that is begun and withdrawn leaves the active faults as they were.
pub fn withdrawal_ends_begin()
    ensures { WithdrawalEndsBegin }
{}

/// A link that another active fault cuts is still cut after a withdrawal.
pub fn cuts_of_others_stay()
    ensures { CutsOfOthersStay }
{}

/// A link that the start cuts is cut whatever is active.
pub fn cuts_of_start_stay()
    ensures { CutsOfStartStay }
{}

/// How often a step writes at most (`Nemesis::apply`) is the size of its own faults, whatever else is
/// active: of a begin or a withdrawal the size of its fault, of a withdrawal of all the sum of all sizes,
/// of an undo as often as its step, of a redo as often as its undo, and of a refused step not at all.
pub fn steps_write_their_faults()
    ensures refused { RefusedWritesNothing }
    ensures begin { BeginWritesItsFault }
    ensures withdraw { WithdrawalWritesItsFault }
    ensures all { WithdrawingAllWritesAll }
    ensures undo { UndoWritesItsStep }
    ensures redo { RedoWritesItsUndo }
    ensures back { UndoWritesItsRedo }
{}

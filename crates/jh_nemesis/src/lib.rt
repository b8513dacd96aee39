//! Faults that are begun and withdrawn over an environment, with undo and redo. Whatever the steps
//! were, the environment is what the faults that are active make of its start.
#![tactic(auto)]

mod accepted;
mod effects;
mod laws;
mod nemesis;
mod steps;

pub use laws::{
    change_ends_future, cuts_of_others_stay, cuts_of_start_stay, environment_is_overlay,
    ids_are_once, limits, redo_restores, refused_stays, steps_write_their_faults, undo_restores,
    withdrawal_ends_begin, withdrawal_leaves_others, withdrawing_all_leaves_start,
};
pub use nemesis::Nemesis;
pub use steps::{
    BeginError, MAX_ACTIVE, MAX_STEPS, NothingToRedo, NothingToUndo, Step, StepAnswer, Stopped,
    WithdrawAllError, WithdrawError,
};

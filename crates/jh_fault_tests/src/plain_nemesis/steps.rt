//! Steps that look random.

use crate::plain_nemesis::draws::random_fault;
use crate::plain_nemesis::nemesis::PlainStep;
use jh_test_kit::Random;
use std::alloc::Global;

/// How often each kind of step is drawn.
#[derive(Clone, Copy)]
pub enum Habit {
    /// Many steps back and forth.
    Mixed,
    /// Mostly begins and single withdrawals, so that faults and steps become many.
    Growing,
}

/// A kind of step.
enum PlainStepKind {
    Begin,
    Withdraw,
    WithdrawAll,
    Undo,
    Redo,
}

/// A kind of step, drawn as often as the habit has it.
fn random_kind(random: &mut Random, habit: Habit) -> PlainStepKind {
    match (habit, random.below(32)) {
        (Habit::Mixed, 0..=13) | (Habit::Growing, 0..=15) => PlainStepKind::Begin,
        (Habit::Mixed, 14..=16) | (Habit::Growing, 16..=27) => PlainStepKind::Withdraw,
        (Habit::Mixed, 17) => PlainStepKind::WithdrawAll,
        (Habit::Mixed, 18..=24) | (Habit::Growing, 28 | 29) => PlainStepKind::Undo,
        _ => PlainStepKind::Redo,
    }
}

/// A step over so many nodes, with an id below a bound. None: memory was refused.
pub fn random_step(
    alloc: Global,
    random: &mut Random,
    count: u8,
    ids: u32,
    habit: Habit,
) -> Option<PlainStep> {
    let id = u32::try_from(random.below(u64::from(ids))).unwrap_or(0);
    match random_kind(random, habit) {
        PlainStepKind::Begin => Some(PlainStep::Begin(id, random_fault(alloc, random, count)?)),
        PlainStepKind::Withdraw => Some(PlainStep::Withdraw(id)),
        PlainStepKind::WithdrawAll => Some(PlainStep::WithdrawAll),
        PlainStepKind::Undo => Some(PlainStep::Undo),
        PlainStepKind::Redo => Some(PlainStep::Redo),
    }
}

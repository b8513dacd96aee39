//! What operations need and write.

ghost use Rattle.std.specs.Prelude.{◌≡◌, ◌≢◌, ◌↔◌, ◌<◌, ℕ, ℤ, IsTrue, MatchOption, length};
ghost use Rattle.jh_linear.specs.Order as rule;
ghost use Rattle.jh_unique.specs.Unique.{NeedsValue, WritesAt};
ghost use Rattle.jh_linear.specs.declared.register.Outcome.TheVariants.{Done, Failed};

use jh_linear::{Outcome, RegCall, RegOp};

/// A value that a register holds.
#[derive(Clone, Copy, Debug)]
pub(crate) struct Held {
    pub(crate) int: i64,
}

/// The operation with a number; past the end, one that failed.
pub(crate) fn op_at(ops: &[RegOp], number: usize) -> RegOp
    ensures { result ≡ rule.op_at ops.now number }
{
    match ops.get(number) {
        Some(op) => *op,
        None => RegOp {
            invoked: 0,
            ended: None,
            outcome: Outcome::Failed,
            call: RegCall::Read(None),
        },
    }
}

/// Whether an operation happened.
pub(crate) fn is_done(outcome: Outcome) -> bool
    ensures { IsTrue result ↔ (outcome ≡ Done) }
{
    match outcome {
        Outcome::Done => true,
        _ => false,
    }
}

/// Whether an operation did not fail.
fn is_possible(outcome: Outcome) -> bool
    ensures { IsTrue result ↔ (outcome ≢ Failed) }
{
    match outcome {
        Outcome::Failed => false,
        _ => true,
    }
}

/// The value that a call needs.
pub(crate) fn needed(call: RegCall) -> Option<Held>
    ensures { MatchOption result ((value : ℤ) → NeedsValue call value → ⊥)
        (λ held. NeedsValue call held.int) }
{
    match call {
        RegCall::Read(Some(int)) => Some(Held { int }),
        RegCall::Cas(int, _) => Some(Held { int }),
        _ => None,
    }
}

/// What an operation writes, unless it failed.
pub(crate) fn written(ops: &[RegOp], number: usize) -> Option<Held>
    requires { number < length ops.now }
    ensures { MatchOption result ((value : ℤ) → WritesAt ops.now number value → ⊥)
        (λ held. WritesAt ops.now number held.int) }
{
    if !is_possible(ops[number].outcome) {
        return None;
    }
    match ops[number].call {
        RegCall::Write(int) => Some(Held { int }),
        RegCall::Cas(_, int) => Some(Held { int }),
        RegCall::Read(_) => None,
    }
}

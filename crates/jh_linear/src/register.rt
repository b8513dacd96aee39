//! The operations of a register, as the checker takes them, and the register itself.
//!
//! `specs/Order.antt` says how the register behaves (`Allows`). `specs/SearchInside.antt` says
//! which operations of unknown outcome the search tries (`IsUnsureChange`), and which reads it
//! places at once (`IsSettled`).

ghost use Rattle.std.specs.Prelude.{◌≡◌, ℤ, Option, Some, IfSome, IsTrue, ◌↔◌, true};
ghost use Rattle.jh_linear.specs.CheckingInside.{is_outcome_done};
ghost use Rattle.jh_linear.specs.Order.{Allows};
ghost use Rattle.jh_linear.specs.SearchInside as rule;
ghost use Rattle.jh_linear.specs.SearchInside.{IsSettled, Needs};
ghost use Rattle.jh_linear.specs.Stuck as stuck;
ghost use Rattle.std.specs.Prelude.{false, None};
ghost use Rattle.jh_linear.specs.declared.register.Outcome.TheVariants.{Done};
ghost use Rattle.jh_linear.specs.declared.register.RegCall.TheVariants.{Read};

/// How an operation ended.
#[derive(Clone, Copy, Debug, PartialEq, Eq)]
pub enum Outcome {
    /// It happened, between its invocation and its end.
    Done,
    /// It did not happen.
    Failed,
    /// It is not known whether it happened: it may take effect at any time after its invocation, or
    /// never.
    Unsure,
}

/// What was asked of the register, whose value is an integer or nil.
#[derive(Clone, Copy, Debug, PartialEq, Eq, PartialOrd, Ord)]
pub enum RegCall {
    /// A read that answered this value. `None` stands for any value, as of a read that answered
    /// nil.
    Read(Option<i64>),
    /// A write of this value.
    Write(i64),
    /// A compare-and-set: where the register has the first value, it gets the second.
    Cas(i64, i64),
}

/// One operation: an invocation with its completion, if it has one.
#[derive(Clone, Copy, Debug, PartialEq, Eq)]
pub struct RegOp {
    /// The place of its invocation in the history, `invoke` of a pair of `jh_ops`.
    pub invoked: usize,
    /// The place of its completion there, where it has one: `outcome` of a pair of `jh_ops`.
    pub ended: Option<usize>,
    pub outcome: Outcome,
    pub call: RegCall,
}

/// The place of the history where an operation ended. One that has none ends behind all others;
/// `end_of` of `jh_check` gives the place of its invocation there.
pub fn op_end(op: RegOp) -> usize
    ensures { result ≡ stuck.op_end op }
{
    op.ended.unwrap_or(usize::MAX)
}

/// Whether an operation is known to have happened.
pub(crate) fn is_done(op: RegOp) -> bool
    ensures { result ≡ is_outcome_done op.outcome }
{
    match op.outcome {
        Outcome::Done => true,
        _ => false,
    }
}

/// The value of the register after a call, or nothing where its value before does not allow the
/// call.
pub(crate) fn after(call: RegCall, value: Option<i64>) -> Option<Option<i64>>
    ensures allowed { IfSome result (λ next. Allows call value next) }
    ensures only { (next : Option ℤ) → Allows call value next → result ≡ Some next }
{
    match call {
        RegCall::Read(None) => Some(value),
        RegCall::Read(Some(seen)) => value_is(value, seen).then_some(value),
        RegCall::Write(new) => Some(Some(new)),
        RegCall::Cas(old, new) => value_is(value, old).then_some(Some(new)),
    }
}

/// Whether the register's value is this integer.
fn value_is(value: Option<i64>, wanted: i64) -> bool
    ensures { IsTrue result ↔ (value ≡ Some wanted) }
{
    match value {
        Some(held) => held == wanted,
        None => false,
    }
}

/// Whether an operation is tried though it is not known to have happened. A read is not tried,
/// since an order that has it is still an order when it is left out.
pub(crate) fn is_unsure_change(op: RegOp) -> bool
    ensures { result ≡ rule.is_unsure_change op.outcome op.call }
{
    match (op.outcome, op.call) {
        (Outcome::Unsure, RegCall::Write(_)) => true,
        (Outcome::Unsure, RegCall::Cas(_, _)) => true,
        _ => false,
    }
}

/// The value that the register must have for a call, if there is one: that of a read, or the first
/// of a compare-and-set.
pub(crate) fn needed(call: RegCall) -> Option<i64>
    ensures { (value : Option ℤ) → Needs call value → (x : ℤ) × (result ≡ Some x)
        × (value ≡ Some x) }
{
    match call {
        RegCall::Read(seen) => seen,
        RegCall::Cas(old, _) => Some(old),
        RegCall::Write(_) => None,
    }
}

/// Whether two calls are the same. It is always false for reads, which are never compared: the
/// search compares the calls of operations of unknown outcome only, and leaves reads of these out.
pub(crate) fn is_same(first: RegCall, second: RegCall) -> bool
    ensures { result ≡ true → first ≡ second }
{
    match (first, second) {
        (RegCall::Write(new), RegCall::Write(other)) => new == other,
        (RegCall::Cas(old, new), RegCall::Cas(other_old, other)) => old == other_old
            && new == other,
        _ => false,
    }
}

/// Whether an operation is a read that is known to have happened, and that the value allows. Such a
/// read can be placed at once wherever it may come next, since it changes nothing for the
/// operations that follow.
pub(crate) fn is_settled(op: RegOp, value: Option<i64>) -> bool
    ensures settled { result ≡ true → IsSettled op value }
    ensures other { result ≡ false → op.outcome ≡ Done → op.call ≡ Read None → ⊥ }
{
    match (op.outcome, op.call) {
        (Outcome::Done, RegCall::Read(None)) => true,
        (Outcome::Done, RegCall::Read(Some(seen))) => value_is(value, seen),
        _ => false,
    }
}

//! The moves from a configuration: which operations may be placed next, and are worth a try.
//!
//! Three prunings stand here. A read that is known to have happened, and finds its value, is placed
//! at once and alone. Of the operations of unknown outcome with one call, only the one that was
//! invoked first is tried. And it is tried only where an operation that may come next needs the
//! value that it leads to. `specs/SearchInside.antt` says which moves have to be there
//! (`AreEnough`), and `one_leads` in `proofs/LeadLemmas.antt` shows that no order is lost then.
//! Another pruning that leaves such moves may take the place of these.

ghost use Rattle.std.specs.Prelude.{◌≡◌, ℤ, ◌<◌, ◌≤◌, length, vec_len, true, false, IfSome, OnOk};
ghost use Rattle.std.specs.Prelude.{Option, None};
ghost use Rattle.jh_linear.specs.Order.{Allows, EndsBefore};
ghost use Rattle.jh_linear.specs.SearchInside as rule;
ghost use Rattle.jh_linear.specs.SearchInside.{AreMoves, HasHappened, HasUnknown, IsProblem, IsReady};
ghost use Rattle.jh_linear.specs.SearchInside.{IsSettledAt, CanBePlaced, IsWanted};
ghost use Rattle.jh_linear.specs.SearchInside.{IsAmong, MovesMore, IsNoneSettled, source_call, stages_in};
ghost use Rattle.jh_linear.specs.WantedInside.{HoldsValue};
ghost use Rattle.jh_linear.specs.Stuck.{op_end};
ghost use Rattle.jh_linear.specs.declared.moves.Source.TheVariants as source;

use crate::config::Config;
use crate::order_check::op_at;
use crate::register::{RegOp, after, is_settled};
use crate::sorted_ops::{Class, Problem};
use crate::wanted::{Wanted, is_held, wanted_by};
use std::alloc::{AllocError, Global};

/// Where a move takes its operation from.
#[derive(Clone, Copy, Debug)]
pub(crate) enum Source {
    /// The pending operation at this index, which is known to have happened.
    Happened(usize),
    /// The next operation of the class at this index, whose operations are of unknown outcome
    /// (`Outcome::Unsure`).
    NextOfClass(usize),
}

/// An operation that may be placed next, with the value that it leads to.
#[derive(Clone, Copy, Debug)]
pub(crate) struct Move {
    pub(crate) source: Source,
    pub(crate) value: Option<i64>,
}

/// The class at an index. Past the end it is one with no operations.
fn class_at(classes: &[Class], class: usize) -> Class
    ensures { result ≡ rule.class_at classes.now class }
{
    match classes.get(class) {
        Some(found) => *found,
        None => Class { from: 0, upto: 0 },
    }
}

/// What stands at an index. Past the end it is 0.
fn at_or_zero(numbers: &[usize], index: usize) -> usize
    ensures { result ≡ rule.next_at numbers.now index }
{
    match numbers.get(index) {
        Some(number) => *number,
        None => 0,
    }
}

/// The number of the operation that a move places.
pub(crate) fn number_of(problem: &Problem, config: &Config, source: Source) -> usize
    ensures { result ≡ rule.source_number problem.now config.now source }
{
    match source {
        Source::Happened(index) => at_or_zero(config.happened.as_slice(), index),
        Source::NextOfClass(class) => at_or_zero(
            problem.sorted.unsure_changes.as_slice(),
            at_or_zero(config.next.as_slice(), class),
        ),
    }
}

/// The operation that a move places.
pub(crate) fn op_of(problem: &Problem, config: &Config, source: Source) -> RegOp
    ensures { result ≡ rule.op_of problem.now config.now source }
{
    op_at(problem.ops, number_of(problem, config, source))
}

/// Whether an operation was invoked before another one ended.
fn is_in_time(op: RegOp, other: RegOp) -> bool
    ensures in_time { result ≡ true → op.invoked ≤ op_end other }
    ensures late { result ≡ false → EndsBefore other.ended op.invoked }
{
    match other.ended {
        Some(end) => op.invoked <= end,
        None => true,
    }
}

/// Whether a class has an operation that is not placed, and the next of them was invoked before the
/// end of the stage, so that it may come next.
pub(crate) fn is_ready(problem: &Problem, config: &Config, class: usize) -> bool
    requires problem { IsProblem problem.now }
    requires stage { config.now.stage < stages_in problem.now }
    requires class { class < length problem.now.sorted.classes.items }
    ensures ready { result ≡ true → CanBePlaced problem.now config.now (source.NextOfClass class) }
    ensures other { result ≡ false → IsReady problem.now config.now class → ⊥ }
{
    let next = at_or_zero(config.next.as_slice(), class);
    let upto = class_at(problem.sorted.classes.as_slice(), class).upto;
    let last = op_at(problem.ops, problem.sorted.stages[config.stage].number);
    next < upto && is_in_time(op_of(problem, config, Source::NextOfClass(class)), last)
}

/// The index of the first pending operation that may be placed at once and alone, if there is one.
fn settled(problem: &Problem, config: &Config) -> Option<usize>
    requires problem { IsProblem problem.now }
    ensures some { IfSome result (λ index. IsSettledAt problem.now config.now index) }
    ensures none { result ≡ None
        → IsNoneSettled problem.now config.now (vec_len config.now.happened) }
{
    for index in 0..config.happened.len() {
        if is_settled(
            op_of(problem, config, Source::Happened(index)),
            config.value,
        ) {
            return Some(index);
        }
    }
    None
}

/// Appends the move of an operation, where the value allows it.
fn push_move(
    problem: &Problem,
    config: &Config,
    source: Source,
    moves: &mut Vec<Move>,
) -> Result<(), AllocError>
    requires { CanBePlaced problem.now config.now source }
    ensures more { OnOk result (MovesMore problem.now config.now moves.old.items moves.new.items) }
    ensures among { OnOk result
        ((next : Option ℤ)
        → Allows (source_call problem.now config.now source) config.now.value next
        → IsAmong moves.new.items source next) }
{
    if let Some(value) = after(op_of(problem, config, source).call, config.value) {
        moves.push(Move { source, value })?;
    }
    Ok(())
}

/// Appends the moves of all pending operations, where the value allows them.
fn push_happened(
    problem: &Problem,
    config: &Config,
    moves: &mut Vec<Move>,
) -> Result<(), AllocError>
    ensures more { OnOk result (MovesMore problem.now config.now moves.old.items moves.new.items) }
    ensures happened { OnOk result
        (HasHappened problem.now config.now moves.new.items (vec_len config.now.happened)) }
{
    for index in 0..config.happened.len() {
        push_move(problem, config, Source::Happened(index), moves)?;
    }
    Ok(())
}

/// Whether the next operation of a class is worth a try: it may come next, and leads to a value
/// that is wanted.
fn is_worth(problem: &Problem, config: &Config, wanted: &Wanted, class: usize) -> bool
    requires problem { IsProblem problem.now }
    requires stage { config.now.stage < stages_in problem.now }
    requires class { class < length problem.now.sorted.classes.items }
    ensures ready { result ≡ true → CanBePlaced problem.now config.now (source.NextOfClass class) }
    ensures other { result ≡ false → IsReady problem.now config.now class → (next : Option ℤ)
        → Allows
        (source_call problem.now config.now (source.NextOfClass class)) config.now.value next
        → HoldsValue wanted.now next → ⊥ }
{
    if !is_ready(problem, config, class) {
        return false;
    }
    match after(
        op_of(problem, config, Source::NextOfClass(class)).call,
        config.value,
    ) {
        Some(next) => is_held(wanted, next),
        None => false,
    }
}

/// Appends the move of the next operation of each class where it is worth a try.
fn push_unknown(
    problem: &Problem,
    config: &Config,
    wanted: &Wanted,
    moves: &mut Vec<Move>,
) -> Result<(), AllocError>
    requires problem { IsProblem problem.now }
    requires stage { config.now.stage < stages_in problem.now }
    requires wanted { (value : Option ℤ) → IsWanted problem.now config.now value
        → HoldsValue wanted.now value }
    ensures more { OnOk result (MovesMore problem.now config.now moves.old.items moves.new.items) }
    ensures unknown { OnOk result
        (HasUnknown problem.now config.now moves.new.items
        (length problem.now.sorted.classes.items)) }
{
    for class in 0..problem.sorted.classes.len() {
        if is_worth(problem, config, wanted, class) {
            push_move(problem, config, Source::NextOfClass(class), moves)?;
        }
    }
    Ok(())
}

/// Finds the moves from a configuration: first those of operations that are known to have happened,
/// in the order of their invocations, then those of operations of unknown outcome.
pub(crate) fn find_moves(
    alloc: Global,
    problem: &Problem,
    config: &Config,
    moves: &mut Vec<Move>,
) -> Result<(), AllocError>
    requires problem { IsProblem problem.now }
    requires stage { config.now.stage < stages_in problem.now }
    ensures { OnOk result (AreMoves problem.now config.now moves.new.items) }
{
    moves.clear();
    if let Some(index) = settled(problem, config) {
        push_move(problem, config, Source::Happened(index), moves)?;
        return Ok(());
    }
    push_happened(problem, config, moves)?;
    if problem.sorted.classes.is_empty() {
        return Ok(());
    }
    let wanted = wanted_by(alloc, problem, config)?;
    push_unknown(problem, config, &wanted, moves)?;
    Ok(())
}

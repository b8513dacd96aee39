//! A configuration that is changed in place as long as it has one move only, so that none of those
//! between are entered. `specs/SearchInside.antt` says that no order is lost by it (`HasGone`),
//! which `gone_on` and `dead_end` in `proofs/WalkLemmas.antt` show.

ghost use Rattle.std.specs.Prelude.{◌≡◌, ◌<◌, length, vec_len, IfOk, OnOk};
ghost use Rattle.jh_linear.specs.SearchInside.{EndsAs, HasGone, IsMadeBy, IsMove, IsProblem, stages_in};

use crate::config::{Config, place};
use crate::moves::{Move, find_moves, number_of};
use crate::sorted_ops::Problem;
use std::alloc::{AllocError, Global};

/// How a walk ended.
pub(crate) enum WalkEnd {
    /// The configuration has several moves.
    Several,
    /// It has no move.
    Stuck,
    /// It has passed every stage, so that its order is complete.
    Complete,
}

/// Makes a move, and appends its operation to those that were placed.
pub(crate) fn make(
    problem: &Problem,
    config: &mut Config,
    placed: &mut Vec<usize>,
    next_move: Move,
) -> Result<(), AllocError>
    requires problem { IsProblem problem.now }
    requires stage { config.old.stage < stages_in problem.now }
    requires sizes { vec_len config.old.next ≡ length problem.now.sorted.classes.items }
    requires moves { IsMove problem.now config.old next_move }
    ensures { OnOk result
        (IsMadeBy problem.now config.old placed.old.items next_move config.new placed.new.items) }
{
    placed.push(number_of(problem, config, next_move.source))?;
    place(problem, config, next_move)
}

/// Makes moves as long as there is one only. Each places one operation more, so as many moves as
/// there are operations are enough.
pub(crate) fn walk(
    alloc: Global,
    problem: &Problem,
    config: &mut Config,
    placed: &mut Vec<usize>,
    moves: &mut Vec<Move>,
) -> Result<WalkEnd, AllocError>
    requires problem { IsProblem problem.now }
    requires sizes { vec_len config.old.next ≡ length problem.now.sorted.classes.items }
    ensures gone { OnOk result
        (HasGone problem.now config.old placed.old.items config.new placed.new.items) }
    ensures ends { IfOk result (λ walk. EndsAs problem.now config.new placed.new.items walk) }
{
    for _ in 0..problem.ops.len() {
        if config.stage >= problem.sorted.stages.len() {
            return Ok(WalkEnd::Complete);
        }
        find_moves(alloc, problem, config, moves)?;
        match moves.as_slice() {
            [] => return Ok(WalkEnd::Stuck),
            [only] => make(problem, config, placed, *only)?,
            _ => return Ok(WalkEnd::Several),
        }
    }
    if config.stage >= problem.sorted.stages.len() {
        return Ok(WalkEnd::Complete);
    }
    Ok(WalkEnd::Several)
}

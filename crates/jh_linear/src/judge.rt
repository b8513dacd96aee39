//! The search of a linearizability checker for a register with read, write and compare-and-set
//! (Herlihy and Wing 1990): that of Wing and Gong (1993), with Lowe's cache of configurations
//! (2017).
//!
//! A configuration (`config.rt`) is which operations have been linearized so far, and the value
//! that the register then has. An operation that is linearized is said to be placed, and a list of
//! operations as they are linearized is an order. A move (`moves.rt`) places one operation more.
//! Each configuration is entered into the cache once (`search.rt`), and is expanded when its rank
//! is the highest of those that wait (`queue.rt` has the ranks, and any others would do). It is
//! expanded twice, and at first only by the moves that are likely to lead on (`tried_at_first`).
//!
//! These prunings keep the search small. Each has a lemma, in `proofs/`, that it loses no order:
//!
//! - A read that is known to have happened, and finds its value, is placed at once and alone:
//!   `settled` in `moves.rt`, `settled_leads` in `LeadLemmas.antt`.
//! - A read of unknown outcome is left out: `is_unsure_change` in `register.rt`, `follows_less` in
//!   `FollowLemmas.antt`.
//! - Of the operations of unknown outcome with one call, only the one that was invoked first is
//!   tried: `Class` in `sorted_ops.rt`, `after_twin` in `FollowLemmas.antt` and `class_leads` in
//!   `LeadLemmas.antt`.
//! - An operation of unknown outcome is tried only where some operation that may come next needs
//!   the value that it leads to: `wanted.rt`, and `is_worth` in `moves.rt`; `wanted_by` and
//!   `by_size` in `LeadLemmas.antt`. `one_leads` there puts these four together.
//! - Where there is one move only, it is made in place, and no configuration is entered: `walk.rt`,
//!   `gone_on` and `dead_end` in `WalkLemmas.antt`.
//! - A configuration that was entered before is not entered again: `add` in `search.rt`,
//!   `known_leads` in `GrowthLemmas.antt`.
//!
//! `specs/SearchInside.antt` says what the search keeps (`IsSearchKept`): each configuration that
//! was entered still waits, or whatever may lead from it past the furthest stage has been reached.
//! So where none waits any more, no order passes that stage.

ghost use Rattle.std.specs.Prelude.{◌≡◌, ◌++◌, ◌<◌, ◌≤◌, length, slice_get, Some, vec_len, IfOk};
ghost use Rattle.std.specs.Prelude.{false};
ghost use Rattle.jh_linear.specs.declared.config.Config.{Config};
ghost use Rattle.jh_linear.specs.Order.{EndAfterInvoked};
ghost use Rattle.jh_linear.specs.Reached.{order_at, root};
ghost use Rattle.jh_linear.specs.Verdict.{IsJudged};
ghost use Rattle.jh_linear.specs.SearchInside.{AreSame, EachIsMove, ComesOfEntering, IsSearchSoFar};
ghost use Rattle.jh_linear.specs.SearchInside.{IsSearchKept, IsMove, IsProblem, LeadsTo, ComesOfExpansion};
ghost use Rattle.jh_linear.specs.SearchInside.{ComesOfMove, WasReached, WereTried, stages_in};

use crate::config::{Config, copy_config, first_config};
use crate::moves::{Move, Source, find_moves};
use crate::queue::{Queue, RankedConfig, rank_of, second_expansion};
use crate::register::RegOp;
use crate::search::{Added, Furthest, Search, add, note};
use crate::sorted_ops::{Problem, sort_ops};
use crate::stuck::{order_of, stuck_of};
use crate::verdict::{LinVerdict, Linearization, Reached, Step};
use crate::walk::{WalkEnd, make, walk};
use indexmap::IndexSet;
use std::alloc::{AllocError, Global};

/// How the expansion of a configuration ended, or a part of it.
pub(crate) enum ExpansionEnd {
    /// No order was completed, and the search goes on.
    More,
    /// With these operations behind those of the configuration the order is complete.
    Complete(Vec<usize>),
    /// A new configuration would exceed the budget.
    Full,
}

/// Makes a move from a configuration, and then goes on in place as long as there is one move only.
/// What comes of it is entered, where it has several moves.
fn try_move(
    alloc: Global,
    problem: &Problem,
    search: &mut Search,
    at: usize,
    config: &Config,
    next_move: Move,
) -> Result<ExpansionEnd, AllocError>
    requires problem { IsProblem problem.now }
    requires begun { IsSearchSoFar problem.now search.old }
    requires reached { WasReached search.old at config.now }
    requires moves { IsMove problem.now config.now next_move }
    ensures { IfOk result
        (λ end. ComesOfMove problem.now search.old search.new at config.now next_move end) }
{
    let mut next = copy_config(alloc, config)?;
    let mut placed = Vec::new(alloc);
    make(problem, &mut next, &mut placed, next_move)?;
    let mut moves = Vec::new(alloc);
    let end = walk(alloc, problem, &mut next, &mut placed, &mut moves)?;
    match end {
        WalkEnd::Complete => Ok(ExpansionEnd::Complete(placed)),
        WalkEnd::Stuck => {
            note(alloc, search, at, placed.as_slice(), next.stage)?;
            Ok(ExpansionEnd::More)
        }
        WalkEnd::Several => {
            note(alloc, search, at, placed.as_slice(), next.stage)?;
            enter(problem, search, at, placed, next)
        }
    }
}

/// Enters a configuration that was reached by placing operations behind those of the configuration
/// at an index.
fn enter(
    problem: &Problem,
    search: &mut Search,
    at: usize,
    placed: Vec<usize>,
    config: Config,
) -> Result<ExpansionEnd, AllocError>
    requires problem { IsProblem problem.now }
    requires begun { IsSearchSoFar problem.now search.old }
    requires low { at < length search.old.steps.items }
    requires longer { 0 < vec_len placed }
    requires stands { LeadsTo problem.now
        (order_at search.old.steps.items at ++ placed.items) config }
    requires open { config.stage < stages_in problem.now }
    requires far { config.stage ≤ search.old.furthest.stage }
    ensures { IfOk result
        (λ end.
        ComesOfEntering problem.now search.old search.new at placed.items config end) }
{
    let rank = rank_of(problem, &config);
    match add(search, problem.budget, at, placed, config, rank)? {
        Added::Known => Ok(ExpansionEnd::More),
        Added::New => Ok(ExpansionEnd::More),
        Added::Full => Ok(ExpansionEnd::Full),
    }
}

/// Tries the moves in reverse: among equal ranks the configuration that was entered last is
/// expanded first, and this is then the one that the first move leads to.
fn try_moves(
    alloc: Global,
    problem: &Problem,
    search: &mut Search,
    at: usize,
    config: &Config,
    moves: &[Move],
) -> Result<ExpansionEnd, AllocError>
    requires problem { IsProblem problem.now }
    requires begun { IsSearchSoFar problem.now search.old }
    requires reached { WasReached search.old at config.now }
    requires moves { EachIsMove problem.now config.now moves.now }
    ensures { IfOk result
        (λ end. WereTried problem.now search.old search.new at config.now moves.now end) }
{
    let count = moves.len();
    for tried in 0..count {
        match try_move(alloc, problem, search, at, config, moves[count - 1 - tried])? {
            ExpansionEnd::More => {}
            ExpansionEnd::Complete(placed) => return Ok(ExpansionEnd::Complete(placed)),
            ExpansionEnd::Full => return Ok(ExpansionEnd::Full),
        }
    }
    Ok(ExpansionEnd::More)
}

/// How many of the moves place an operation that is known to have happened. These moves come first.
fn happened_in(moves: &[Move]) -> usize
    ensures { result ≤ length moves.now }
{
    for (index, next_move) in moves.iter().enumerate() {
        if let Source::NextOfClass(_) = next_move.source {
            return index;
        }
    }
    moves.len()
}

/// How many of the moves the first expansion tries, where this many place an operation that is known
/// to have happened. Where all do, it is the first of them: mostly that one leads on, and what the
/// others lead to is never wanted. Else it is this many.
fn tried_at_first(happened: usize, moves: &[Move]) -> usize
    requires { happened ≤ length moves.now }
    ensures { result ≤ length moves.now }
{
    if happened == moves.len() {
        happened.min(1)
    } else {
        happened
    }
}

/// The first of two expansions: tries some of the moves, and lets the configuration wait for its
/// second expansion, which may place an operation of unknown outcome or does not.
fn put_off(
    alloc: Global,
    problem: &Problem,
    search: &mut Search,
    ranked: RankedConfig,
    config: &Config,
    moves: &[Move],
    is_unsure: bool,
) -> Result<ExpansionEnd, AllocError>
    requires problem { IsProblem problem.now }
    requires begun { IsSearchSoFar problem.now search.old }
    requires reached { WasReached search.old ranked.at config.now }
    requires moves { EachIsMove problem.now config.now moves.now }
    requires first { ranked.is_last ≡ false }
    ensures { IfOk result
        (λ end. ComesOfExpansion problem.now search.old search.new ranked end) }
{
    search
        .waiting
        .push(second_expansion(problem, ranked, is_unsure))?;
    try_moves(alloc, problem, search, ranked.at, config, moves)
}

/// Expands a configuration. The first time only some of its moves are tried (`tried_at_first`), and
/// the second time all.
fn expand(
    alloc: Global,
    problem: &Problem,
    search: &mut Search,
    ranked: RankedConfig,
    config: &Config,
) -> Result<ExpansionEnd, AllocError>
    requires problem { IsProblem problem.now }
    requires begun { IsSearchSoFar problem.now search.old }
    requires reached { WasReached search.old ranked.at config.now }
    ensures { IfOk result
        (λ end. ComesOfExpansion problem.now search.old search.new ranked end) }
{
    let mut found = Vec::new(alloc);
    find_moves(alloc, problem, config, &mut found)?;
    let moves = found.as_slice();
    let happened = happened_in(moves);
    let first = tried_at_first(happened, moves);
    if ranked.is_last || first == moves.len() {
        return try_moves(alloc, problem, search, ranked.at, config, moves);
    }
    let is_unsure = happened < moves.len();
    put_off(
        alloc,
        problem,
        search,
        ranked,
        config,
        &moves[..first],
        is_unsure,
    )
}

/// A search at its start, with one configuration, in which nothing is placed.
fn start(alloc: Global, problem: &Problem) -> Result<Search, AllocError>
    requires problem { IsProblem problem.now }
    requires some { 0 < stages_in problem.now }
    requires budget { 0 < problem.now.budget }
    ensures { IfOk result (λ search. IsSearchKept problem.now search) }
{
    let config = first_config(alloc, problem)?;
    let mut configs = IndexSet::new(alloc);
    configs.insert(config)?;
    let mut steps = Vec::new(alloc);
    steps.push(first_step(alloc))?;
    let mut waiting = Queue::new(alloc);
    waiting.push(RankedConfig {
        rank: 0,
        at: 0,
        is_last: false,
    })?;
    Ok(Search {
        configs,
        steps,
        waiting,
        furthest: Furthest {
            stage: 0,
            step: first_step(alloc),
        },
    })
}

/// The step that stands for the empty order.
fn first_step(alloc: Global) -> Step
    ensures { result ≡ root }
{
    Step {
        parent: 0,
        placed: Linearization::of(Vec::new(alloc)),
    }
}

/// Whether the operations are linearizable on a register with this initial value. `Valid` carries a
/// linearization. `Invalid` says that there is none, and up to which completion there is one.
/// `Unknown` says that the budget was used up. Each operation has to end after its invocation.
///
/// The budget counts configurations: a set of operations that have been linearized, with the value
/// that the register then has, counts once, when it is entered. One from which there is one move,
/// or none, is not entered. `Unknown` carries as many as the budget. With a budget of 0 the answer
/// is `Unknown`, and carries none.
///
/// Errors: out of memory.
///
/// Let w be how many operations may be in flight at once, and u how many different calls the
/// operations of unknown outcome have. Takes O(n log n) for n operations. Each configuration takes
/// w + u words of memory, and one for each operation that was placed since the configuration before
/// it. Each move from it takes w + u steps, and as many for each operation that is placed then
/// until there are several moves again. docs/register.md says more.
pub fn check(
    alloc: Global,
    ops: &[RegOp],
    initial: Option<i64>,
    budget: u64,
) -> Result<LinVerdict, AllocError>
    requires ends { EndAfterInvoked ops.now }
    ensures judged { IfOk result (λ verdict. IsJudged ops.now initial budget verdict) }
{
    if budget == 0 {
        return Ok(LinVerdict::Unknown(Reached::of(Vec::new(alloc))));
    }
    let sorted = sort_ops(alloc, ops)?;
    if sorted.stages.is_empty() {
        return Ok(LinVerdict::Valid(Linearization::of(Vec::new(alloc))));
    }
    let problem = Problem {
        ops,
        initial,
        sorted,
        budget,
    };
    let mut search = start(alloc, &problem)?;
    'searching: while let Some(ranked) = search.waiting.pop() {
        let config = config_at(alloc, &search.configs, ranked.at)?;
        match expand(alloc, &problem, &mut search, ranked, &config)? {
            ExpansionEnd::More => {}
            ExpansionEnd::Full => return Ok(LinVerdict::Unknown(Reached::of(search.steps))),
            ExpansionEnd::Complete(placed) => {
                let mut order = order_of(alloc, search.steps.as_slice(), ranked.at)?;
                order.extend_from_slice(placed.as_slice())?;
                return Ok(LinVerdict::Valid(Linearization::of(order)));
            }
        }
    }
    Ok(LinVerdict::Invalid(stuck_of(alloc, &problem, &search)?))
}

/// A copy of the configuration at an index.
fn config_at(alloc: Global, configs: &IndexSet<Config>, at: usize) -> Result<Config, AllocError>
    requires { at < length configs.now.keys }
    ensures { IfOk result (λ config.
        (found : Config) × (slice_get configs.now.keys at ≡ Some found) × AreSame found config) }
{
    copy_config(alloc, &configs.as_slice()[at])
}

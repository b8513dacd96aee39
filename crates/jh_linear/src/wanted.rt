//! The values that are wanted at a configuration: those that some operation which may come next
//! needs the register to have. An operation of unknown outcome is tried only where it leads to one
//! of them. What comes next otherwise is a write, and overwrites the value, or a read of unknown
//! outcome, which is left out (`by_size` in `proofs/LeadLemmas.antt`). The values are put into a
//! set once for a configuration, and not looked for anew for each move, since there may be many
//! moves.

ghost use Rattle.std.specs.Prelude.{◌≡◌, ℤ, ◌<◌, false, Option, Some, OnOk, IfOk, length, vec_len};
ghost use Rattle.jh_linear.specs.SearchInside.{IsProblem, IsReady, IsWanted, Needs, source_call};
ghost use Rattle.jh_linear.specs.SearchInside.{stages_in};
ghost use Rattle.jh_linear.specs.declared.moves.Source.TheVariants as source;
ghost use Rattle.jh_linear.specs.WantedInside.{HoldsValue, HoldsHappened, HoldsMore, HoldsUnknown};

use crate::config::Config;
use crate::moves::{Source, is_ready, op_of};
use crate::register::{RegCall, needed};
use crate::sorted_ops::Problem;
use std::alloc::{AllocError, Global};
use std::collections::HashSet;

/// The values of the register that are wanted.
#[derive(Drop)]
pub(crate) struct Wanted {
    pub(crate) values: HashSet<i64>,
}

/// Adds the value that a call needs, if it needs one.
fn put(wanted: &mut Wanted, call: RegCall) -> Result<(), AllocError>
    ensures needs { OnOk result ((value : Option ℤ) → Needs call value → HoldsValue wanted.new value) }
    ensures more { OnOk result (HoldsMore wanted.old wanted.new) }
{
    if let Some(value) = needed(call) {
        wanted.values.insert(value)?;
    }
    Ok(())
}

/// Whether a value is wanted.
pub(crate) fn is_held(wanted: &Wanted, value: Option<i64>) -> bool
    ensures { result ≡ false → HoldsValue wanted.now value → ⊥ }
{
    match value {
        Some(held) => wanted.values.contains(&held),
        None => false,
    }
}

/// Adds the values that the pending operations need.
fn put_happened(problem: &Problem, config: &Config, wanted: &mut Wanted) -> Result<(), AllocError>
    ensures happened { OnOk result
        (HoldsHappened problem.now config.now wanted.new (vec_len config.now.happened)) }
    ensures more { OnOk result (HoldsMore wanted.old wanted.new) }
{
    for index in 0..config.happened.len() {
        put(wanted, op_of(problem, config, Source::Happened(index)).call)?;
    }
    Ok(())
}

/// Adds the value that the next operation of a class needs, where that operation may come next.
fn put_next(
    problem: &Problem,
    config: &Config,
    class: usize,
    wanted: &mut Wanted,
) -> Result<(), AllocError>
    requires problem { IsProblem problem.now }
    requires stage { config.now.stage < stages_in problem.now }
    requires class { class < length problem.now.sorted.classes.items }
    ensures needs { OnOk result ((value : Option ℤ) → IsReady problem.now config.now class
        → Needs (source_call problem.now config.now (source.NextOfClass class)) value
        → HoldsValue wanted.new value) }
    ensures more { OnOk result (HoldsMore wanted.old wanted.new) }
{
    if is_ready(problem, config, class) {
        put(
            wanted,
            op_of(problem, config, Source::NextOfClass(class)).call,
        )?;
    }
    Ok(())
}

/// Adds the values that the next operations of the classes need, where these may come next.
fn put_unknown(problem: &Problem, config: &Config, wanted: &mut Wanted) -> Result<(), AllocError>
    requires problem { IsProblem problem.now }
    requires stage { config.now.stage < stages_in problem.now }
    ensures unknown { OnOk result
        (HoldsUnknown problem.now config.now wanted.new
        (length problem.now.sorted.classes.items)) }
    ensures more { OnOk result (HoldsMore wanted.old wanted.new) }
{
    for class in 0..problem.sorted.classes.len() {
        put_next(problem, config, class, wanted)?;
    }
    Ok(())
}

/// The values that are wanted at a configuration.
pub(crate) fn wanted_by(
    alloc: Global,
    problem: &Problem,
    config: &Config,
) -> Result<Wanted, AllocError>
    requires problem { IsProblem problem.now }
    requires stage { config.now.stage < stages_in problem.now }
    ensures { IfOk result
        (λ wanted. (value : Option ℤ) → IsWanted problem.now config.now value
        → HoldsValue wanted value) }
{
    let mut wanted = Wanted {
        values: HashSet::new(alloc),
    };
    put_happened(problem, config, &mut wanted)?;
    put_unknown(problem, config, &mut wanted)?;
    Ok(wanted)
}

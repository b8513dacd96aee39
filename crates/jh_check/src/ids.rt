//! The checker of unique ids. `specs/IdsResults.antt` has the rule.

ghost use Rattle.std.specs.Prelude.{◌≡◌, IfOk, IsOkUnless, codes, count_by};
ghost use Rattle.std.specs.Prelude.{filter, map};
ghost use Rattle.jh_edn.specs.View.{views};
ghost use Rattle.jh_ops.specs.Operation.{is_asked, operation, operations};
ghost use Rattle.jh_ops.specs.declared.operation.Kind.TheVariants.{Invoke};
ghost use Rattle.jh_check.specs.Distinct.{Ascends, count_of, distinct_values};
ghost use Rattle.jh_check.specs.IdsResults.{ids_result};
ghost use Rattle.jh_check.specs.Tallies.{is_repeated, view_tally};
ghost use Rattle.jh_check.specs.declared.error.CheckError.TheVariants.{OutOfMemory};

use crate::asked::sorted_values;
use crate::distinct::is_same;
use crate::error::CheckError;
use crate::tally::{Counted, Tally, push_repeated};
use crate::verdict::{Verdict, verdict_of};
use jh_edn::Value;
use jh_ops::{Kind, Op};
use std::alloc::{AllocError, Global};

/// What the checker of unique ids says of a history.
#[derive(Debug, Drop)]
pub struct IdsResult {
    /// `True` where no id was given more than once, else `False`.
    pub verdict: Verdict,
    /// How many ids clients asked for.
    pub attempted: usize,
    /// How many they are known to have been given.
    pub acknowledged: usize,
    /// The ids that were given more than once, in normal order.
    pub duplicated: Tally,
}

/// How many ids clients asked for.
fn attempts(history: &[Op]) -> usize
    ensures { result
        ≡ count_by (λ op. is_asked Invoke (codes "generate") (operation op)) history.now }
{
    let mut count = 0;
    for op in history {
        if op.is_asked(Kind::Invoke, "generate") {
            count += 1;
        }
    }
    count
}

/// The ids that are there more than once, where they ascend.
fn repeated(alloc: Global, ids: &[Value]) -> Result<Vec<Counted>, AllocError>
    requires { Ascends (views ids.now) }
    ensures { IfOk result (λ found. view_tally found.items
        ≡ filter is_repeated
        (map (λ id. (id, count_of (views ids.now) id)) (distinct_values (views ids.now)))) }
{
    let mut found = Vec::new(alloc);
    let Some((first, others)) = ids.split_first() else {
        return Ok(found);
    };
    let mut id = first;
    let mut times = 1;
    for next in others {
        if is_same(id, next) {
            times += 1;
        } else {
            push_repeated(alloc, id, times, &mut found)?;
            id = next;
            times = 1;
        }
    }
    push_repeated(alloc, id, times, &mut found)?;
    Ok(found)
}

/// Judges the history of a source of ids, whose clients each time `:generate` one (Jepsen's checker
/// `unique-ids`).
///
/// Operations of the nemesis are left out. `attempted` counts what was invoked, `acknowledged` what
/// is `:ok`; an id is the value of an `:ok` operation, and ids are equal as EDN says. Operations
/// are not paired.
///
/// Errors: `OutOfMemory`, and no other.
///
/// Takes O(n log n) comparisons for n operations.
pub fn check_unique(alloc: Global, history: &[Op]) -> Result<IdsResult, CheckError>
    ensures result { IfOk result (λ found. found ≡ ids_result (operations history.now)) }
    ensures memory { IsOkUnless result OutOfMemory }
{
    let ids = sorted_values(alloc, Kind::Ok, "generate", history)?;
    let acknowledged = ids.len();
    let found = repeated(alloc, &ids)?;
    Ok(IdsResult {
        verdict: verdict_of(found.is_empty()),
        attempted: attempts(history),
        acknowledged,
        duplicated: Tally::of(found),
    })
}

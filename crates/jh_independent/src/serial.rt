//! The keys of a history judged one after another. `specs/Refusals.antt` has the rule.

ghost use Rattle.std.specs.Prelude.{IsErrOf, MatchResult};
ghost use Rattle.jh_ops.specs.Operation.{operations};
ghost use Rattle.jh_independent.specs.Refusals.{keys_question};
ghost use Rattle.jh_independent.specs.Refusals.{AreFindings, RefusesKeys};

use crate::error::KeysError;
use crate::parts::check_key;
use crate::split::split;
use jh_checkers::{Finding, Judging};
use jh_edn::Value;
use jh_ops::Op;
use std::alloc::Global;

/// What is found of one key.
#[derive(Debug, Drop)]
pub struct KeyFinding {
    /// The key in normal form.
    pub key: Value,
    /// What its checker finds in its own history.
    pub finding: Finding,
}

/// Judges a history of independent keys, each key by itself, one after another
/// (`jepsen.independent`).
///
/// Each client's operation has a tuple of a key and a value, a vector or a list of two. What is
/// equal as EDN says is one key. Its history has its operations in order, with their values without
/// the key; it is judged by the checker of the workload, with the whole budget. Operations of the
/// nemesis are left out. The findings stand in the normal order of their keys. The numbers of
/// operations in a finding (in orders, of what is pending, of transactions) count the pairs of the
/// key's own history.
///
/// Errors: `BadValue` at the least place of a client's operation that has no tuple; then, in the
/// normal order of the keys, `Key` with the error of the first whose history is refused, at the
/// place in the whole history. `OutOfMemory` may come at any key. Never `Thread`.
///
/// Takes O(n log n) comparisons of keys for n operations beside what the checkers take, and copies
/// each operation once.
pub fn check_keys_serial(
    alloc: Global,
    history: &[Op],
    judging: Judging<'_>,
) -> Result<Vec<KeyFinding>, KeysError>
    ensures found { MatchResult result
        (λ found. AreFindings (keys_question judging.entry (operations history.now)) found.items)
        (RefusesKeys (keys_question judging.entry (operations history.now))) }
    ensures alone { IsErrOf result KeysError.Thread → ⊥ }
{
    let groups = split(alloc, history)?;
    let mut found = Vec::with_capacity(alloc, groups.len())?;
    for group in groups {
        let finding = check_key(alloc, history, judging, &group)?;
        found.push(KeyFinding {
            key: group.key,
            finding,
        })?;
    }
    Ok(found)
}

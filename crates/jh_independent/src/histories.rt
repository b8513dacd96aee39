//! The histories of all keys. `specs/Keys.antt` says which keys there are, and what the history of
//! each is.

ghost use Rattle.std.specs.Prelude.{◌≡◌, MatchResult};
ghost use Rattle.jh_ops.specs.Operation.{operations};
ghost use Rattle.jh_independent.specs.Histories.{RefusesKeySplit, view_histories};
ghost use Rattle.jh_independent.specs.Keys.{AreTuples, histories_of};

use crate::error::KeysError;
use crate::parts::history_of;
use crate::split::split;
use jh_edn::Value;
use jh_ops::Op;
use std::alloc::Global;

/// A key with its own history.
#[derive(Debug, Drop)]
pub struct KeyHistory {
    /// The key in normal form.
    pub key: Value,
    /// What clients did with it, in order, with their values without the key.
    pub history: Vec<Op>,
}

/// Splits a history of independent keys: the history of each key, in the normal order of the keys
/// (`jepsen.independent`).
///
/// What a key is, and what its history has, stands at `check_keys_serial`, which judges these
/// histories.
///
/// Errors: `BadValue` at the least place of a client's operation that has no tuple, then
/// `OutOfMemory`. Never another.
///
/// Takes O(n log n) comparisons of keys for n operations, and copies each operation once.
pub fn histories_by_key(alloc: Global, history: &[Op]) -> Result<Vec<KeyHistory>, KeysError>
    ensures { MatchResult result
        (λ parts. AreTuples (operations history.now)
        × (view_histories parts.items ≡ histories_of (operations history.now)))
        (RefusesKeySplit (operations history.now)) }
{
    let groups = split(alloc, history)?;
    let mut parts = Vec::with_capacity(alloc, groups.len())?;
    for group in groups {
        let own = history_of(alloc, history, &group)?;
        parts.push(KeyHistory {
            key: group.key,
            history: own,
        })?;
    }
    Ok(parts)
}

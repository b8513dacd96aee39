//! Lists of nodes: whether they have each node once, and how they are split. `specs/Lists.antt`
//! says it.

ghost use Rattle.std.specs.Prelude.{◌≡◌, ◌↔◌, ◌++◌, List, ℕ, IfOk, IsTrue, MatchBool, MatchResult};
ghost use Rattle.std.specs.List.{Contains};
ghost use Rattle.jh_grudge.specs.Lists.{
  AreDistinct,
  RefusesSplit,
  first_half,
  nodes_end_to_end,
  lists_of,
  second_half,
  split_of,
};
ghost use Rattle.jh_grudge.specs.Marks.{AreMetNodes};
ghost use Rattle.jh_grudge.specs.declared.lists.SplitError.TheVariants.{OutOfMemory};

use std::alloc::{AllocError, AllocFailed, Global};
use thiserror::Error;

/// Why a list is not split.
#[derive(Clone, Copy, Debug, PartialEq, Eq, Error)]
pub enum SplitError {
    /// The loner is not in the list.
    #[error("unknown node")]
    UnknownNode,
    #[error("out of memory")]
    OutOfMemory,
}

impl From<AllocError> for SplitError {
    ghost from_gives = { λ _ e. e ≡ OutOfMemory };

    fn from(_error: AllocError) -> SplitError {
        SplitError::OutOfMemory
    }
}

impl<T: Drop> From<AllocFailed<T>> for SplitError {
    ghost from_gives = { λ _ e. e ≡ OutOfMemory };

    fn from(_error: AllocFailed<T>) -> SplitError {
        SplitError::OutOfMemory
    }
}

/// Marks each of these nodes, up to the first that is marked already.
fn mark_new(seen: &mut [bool; 256], nodes: &[u8]) -> bool
    ensures { (before : List ℕ) → AreMetNodes seen.old before
        → MatchBool result (AreMetNodes seen.new (before ++ nodes.now))
        (¬ AreDistinct (before ++ nodes.now)) }
{
    for node in nodes {
        let place = usize::from(*node);
        if seen[place] {
            return false;
        }
        seen[place] = true;
    }
    true
}

/// Whether no node stands twice in a list.
pub fn distinct(nodes: &[u8]) -> bool
    ensures { IsTrue result ↔ AreDistinct nodes.now }
{
    let mut seen = [false; 256];
    mark_new(&mut seen, nodes)
}

/// Whether no node stands twice in the components, neither in one nor in two of them.
pub fn distinct_components(components: &[Vec<u8>]) -> bool
    ensures { IsTrue result ↔ AreDistinct (nodes_end_to_end components.now) }
{
    let mut seen = [false; 256];
    for component in components {
        if !mark_new(&mut seen, component) {
            return false;
        }
    }
    true
}

/// Cuts a list into two halves; of an odd number of nodes the second has one more (Jepsen's
/// `bisect`).
pub fn bisect(nodes: &[u8]) -> (&[u8], &[u8])
    ensures first { result.0.now ≡ first_half nodes.now }
    ensures second { result.1.now ≡ second_half nodes.now }
    ensures whole { result.0.now ++ result.1.now ≡ nodes.now }
{
    nodes.split_at(nodes.len() / 2)
}

/// Splits a list into the loner and the rest, in order (Jepsen's `split-one`).
///
/// Errors: `UnknownNode` where the loner is not in the list, `OutOfMemory`.
pub fn split_one(alloc: Global, nodes: &[u8], loner: u8) -> Result<Vec<Vec<u8>>, SplitError>
    ensures parts { MatchResult result
        (λ parts. Contains nodes.now loner × (lists_of parts.items ≡ split_of loner nodes.now))
        (RefusesSplit nodes.now loner) }
    ensures distinct { AreDistinct nodes.now
        → IfOk result (λ parts. AreDistinct (nodes_end_to_end parts.items)) }
{
    if !nodes.contains(&loner) {
        return Err(SplitError::UnknownNode);
    }
    let alone = vec![in alloc; loner]?;
    let others: Vec<u8> = nodes
        .iter()
        .copied()
        .filter(|node| *node != loner)
        .collect(alloc)?;
    Ok(vec![in alloc; alone, others]?)
}

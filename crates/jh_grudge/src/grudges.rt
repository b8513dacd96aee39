//! The grudges that Jepsen's partitions are made of. `specs/Grudges.antt` says which links each
//! cuts.

ghost use Rattle.std.specs.Prelude.{◌≡◌, ◌↔◌, ℕ, List, IsTrue, MatchResult, IfOk, drop};
ghost use Rattle.std.specs.List.{All, Contains};
ghost use Rattle.jh_grudge.specs.Lists.{AreDistinct, nodes_end_to_end, lists_of};
ghost use Rattle.jh_grudge.specs.Grudges.{
  BridgeDrops,
  CompleteDrops,
  CutsExactly,
  DropsSome,
  IsAscending,
  JoinsTwoOf,
  RingDrops,
};
ghost use Rattle.jh_grudge.specs.Ranks.{DropsIn};

use crate::lists;
use crate::ranks::{self, Ranks, Rule};
use std::alloc::{AllocError, Global};
use std::marker::Model;

/// Which node drops the messages of which.
#[derive(Debug, Drop)]
pub struct Grudge {
    links: Vec<(u8, u8)>,
}

impl Model for Grudge {
    ghost Value = { List (ℕ × ℕ) };

    ghost view = { λ g. g.links.items };

    ghost invariant = { λ g. IsAscending g.links.items };
}

impl Grudge {
    /// Whether a node drops what another sends to it: false where one of them is no node of the
    /// grudge. A binary search of the links.
    pub fn drops(&self, dst: u8, src: u8) -> bool
        ensures { IsTrue result ↔ Contains self.now (src, dst) }
    {
        self.links.binary_search(&(src, dst)).is_ok()
    }

    /// The links on which messages are dropped, each as its source and its destination, ascending.
    pub fn links(&self) -> &[(u8, u8)]
        ensures links { result.now ≡ self.now }
        ensures ascending { IsAscending self.now }
    {
        &self.links
    }
}

/// The grudge that a rule makes of ranks.
fn grudge_by(alloc: Global, ranks: &Ranks, rule: Rule) -> Result<Grudge, AllocError>
    ensures links { MatchResult result
        (CutsExactly (DropsIn rule ranks.now))
        (λ _. DropsSome (DropsIn rule ranks.now)) }
    ensures ascending { IfOk result IsAscending }
{
    let links = ranks::links_by(alloc, ranks, rule)?;
    Ok(Grudge { links })
}

/// A complete grudge: nodes of different components drop each other (Jepsen's `complete-grudge`).
/// The components have each node once, as `distinct_components` tests.
///
/// Takes 256 steps for each node. Memory is wanted for the links alone, and for none if there is
/// none.
pub fn complete_grudge(alloc: Global, components: &[Vec<u8>]) -> Result<Grudge, AllocError>
    requires { AreDistinct (nodes_end_to_end components.now) }
    ensures links { MatchResult result
        (CutsExactly (CompleteDrops (lists_of components.now)))
        (λ _. DropsSome (CompleteDrops (lists_of components.now))) }
    ensures ascending { IfOk result IsAscending }
    ensures among { IfOk result (All (JoinsTwoOf (nodes_end_to_end components.now))) }
{
    let mut ranks = [None; 256];
    for (number, component) in components.iter().enumerate() {
        ranks::rank_all(&mut ranks, component, number);
    }
    grudge_by(alloc, &ranks, Rule::Apart)
}

/// A list without its first node, if it has one.
fn without_first(nodes: &[u8]) -> &[u8]
    ensures { result.now ≡ drop 1 nodes.now }
{
    match nodes {
        [_first, others @ ..] => others,
        [] => nodes,
    }
}

/// A bridge: the first half of the nodes and the second half without its first node drop each
/// other, and that node, the bridge, talks to all (Jepsen's `bridge`). The list has each node once,
/// as `distinct` tests.
///
/// Takes 256 steps for each node. Memory is wanted for the links alone, and for none if there is
/// none.
pub fn bridge(alloc: Global, nodes: &[u8]) -> Result<Grudge, AllocError>
    requires { AreDistinct nodes.now }
    ensures links { MatchResult result
        (CutsExactly (BridgeDrops nodes.now))
        (λ _. DropsSome (BridgeDrops nodes.now)) }
    ensures ascending { IfOk result IsAscending }
    ensures among { IfOk result (All (JoinsTwoOf nodes.now)) }
{
    let mut ranks = [None; 256];
    let (first, second) = lists::bisect(nodes);
    ranks::rank_all(&mut ranks, first, 0);
    ranks::rank_all(&mut ranks, without_first(second), 1);
    grudge_by(alloc, &ranks, Rule::Apart)
}

/// A ring of majorities: each node sees the smallest majority that begins with itself in the order
/// of the list, around, and drops all others (Jepsen's `majorities-ring`). The list has each node
/// once, as `distinct` tests.
///
/// Takes 256 steps for each node. Memory is wanted for the links alone, and for none if there is
/// none.
pub fn majorities_ring(alloc: Global, nodes: &[u8]) -> Result<Grudge, AllocError>
    requires { AreDistinct nodes.now }
    ensures links { MatchResult result
        (CutsExactly (RingDrops nodes.now))
        (λ _. DropsSome (RingDrops nodes.now)) }
    ensures ascending { IfOk result IsAscending }
    ensures among { IfOk result (All (JoinsTwoOf nodes.now)) }
{
    let mut ranks = [None; 256];
    for (place, node) in nodes.iter().enumerate() {
        ranks[usize::from(*node)] = Some(place);
    }
    grudge_by(alloc, &ranks, Rule::Ring(nodes.len()))
}

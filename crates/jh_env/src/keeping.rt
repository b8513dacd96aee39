//! What a fault keeps of its links, nodes or bumps: each link and node once, in the order of their
//! first mentions. `specs/Faults.antt` says which these are.

ghost use Rattle.std.specs.Prelude.{◌≡◌, ◌≢◌, ◌<◌, [], ◌∷◌, length, IfOk, MatchResult, OnOk};
ghost use Rattle.std.specs.List.{All, filter_map};
ghost use Rattle.jh_env.specs.Faults as rule;
ghost use Rattle.jh_env.specs.Faults.{AreKnownLinks, kept_list};

use crate::names::Nodes;
use crate::naming::{NamesBump, NamesLink, NamesNode};
use indexmap::IndexSet;
use jh_tables::Node;
use std::alloc::{AllocError, Global};
use std::hash::Hash;

/// Keeps one more, if it is not kept yet. What is kept stands in the set too, to be looked up there.
fn keep<T: Copy + Eq + Hash + Drop>(
    seen: &mut IndexSet<T>,
    kept: &mut Vec<T>,
    item: T,
) -> Result<(), AllocError>
    requires { seen.old.keys ≡ kept.old.items }
    ensures { OnOk result ((seen.new.keys ≡ kept.new.items)
        × (kept.new.items ≡ kept_list T.eq kept.old.items (item ∷ []))) }
{
    if seen.insert(item)? {
        kept.push(item)?;
    }
    Ok(())
}

/// The links that these stand for, each once, in the order of their first mentions.
pub(crate) fn kept_links<L: NamesLink>(
    alloc: Global,
    nodes: &Nodes,
    links: &[L],
) -> Result<Vec<(Node, Node)>, AllocError>
    ensures kept { MatchResult result
        (λ kept. kept.items ≡ rule.kept_links (filter_map (L.linked nodes.now) links.now))
        (λ _. links.now ≢ []) }
    ensures known { IfOk result (λ kept. AreKnownLinks (length nodes.now) kept.items) }
{
    let mut seen = IndexSet::new(alloc);
    let mut kept = Vec::new(alloc);
    for link in links {
        if let Some(ends) = link.ends(nodes) {
            keep(&mut seen, &mut kept, ends)?;
        }
    }
    Ok(kept)
}

/// The nodes that these stand for, each once, in the order of their first mentions.
pub(crate) fn kept_nodes<N: NamesNode>(
    alloc: Global,
    nodes: &Nodes,
    named: &[N],
) -> Result<Vec<Node>, AllocError>
    ensures kept { MatchResult result
        (λ kept. kept.items ≡ rule.kept_nodes (filter_map (N.named nodes.now) named.now))
        (λ _. named.now ≢ []) }
    ensures known { IfOk result (λ kept. All (λ n. n < length nodes.now) kept.items) }
{
    let mut seen = IndexSet::new(alloc);
    let mut kept = Vec::new(alloc);
    for node in named {
        if let Some(node) = node.node(nodes) {
            keep(&mut seen, &mut kept, node)?;
        }
    }
    Ok(kept)
}

/// The bumps that these stand for, in order.
pub(crate) fn all_bumps<B: NamesBump>(
    alloc: Global,
    nodes: &Nodes,
    bumps: &[B],
) -> Result<Vec<(Node, i64)>, AllocError>
    ensures all { MatchResult result
        (λ all. all.items ≡ filter_map (B.bumped nodes.now) bumps.now)
        (λ _. bumps.now ≢ []) }
    ensures known { IfOk result (λ all. All (λ b. b.0 < length nodes.now) all.items) }
{
    let mut all = Vec::new(alloc);
    for bump in bumps {
        if let Some(bump) = bump.bump(nodes) {
            all.push(bump)?;
        }
    }
    Ok(all)
}

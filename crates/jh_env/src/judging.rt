//! Why a fault is refused, however its links, nodes or bumps are given: an unknown node, a link of
//! a node with itself, an amount out of its range, a node that is bumped twice. `specs/Naming.antt`
//! has the rule. `amounts.rt` says which amounts of a fault of links are in their ranges. Memory may
//! be refused later, when what a fault keeps is put together (`keeping.rt`).

ghost use Rattle.std.specs.Prelude.{◌≡◌, ◌==◌, [], MatchResult, Ok, Err, is_none};
ghost use Rattle.std.specs.List.{filter_map, list_all, list_any};
ghost use Rattle.jh_env.specs.Amounts.{IsLinkAmount, link_fault_of};
ghost use Rattle.jh_env.specs.Faults.{is_self_link, kept_links};
ghost use Rattle.jh_env.specs.Naming as rule;
ghost use Rattle.jh_tables.specs.Plain.{fault_on_links};

use crate::amounts::GivenLinkFault;
use crate::faults::{FaultError, MAX_BUMPED_MS};
use crate::names::Nodes;
use crate::naming::{NamesBump, NamesLink, NamesNode};
use jh_tables::{LinkFault, Node};

/// Whether the amount of a bump is in its range.
fn is_bump_amount(ms: i64) -> bool
    ensures { result ≡ rule.is_bump_amount ms }
{
    ms != 0 && -MAX_BUMPED_MS <= ms && ms <= MAX_BUMPED_MS
}

/// Whether one of these is no link between nodes.
pub(crate) fn is_any_end_unknown<L: NamesLink>(nodes: &Nodes, links: &[L]) -> bool
    ensures { result ≡ list_any (λ l. is_none (L.linked nodes.now l)) links.now }
{
    links.iter().any(|link| link.ends(nodes).is_none())
}

/// Whether one of these is a link from a node to itself.
pub(crate) fn is_any_self_link<L: NamesLink>(nodes: &Nodes, links: &[L]) -> bool
    ensures { result ≡ list_any is_self_link (filter_map (L.linked nodes.now) links.now) }
{
    links.iter().filter_map(|link| link.ends(nodes)).any(|(source, destination)| source.place()
        == destination.place())
}

/// Whether one of these is no node.
pub(crate) fn is_any_node_unknown<N: NamesNode>(nodes: &Nodes, named: &[N]) -> bool
    ensures { result ≡ list_any (λ n. is_none (N.named nodes.now n)) named.now }
{
    named.iter().any(|node| node.node(nodes).is_none())
}

/// Whether one of these bumps no node.
pub(crate) fn is_any_bump_unknown<B: NamesBump>(nodes: &Nodes, bumps: &[B]) -> bool
    ensures { result ≡ list_any (λ b. is_none (B.bumped nodes.now b)) bumps.now }
{
    bumps.iter().any(|bump| bump.bump(nodes).is_none())
}

/// Whether the amount of each bump is in its range.
pub(crate) fn are_bump_amounts<B: NamesBump>(nodes: &Nodes, bumps: &[B]) -> bool
    ensures { result
        ≡ list_all (λ b. rule.is_bump_amount b.1) (filter_map (B.bumped nodes.now) bumps.now) }
{
    bumps
        .iter()
        .filter_map(|bump| bump.bump(nodes))
        .all(|bump| is_bump_amount(bump.1))
}

/// Whether one of these bumps the node.
fn is_bumped<B: NamesBump>(nodes: &Nodes, bumps: &[B], node: Node) -> bool
    ensures { result
        ≡ list_any (λ b. b.0 == node) (filter_map (B.bumped nodes.now) bumps.now) }
{
    bumps
        .iter()
        .filter_map(|bump| bump.bump(nodes))
        .any(|other| other.0.place() == node.place())
}

/// Whether no node is bumped twice. The first repeat ends the search, so each bump is compared with
/// at most as many as there are nodes.
pub(crate) fn are_apart<B: NamesBump>(nodes: &Nodes, bumps: &[B]) -> bool
    ensures { result ≡ rule.are_apart_after [] (filter_map (B.bumped nodes.now) bumps.now) }
{
    for place in 0..bumps.len() {
        if let Some(bump) = bumps[place].bump(nodes) {
            if is_bumped(nodes, &bumps[..place], bump.0) {
                return false;
            }
        }
    }
    true
}

/// What a fault does to these links, or why such a fault is refused whatever memory there is.
pub(crate) fn judged_kind<L: NamesLink>(
    nodes: &Nodes,
    given: GivenLinkFault,
    links: &[L],
) -> Result<LinkFault, FaultError>
    ensures { MatchResult result
        (λ kind. IsLinkAmount kind
        × (rule.judged_links (L.linked nodes.now) (link_fault_of given) links.now
        ≡ Ok (fault_on_links kind (kept_links (filter_map (L.linked nodes.now) links.now)))))
        (λ e. rule.judged_links (L.linked nodes.now) (link_fault_of given) links.now ≡ Err e) }
{
    if is_any_end_unknown(nodes, links) {
        return Err(FaultError::UnknownNode);
    }
    if is_any_self_link(nodes, links) {
        return Err(FaultError::SelfLink);
    }
    match given.judged() {
        Some(kind) => Ok(kind),
        None => Err(FaultError::BadAmount),
    }
}

//! The links and nodes that some faults name, each with what it is at a moment.
//! `specs/NamedCells.antt` has the rule.

ghost use Rattle.std.specs.Prelude.{◌≡◌, ◌++◌, [], map, IfOk, OnOk};
ghost use Rattle.std.specs.List.{cons_option, list_any};
ghost use Rattle.std.specs.List.Sorted.{IsStrictlySortedBy};
ghost use Rattle.jh_test_parts.specs.NamedCells as rule;
ghost use Rattle.jh_test_parts.specs.ChangesInside as inside;
ghost use Rattle.jh_test_parts.specs.ChangesInside.{AreNamedLinks, AreNamedNodes};

use jh_env::{Env, Fault, Link, Node, NodeCell, PlainFault};
use std::alloc::{AllocError, Global};
use std::marker::Model;

/// The links and nodes that some faults name, each with what it is at a moment. A contract sees two
/// lists.
#[derive(Debug, Drop)]
pub struct NamedCells {
    /// Each link with its source and its destination.
    pub(crate) links: Vec<(Node, Node, Link)>,
    pub(crate) nodes: Vec<(Node, NodeCell)>,
}

impl Model for NamedCells {
    ghost use Rattle.jh_test_parts.specs.NamedCells.{NamedCellsValue};

    ghost Value = { NamedCellsValue };

    ghost view = { λ a. record { links = a.links.items; nodes = a.nodes.items } };
}

/// Adds the links that a fault names.
fn push_links(links: &mut Vec<(Node, Node)>, fault: &Fault) -> Result<(), AllocError>
    ensures { OnOk result (links.new.items ≡ links.old.items ++ inside.links_of_fault fault.now) }
{
    if let PlainFault::OnLinks(_, named) = fault.parts() {
        links.extend_from_slice(named)?;
    }
    Ok(())
}

/// Adds the nodes that are bumped.
fn push_bumped(nodes: &mut Vec<Node>, bumps: &[(Node, i64)]) -> Result<(), AllocError>
    ensures { OnOk result (nodes.new.items ≡ nodes.old.items ++ map (λ b. b.0) bumps.now) }
{
    for bump in bumps {
        nodes.push(bump.0)?;
    }
    Ok(())
}

/// Adds the nodes that a fault names.
fn push_nodes(nodes: &mut Vec<Node>, fault: &Fault) -> Result<(), AllocError>
    ensures { OnOk result (nodes.new.items ≡ nodes.old.items ++ inside.nodes_of_fault fault.now) }
{
    match fault.parts() {
        PlainFault::OnLinks(_, _) => Ok(()),
        PlainFault::OnNodes(_, named) => nodes.extend_from_slice(named),
        PlainFault::Bump(bumps) => push_bumped(nodes, bumps),
    }
}

/// Puts items in ascending order, and keeps each once.
fn sort_once<T: Copy + Ord + Drop>(items: &mut Vec<T>)
    ensures order { IsStrictlySortedBy T.cmp items.new.items }
    ensures same { (x : T) → list_any (T.eq x) items.new.items ≡ list_any (T.eq x) items.old.items }
{
    items.sort_unstable();
    items.dedup();
}

/// The links that faults name, each once, by source and then by destination.
fn links_of_faults(alloc: Global, faults: &[&Fault]) -> Result<Vec<(Node, Node)>, AllocError>
    ensures { IfOk result (λ links. AreNamedLinks (map (λ f. f.now) faults.now) links.items) }
{
    let mut links = Vec::new(alloc);
    for fault in faults {
        push_links(&mut links, fault)?;
    }
    sort_once(&mut links);
    Ok(links)
}

/// The nodes that faults name, each once, by place.
fn nodes_of_faults(alloc: Global, faults: &[&Fault]) -> Result<Vec<Node>, AllocError>
    ensures { IfOk result (λ nodes. AreNamedNodes (map (λ f. f.now) faults.now) nodes.items) }
{
    let mut nodes = Vec::new(alloc);
    for fault in faults {
        push_nodes(&mut nodes, fault)?;
    }
    sort_once(&mut nodes);
    Ok(nodes)
}

/// The link from the first of two nodes to the second, where there is one.
fn placed_link(env: &Env, ends: (Node, Node)) -> Option<(Node, Node, Link)>
    ensures { result ≡ rule.placed_link env.now ends }
{
    let link = env.link(ends.0, ends.1)?;
    Some((ends.0, ends.1, link))
}

/// The node, where there is one.
fn placed_node(env: &Env, node: Node) -> Option<(Node, NodeCell)>
    ensures { result ≡ rule.placed_node env.now node }
{
    let cell = env.node(node)?;
    Some((node, cell))
}

/// Adds an item, if there is one.
pub(crate) fn push_some<T: Drop>(items: &mut Vec<T>, item: Option<T>) -> Result<(), AllocError>
    ensures { OnOk result (items.new.items ≡ items.old.items ++ cons_option item []) }
{
    if let Some(item) = item {
        items.push(item)?;
    }
    Ok(())
}

/// The links that faults name, with what they are.
fn all_links_named(
    alloc: Global,
    env: &Env,
    faults: &[&Fault],
) -> Result<Vec<(Node, Node, Link)>, AllocError>
    ensures { IfOk result
        (λ links. links.items ≡ rule.all_links_named env.now (map (λ f. f.now) faults.now)) }
{
    let named = links_of_faults(alloc, faults)?;
    let mut links = Vec::new(alloc);
    for ends in named.as_slice() {
        push_some(&mut links, placed_link(env, *ends))?;
    }
    Ok(links)
}

/// The nodes that faults name, with what they are.
fn all_nodes_named(
    alloc: Global,
    env: &Env,
    faults: &[&Fault],
) -> Result<Vec<(Node, NodeCell)>, AllocError>
    ensures { IfOk result
        (λ nodes. nodes.items ≡ rule.all_nodes_named env.now (map (λ f. f.now) faults.now)) }
{
    let named = nodes_of_faults(alloc, faults)?;
    let mut nodes = Vec::new(alloc);
    for node in named.as_slice() {
        push_some(&mut nodes, placed_node(env, *node))?;
    }
    Ok(nodes)
}

impl NamedCells {
    /// The links and nodes of an environment that some of these faults name, with what they are.
    /// Where the faults name n links and nodes, those counted again that several of them name, it
    /// takes n log n comparisons, and reads each link and node once.
    pub fn of(alloc: Global, env: &Env, faults: &[&Fault]) -> Result<Self, AllocError>
        ensures { IfOk result
            (λ cells. cells ≡ rule.cells_named env.now (map (λ f. f.now) faults.now)) }
    {
        Ok(NamedCells {
            links: all_links_named(alloc, env, faults)?,
            nodes: all_nodes_named(alloc, env, faults)?,
        })
    }
}

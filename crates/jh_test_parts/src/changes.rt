//! Which cells a step changed. `specs/Changes.antt` has the rule.

ghost use Rattle.std.specs.Prelude.{◌≡◌, IfOk, IfSome, List, filter_map};
ghost use Rattle.std.specs.List.{All};
ghost use Rattle.jh_tables.specs.Standing.{IsLinkInRange};
ghost use Rattle.jh_env.specs.Faults.{FaultValue};
ghost use Rattle.jh_env.specs.Overlay.{EnvValue, StandsFor};
ghost use Rattle.jh_nemesis.specs.Changed.{AgreeElsewhere};
ghost use Rattle.jh_test_parts.specs.NamedCells.{cells_named};
ghost use Rattle.jh_test_parts.specs.Changes as rule;
ghost use Rattle.jh_test_parts.specs.ChangesInside as inside;

use crate::named::{NamedCells, push_some};
use crate::records::{ChangedCells, ChangedLink, ChangedNode};
use jh_env::{Env, Life, Link, Node, NodeCell};
use std::alloc::{AllocError, Global};

/// Whether two links are alike.
fn are_same_links(one: Link, other: Link) -> bool
    ensures { result ≡ rule.are_same_links one other }
{
    one.cut == other.cut && one.delay == other.delay && one.loss == other.loss
}

/// Whether two processes do the same.
fn is_same_life(one: Life, other: Life) -> bool
    ensures { result ≡ rule.is_same_life one other }
{
    match (one, other) {
        (Life::Running, Life::Running) => true,
        (Life::Paused, Life::Paused) => true,
        (Life::Killed, Life::Killed) => true,
        _ => false,
    }
}

/// Whether two nodes are alike.
fn are_same_nodes(one: NodeCell, other: NodeCell) -> bool
    ensures { result ≡ rule.are_same_nodes one other }
{
    is_same_life(one.process, other.process) && one.clock == other.clock
}

/// A link with what it now is, where it is another one in this environment.
fn link_if_changed(after: &Env, link: (Node, Node, Link)) -> Option<ChangedLink>
    ensures changed { result ≡ inside.link_if_changed after.now link }
    ensures within { IfSome result (λ changed. IsLinkInRange changed.link) }
{
    let (source, destination, was) = link;
    let link = after.link(source, destination)?;
    if are_same_links(was, link) {
        return None;
    }
    Some(ChangedLink {
        source,
        destination,
        link,
    })
}

/// A node with what it now is, where it is another one in this environment.
fn node_if_changed(after: &Env, node: (Node, NodeCell)) -> Option<ChangedNode>
    ensures { result ≡ inside.node_if_changed after.now node }
{
    let (node, was) = node;
    let cell = after.node(node)?;
    if are_same_nodes(was, cell) {
        return None;
    }
    Some(ChangedNode { node, cell })
}

/// Those of these links that are others in an environment.
fn links_changed(
    alloc: Global,
    links: &[(Node, Node, Link)],
    after: &Env,
) -> Result<Vec<ChangedLink>, AllocError>
    ensures changed { IfOk result
        (λ changed. changed.items ≡ filter_map (inside.link_if_changed after.now) links.now) }
    ensures within { IfOk result (λ changed. All (λ link. IsLinkInRange link.link) changed.items) }
{
    let mut changed = Vec::new(alloc);
    for link in links {
        push_some(&mut changed, link_if_changed(after, *link))?;
    }
    Ok(changed)
}

/// Those of these nodes that are others in an environment.
fn nodes_changed(
    alloc: Global,
    nodes: &[(Node, NodeCell)],
    after: &Env,
) -> Result<Vec<ChangedNode>, AllocError>
    ensures { IfOk result
        (λ changed. changed.items ≡ filter_map (inside.node_if_changed after.now) nodes.now) }
{
    let mut changed = Vec::new(alloc);
    for node in nodes {
        push_some(&mut changed, node_if_changed(after, *node))?;
    }
    Ok(changed)
}

impl NamedCells {
    /// Those of these links and nodes that are not the same in a later environment, each with what it is
    /// there. If these are the cells that some faults name, as they were before, and every other cell has
    /// stayed the same, these are all cells that changed. Takes time for each of these links and nodes.
    pub fn changed(&self, alloc: Global, after: &Env) -> Result<ChangedCells, AllocError>
        ensures { (before : EnvValue) (named earlier later : List FaultValue)
            → self.now ≡ cells_named before named
            → StandsFor before earlier → StandsFor after.now later
            → after.now.start ≡ before.start → AgreeElsewhere named earlier later
            → IfOk result (λ cells. cells ≡ rule.changed_cells before.start earlier later) }
    {
        Ok(ChangedCells {
            links: links_changed(alloc, &self.links, after)?,
            nodes: nodes_changed(alloc, &self.nodes, after)?,
        })
    }
}

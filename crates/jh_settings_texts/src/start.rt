//! Whether an environment is as one may be at a start, so that its text is read as a start.

ghost use Rattle.std.specs.Prelude.{◌↔◌, All, IfSome, IsTrue};
ghost use Rattle.jh_env.specs.Starting.{IsStartingLink, IsStartingNode};
ghost use Rattle.jh_settings_texts.specs.StartInside.{HasStartingCells, MayStartLink, MayStartNode};

use jh_env::{Env, Link, MAX_START_DELAY_MS, MAX_START_LOSS, MAX_START_OFFSET_MS, Node, NodeCell};

/// Whether a link, where there is one, is as it may be at a start.
fn is_starting_link(link: Option<Link>) -> bool
    ensures { IsTrue result ↔ IfSome link IsStartingLink }
{
    match link {
        Some(link) => link.delay <= MAX_START_DELAY_MS && link.loss <= MAX_START_LOSS,
        None => true,
    }
}

/// Whether a node, where there is one, is as it may be at a start.
fn is_starting_node(cell: Option<NodeCell>) -> bool
    ensures { IsTrue result ↔ IfSome cell IsStartingNode }
{
    match cell {
        Some(cell) => (-MAX_START_OFFSET_MS..=MAX_START_OFFSET_MS).contains(&cell.clock),
        None => true,
    }
}

/// Whether each link from a node to these is as it may be at a start.
fn links_may_start(env: &Env, from: Node, nodes: &[Node]) -> bool
    ensures { IsTrue result ↔ All (MayStartLink env.now from) nodes.now }
{
    for to in nodes {
        if !is_starting_link(env.link(from, *to)) {
            return false;
        }
    }
    true
}

/// Whether each link between these nodes is as it may be at a start.
fn all_links_may_start(env: &Env, nodes: &[Node]) -> bool
    ensures { IsTrue result ↔ All (λ from. All (MayStartLink env.now from) nodes.now) nodes.now }
{
    for from in nodes {
        if !links_may_start(env, *from, nodes) {
            return false;
        }
    }
    true
}

/// Whether each of these nodes is as it may be at a start.
fn nodes_may_start(env: &Env, nodes: &[Node]) -> bool
    ensures { IsTrue result ↔ All (MayStartNode env.now) nodes.now }
{
    for node in nodes {
        if !is_starting_node(env.node(*node)) {
            return false;
        }
    }
    true
}

/// Whether each link and each node is as it may be at a start. `CanStart` of `jh_env`, by which a
/// start is printed, asks for this, and besides for what holds of the names and cells of every `Env`.
pub(crate) fn may_start(env: &Env) -> bool
    ensures { IsTrue result ↔ HasStartingCells env.now }
{
    let nodes = env.nodes().all();
    all_links_may_start(env, nodes.as_slice()) && nodes_may_start(env, nodes.as_slice())
}

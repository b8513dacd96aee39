//! Whom a call of a node reaches. `specs/Reach.antt` has the rule.

ghost use Rattle.std.specs.Prelude.{◌≡◌, ◌<◌, ◌≤◌, length};
ghost use Rattle.std.specs.List.{All};
ghost use Rattle.jh_tables.specs.Limits.{max_nodes};
ghost use Rattle.jh_simnode.specs.Reach.{env_cells, is_node_running, is_node_killed, is_reached};
ghost use Rattle.jh_simnode.specs.Reach.{is_timely, reached_nodes, responding_nodes, carries};
ghost use Rattle.jh_simnode.specs.Reach.{delay_of};
ghost use Rattle.jh_simnode.specs.Stores.{is_uncut};

use arrayvec::ArrayVec;
use jh_env::{Env, Life, Link, MAX_LOSS, Node};
use jh_tables::MAX_NODES;

/// Some of the nodes, in order.
pub(crate) type SomeNodes = ArrayVec<Node, MAX_NODES>;

/// How many milliseconds the links to a node and back may take together, so that its answer comes
/// in time.
const MAX_ANSWER_MS: u128 = 1_000;

/// Whether a node runs.
pub(crate) fn is_node_running(env: &Env, node: Node) -> bool
    ensures { result ≡ is_node_running ((env_cells env.now).node node) }
{
    match env.node(node) {
        Some(cell) => cell.process == Life::Running,
        None => false,
    }
}

/// Whether a node is killed.
pub(crate) fn is_node_killed(env: &Env, node: Node) -> bool
    ensures { result ≡ is_node_killed ((env_cells env.now).node node) }
{
    match env.node(node) {
        Some(cell) => cell.process == Life::Killed,
        None => false,
    }
}

/// Whether the link carries a call of this draw.
fn is_carried(link: Option<Link>, draw: u64) -> bool
    ensures { result ≡ carries draw link }
{
    match link {
        Some(link) => !link.cut && link.loss as u64 <= draw % u64::from(MAX_LOSS),
        None => false,
    }
}

/// Whether the link is there and uncut.
pub(crate) fn is_open(link: Option<Link>) -> bool
    ensures { result ≡ is_uncut link }
{
    match link {
        Some(link) => !link.cut,
        None => false,
    }
}

/// How long a message takes on the link.
fn delay_on(link: Option<Link>) -> u64
    ensures { result ≡ delay_of link }
{
    match link {
        Some(link) => link.delay,
        None => 0,
    }
}

/// Whether a call of a node reaches another, and its answer comes back.
fn is_reached(env: &Env, draw: u64, node: Node, other: Node) -> bool
    ensures { result ≡ is_reached (env_cells env.now) draw node other }
{
    if other.place() == node.place() {
        return true;
    }
    is_node_running(env, other)
        && is_carried(env.link(node, other), draw)
        && is_carried(env.link(other, node), draw)
}

/// The nodes that a call of a node reaches.
pub(crate) fn reached_nodes(env: &Env, draw: u64, node: Node) -> SomeNodes
    ensures nodes { result.items
        ≡ reached_nodes (env_cells env.now) (length env.now.names) draw node }
    ensures known { All (λ p. p < length env.now.names) result.items }
{
    let mut reached = SomeNodes::new();
    for other in env.nodes().all().as_slice() {
        if is_reached(env, draw, node, *other) {
            reached.push(*other);
        }
    }
    reached
}

/// Whether a node that was reached responds in time.
fn is_timely(env: &Env, node: Node, other: Node) -> bool
    ensures { result ≡ is_timely (env_cells env.now) node other }
{
    if other.place() == node.place() {
        return true;
    }
    delay_on(env.link(node, other)) as u128 + delay_on(env.link(other, node)) as u128
        <= MAX_ANSWER_MS
}

/// Those of the nodes reached whose answers come in time.
pub(crate) fn responding_nodes(env: &Env, node: Node, reached: &[Node]) -> SomeNodes
    requires known { All (λ p. p < length env.now.names) reached.now }
    requires few { length reached.now ≤ max_nodes }
    ensures nodes { result.items ≡ responding_nodes (env_cells env.now) node reached.now }
    ensures known { All (λ p. p < length env.now.names) result.items }
{
    let mut responding = SomeNodes::new();
    for other in reached {
        if is_timely(env, node, *other) {
            responding.push(*other);
        }
    }
    responding
}

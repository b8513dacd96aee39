//! First calls of `jh_tables`, `jh_env`, `jh_grudge` and `jh_nemesis`, as their READMEs show them.

ghost use Rattle.std.specs.Prelude.{[], length, IfSome};
ghost use Rattle.jh_env.specs.Faults.{FitsCount};
ghost use Rattle.jh_env.specs.Overlay.{StandsFor, StandsWith};

use jh_env::{Env, Fault, Link, Nodes, Start};
use jh_grudge::{distinct, majorities_ring};
use jh_nemesis::Nemesis;
use jh_tables::{Life, Node, NodeCell, NodeFault, PlainFault, Tables};
use std::alloc::Global;

/// The only node of tables, once it is killed.
fn killed(alloc: Global) -> Option<NodeCell> {
    let mut tables = Tables::start(alloc, &[Link::calm()], &[NodeCell::running()]).ok()?;
    let node = Node::at(0);
    let kill = PlainFault::OnNodes(NodeFault::Kill, vec![in alloc; node].ok()?);
    tables.put(&kill, 1);
    tables.node(node)
}

#[test]
fn a_node_is_killed_in_tables(rt: HostRuntime) {
    let answer = killed(rt.alloc()).or_else(|| killed(rt.alloc()));
    assert!(rt; answer.is_some_and(|node| node.process == Life::Killed));
}

/// A cut of the link from `n1` to `n2`.
fn cut(alloc: Global, nodes: &Nodes) -> Option<Fault>
    ensures { IfSome result (FitsCount (length nodes.now)) }
{
    Fault::cut(alloc, nodes, &[(nodes.find("n1")?, nodes.find("n2")?)]).ok()
}

/// An environment of two calm nodes.
fn calm(alloc: Global) -> Option<Env>
    ensures overlaid { IfSome result (λ env. StandsFor env []) }
    ensures stamped { IfSome result (λ env. StandsWith env []) }
{
    let nodes = Nodes::of(alloc, &["n1", "n2"]).ok()?;
    Env::start(alloc, Start::new(alloc, nodes).ok()?).ok()
}

/// The link from `n1` to `n2`, once a fault is put that cuts it.
fn link_of_env(alloc: Global) -> Option<Link> {
    let mut env = calm(alloc)?;
    let cut = cut(alloc, env.nodes())?;
    env.put(&cut, 1);
    env.link(Node::at(0), Node::at(1))
}

#[test]
fn a_link_is_cut_in_an_environment(rt: HostRuntime) {
    let answer = link_of_env(rt.alloc()).or_else(|| link_of_env(rt.alloc()));
    assert!(rt; answer.is_some_and(|link| link.cut));
}

/// The link from `n1` to `n2`, once a fault has begun that cuts it.
fn link_of_nemesis(alloc: Global) -> Option<Link> {
    let mut nemesis = Nemesis::new(alloc, calm(alloc)?);
    let cut = cut(alloc, nemesis.env().nodes())?;
    nemesis.begin(7, cut).ok()?;
    nemesis.env().link(Node::at(0), Node::at(1))
}

#[test]
fn a_link_is_cut_by_a_nemesis(rt: HostRuntime) {
    let answer = link_of_nemesis(rt.alloc()).or_else(|| link_of_nemesis(rt.alloc()));
    assert!(rt; answer.is_some_and(|link| link.cut));
}

/// Whether a node drops what another sends, in a ring of majorities.
fn is_dropped(alloc: Global, nodes: &[u8], by: u8, from: u8) -> Option<bool> {
    if !distinct(nodes) {
        return None;
    }
    let grudge = majorities_ring(alloc, nodes).ok()?;
    Some(grudge.drops(by, from))
}

#[test]
fn a_node_of_a_ring_sees_its_neighbour(rt: HostRuntime) {
    let alloc = rt.alloc();
    let nodes = [0, 1, 2, 3, 4];
    let answer = is_dropped(alloc, &nodes, 0, 1).or_else(|| is_dropped(alloc, &nodes, 0, 1));
    assert_eq!(rt; answer, Some(false));
}

//! The fault that random numbers make. `specs/RandomFaults.antt` says which; a new shape or amount
//! is a case there and here.

ghost use Rattle.std.specs.Prelude.{◌≡◌, ◌<◌, ◌≤◌, ◌++◌, IfErr, IfOk, IsPermutation, Ok, OnOk};
ghost use Rattle.std.specs.Prelude.{length, map};
ghost use Rattle.std.specs.List.{All};
ghost use Rattle.jh_env.specs.Faults as env;
ghost use Rattle.jh_env.specs.Faults.{Bump, Cut, FitsCount, Fix, Kill, Loss, Pause, Slow};
ghost use Rattle.jh_env.specs.Faults.{kept_links, kept_nodes};
ghost use Rattle.jh_env.specs.Names.{node_places};
ghost use Rattle.jh_env.specs.declared.faults.FaultError.TheVariants.{OutOfMemory};
ghost use Rattle.jh_step_texts.specs.NamedFaults as named;
ghost use Rattle.jh_step_texts.specs.NamedFaults.{AreLinksAmong};
ghost use Rattle.jh_laws.specs.StepLines.{HasNoSelfLink};
ghost use Rattle.jh_random_faults.specs.RandomFaults as rule;
ghost use Rattle.jh_random_faults.specs.Named.{AreNodesOf, HasNamed};

use crate::draws::Draw;
use jh_env::{Fault, FaultError, Node, Nodes};
use jh_grudge::majorities_ring;
use jh_step_texts::{FaultKind, ring_order};
use std::alloc::{AllocError, Global};

/// How many nodes a fault of nodes names.
fn nodes_named(count: usize, choice: u64) -> usize
    requires { (1 ≤ count) × (count ≤ 64) }
    ensures named { result ≡ rule.nodes_named count choice }
    ensures within { result ≤ count }
{
    match choice {
        0 => 1,
        1 if count < 3 => 1,
        1 => (count - 1) / 2,
        _ => count / 2 + 1,
    }
}

/// Milliseconds of a delay. An answer comes in time where the links there and back take at most
/// 1,000 together (`MAX_ANSWER_MS` of `jh_simnode`): delayed both ways, and by nothing else, the
/// first two leave it in time, and the last two do not.
fn drawn_delay(choice: u64) -> u64
    ensures delay { result ≡ rule.drawn_delay choice }
    ensures slow { env.IsSlowAmount result }
    ensures fix { env.IsFixAmount result }
{
    match choice {
        0 => 50,
        1 => 400,
        2 => 600,
        _ => 1_500,
    }
}

/// A level of loss, in twentieths.
fn level_of(choice: u64) -> u8
    ensures level { result ≡ rule.level_of choice }
    ensures loss { env.IsLossAmount result }
{
    match choice {
        0 => 2,
        1 => 6,
        2 => 12,
        _ => 20,
    }
}

/// Milliseconds by which a clock is moved.
fn offset_of(choice: u64) -> i64
    ensures offset { result ≡ rule.offset_of choice }
    ensures bump { env.IsBumpAmount result }
{
    match choice {
        0 => 100,
        1 => -100,
        2 => 100_000,
        _ => -100_000,
    }
}

/// Adds the links between a node and others, both ways.
fn push_both_ways(links: &mut Vec<(Node, Node)>, node: u8, others: &[u8]) -> Result<(), AllocError>
    ensures { OnOk result
        (links.new.items ≡ links.old.items ++ rule.links_both_ways node others.now) }
{
    for other in others {
        links.push((Node::at(node), Node::at(*other)))?;
        links.push((Node::at(*other), Node::at(node)))?;
    }
    Ok(())
}

/// The links between the first so many nodes of an order and the rest.
fn links_apart(alloc: Global, order: &[u8], first: usize) -> Result<Vec<(Node, Node)>, AllocError>
    requires { first ≤ length order.now }
    ensures { IfOk result (λ links. links.items ≡ rule.links_apart first order.now) }
{
    let mut links = Vec::new(alloc);
    for node in &order[..first] {
        push_both_ways(&mut links, *node, &order[first..])?;
    }
    Ok(links)
}

/// The links between the nodes at these places.
fn links_at(alloc: Global, ends: &[(u8, u8)]) -> Result<Vec<(Node, Node)>, AllocError>
    ensures { IfOk result (λ links. links.items ≡ ends.now) }
{
    let mut links = Vec::new(alloc);
    for (source, destination) in ends {
        links.push((Node::at(*source), Node::at(*destination)))?;
    }
    Ok(links)
}

/// The links of a ring of majorities in this order.
fn ring_links(alloc: Global, order: &[u8]) -> Result<Vec<(Node, Node)>, AllocError>
    requires { IsPermutation (node_places (length order.now)) order.now }
    ensures links { IfOk result
        (λ links. links.items ≡ named.ring_links order.now (length order.now)) }
    ensures among { IfOk result (λ links. AreLinksAmong (length order.now) links.items) }
{
    let grudge = majorities_ring(alloc, order)?;
    links_at(alloc, grudge.links())
}

/// The link from the first node of an order to the second.
fn first_link(alloc: Global, order: &[u8]) -> Result<Vec<(Node, Node)>, AllocError>
    ensures { IfOk result (λ links. links.items ≡ rule.first_link order.now) }
{
    let mut links = Vec::new(alloc);
    if let [first, second, ..] = order {
        links.push((Node::at(*first), Node::at(*second)))?;
    }
    Ok(links)
}

/// The links that a fault of links names.
fn links_named(alloc: Global, order: &[u8], choice: u64) -> Result<Vec<(Node, Node)>, AllocError>
    requires some { 1 < length order.now }
    requires all { IsPermutation (node_places (length order.now)) order.now }
    ensures links { IfOk result
        (λ links. links.items ≡ rule.links_named (length order.now) order.now choice) }
    ensures among { IfOk result (λ links. AreLinksAmong (length order.now) links.items) }
{
    match choice {
        0 => first_link(alloc, order),
        1 => links_apart(alloc, order, 1),
        2 => links_apart(alloc, order, order.len() / 2),
        _ => ring_links(alloc, order),
    }
}

/// The links that a draw names among nodes, of which there are several.
fn drawn_links(alloc: Global, nodes: &Nodes, draw: Draw) -> Result<Vec<(Node, Node)>, AllocError>
    requires { 1 < length nodes.now }
    ensures links { IfOk result (λ links. links.items ≡ rule.drawn_links (length nodes.now) draw) }
    ensures among { IfOk result (λ links. AreLinksAmong (length nodes.now) links.items) }
{
    let order = ring_order(alloc, nodes, draw.order)?;
    links_named(alloc, &order, draw.shape % 4)
}

/// The nodes at these places.
fn nodes_at(alloc: Global, places: &[u8]) -> Result<Vec<Node>, AllocError>
    ensures { IfOk result (λ nodes. nodes.items ≡ places.now) }
{
    let mut nodes = Vec::new(alloc);
    for place in places {
        nodes.push(Node::at(*place))?;
    }
    Ok(nodes)
}

/// The nodes that a draw names.
fn drawn_nodes(alloc: Global, nodes: &Nodes, draw: Draw) -> Result<Vec<Node>, AllocError>
    ensures nodes { IfOk result (λ named. named.items ≡ rule.drawn_nodes (length nodes.now) draw) }
    ensures known { IfOk result (λ named. AreNodesOf (length nodes.now) named.items) }
{
    let order = ring_order(alloc, nodes, draw.order)?;
    let count = nodes_named(nodes.len(), draw.shape % 3);
    nodes_at(alloc, &order[..count])
}

/// The clocks of nodes, each moved by the same amount.
fn bumps_of(alloc: Global, nodes: &[Node], choice: u64) -> Result<Vec<(Node, i64)>, AllocError>
    ensures bumps { IfOk result
        (λ bumps. bumps.items ≡ map (λ node. (node, rule.offset_of choice)) nodes.now) }
    ensures amounts { IfOk result (λ bumps. All (λ bump. env.IsBumpAmount bump.1) bumps.items) }
{
    let mut bumps = Vec::new(alloc);
    for node in nodes {
        bumps.push((*node, offset_of(choice)))?;
    }
    Ok(bumps)
}

/// A fault that can be refused only as out of memory.
fn made(fault: Result<Fault, FaultError>) -> Result<Fault, AllocError>
    requires { IfErr fault (λ e. e ≡ OutOfMemory) }
    ensures { IfOk result (λ made. fault ≡ Ok made) }
{
    match fault {
        Ok(fault) => Ok(fault),
        Err(FaultError::OutOfMemory) => Err(AllocError),
        Err(_) => unreachable!(),
    }
}

/// The cut of the links that a draw names.
fn cut(alloc: Global, nodes: &Nodes, draw: Draw) -> Result<Fault, AllocError>
    requires several { 1 < length nodes.now }
    ensures made { IfOk result
        (λ fault. fault ≡ Cut (kept_links (rule.drawn_links (length nodes.now) draw))) }
    ensures fits { IfOk result (FitsCount (length nodes.now)) }
    ensures others { IfOk result HasNoSelfLink }
{
    let links = drawn_links(alloc, nodes, draw)?;
    made(Fault::cut(alloc, nodes, &links))
}

/// A delay of the links that a draw names, by so many milliseconds.
fn slow(alloc: Global, nodes: &Nodes, draw: Draw, ms: u64) -> Result<Fault, AllocError>
    requires several { 1 < length nodes.now }
    requires amount { env.IsSlowAmount ms }
    ensures made { IfOk result
        (λ fault. fault ≡ Slow ms (kept_links (rule.drawn_links (length nodes.now) draw))) }
    ensures fits { IfOk result (FitsCount (length nodes.now)) }
    ensures others { IfOk result HasNoSelfLink }
{
    let links = drawn_links(alloc, nodes, draw)?;
    made(Fault::slow(alloc, nodes, &links, ms))
}

/// A loss at this level on the links that a draw names.
fn loss(alloc: Global, nodes: &Nodes, draw: Draw, level: u8) -> Result<Fault, AllocError>
    requires several { 1 < length nodes.now }
    requires amount { env.IsLossAmount level }
    ensures made { IfOk result
        (λ fault. fault ≡ Loss level (kept_links (rule.drawn_links (length nodes.now) draw))) }
    ensures fits { IfOk result (FitsCount (length nodes.now)) }
    ensures others { IfOk result HasNoSelfLink }
{
    let links = drawn_links(alloc, nodes, draw)?;
    made(Fault::loss(alloc, nodes, &links, level))
}

/// The delay of the links that a draw names, fixed at so many milliseconds.
fn fix(alloc: Global, nodes: &Nodes, draw: Draw, ms: u64) -> Result<Fault, AllocError>
    requires several { 1 < length nodes.now }
    requires amount { env.IsFixAmount ms }
    ensures made { IfOk result
        (λ fault. fault ≡ Fix ms (kept_links (rule.drawn_links (length nodes.now) draw))) }
    ensures fits { IfOk result (FitsCount (length nodes.now)) }
    ensures others { IfOk result HasNoSelfLink }
{
    let links = drawn_links(alloc, nodes, draw)?;
    made(Fault::fix(alloc, nodes, &links, ms))
}

/// A pause of the nodes that a draw names.
fn pause(alloc: Global, nodes: &Nodes, draw: Draw) -> Result<Fault, AllocError>
    ensures made { IfOk result
        (λ fault. fault ≡ Pause (kept_nodes (rule.drawn_nodes (length nodes.now) draw))) }
    ensures fits { IfOk result (FitsCount (length nodes.now)) }
{
    let named = drawn_nodes(alloc, nodes, draw)?;
    made(Fault::pause(alloc, nodes, &named))
}

/// A kill of the nodes that a draw names.
fn kill(alloc: Global, nodes: &Nodes, draw: Draw) -> Result<Fault, AllocError>
    ensures made { IfOk result
        (λ fault. fault ≡ Kill (kept_nodes (rule.drawn_nodes (length nodes.now) draw))) }
    ensures fits { IfOk result (FitsCount (length nodes.now)) }
{
    let named = drawn_nodes(alloc, nodes, draw)?;
    made(Fault::kill(alloc, nodes, &named))
}

/// The clocks of the nodes that a draw names, all moved by the same amount.
fn bump(alloc: Global, nodes: &Nodes, draw: Draw, choice: u64) -> Result<Fault, AllocError>
    ensures made { IfOk result (λ fault. fault
        ≡ Bump (map (λ node. (node, rule.offset_of choice))
        (rule.drawn_nodes (length nodes.now) draw))) }
    ensures fits { IfOk result (FitsCount (length nodes.now)) }
{
    let named = drawn_nodes(alloc, nodes, draw)?;
    let bumps = bumps_of(alloc, &named, choice)?;
    made(Fault::bump(alloc, nodes, &bumps))
}

/// The fault of this kind that a draw makes of nodes. One on links is made only of several nodes, and none
/// of its links leads from a node to itself.
///
/// Takes memory for its links or nodes.
///
/// Error: memory was refused.
pub fn fault_drawn(
    alloc: Global,
    nodes: &Nodes,
    kind: FaultKind,
    draw: Draw,
) -> Result<Fault, AllocError>
    requires { HasNamed (length nodes.now) kind }
    ensures made { IfOk result (λ fault. fault ≡ rule.fault_drawn kind (length nodes.now) draw) }
    ensures fits { IfOk result (FitsCount (length nodes.now)) }
    ensures others { IfOk result HasNoSelfLink }
{
    let amount = draw.amount % 4;
    match kind {
        FaultKind::Cut => cut(alloc, nodes, draw),
        FaultKind::Slow => slow(alloc, nodes, draw, drawn_delay(amount)),
        FaultKind::Loss => loss(alloc, nodes, draw, level_of(amount)),
        FaultKind::Fix => fix(alloc, nodes, draw, drawn_delay(amount)),
        FaultKind::Pause => pause(alloc, nodes, draw),
        FaultKind::Kill => kill(alloc, nodes, draw),
        FaultKind::Bump => bump(alloc, nodes, draw, amount),
    }
}

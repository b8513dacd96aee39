//! Faults that are named by a grudge over all nodes. `specs/NamedFaults.antt` says which links each
//! cuts.

ghost use Rattle.std.specs.Prelude.{◌≡◌, ◌<◌, IfOk, IfSome, IsPermutation, IsSome, MatchOption};
ghost use Rattle.std.specs.Prelude.{MatchResult, None, Some, length};
ghost use Rattle.jh_env.specs.Faults.{FitsCount};
ghost use Rattle.jh_env.specs.Names.{node_places};
ghost use Rattle.jh_step_texts.specs.FaultText.{IsParsedAs, cut_of, parsed_named, parsed_split};
ghost use Rattle.jh_step_texts.specs.declared.steps.StepTextError.TheVariants.{OutOfMemory};
ghost use Rattle.jh_step_texts.specs.NamedFaults.{
  AreLinksAmong,
  IsOverAll,
  crosses_bridge,
  crosses_halves,
  links_that,
  named_links,
  seeded_order,
  ring_links,
  touches,
};

use crate::spelling::NamedGrudge;
use crate::steps::StepTextError;
use jh_env::{Fault, GivenLinkFault, Node, Nodes};
use jh_grudge::{Grudge, SplitError, bisect, bridge, complete_grudge, majorities_ring, split_one};
use rand::SeedableRng;
use rand::seq::SliceRandom;
use rand_pcg::Lcg64Xsh32;
use std::alloc::{AllocError, Global};

/// The places of all nodes, in order.
fn all_places(alloc: Global, nodes: &Nodes) -> Result<Vec<u8>, AllocError>
    ensures { IfOk result (λ all. all.items ≡ node_places (length nodes.now)) }
{
    let mut all = Vec::new(alloc);
    for node in nodes.all().as_slice() {
        all.push(node.place())?;
    }
    Ok(all)
}

/// The places of all nodes in the order in which `[:ring SEED]` lays its ring: shuffled by `rand`'s
/// `shuffle` with the `Lcg64Xsh32` of `rand_pcg` that the seed makes, so that a seed always gives
/// the same order.
pub fn ring_order(alloc: Global, nodes: &Nodes, seed: u64) -> Result<Vec<u8>, AllocError>
    ensures order { IfOk result (λ all. all.items ≡ seeded_order seed (length nodes.now)) }
    ensures all { IfOk result (λ all. IsPermutation (node_places (length nodes.now)) all.items) }
{
    let mut order = all_places(alloc, nodes)?;
    order.shuffle(&mut Lcg64Xsh32::seed_from_u64(seed));
    Ok(order)
}

/// The grudge that parts the nodes into halves.
fn halves(alloc: Global, nodes: &Nodes) -> Result<Grudge, AllocError>
    ensures links { IfOk result
        (λ grudge. grudge ≡ links_that (crosses_halves (length nodes.now)) (length nodes.now)) }
    ensures among { IfOk result (AreLinksAmong (length nodes.now)) }
{
    let all = all_places(alloc, nodes)?;
    let (first, second) = bisect(&all);
    let first = Vec::from_slice(alloc, first)?;
    let second = Vec::from_slice(alloc, second)?;
    complete_grudge(alloc, &[first, second])
}

/// The grudge that parts one node from all others.
fn split_off(alloc: Global, nodes: &Nodes, loner: Node) -> Result<Grudge, AllocError>
    requires { loner < length nodes.now }
    ensures links { IfOk result (λ grudge. grudge ≡ links_that (touches loner) (length nodes.now)) }
    ensures among { IfOk result (AreLinksAmong (length nodes.now)) }
{
    let all = all_places(alloc, nodes)?;
    match split_one(alloc, &all, loner.place()) {
        Ok(parts) => complete_grudge(alloc, &parts),
        Err(SplitError::UnknownNode) => unreachable!(),
        Err(SplitError::OutOfMemory) => Err(AllocError),
    }
}

/// The grudge between both sides of the bridge, which is the first node of the second half.
fn around_bridge(alloc: Global, nodes: &Nodes) -> Result<Grudge, AllocError>
    ensures links { IfOk result
        (λ grudge. grudge ≡ links_that (crosses_bridge (length nodes.now)) (length nodes.now)) }
    ensures among { IfOk result (AreLinksAmong (length nodes.now)) }
{
    let all = all_places(alloc, nodes)?;
    bridge(alloc, &all)
}

/// A ring over all nodes in this order.
fn ring(alloc: Global, nodes: &Nodes, order: &[u8]) -> Result<Grudge, AllocError>
    requires { IsPermutation (node_places (length nodes.now)) order.now }
    ensures links { IfOk result (λ grudge. grudge ≡ ring_links order.now (length nodes.now)) }
    ensures among { IfOk result (AreLinksAmong (length nodes.now)) }
{
    majorities_ring(alloc, order)
}

/// A ring over all nodes as they are listed.
fn listed_ring(alloc: Global, nodes: &Nodes) -> Result<Grudge, AllocError>
    ensures links { IfOk result
        (λ grudge. grudge ≡ ring_links (node_places (length nodes.now)) (length nodes.now)) }
    ensures among { IfOk result (AreLinksAmong (length nodes.now)) }
{
    let order = all_places(alloc, nodes)?;
    ring(alloc, nodes, &order)
}

/// A ring over all nodes in the order that a seed gives.
fn shuffled_ring(alloc: Global, nodes: &Nodes, seed: u64) -> Result<Grudge, AllocError>
    ensures links { IfOk result (λ grudge. grudge
        ≡ ring_links (seeded_order seed (length nodes.now)) (length nodes.now)) }
    ensures among { IfOk result (AreLinksAmong (length nodes.now)) }
    ensures all { IfOk result (λ _. IsPermutation (node_places (length nodes.now))
        (seeded_order seed (length nodes.now))) }
{
    let order = ring_order(alloc, nodes, seed)?;
    ring(alloc, nodes, &order)
}

/// The grudge of this name; none where its seed is below zero.
fn grudge_of(alloc: Global, nodes: &Nodes, named: NamedGrudge) -> Option<Result<Grudge, AllocError>>
    ensures all { IfSome result (λ made. IfOk made (λ _. IsOverAll (length nodes.now) named)) }
    ensures links { MatchOption result
        (named_links named (length nodes.now) ≡ None)
        (λ made. IsSome (named_links named (length nodes.now))
        × IfOk made (λ grudge. (Some grudge ≡ named_links named (length nodes.now))
        × AreLinksAmong (length nodes.now) grudge)) }
{
    match named {
        NamedGrudge::Halves => Some(halves(alloc, nodes)),
        NamedGrudge::Bridge => Some(around_bridge(alloc, nodes)),
        NamedGrudge::Ring => Some(listed_ring(alloc, nodes)),
        NamedGrudge::ShuffledRing(seed) => match u64::try_from(seed) {
            Ok(seed) => Some(shuffled_ring(alloc, nodes, seed)),
            Err(_) => None,
        },
    }
}

/// The cut of a grudge's links.
fn cut(alloc: Global, nodes: &Nodes, grudge: &Grudge) -> Result<Fault, StepTextError>
    requires { AreLinksAmong (length nodes.now) grudge.now }
    ensures cut { MatchResult result (λ fault. fault ≡ cut_of grudge.now) (λ e. e ≡ OutOfMemory) }
    ensures fits { IfOk result (FitsCount (length nodes.now)) }
{
    match Fault::on_links(alloc, nodes, GivenLinkFault::Cut, grudge.links()) {
        Ok(fault) => Ok(fault),
        Err(refusal) => Err(StepTextError::from(refusal)),
    }
}

/// The cut of the grudge of this name.
pub fn named_fault(alloc: Global, nodes: &Nodes, named: NamedGrudge) -> Result<Fault, StepTextError>
    ensures parsed { IsParsedAs result (parsed_named (length nodes.now) named) }
    ensures all { IfOk result (λ _. IsOverAll (length nodes.now) named) }
    ensures fits { IfOk result (FitsCount (length nodes.now)) }
{
    let made = grudge_of(alloc, nodes, named).ok_or(StepTextError::BadAmount)?;
    let grudge = made?;
    cut(alloc, nodes, &grudge)
}

/// The cut that leaves the node of this name alone.
pub fn split_fault(alloc: Global, nodes: &Nodes, loner: &str) -> Result<Fault, StepTextError>
    ensures parsed { IsParsedAs result (parsed_split nodes.now loner.now) }
    ensures fits { IfOk result (FitsCount (length nodes.now)) }
{
    let loner = nodes.find(loner).ok_or(StepTextError::UnknownNode)?;
    let grudge = split_off(alloc, nodes, loner)?;
    cut(alloc, nodes, &grudge)
}

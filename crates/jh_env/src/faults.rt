//! Faults that name nodes of an environment, each link and node once: `specs/Faults.antt` says
//! which of the given links and nodes a fault keeps, and `specs/Naming.antt` why it is refused. What
//! a fault is and does stands in jh_tables, where a new kind is added first.

ghost use Rattle.std.specs.Prelude.{◌≡◌, ◌↔◌, length, false, pos, IsTrue, MatchResult, IfOk, Ok};
ghost use Rattle.std.specs.List.{list_any};
ghost use Rattle.jh_tables.specs.Faults.FaultValue.{Cut, Slow, Loss, Fix, Pause, Kill, Bump};
ghost use Rattle.jh_tables.specs.Plain.{fault_of};
ghost use Rattle.jh_env.specs.Faults.{AreBumps, AreLinksOf, FitsCount, IsFault, IsFixAmount};
ghost use Rattle.jh_env.specs.Faults.{IsLossAmount, IsSlowAmount, is_unknown_bump};
ghost use Rattle.jh_env.specs.Faults.{is_unknown_node, kept_links, kept_nodes};
ghost use Rattle.jh_env.specs.Amounts.{link_fault_of};
ghost use Rattle.jh_env.specs.Naming.{RefusesFault, judged_bumps, judged_links, judged_nodes};
ghost use Rattle.jh_env.specs.Naming.{known_bump, known_link, known_node};

use crate::amounts::GivenLinkFault;
use crate::environment::Env;
use crate::names::Nodes;
use crate::naming::{NamesBump, NamesLink, NamesNode};
use crate::{judging, keeping};
use jh_tables::{Node, NodeFault, PlainFault};
use std::alloc::{AllocError, Global};
use std::marker::Model;
use thiserror::Error;

/// The most milliseconds by which one fault slows a link.
pub const MAX_SLOWED_MS: u64 = 60_000;

/// The most milliseconds to which a fault fixes the delay of a link.
pub const MAX_FIXED_MS: u64 = 60_000;

/// The greatest level of loss.
pub const MAX_LOSS: u8 = 20;

/// The most milliseconds by which one fault moves a clock, either way.
pub const MAX_BUMPED_MS: i64 = 1_000_000_000;

/// A fault of an environment, on some of its links or nodes, each once.
#[derive(Debug, Drop)]
pub struct Fault {
    pub(crate) fault: PlainFault,
}

impl Model for Fault {
    ghost use Rattle.jh_tables.specs.Faults.{FaultValue};

    ghost Value = { FaultValue };

    ghost use Rattle.jh_env.specs.FaultInside.{view_fault, IsWellMade};

    ghost view = { view_fault };

    ghost invariant = { IsWellMade };
}

/// Why a fault is refused.
#[derive(Clone, Copy, Debug, PartialEq, Eq, Error)]
pub enum FaultError {
    #[error("unknown node")]
    UnknownNode,
    #[error("self link")]
    SelfLink,
    #[error("bad amount")]
    BadAmount,
    #[error("out of memory")]
    OutOfMemory,
}

/// Whether these are the same links in the same order.
fn are_same_links(links: &[(Node, Node)], others: &[(Node, Node)]) -> bool
    ensures { IsTrue result ↔ (links.now ≡ others.now) }
{
    links == others
}

/// Whether these are the same nodes in the same order.
fn are_same_nodes(nodes: &[Node], others: &[Node]) -> bool
    ensures { IsTrue result ↔ (nodes.now ≡ others.now) }
{
    nodes == others
}

/// Whether these are the same bumps in the same order.
fn are_same_bumps(bumps: &[(Node, i64)], others: &[(Node, i64)]) -> bool
    ensures { IsTrue result ↔ (bumps.now ≡ others.now) }
{
    bumps == others
}

impl Fault {
    /// The fault that does this to these links, which are given by their nodes, their places or
    /// their names. A link that is named twice is kept once, where it stood first; a fault that
    /// names no link is allowed. Takes time linear in the links given: each is looked up in a hashed
    /// set of those kept so far, of which 64 nodes have at most 4,032.
    ///
    /// Errors, over all links: `UnknownNode`, `SelfLink`, `BadAmount` where the amount is out of its
    /// range, `OutOfMemory`.
    pub fn on_links<L: NamesLink>(
        alloc: Global,
        nodes: &Nodes,
        given: GivenLinkFault,
        links: &[L],
    ) -> Result<Fault, FaultError>
        ensures made { MatchResult result
            (λ fault. judged_links (L.linked nodes.now) (link_fault_of given) links.now ≡ Ok fault)
            (RefusesFault (judged_links (L.linked nodes.now) (link_fault_of given) links.now)
            links.now) }
        ensures fits { IfOk result (FitsCount (length nodes.now)) }
    {
        let kind = judging::judged_kind(nodes, given, links)?;
        match keeping::kept_links(alloc, nodes, links) {
            Ok(links) => Ok(Fault {
                fault: PlainFault::OnLinks(kind, links),
            }),
            Err(_) => Err(FaultError::OutOfMemory),
        }
    }

    /// The fault of this kind on these nodes, given by themselves or by their names. A node that is
    /// named twice is kept once, where it stood first; a fault that names no node is allowed.
    ///
    /// Errors, over all nodes: `UnknownNode`, `OutOfMemory`.
    pub fn on_nodes<N: NamesNode>(
        alloc: Global,
        nodes: &Nodes,
        kind: NodeFault,
        named: &[N],
    ) -> Result<Fault, FaultError>
        ensures made { MatchResult result
            (λ fault. judged_nodes (N.named nodes.now) kind named.now ≡ Ok fault)
            (RefusesFault (judged_nodes (N.named nodes.now) kind named.now) named.now) }
        ensures fits { IfOk result (FitsCount (length nodes.now)) }
    {
        if judging::is_any_node_unknown(nodes, named) {
            return Err(FaultError::UnknownNode);
        }
        match keeping::kept_nodes(alloc, nodes, named) {
            Ok(named) => Ok(Fault {
                fault: PlainFault::OnNodes(kind, named),
            }),
            Err(_) => Err(FaultError::OutOfMemory),
        }
    }

    /// Moves the clocks of nodes, given by themselves or by their names, each by some milliseconds,
    /// at most 10^9 either way. A fault that names no node is allowed.
    ///
    /// Errors, over all nodes: `UnknownNode`, `BadAmount` also where a node is named twice,
    /// `OutOfMemory`.
    pub fn of_bumps<B: NamesBump>(
        alloc: Global,
        nodes: &Nodes,
        bumps: &[B],
    ) -> Result<Fault, FaultError>
        ensures made { MatchResult result
            (λ fault. judged_bumps (B.bumped nodes.now) bumps.now ≡ Ok fault)
            (RefusesFault (judged_bumps (B.bumped nodes.now) bumps.now) bumps.now) }
        ensures fits { IfOk result (FitsCount (length nodes.now)) }
    {
        if judging::is_any_bump_unknown(nodes, bumps) {
            return Err(FaultError::UnknownNode);
        }
        if !judging::are_bump_amounts(nodes, bumps) || !judging::are_apart(nodes, bumps) {
            return Err(FaultError::BadAmount);
        }
        match keeping::all_bumps(alloc, nodes, bumps) {
            Ok(bumps) => Ok(Fault {
                fault: PlainFault::Bump(bumps),
            }),
            Err(_) => Err(FaultError::OutOfMemory),
        }
    }

    /// Cuts links, each from its first node to its second. Links are kept as `on_links` keeps them.
    ///
    /// Errors, over all links: `UnknownNode`, `SelfLink`, `OutOfMemory`.
    pub fn cut(alloc: Global, nodes: &Nodes, links: &[(Node, Node)]) -> Result<Fault, FaultError>
        ensures made { MatchResult result
            (λ fault. (fault ≡ Cut (kept_links links.now))
            × AreLinksOf (length nodes.now) links.now)
            (RefusesFault (judged_links (known_link nodes.now) (link_fault_of GivenLinkFault.Cut)
            links.now) links.now) }
        ensures fits { IfOk result (FitsCount (length nodes.now)) }
    {
        Fault::on_links(alloc, nodes, GivenLinkFault::Cut, links)
    }

    /// Makes messages on links later, by 1 to 60,000 milliseconds. Links are kept as `on_links` keeps
    /// them.
    ///
    /// Errors, over all links: `UnknownNode`, `SelfLink`, `BadAmount`, `OutOfMemory`.
    pub fn slow(
        alloc: Global,
        nodes: &Nodes,
        links: &[(Node, Node)],
        ms: u64,
    ) -> Result<Fault, FaultError>
        ensures made { MatchResult result
            (λ fault. (fault ≡ Slow ms (kept_links links.now))
            × AreLinksOf (length nodes.now) links.now × IsSlowAmount ms)
            (RefusesFault (judged_links (known_link nodes.now)
            (link_fault_of (GivenLinkFault.Slow (pos ms))) links.now) links.now) }
        ensures fits { IfOk result (FitsCount (length nodes.now)) }
    {
        Fault::on_links(alloc, nodes, GivenLinkFault::Slow(i128::from(ms)), links)
    }

    /// Loses messages on links, at a level of 1 to 20 in 20. Links are kept as `on_links` keeps them.
    ///
    /// Errors, over all links: `UnknownNode`, `SelfLink`, `BadAmount`, `OutOfMemory`.
    pub fn loss(
        alloc: Global,
        nodes: &Nodes,
        links: &[(Node, Node)],
        level: u8,
    ) -> Result<Fault, FaultError>
        ensures made { MatchResult result
            (λ fault. (fault ≡ Loss level (kept_links links.now))
            × AreLinksOf (length nodes.now) links.now × IsLossAmount level)
            (RefusesFault (judged_links (known_link nodes.now)
            (link_fault_of (GivenLinkFault.Loss (pos level))) links.now) links.now) }
        ensures fits { IfOk result (FitsCount (length nodes.now)) }
    {
        Fault::on_links(alloc, nodes, GivenLinkFault::Loss(i128::from(level)), links)
    }

    /// Fixes the delay of links, at 0 to 60,000 milliseconds, whatever it was before; slow delays
    /// come on top. Of several fixes of a link the last one counts. Links are kept as `on_links` keeps
    /// them.
    ///
    /// Errors, over all links: `UnknownNode`, `SelfLink`, `BadAmount`, `OutOfMemory`.
    pub fn fix(
        alloc: Global,
        nodes: &Nodes,
        links: &[(Node, Node)],
        ms: u64,
    ) -> Result<Fault, FaultError>
        ensures made { MatchResult result
            (λ fault. (fault ≡ Fix ms (kept_links links.now))
            × AreLinksOf (length nodes.now) links.now × IsFixAmount ms)
            (RefusesFault (judged_links (known_link nodes.now)
            (link_fault_of (GivenLinkFault.Fix (pos ms))) links.now) links.now) }
        ensures fits { IfOk result (FitsCount (length nodes.now)) }
    {
        Fault::on_links(alloc, nodes, GivenLinkFault::Fix(i128::from(ms)), links)
    }

    /// Pauses the processes of nodes. Nodes are kept as `on_nodes` keeps them.
    ///
    /// Errors, over all nodes: `UnknownNode`, `OutOfMemory`.
    pub fn pause(alloc: Global, nodes: &Nodes, paused: &[Node]) -> Result<Fault, FaultError>
        ensures made { MatchResult result
            (λ fault. (fault ≡ Pause (kept_nodes paused.now))
            × (list_any (is_unknown_node (length nodes.now)) paused.now ≡ false))
            (RefusesFault (judged_nodes (known_node nodes.now) NodeFault.Pause paused.now)
            paused.now) }
        ensures fits { IfOk result (FitsCount (length nodes.now)) }
    {
        Fault::on_nodes(alloc, nodes, NodeFault::Pause, paused)
    }

    /// Kills the processes of nodes. Nodes are kept as `on_nodes` keeps them.
    ///
    /// Errors, over all nodes: `UnknownNode`, `OutOfMemory`.
    pub fn kill(alloc: Global, nodes: &Nodes, killed: &[Node]) -> Result<Fault, FaultError>
        ensures made { MatchResult result
            (λ fault. (fault ≡ Kill (kept_nodes killed.now))
            × (list_any (is_unknown_node (length nodes.now)) killed.now ≡ false))
            (RefusesFault (judged_nodes (known_node nodes.now) NodeFault.Kill killed.now)
            killed.now) }
        ensures fits { IfOk result (FitsCount (length nodes.now)) }
    {
        Fault::on_nodes(alloc, nodes, NodeFault::Kill, killed)
    }

    /// Moves the clocks of nodes, each by some milliseconds, at most 10^9 either way. A fault that
    /// names no node is allowed.
    ///
    /// Errors, over all nodes: `UnknownNode`, `BadAmount` also where a node is named twice,
    /// `OutOfMemory`.
    pub fn bump(alloc: Global, nodes: &Nodes, bumps: &[(Node, i64)]) -> Result<Fault, FaultError>
        ensures made { MatchResult result
            (λ fault. (fault ≡ Bump bumps.now)
            × (list_any (is_unknown_bump (length nodes.now)) bumps.now ≡ false)
            × AreBumps bumps.now)
            (RefusesFault (judged_bumps (known_bump nodes.now) bumps.now) bumps.now) }
        ensures fits { IfOk result (FitsCount (length nodes.now)) }
    {
        Fault::of_bumps(alloc, nodes, bumps)
    }

    /// What the fault does, and to which links or nodes: each stands once, and amounts are in their
    /// ranges.
    pub fn parts(&self) -> &PlainFault
        ensures parts { fault_of result.now ≡ self.now }
        ensures right { IsFault self.now }
    {
        &self.fault
    }

    /// A fault that does the same to the same links or nodes.
    pub fn copy(&self, alloc: Global) -> Result<Fault, AllocError>
        ensures { IfOk result (λ copy. copy ≡ self.now) }
    {
        let fault = match &self.fault {
            PlainFault::OnLinks(kind, links) => {
                PlainFault::OnLinks(*kind, Vec::from_slice(alloc, links)?)
            }
            PlainFault::OnNodes(kind, nodes) => {
                PlainFault::OnNodes(*kind, Vec::from_slice(alloc, nodes)?)
            }
            PlainFault::Bump(bumps) => PlainFault::Bump(Vec::from_slice(alloc, bumps)?),
        };
        Ok(Fault { fault })
    }

    /// Whether the other is the same fault: it does the same to the same links or nodes, which both
    /// name in one order.
    pub fn is_same(&self, other: &Fault) -> bool
        ensures { IsTrue result ↔ (self.now ≡ other.now) }
    {
        match (&self.fault, &other.fault) {
            (PlainFault::OnLinks(kind, links), PlainFault::OnLinks(other_kind, others)) => {
                *kind == *other_kind && are_same_links(links, others)
            }
            (PlainFault::OnNodes(kind, nodes), PlainFault::OnNodes(other_kind, others)) => {
                *kind == *other_kind && are_same_nodes(nodes, others)
            }
            (PlainFault::Bump(bumps), PlainFault::Bump(others)) => are_same_bumps(bumps, others),
            _ => false,
        }
    }

    /// Whether each node that it names is one of these.
    pub fn fits_nodes(&self, nodes: &Nodes) -> bool
        ensures { IsTrue result ↔ FitsCount (length nodes.now) self.now }
    {
        match &self.fault {
            PlainFault::OnLinks(_, links) => !judging::is_any_end_unknown(nodes, links),
            PlainFault::OnNodes(_, named) => !judging::is_any_node_unknown(nodes, named),
            PlainFault::Bump(bumps) => !judging::is_any_bump_unknown(nodes, bumps),
        }
    }

    /// Whether each node that it names is in the environment.
    pub fn fits(&self, env: &Env) -> bool
        ensures { IsTrue result ↔ FitsCount (length env.now.names) self.now }
    {
        self.fits_nodes(env.nodes())
    }
}

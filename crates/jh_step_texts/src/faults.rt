//! Faults as EDN values: which fault is parsed. `specs/FaultText.antt` has the rule, case by case.
//! jh_env judges whether a fault is refused; here its refusals become those of a step.

ghost use Rattle.std.specs.Prelude.{Some, IfOk, length};
ghost use Rattle.jh_edn.specs.View.{views, view_pairs};
ghost use Rattle.jh_env.specs.Amounts.{link_fault_of};
ghost use Rattle.jh_env.specs.Faults.{FitsCount};
ghost use Rattle.jh_step_texts.specs.FaultText.{IsParsedAs, IsRingOverAll, parsed_bumps};
ghost use Rattle.jh_step_texts.specs.FaultText.{parsed_fault, parsed_links, parsed_nodes};
ghost use Rattle.jh_step_texts.specs.SpellingInside.{spelling_of};

use crate::named::{named_fault, split_fault};
use crate::spelling::SpelledFault;
use crate::steps::StepTextError;
use jh_edn::Value;
use jh_env::{Fault, GivenLinkFault, NodeFault, Nodes};
use std::alloc::Global;

/// The fault that does this to the links that are spelled, or why it is refused.
fn on_links(
    alloc: Global,
    nodes: &Nodes,
    given: GivenLinkFault,
    links: &[Value],
) -> Result<Fault, StepTextError>
    ensures parsed { IsParsedAs result
        (parsed_links nodes.now (link_fault_of given) (views links.now)) }
    ensures fits { IfOk result (FitsCount (length nodes.now)) }
{
    match Fault::on_links(alloc, nodes, given, links) {
        Ok(fault) => Ok(fault),
        Err(refusal) => Err(StepTextError::from(refusal)),
    }
}

/// The fault of this kind on the nodes that are named, or why it is refused.
fn on_nodes(
    alloc: Global,
    nodes: &Nodes,
    kind: NodeFault,
    named: &[Value],
) -> Result<Fault, StepTextError>
    ensures parsed { IsParsedAs result (parsed_nodes nodes.now kind (views named.now)) }
    ensures fits { IfOk result (FitsCount (length nodes.now)) }
{
    match Fault::on_nodes(alloc, nodes, kind, named) {
        Ok(fault) => Ok(fault),
        Err(refusal) => Err(StepTextError::from(refusal)),
    }
}

/// The fault of these bumps, or why it is refused.
fn of_bumps(alloc: Global, nodes: &Nodes, bumps: &[(Value, Value)]) -> Result<Fault, StepTextError>
    ensures parsed { IsParsedAs result (parsed_bumps nodes.now (view_pairs bumps.now)) }
    ensures fits { IfOk result (FitsCount (length nodes.now)) }
{
    match Fault::of_bumps(alloc, nodes, bumps) {
        Ok(fault) => Ok(fault),
        Err(refusal) => Err(StepTextError::from(refusal)),
    }
}

/// The fault that is spelled, or why it is refused.
pub fn fault_of(alloc: Global, nodes: &Nodes, spelled: SpelledFault) -> Result<Fault, StepTextError>
    ensures parsed { IsParsedAs result (parsed_fault nodes.now (spelling_of spelled.entry)) }
    ensures ring { IfOk result
        (λ _. IsRingOverAll (length nodes.now) (Some (spelling_of spelled.entry))) }
    ensures fits { IfOk result (FitsCount (length nodes.now)) }
{
    match spelled {
        SpelledFault::Links(given, links) => on_links(alloc, nodes, given, links),
        SpelledFault::Nodes(kind, named) => on_nodes(alloc, nodes, kind, named),
        SpelledFault::Bumps(bumps) => of_bumps(alloc, nodes, bumps),
        SpelledFault::SplitOne(loner) => split_fault(alloc, nodes, loner),
        SpelledFault::Grudge(named) => named_fault(alloc, nodes, named),
    }
}

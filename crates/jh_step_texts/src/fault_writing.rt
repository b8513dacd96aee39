//! The text of a fault, written. `specs/FaultWritten.antt` says what is written, and in which
//! order.

ghost use Rattle.std.specs.Prelude.{◌≡◌, ◌<◌, length, map, IfOk};
ghost use Rattle.std.specs.List.{All};
ghost use Rattle.jh_edn.specs.View.{view, views, view_pairs};
ghost use Rattle.jh_tables.specs.Plain.{fault_on_links, fault_on_nodes};
ghost use Rattle.jh_env.specs.Amounts.{IsLinkAmount};
ghost use Rattle.jh_env.specs.Faults.{FitsCount};
ghost use Rattle.jh_tables.specs.Faults.FaultValue.{Bump};
ghost use Rattle.jh_edn.specs.Edn as edn;
ghost use Rattle.jh_step_texts.specs.FaultWritten as rule;
ghost use Rattle.jh_step_texts.specs.Kinds.{fault_kind_name};
ghost use Rattle.jh_step_texts.specs.WritingInside.{link_fault_values};
ghost use Rattle.jh_step_texts.specs.FaultWritten.{edn_of_fault, fault_values};

use crate::kinds::FaultKind;
use jh_edn::{Pairs, Text, Value, Values};
use jh_env::{Fault, LinkFault, Node, NodeFault, Nodes, PlainFault};
use std::alloc::{AllocError, Global};

/// The string with the name of a node.
fn name_value(alloc: Global, nodes: &Nodes, node: Node) -> Result<Value, AllocError>
    requires { node < length nodes.now }
    ensures { IfOk result (λ value. view value ≡ rule.edn_of_name nodes.now node) }
{
    match nodes.name(node) {
        Some(name) => Ok(Value::Str(Text::of(alloc, name)?)),
        None => unreachable!(),
    }
}

/// The value of a link: the names of its source and of its destination.
fn link_value(alloc: Global, nodes: &Nodes, link: (Node, Node)) -> Result<Value, AllocError>
    requires { (link.0 < length nodes.now) × (link.1 < length nodes.now) }
    ensures { IfOk result (λ value. view value ≡ rule.edn_of_link nodes.now link) }
{
    let mut ends = Vec::new(alloc);
    ends.push(name_value(alloc, nodes, link.0)?)?;
    ends.push(name_value(alloc, nodes, link.1)?)?;
    Ok(Value::Vector(Values::of(ends)))
}

/// The value of each link.
fn link_values(
    alloc: Global,
    nodes: &Nodes,
    links: &[(Node, Node)],
) -> Result<Vec<Value>, AllocError>
    requires { All (λ l. (l.0 < length nodes.now) × (l.1 < length nodes.now)) links.now }
    ensures { IfOk result
        (λ values. views values.items ≡ map (rule.edn_of_link nodes.now) links.now) }
{
    let mut values = Vec::new(alloc);
    for link in links {
        values.push(link_value(alloc, nodes, *link)?)?;
    }
    Ok(values)
}

/// The string with the name of each node.
fn node_values(alloc: Global, nodes: &Nodes, named: &[Node]) -> Result<Vec<Value>, AllocError>
    requires { All (λ n. n < length nodes.now) named.now }
    ensures { IfOk result
        (λ values. views values.items ≡ map (rule.edn_of_name nodes.now) named.now) }
{
    let mut values = Vec::new(alloc);
    for node in named {
        values.push(name_value(alloc, nodes, *node)?)?;
    }
    Ok(values)
}

/// The name of each node that is bumped, with the milliseconds by which its clock is moved.
fn bump_pairs(
    alloc: Global,
    nodes: &Nodes,
    bumps: &[(Node, i64)],
) -> Result<Vec<(Value, Value)>, AllocError>
    requires { All (λ b. b.0 < length nodes.now) bumps.now }
    ensures { IfOk result
        (λ pairs. view_pairs pairs.items ≡ map (rule.edn_of_bump nodes.now) bumps.now) }
{
    let mut pairs = Vec::new(alloc);
    for (node, ms) in bumps {
        pairs.push((name_value(alloc, nodes, *node)?, Value::Int(*ms)))?;
    }
    Ok(pairs)
}

/// The keyword of a kind of faults.
fn keyword(alloc: Global, kind: FaultKind) -> Result<Value, AllocError>
    ensures { IfOk result (λ value. view value ≡ edn.keyword (fault_kind_name kind)) }
{
    Value::keyword(alloc, kind.name())
}

/// The keyword of a fault of links and its amount, before the links.
fn link_fault_values(alloc: Global, kind: LinkFault) -> Result<Vec<Value>, AllocError>
    requires { IsLinkAmount kind }
    ensures { IfOk result (λ values. views values.items ≡ link_fault_values kind) }
{
    let mut values = Vec::new(alloc);
    match kind {
        LinkFault::Cut => values.push(keyword(alloc, FaultKind::Cut)?)?,
        LinkFault::Slow(ms) => {
            values.push(keyword(alloc, FaultKind::Slow)?)?;
            values.push(Value::Int(ms as i64))?;
        }
        LinkFault::Loss(level) => {
            values.push(keyword(alloc, FaultKind::Loss)?)?;
            values.push(Value::Int(i64::from(level)))?;
        }
        LinkFault::Fix(ms) => {
            values.push(keyword(alloc, FaultKind::Fix)?)?;
            values.push(Value::Int(ms as i64))?;
        }
    }
    Ok(values)
}

/// The values that are written of a fault of links.
fn values_of_links(
    alloc: Global,
    nodes: &Nodes,
    kind: LinkFault,
    links: &[(Node, Node)],
) -> Result<Vec<Value>, AllocError>
    requires known { All (λ l. (l.0 < length nodes.now) × (l.1 < length nodes.now)) links.now }
    requires amount { IsLinkAmount kind }
    ensures { IfOk result (λ values. views values.items
        ≡ fault_values nodes.now (fault_on_links kind links.now)) }
{
    let mut values = link_fault_values(alloc, kind)?;
    values.push(Value::Vector(Values::of(link_values(alloc, nodes, links)?)))?;
    Ok(values)
}

/// The values that are written of a fault of nodes.
fn values_of_nodes(
    alloc: Global,
    nodes: &Nodes,
    kind: NodeFault,
    named: &[Node],
) -> Result<Vec<Value>, AllocError>
    requires { All (λ n. n < length nodes.now) named.now }
    ensures { IfOk result (λ values. views values.items
        ≡ fault_values nodes.now (fault_on_nodes kind named.now)) }
{
    let mut values = Vec::new(alloc);
    values.push(match kind {
        NodeFault::Pause => keyword(alloc, FaultKind::Pause)?,
        NodeFault::Kill => keyword(alloc, FaultKind::Kill)?,
    })?;
    values.push(Value::Vector(Values::of(node_values(alloc, nodes, named)?)))?;
    Ok(values)
}

/// The values that are written of a fault of bumps.
fn values_of_bumps(
    alloc: Global,
    nodes: &Nodes,
    bumps: &[(Node, i64)],
) -> Result<Vec<Value>, AllocError>
    requires { All (λ b. b.0 < length nodes.now) bumps.now }
    ensures { IfOk result
        (λ values. views values.items ≡ fault_values nodes.now (Bump bumps.now)) }
{
    let mut values = Vec::new(alloc);
    values.push(keyword(alloc, FaultKind::Bump)?)?;
    values.push(Value::Map(Pairs::of(bump_pairs(alloc, nodes, bumps)?)))?;
    Ok(values)
}

/// The values that are written of a fault, in the order in which it holds its links, nodes or
/// bumps.
fn fault_values(alloc: Global, nodes: &Nodes, fault: &Fault) -> Result<Vec<Value>, AllocError>
    requires { FitsCount (length nodes.now) fault.now }
    ensures { IfOk result (λ values. views values.items ≡ fault_values nodes.now fault.now) }
{
    match fault.parts() {
        PlainFault::OnLinks(kind, links) => values_of_links(alloc, nodes, *kind, links),
        PlainFault::OnNodes(kind, named) => values_of_nodes(alloc, nodes, *kind, named),
        PlainFault::Bump(bumps) => values_of_bumps(alloc, nodes, bumps),
    }
}

/// The text of a fault on these nodes: `[:cut LINKS]`, `[:slow MS LINKS]`, `[:loss LEVEL LINKS]`,
/// `[:fix MS LINKS]`, `[:pause NODES]`, `[:kill NODES]` or `[:bump {NAME MS, ..}]`, where LINKS are
/// `[[SOURCE DESTINATION] ..]` and NODES `[NAME ..]`. Links stand by the place of their source and
/// then of their destination, nodes and bumps by place, whatever the order in which the fault was
/// given them.
///
/// Each node that the fault names is one of these: `Fault::fits_nodes` tests that. Takes n log n
/// comparisons for n links, nodes or bumps.
pub fn value_of_fault(alloc: Global, nodes: &Nodes, fault: &Fault) -> Result<Value, AllocError>
    requires { FitsCount (length nodes.now) fault.now }
    ensures { IfOk result (λ value. view value ≡ edn_of_fault nodes.now fault.now) }
{
    let values = fault_values(alloc, nodes, &fault.in_order(alloc)?)?;
    Ok(Value::Vector(Values::of(values)))
}

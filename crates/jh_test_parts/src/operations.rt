//! Records as operations of the history. `specs/Records.antt` says which one each is.

ghost use Rattle.std.specs.Prelude.{◌≡◌, ◌<◌, ◌^◌, [], ◌∷◌, All, IfOk, length, map, codes};
ghost use Rattle.std.specs.Prelude.{pos};
ghost use Rattle.jh_edn.specs.Edn.{int, keyword};
ghost use Rattle.jh_edn.specs.Parts.{vector_of};
ghost use Rattle.jh_edn.specs.View.{view};
ghost use Rattle.jh_ops.specs.Operation.{operation, operations};
ghost use Rattle.jh_ops.specs.declared.operation.Kind.TheVariants as Kind;
ghost use Rattle.jh_ops.specs.declared.operation.Process.TheVariants.{Client, Nemesis};
ghost use Rattle.jh_step_texts.specs.FaultWritten.{edn_of_name};
ghost use Rattle.jh_nemesis.specs.Steps.{FitsNodes};
ghost use Rattle.jh_tables.specs.Standing.{IsLinkInRange};
ghost use Rattle.jh_test_parts.specs.Records as rule;
ghost use Rattle.jh_test_parts.specs.Records.{IsWritableRecord};

use crate::records::{ChangedCells, ChangedLink, ChangedNode, Recorded};
use jh_edn::{Pairs, Text, Value, Values};
use jh_env::{Life, Link, Node, NodeCell, Nodes};
use jh_nemesis::Step;
use jh_ops::{Kind, Op, Process};
use jh_step_texts::value_of_step;
use std::alloc::{AllocError, Global};

/// The string with the name of a node; it is empty where there is no such node.
fn name_value(alloc: Global, nodes: &Nodes, node: Node) -> Result<Value, AllocError>
    ensures { IfOk result (λ value. view value ≡ edn_of_name nodes.now node) }
{
    let name = nodes.name(node).unwrap_or("");
    Ok(Value::Str(Text::of(alloc, name)?))
}

/// A pair of a keyword and a value.
fn pair_of(alloc: Global, name: &str, value: Value) -> Result<(Value, Value), AllocError>
    ensures { IfOk result
        (λ pair. (view pair.0 ≡ keyword name.now) × (view pair.1 ≡ view value)) }
{
    Ok((Value::keyword(alloc, name)?, value))
}

/// The value of a link.
fn link_value(alloc: Global, link: Link) -> Result<Value, AllocError>
    requires { IsLinkInRange link }
    ensures { IfOk result (λ value. view value ≡ rule.link_value link) }
{
    let mut pairs = Vec::new(alloc);
    pairs.push(pair_of(alloc, "cut", Value::Bool(link.cut))?)?;
    pairs.push(pair_of(alloc, "delay", Value::Int(link.delay as i64))?)?;
    pairs.push(pair_of(alloc, "loss", Value::Int(i64::from(link.loss)))?)?;
    Ok(Value::Map(Pairs::of(pairs)))
}

/// What a process does, in a word.
fn life_name(life: Life) -> &'static str
    ensures { result.now ≡ rule.life_name life }
{
    match life {
        Life::Running => "running",
        Life::Paused => "paused",
        Life::Killed => "killed",
    }
}

/// The value of a node.
fn node_value(alloc: Global, cell: NodeCell) -> Result<Value, AllocError>
    ensures { IfOk result (λ value. view value ≡ rule.node_value cell) }
{
    let life = Value::keyword(alloc, life_name(cell.process))?;
    let mut pairs = Vec::new(alloc);
    pairs.push(pair_of(alloc, "process", life)?)?;
    pairs.push(pair_of(alloc, "clock", Value::Int(cell.clock))?)?;
    Ok(Value::Map(Pairs::of(pairs)))
}

/// The value of a link that a step changed.
fn changed_link_value(
    alloc: Global,
    nodes: &Nodes,
    changed: ChangedLink,
) -> Result<Value, AllocError>
    requires { IsLinkInRange changed.link }
    ensures { IfOk result (λ value. view value ≡ rule.changed_link_value nodes.now changed) }
{
    let mut values = Vec::new(alloc);
    values.push(name_value(alloc, nodes, changed.source)?)?;
    values.push(name_value(alloc, nodes, changed.destination)?)?;
    values.push(link_value(alloc, changed.link)?)?;
    Ok(Value::Vector(Values::of(values)))
}

/// The value of a node that a step changed.
fn changed_node_value(
    alloc: Global,
    nodes: &Nodes,
    changed: ChangedNode,
) -> Result<Value, AllocError>
    ensures { IfOk result (λ value. view value ≡ rule.changed_node_value nodes.now changed) }
{
    let mut values = Vec::new(alloc);
    values.push(name_value(alloc, nodes, changed.node)?)?;
    values.push(node_value(alloc, changed.cell)?)?;
    Ok(Value::Vector(Values::of(values)))
}

/// The values of the links that a step changed.
fn link_values(alloc: Global, nodes: &Nodes, cells: &ChangedCells) -> Result<Value, AllocError>
    ensures { IfOk result (λ value. view value
        ≡ vector_of (map (rule.changed_link_value nodes.now) cells.now.links)) }
{
    let mut values = Vec::new(alloc);
    for changed in &cells.links {
        values.push(changed_link_value(alloc, nodes, *changed)?)?;
    }
    Ok(Value::Vector(Values::of(values)))
}

/// The values of the nodes that a step changed.
fn node_values(alloc: Global, nodes: &Nodes, cells: &ChangedCells) -> Result<Value, AllocError>
    ensures { IfOk result (λ value. view value
        ≡ vector_of (map (rule.changed_node_value nodes.now) cells.now.nodes)) }
{
    let mut values = Vec::new(alloc);
    for changed in &cells.nodes {
        values.push(changed_node_value(alloc, nodes, *changed)?)?;
    }
    Ok(Value::Vector(Values::of(values)))
}

/// The other keys of a step's record.
fn step_pairs(
    alloc: Global,
    nodes: &Nodes,
    step: &Step,
    cells: &ChangedCells,
) -> Result<Pairs, AllocError>
    requires { FitsNodes (length nodes.now) step.now }
    ensures { IfOk result (λ pairs. pairs ≡ rule.step_pairs nodes.now step.now cells.now) }
{
    let mut pairs = Vec::new(alloc);
    pairs.push(pair_of(alloc, "step", value_of_step(alloc, nodes, step)?)?)?;
    pairs.push(pair_of(alloc, "links", link_values(alloc, nodes, cells)?)?)?;
    pairs.push(pair_of(alloc, "nodes", node_values(alloc, nodes, cells)?)?)?;
    Ok(Pairs::of(pairs))
}

/// The other key of a call's record.
fn node_pairs(alloc: Global, nodes: &Nodes, node: Node) -> Result<Pairs, AllocError>
    ensures { IfOk result
        (λ pairs. pairs ≡ (keyword (codes "node"), edn_of_name nodes.now node) ∷ []) }
{
    let mut pairs = Vec::new(alloc);
    pairs.push(pair_of(alloc, "node", name_value(alloc, nodes, node)?)?)?;
    Ok(Pairs::of(pairs))
}

/// The vector of an entry's place and of a code.
fn code_value(alloc: Global, entry: u64, code: u64) -> Result<Value, AllocError>
    requires { (entry < 2 ^ 63) × (code < 2 ^ 63) }
    ensures { IfOk result (λ value. view value
        ≡ vector_of (int (pos entry) ∷ int (pos code) ∷ [])) }
{
    let mut values = Vec::new(alloc);
    values.push(Value::Int(entry as i64))?;
    values.push(Value::Int(code as i64))?;
    Ok(Value::Vector(Values::of(values)))
}

/// An operation of a client at its place in the history.
fn client_operation(
    alloc: Global,
    place: (usize, u64),
    kind: Kind,
    process: u64,
    name: &str,
    value: Value,
    rest: Pairs,
) -> Result<Op, AllocError>
    requires { (place.0 < 2 ^ 63) × (place.1 < 2 ^ 63) }
    ensures { IfOk result (λ op. operation op ≡ rule.operation_placed place.0 place.1 kind
        (Client process) name.now (view value) rest) }
{
    Ok(Op {
        kind,
        f: Value::keyword(alloc, name)?,
        value,
        process: Process::Client(process),
        time: Some(place.1 as i64),
        index: Some(place.0 as i64),
        rest,
    })
}

/// An operation of the nemesis at its place in the history.
fn step_operation(
    alloc: Global,
    place: (usize, u64),
    value: Value,
    rest: Pairs,
) -> Result<Op, AllocError>
    requires { (place.0 < 2 ^ 63) × (place.1 < 2 ^ 63) }
    ensures { IfOk result (λ op. operation op ≡ rule.operation_placed place.0 place.1 Kind.Info
        Nemesis (codes "step") (view value) rest) }
{
    Ok(Op {
        kind: Kind::Info,
        f: Value::keyword(alloc, "step")?,
        value,
        process: Process::Nemesis,
        time: Some(place.1 as i64),
        index: Some(place.0 as i64),
        rest,
    })
}

/// The operation that a record is at this index of the history, over these nodes.
pub fn operation_of(
    alloc: Global,
    nodes: &Nodes,
    index: usize,
    recorded: &Recorded,
) -> Result<Op, AllocError>
    requires index { index < 2 ^ 63 }
    requires writable { IsWritableRecord (length nodes.now) recorded.now }
    ensures { IfOk result
        (λ op. operation op ≡ rule.operation_of_record nodes.now index recorded.now) }
{
    match recorded {
        Recorded::Invoked {
            time,
            process,
            node,
            call,
        } => {
            let value = call.value.value().copy(alloc)?;
            let rest = node_pairs(alloc, nodes, *node)?;
            let name = call.request.name();
            client_operation(
                alloc,
                (index, *time),
                Kind::Invoke,
                *process,
                name,
                value,
                rest,
            )
        }
        Recorded::Ended {
            time,
            process,
            kind,
            request,
            value,
            rest,
        } => {
            let value = value.value().copy(alloc)?;
            let rest = rest.copy(alloc)?;
            let name = request.name();
            client_operation(alloc, (index, *time), *kind, *process, name, value, rest)
        }
        Recorded::StepBegun {
            time,
            entry,
            step,
            cells,
        } => {
            let rest = step_pairs(alloc, nodes, step, cells)?;
            step_operation(alloc, (index, *time), Value::Int(*entry as i64), rest)
        }
        Recorded::StepEnded {
            time,
            entry,
            code,
            rest,
        } => {
            let value = code_value(alloc, *entry, *code)?;
            step_operation(alloc, (index, *time), value, rest.copy(alloc)?)
        }
    }
}

/// The operations that these records are, the first one at the index 0.
///
/// Error: memory was refused.
pub fn operations_of(
    alloc: Global,
    nodes: &Nodes,
    records: &[Recorded],
) -> Result<Vec<Op>, AllocError>
    requires few { length records.now < 2 ^ 63 }
    requires writable { All (IsWritableRecord (length nodes.now)) records.now }
    ensures { IfOk result
        (λ ops. operations ops.items ≡ rule.recorded_operations nodes.now 0 records.now) }
{
    let mut ops = Vec::new(alloc);
    for index in 0..records.len() {
        ops.push(operation_of(alloc, nodes, index, &records[index])?)?;
    }
    Ok(ops)
}

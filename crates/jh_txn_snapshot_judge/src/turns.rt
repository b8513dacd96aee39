//! Untold writers of a key one after another, as they start in an order of nodes, each behind the commit of
//! the one before it.

ghost use Rattle.std.specs.Prelude.{◌≡◌, ◌≤◌, ◌<◌, ◌+◌, ◌↔◌, ◌∷◌, [], ℕ, Some, None};
ghost use Rattle.std.specs.Prelude.{length, slice_index_or, slice_set, IfOk, MatchOption, OnOk};
ghost use Rattle.std.specs.List.{All, Contains};
ghost use Rattle.jh_txn.specs.Transactions.{AreKeysBelow, IsKeyBelow};
ghost use Rattle.jh_txn_edges.specs.Inside.{AddsSteps, IsThis};
ghost use Rattle.jh_txn_graph.specs.Graphs.{AreHubsUpwards, IsClosed, KeepsPaths};
ghost use Rattle.jh_txn_snapshot_judge.specs.TurnsInside.{AddsTurns, HasTurn, IsAnyTurnStep, IsTurn};
ghost use Rattle.jh_txn_snapshot_judge.specs.TurnsInside.{IsTurnBehind, IsTurnStep, KeepsTurns};
ghost use Rattle.jh_txn_snapshot_judge.specs.TurnsInside.{TakesTurns};
ghost use Rattle.jh_txn_snapshot_judge.specs.declared.turns.Succession.{Succession};

use crate::places::ops_of;
use jh_txn::{MicroOp, Step, Txn, Why};
use jh_txn_graph::{OrderOrCycle, order_or_cycle};
use jh_txn_seen::is_marked;
use std::alloc::{AllocError, Global};

/// Two untold writers of a key, of which the second one has its turn just behind the first one.
#[derive(Clone, Copy, Debug)]
struct Succession {
    first: usize,
    second: usize,
}

/// An order of a graph's nodes in which untold writers take turns, as they start in the order that is
/// there: each commits before the next one of its key starts. Where there are no turns, it is that order
/// itself. None: the turns close a cycle. Their steps are added to the graph.
pub(crate) fn order_in_turn(
    alloc: Global,
    txns: &[Txn],
    untold: &[bool],
    keys: usize,
    graph: &mut [Vec<Step>],
    order: Vec<usize>,
) -> Result<Option<Vec<usize>>, AllocError>
    requires keys { AreKeysBelow keys txns.now }
    requires nodes { length txns.now + length txns.now ≤ length graph.old }
    requires closed { IsClosed graph.old }
    requires upwards { AreHubsUpwards graph.old (length txns.now + length txns.now) }
    requires kept { KeepsPaths graph.old (length txns.now + length txns.now) order.items }
    ensures { IfOk result (λ found. MatchOption found (HasTurn txns.now untold.now order.items)
        (λ nodes. KeepsPaths graph.old (length txns.now + length txns.now) nodes.items
        × KeepsTurns txns.now untold.now order.items nodes.items)) }
{
    let turns = turns_of(alloc, txns, untold, keys, &order)?;
    if turns.is_empty() {
        return Ok(Some(order));
    }
    let count = txns.len();
    add_turn_steps(graph, count, &turns)?;
    match order_or_cycle(alloc, graph, count + count)? {
        OrderOrCycle::Order(nodes) => Ok(Some(nodes)),
        OrderOrCycle::Cycle(_) => Ok(None),
    }
}

/// The turns of all keys, by the order of some nodes.
fn turns_of(
    alloc: Global,
    txns: &[Txn],
    untold: &[bool],
    keys: usize,
    order: &[usize],
) -> Result<Vec<Succession>, AllocError>
    requires { AreKeysBelow keys txns.now }
    ensures { IfOk result (λ turns. (turn : Succession)
        → Contains turns.items turn ↔ IsTurn txns.now untold.now order.now turn) }
{
    let mut turns = Vec::new(alloc);
    let mut last: Vec<Option<usize>> = vec![in alloc; None; keys]?;
    take_all_turns(&mut turns, &mut last, txns, untold, order)?;
    Ok(turns)
}

/// Adds the turns of all keys. The table is for the last writer of each key.
fn take_all_turns(
    turns: &mut Vec<Succession>,
    last: &mut [Option<usize>],
    txns: &[Txn],
    untold: &[bool],
    order: &[usize],
) -> Result<(), AllocError>
    requires keys { AreKeysBelow (length last.old) txns.now }
    requires none { (key : ℕ) → slice_index_or last.old key None ≡ None }
    requires empty { turns.old.items ≡ [] }
    ensures { OnOk result ((turn : Succession)
        → Contains turns.new.items turn ↔ IsTurn txns.now untold.now order.now turn) }
{
    for node in order {
        take_turns(turns, last, untold, *node, ops_of(txns, *node))?;
    }
    Ok(())
}

/// Adds the turns of the transaction at a place, which has these micro-operations.
fn take_turns(
    turns: &mut Vec<Succession>,
    last: &mut [Option<usize>],
    untold: &[bool],
    place: usize,
    ops: &[MicroOp],
) -> Result<(), AllocError>
    requires { All (IsKeyBelow (length last.old)) ops.now }
    ensures { OnOk result
        (TakesTurns untold.now place ops.now last.old last.new turns.old.items turns.new.items) }
{
    for op in ops {
        take_turn_of(turns, last, untold, place, op)?;
    }
    Ok(())
}

/// Adds its turn in the key of a micro-operation, if that appends the element of an untold writer.
fn take_turn_of(
    turns: &mut Vec<Succession>,
    last: &mut [Option<usize>],
    untold: &[bool],
    place: usize,
    op: &MicroOp,
) -> Result<(), AllocError>
    requires { IsKeyBelow (length last.old) op.now }
    ensures { OnOk result (TakesTurns untold.now place (op.now ∷ []) last.old last.new
        turns.old.items turns.new.items) }
{
    match op {
        MicroOp::Append { key, element } => {
            if is_marked(untold, *element) {
                take_turn(turns, last, *key, place)
            } else {
                Ok(())
            }
        }
        MicroOp::Read { .. } => Ok(()),
    }
}

/// Adds its turn in a key, behind the last one there.
fn take_turn(
    turns: &mut Vec<Succession>,
    last: &mut [Option<usize>],
    key: usize,
    place: usize,
) -> Result<(), AllocError>
    requires { key < length last.old }
    ensures last { OnOk result (last.new ≡ slice_set last.old key (Some place)) }
    ensures turns { OnOk result (AddsTurns (IsTurnBehind (slice_index_or last.old key None) place)
        turns.old.items turns.new.items) }
{
    add_turn(turns, last[key], place)?;
    last[key] = Some(place);
    Ok(())
}

/// Adds a turn behind another writer, if there is one.
fn add_turn(
    turns: &mut Vec<Succession>,
    first: Option<usize>,
    second: usize,
) -> Result<(), AllocError>
    ensures { OnOk result (AddsTurns (IsTurnBehind first second) turns.old.items turns.new.items) }
{
    match first {
        None => Ok(()),
        Some(first) => {
            if first == second {
                Ok(())
            } else {
                turns.push(Succession { first, second })?;
                Ok(())
            }
        }
    }
}

/// Adds the step of each turn, from the commit of the first writer to the start of the second one.
fn add_turn_steps(
    graph: &mut [Vec<Step>],
    count: usize,
    turns: &[Succession],
) -> Result<(), AllocError>
    requires { (turn : Succession) → Contains turns.now turn
        → (count + turn.first < length graph.old) × (turn.second < length graph.old) }
    ensures { OnOk result (AddsSteps (IsAnyTurnStep count turns.now) graph.old graph.new) }
{
    for turn in turns {
        add_turn_step(graph, count, *turn)?;
    }
    Ok(())
}

/// Adds the step of a turn.
fn add_turn_step(graph: &mut [Vec<Step>], count: usize, turn: Succession) -> Result<(), AllocError>
    requires first { count + turn.first < length graph.old }
    requires second { turn.second < length graph.old }
    ensures { OnOk result (AddsSteps (IsTurnStep count turn) graph.old graph.new) }
{
    let step = Step {
        place: count + turn.first,
        why: Why::RealTime,
    };
    add(graph, step, turn.second)
}

/// Adds a step that leads to a node.
fn add(graph: &mut [Vec<Step>], step: Step, node: usize) -> Result<(), AllocError>
    requires { node < length graph.old }
    ensures { OnOk result (AddsSteps (IsThis step node) graph.old graph.new) }
{
    graph[node].push(step)?;
    Ok(())
}

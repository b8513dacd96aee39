//! A search for a short cycle through a node, breadth first and against the steps. Nothing rests on it but
//! what is shown: `cycle_in` of `jh_txn_graph` looks whether what it finds is a cycle.

ghost use Rattle.std.specs.Prelude.{IfOk, IfSome};
ghost use Rattle.jh_txn_graph.specs.Graphs.{IsCycleOfPaths};

use crate::choice::{AntiDependencies, Choice, GraphShape, allows, is_anti};
use jh_txn::Step;
use jh_txn_graph::cycle_in;
use std::alloc::{AllocError, Global};
use std::collections::BTreeMap;

/// What is known of the steps from a node back to where the search began.
#[derive(Clone, Copy, PartialEq, Eq)]
enum Layer {
    /// There are none.
    Start,
    /// No step is `:rw`.
    Plain,
    /// The first one is `:rw`.
    Anti,
    /// One is `:rw`, and the first one is not.
    Behind,
}

/// A node, with what is known of the steps behind it.
#[derive(Clone, Copy)]
struct State {
    node: usize,
    layer: Layer,
}

/// The step from a state to the next one on the way back.
#[derive(Clone, Copy)]
struct Link {
    step: Step,
    to: usize,
}

/// How far a search has come.
#[derive(Drop)]
struct Search {
    /// For each state that was met, by its number, its step.
    links: BTreeMap<usize, Link>,
    /// The states that were met, in order.
    met: Vec<State>,
}

/// A short cycle of a kind through a node, if there is one and it is found by looking at `fuel` steps. What
/// was not used of these is left.
pub(crate) fn cycle_through(
    alloc: Global,
    graph: &[Vec<Step>],
    shape: GraphShape,
    choice: Choice,
    node: usize,
    fuel: &mut usize,
) -> Result<Option<Vec<Step>>, AllocError>
    ensures { IfOk result
        (λ found. IfSome found (λ cycle. IsCycleOfPaths graph.now shape.count cycle.items)) }
{
    let mut search = Search {
        links: BTreeMap::new(alloc),
        met: Vec::new(alloc),
    };
    let layer = Layer::Start;
    search.met.push(State { node, layer })?;
    for turn in 0..*fuel {
        let Some(state) = search.met.get(turn).copied() else {
            return Ok(None);
        };
        if let Some(first) = visit(graph, shape, choice, node, state, &mut search, fuel)? {
            let steps = steps_back(alloc, &search, first, state)?;
            return cycle_in(alloc, graph, steps, shape.count);
        }
    }
    Ok(None)
}

/// Goes from a state to those in front of it: the step from where the search began, where that is met.
fn visit(
    graph: &[Vec<Step>],
    shape: GraphShape,
    choice: Choice,
    start: usize,
    state: State,
    search: &mut Search,
    fuel: &mut usize,
) -> Result<Option<Step>, AllocError> {
    let Some(row) = graph.get(state.node) else {
        return Ok(None);
    };
    for step in row.as_slice() {
        *fuel = fuel.saturating_sub(1);
        if *fuel == 0 {
            return Ok(None);
        }
        if allows(choice, shape, step, state.node) {
            if let Some(layer) = layer_before(shape, choice, state, step) {
                if step.place == start {
                    return Ok(Some(*step));
                }
                meet(search, *step, layer, state)?;
            }
        }
    }
    Ok(None)
}

/// Notes a state in front of another one, if it was not met before.
fn meet(search: &mut Search, step: Step, layer: Layer, behind: State) -> Result<(), AllocError> {
    let state = State {
        node: step.place,
        layer,
    };
    if search.links.contains_key(&number_of(state)) {
        return Ok(());
    }
    let to = number_of(behind);
    search.links.insert(number_of(state), Link { step, to })?;
    search.met.push(state)?;
    Ok(())
}

/// A number for each state.
fn number_of(state: State) -> usize {
    let layer = match state.layer {
        Layer::Start => 0,
        Layer::Plain => 1,
        Layer::Anti => 2,
        Layer::Behind => 3,
    };
    state.node.wrapping_mul(4).wrapping_add(layer)
}

/// What is known in front of a step that leads to a state. None: such a step may not be there. A step to a
/// hub tells nothing, since it is one with the step from there.
fn layer_before(shape: GraphShape, choice: Choice, state: State, step: &Step) -> Option<Layer> {
    if state.node >= shape.count {
        Some(state.layer)
    } else if is_anti(step) {
        anti_before(choice.anti, state.layer)
    } else {
        match state.layer {
            Layer::Start | Layer::Plain => Some(Layer::Plain),
            Layer::Anti | Layer::Behind => Some(Layer::Behind),
        }
    }
}

/// What is known in front of a step `:rw`. A cycle in which no two are neighbours is met at a node that it
/// comes to by another step.
fn anti_before(anti: AntiDependencies, layer: Layer) -> Option<Layer> {
    match (anti, layer) {
        (AntiDependencies::Without, _) => None,
        (AntiDependencies::One, Layer::Start | Layer::Plain) => Some(Layer::Anti),
        (AntiDependencies::One, _) => None,
        (AntiDependencies::Apart, Layer::Start | Layer::Anti) => None,
        (AntiDependencies::Apart, _) => Some(Layer::Anti),
        (AntiDependencies::Any, _) => Some(Layer::Anti),
    }
}

/// A step and those that lead from a state back to where the search began.
fn steps_back(
    alloc: Global,
    search: &Search,
    first: Step,
    state: State,
) -> Result<Vec<Step>, AllocError> {
    let mut steps = Vec::new(alloc);
    steps.push(first)?;
    let mut number = number_of(state);
    for _turn in 0..search.met.len() {
        let Some(link) = search.links.get(&number).copied() else {
            return Ok(steps);
        };
        steps.push(link.step)?;
        number = link.to;
    }
    Ok(steps)
}

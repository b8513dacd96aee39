//! What is written of a step that a text means, over the nodes `n1`, `n2` and `n3`, and the order of a seeded ring.
//!
//! A row is a text, ` → `, and what is written of its step, or the message of the refusal.

ghost use Rattle.std.specs.Prelude.{length};
ghost use Rattle.jh_nemesis.specs.Steps.{FitsNodes};

use crate::nemesis::texts::value_of;
use jh_edn::{Value, write};
use jh_env::Nodes;
use jh_nemesis::Step;
use jh_step_texts::{StepTextError, ring_order, step_of_value, value_of_step};
use std::alloc::Global;

/// Three nodes.
fn three(alloc: Global) -> Option<Nodes> {
    Nodes::of(alloc, &["n1", "n2", "n3"]).ok()
}

/// What is written of a step. None: memory was refused.
fn step_text(alloc: Global, nodes: &Nodes, step: &Step) -> Option<Vec<u8>>
    requires { FitsNodes (length nodes.now) step.now }
{
    let mut written = Vec::new(alloc);
    write(&value_of_step(alloc, nodes, step).ok()?, &mut written).ok()?;
    Some(written)
}

/// What is written of the step of a value, or the message of its refusal. None: memory was refused.
fn answer_of(alloc: Global, nodes: &Nodes, value: &Value) -> Option<Vec<u8>> {
    match step_of_value(alloc, nodes, value) {
        Ok(step) => step_text(alloc, nodes, &step),
        Err(StepTextError::OutOfMemory) => None,
        Err(refusal) => Some(refusal.to_string(alloc).ok()?.into_bytes()),
    }
}

/// The same of the value of a text.
fn rewritten_once(alloc: Global, text: &str) -> Option<Vec<u8>> {
    let value = value_of(alloc, text)?;
    answer_of(alloc, &three(alloc)?, &value)
}

/// Whether this is written of the step of a text. It is asked once more where memory was refused.
fn is_written(alloc: Global, text: &str, wanted: &str) -> bool {
    let written = match rewritten_once(alloc, text) {
        None => rewritten_once(alloc, text),
        written => written,
    };
    match written {
        Some(written) => written.as_slice() == wanted.as_bytes(),
        None => false,
    }
}

const ROWS: &str = r#"[:withdraw 9] → [:withdraw 9]
(:withdraw-all) → [:withdraw-all]
[:undo] → [:undo]
[:redo] → [:redo]
[:begin 0 [:cut []]] → [:begin 0 [:cut []]]
[:begin 7 [:slow 5 [["n3" "n1"] ["n1" "n2"] ["n3" "n1"]]]] → [:begin 7 [:slow 5 [["n1" "n2"] ["n3" "n1"]]]]
[:begin 7 [:fix 0 [["n3" "n1"] ["n1" "n2"] ["n3" "n1"]]]] → [:begin 7 [:fix 0 [["n1" "n2"] ["n3" "n1"]]]]
[:begin 4294967295 [:bump {"n3" -1, "n1" 2}]] → [:begin 4294967295 [:bump {"n1" 2, "n3" -1}]]
[:begin 1 [:halves]] → [:begin 1 [:cut [["n1" "n2"] ["n1" "n3"] ["n2" "n1"] ["n3" "n1"]]]]
[:begin 1 [:split-one "n2"]] → [:begin 1 [:cut [["n1" "n2"] ["n2" "n1"] ["n2" "n3"] ["n3" "n2"]]]]
[:begin 1 [:bridge]] → [:begin 1 [:cut [["n1" "n3"] ["n3" "n1"]]]]
[:begin 1 [:ring]] → [:begin 1 [:cut [["n1" "n2"] ["n2" "n3"] ["n3" "n1"]]]]
[:begin 1 [:split-one "n9"]] → unknown node
[:begin 1 [:split-one :n1]] → bad step
[:begin 1 [:split-one]] → bad step
[:begin 1 [:ring -1]] → bad amount
[:begin 1 [:ring "1"]] → bad step
[:begin 1 [:ring 1 2]] → bad step
[:begin 1 [:halves 1]] → bad step
[:begin -1 [:ring -1]] → bad id"#;

#[test]
fn steps_are_written(rt: HostRuntime) {
    for row in ROWS.lines() {
        let (text, wanted) = row.split_once(" → ").unwrap_or((row, ""));
        assert!(rt; is_written(rt.alloc(), text, wanted), "at {row}");
    }
}

#[test]
fn what_is_written_is_read_back(rt: HostRuntime) {
    for row in ROWS.lines().filter(|row| row.contains("→ [")) {
        let (_, text) = row.split_once(" → ").unwrap_or((row, ""));
        assert!(rt; is_written(rt.alloc(), text, text), "at {row}");
    }
}

/// The order of three nodes that a seed gives. None: memory was refused.
fn order_once(alloc: Global, seed: u64) -> Option<Vec<u8>> {
    ring_order(alloc, &three(alloc)?, seed).ok()
}

/// The same, once more where memory was refused.
fn order(alloc: Global, seed: u64) -> Option<Vec<u8>> {
    match order_once(alloc, seed) {
        None => order_once(alloc, seed),
        order => order,
    }
}

/// Whether two orders are the same. None: memory was refused.
fn are_alike(alloc: Global, seed: u64) -> Option<bool> {
    let first = order(alloc, seed)?;
    Some(first == order(alloc, seed)?)
}

#[test]
fn one_seed_orders_alike(rt: HostRuntime) {
    assert!(rt; are_alike(rt.alloc(), 7) == Some(true));
}

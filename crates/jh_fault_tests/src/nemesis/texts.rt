//! Which texts mean which steps over the nodes `n1` and `n2`.
//!
//! A row is a text, ` → `, and the step's kind with its id, or the message of the refusal.

use jh_edn::{Value, read_all};
use jh_env::Nodes;
use jh_nemesis::Step;
use jh_step_texts::{StepTextError, step_of_value};
use std::alloc::Global;

/// The one value of a text. None: memory was refused.
pub(crate) fn value_of(alloc: Global, text: &str) -> Option<Value> {
    read_all(alloc, &mut text.as_bytes(), 2).ok()?.pop()
}

/// The kind of a step, with its id where it has one.
fn kind_of(alloc: Global, step: &Step) -> Option<String> {
    match step {
        Step::Begin(id, _) => format!(in alloc; "begin {id}").ok(),
        Step::Withdraw(id) => format!(in alloc; "withdraw {id}").ok(),
        Step::WithdrawAll => "withdraw-all".to_string(alloc).ok(),
        Step::Undo => "undo".to_string(alloc).ok(),
        Step::Redo => "redo".to_string(alloc).ok(),
    }
}

/// What a text means, or the message of its refusal. None: memory was refused.
fn meaning_once(alloc: Global, text: &str) -> Option<String> {
    let nodes = Nodes::of(alloc, &["n1", "n2"]).ok()?;
    match step_of_value(alloc, &nodes, &value_of(alloc, text)?) {
        Ok(step) => kind_of(alloc, &step),
        Err(StepTextError::OutOfMemory) => None,
        Err(refusal) => refusal.to_string(alloc).ok(),
    }
}

/// Whether a text means what its row says. It is read once more where memory was refused.
fn is_meant(alloc: Global, row: &str) -> bool {
    let (text, wanted) = row.split_once(" → ").unwrap_or((row, ""));
    let meaning = match meaning_once(alloc, text) {
        None => meaning_once(alloc, text),
        meaning => meaning,
    };
    match meaning {
        Some(meaning) => meaning.as_str() == wanted,
        None => false,
    }
}

const ROWS: &str = r#"[:begin 0 [:cut [["n2" "n1"] ["n2" "n1"]]]] → begin 0
[:withdraw 4294967295] → withdraw 4294967295
[:withdraw-all] → withdraw-all
[:undo] → undo
[:redo] → redo
[:begin 1 [:cut []]] → begin 1
[:begin 1 [:slow 1 [["n1" "n2"]]]] → begin 1
[:begin 1 [:slow 60000 []]] → begin 1
[:begin 1 [:slow 0 []]] → bad amount
[:begin 1 [:slow 60001 []]] → bad amount
[:begin 1 [:slow -1 []]] → bad amount
[:begin 1 [:slow 0 [["n1" "n1"]]]] → self link
[:begin 1 [:slow 0 [["n1" "n3"]]]] → unknown node
[:begin 1 [:slow [["n1" "n2"]]]] → bad step
[:begin 1 [:fix 0 [["n1" "n2"]]]] → begin 1
[:begin 1 [:fix 60000 []]] → begin 1
[:begin 1 [:fix 60001 []]] → bad amount
[:begin 1 [:fix -1 []]] → bad amount
[:begin 1 [:fix 60001 [["n1" "n1"]]]] → self link
[:begin 1 [:fix 60001 [["n1" "n3"]]]] → unknown node
[:begin 1 [:fix [["n1" "n2"]]]] → bad step
[:begin 1 [:loss 1 []]] → begin 1
[:begin 1 [:loss 20 [["n1" "n2"]]]] → begin 1
[:begin 1 [:loss 0 []]] → bad amount
[:begin 1 [:loss 21 []]] → bad amount
[:begin 1 [:loss 257 []]] → bad amount
[:begin 1 [:loss :1 []]] → bad step
[:begin 1 [:pause ["n1" "n1"]]] → begin 1
[:begin 1 [:pause []]] → begin 1
[:begin 1 [:pause ["n3"]]] → unknown node
[:begin 1 [:pause [["n1"]]]] → bad step
[:begin 1 [:pause "n1"]] → bad step
[:begin 1 [:kill ["n2"]]] → begin 1
[:begin 1 [:kill ["n"]]] → unknown node
[:begin 1 [:kill 1 ["n1"]]] → bad step
[:begin 1 [:bump {}]] → begin 1
[:begin 1 [:bump {"n1" 1000000000, "n2" -1000000000}]] → begin 1
[:begin 1 [:bump {"n1" 0}]] → bad amount
[:begin 1 [:bump {"n1" 1000000001}]] → bad amount
[:begin 1 [:bump {"n1" -1000000001}]] → bad amount
[:begin 1 [:bump {"n1" 0, "n3" 1}]] → unknown node
[:begin 1 [:bump ["n1" 1]]] → bad step
[:begin 1 [:bump {"n1" "1"}]] → bad step
{} → bad step
[] → bad step
[:frob 1] → bad step
[:undo 1] → bad step
[:withdraw] → bad step
["withdraw" 1] → bad step
[:withdraw :1] → bad step
[:begin -1 [:cut [["n1"]]]] → bad step
[:begin -1 [:frob]] → bad step
[:withdraw -1] → bad id
[:begin 4294967296 [:cut [["n3" "n1"]]]] → bad id
[:begin 1 [:cut [["n1" "n1"] ["n1" "n3"]]]] → unknown node
[:begin 1 [:cut [["n1" "n2"] ["n1" "n1"]]]] → self link"#;

#[test]
fn texts_mean_steps(rt: HostRuntime) {
    for row in ROWS.lines() {
        assert!(rt; is_meant(rt.alloc(), row), "at {row}");
    }
}

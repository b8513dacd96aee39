//! Which cells an environment may start with.
//!
//! A row is calls with `; ` between, all on one start of three calm nodes. The numbers of a call are places and then a cell's:
//! `set 0 1 60000 20` cuts, slows and loses, `kill 0 5` kills and sets the clock. `link` and `node` give a cell.

use crate::env::rows::{Call, ends, four, link_text, node, spelled};
use jh_env::{Life, Link, NodeCell, Nodes, Start, StartError};
use std::alloc::Global;

/// `ok`, or the refusal's message.
fn answer_text(alloc: Global, answer: Result<(), StartError>) -> Option<String> {
    match answer {
        Ok(()) => "ok".to_string(alloc).ok(),
        Err(refusal) => refusal.to_string(alloc).ok(),
    }
}

/// A link that is cut, with a delay and a level of loss.
fn cut_link(numbers: &[i64]) -> Option<Link> {
    Some(Link {
        cut: true,
        delay: u64::try_from(*numbers.get(2)?).ok()?,
        loss: u8::try_from(*numbers.get(3)?).ok()?,
    })
}

/// Sets the cell of a link.
fn set_link(alloc: Global, start: &mut Start, places: &Nodes, numbers: &[i64]) -> Option<String> {
    let (from, to) = ends(places, numbers)?;
    answer_text(alloc, start.set_link(from, to, cut_link(numbers)?))
}

/// The cell of a link.
fn link(alloc: Global, start: &Start, places: &Nodes, numbers: &[i64]) -> Option<String> {
    let (from, to) = ends(places, numbers)?;
    link_text(alloc, start.link(from, to)?)
}

/// Kills a node, and sets its clock.
fn kill(alloc: Global, start: &mut Start, places: &Nodes, numbers: &[i64]) -> Option<String> {
    let cell = NodeCell {
        process: Life::Killed,
        clock: *numbers.get(1)?,
    };
    let node = node(places, *numbers.first()?)?;
    answer_text(alloc, start.set_node(node, cell))
}

/// The clock of a node.
fn clock(alloc: Global, start: &Start, places: &Nodes, numbers: &[i64]) -> Option<String> {
    let cell = start.node(node(places, *numbers.first()?)?)?;
    format!(in alloc; "{}", cell.clock).ok()
}

/// What a call answers.
fn act(alloc: Global, start: &mut Start, places: &Nodes, call: &Call<'_>) -> Option<String> {
    let numbers = call.numbers.as_slice();
    match call.name {
        "set" => set_link(alloc, start, places, numbers),
        "link" => link(alloc, start, places, numbers),
        "kill" => kill(alloc, start, places, numbers),
        _ => clock(alloc, start, places, numbers),
    }
}

/// What the call of a text answers.
fn answer(alloc: Global, start: &mut Start, places: &Nodes, text: &str) -> Option<String> {
    act(alloc, start, places, &spelled(alloc, text)?)
}

/// The answers of calls, with `; ` behind each.
fn answers_of(alloc: Global, start: &mut Start, places: &Nodes, calls: &str) -> Option<String> {
    let mut answers = String::new(alloc);
    for text in calls.split("; ") {
        answers.push_str(&answer(alloc, start, places, text)?).ok()?;
        answers.push_str("; ").ok()?;
    }
    Some(answers)
}

/// A start of three calm nodes.
fn calm(alloc: Global) -> Option<Start> {
    let nodes = Nodes::of(alloc, &["n1", "n2", "n3"]).ok()?;
    Start::new(alloc, nodes).ok()
}

/// The answers of a row's calls. None: memory was refused.
fn answers_once(alloc: Global, calls: &str) -> Option<String> {
    let places = four(alloc)?;
    answers_of(alloc, &mut calm(alloc)?, &places, calls)
}

/// Whether a row's calls have its answers. They are made once more where memory was refused.
fn is_answered(alloc: Global, row: &str) -> bool {
    let (calls, wanted) = row.split_once(" => ").unwrap_or((row, ""));
    let answers = match answers_once(alloc, calls) {
        None => answers_once(alloc, calls),
        answers => answers,
    };
    match answers {
        Some(answers) => answers.as_str() == wanted,
        None => false,
    }
}

#[test]
fn cells_are_set_within_bounds(rt: HostRuntime) {
    let rows = "\
        set 0 1 60000 20; set 0 0 0 0; set 0 0 60001 0; set 1 0 60001 0; set 1 0 0 21; link 0 1; link 1 0 \
        => ok; self link; self link; bad amount; bad amount; cut 60000 20; open 0 0; \n\
        kill 0 1000000000001; kill 0 -1000000000001; kill 0 1000000000000; kill 0 -1000000000000; node 0 \
        => bad amount; bad amount; ok; ok; -1000000000000; ";
    for row in rows.lines() {
        assert!(rt; is_answered(rt.alloc(), row), "at {row}");
    }
}

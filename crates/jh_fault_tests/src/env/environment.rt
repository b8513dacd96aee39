//! What faults make of an environment of three nodes, `n1` to `n3`, and which faults are refused.
//!
//! A row is a number of nodes over which its faults are made, `: `, and calls with `; ` between. With `c` behind
//! the number the link from the first node to the second is cut at the start, and has a delay of 250 and a level
//! of loss of 5.
//!
//! - A fault, as `faults.rt` spells it, is put where it fits, behind those before it. Answers `ok`, `unfit` or the
//!   refusal.
//! - `link` and `node` give a cell. `again` makes a copy, on which the calls that follow work; `first` gives a link
//!   of what was copied.
//! - `count` gives the number of nodes, and `laid` that of the faults.

use crate::env::faults::{Over, fault, over_first};
use crate::env::rows::{Call, ends, link_text, node, spelled};
use jh_env::{Env, Fault, FaultError, Life, Link, MAX_LAID, Node, NodeCell, Nodes, Start};
use std::alloc::Global;
use std::test::Fail;

/// An environment, the one that it is a copy of, the nodes over which faults are made, and the stamp of the next fault.
#[derive(Drop)]
struct Bench {
    env: Env,
    first: Option<Env>,
    over: Over,
    stamp: u32,
}

/// Cuts the link from the first node to the second, and sets its delay and its level of loss.
fn set_link(start: &mut Start) -> Option<()> {
    let (from, to) = ends(start.nodes(), &[0, 1])?;
    let link = Link {
        cut: true,
        delay: 250,
        loss: 5,
    };
    start.set_link(from, to, link).ok()
}

/// An environment of three nodes in which nothing is set at the start, or one link is.
fn started(alloc: Global, is_set: bool) -> Option<Env> {
    let nodes = Nodes::of(alloc, &["n1", "n2", "n3"]).ok()?;
    let mut start = Start::new(alloc, nodes).ok()?;
    if is_set {
        set_link(&mut start)?;
    }
    Env::start(alloc, start).ok()
}

/// The cell of a link of an environment.
fn link_of(alloc: Global, env: &Env, ends: (Node, Node)) -> Option<String> {
    link_text(alloc, env.link(ends.0, ends.1)?)
}

/// A cell of a node: its process and its clock.
fn node_text(alloc: Global, cell: NodeCell) -> Option<String> {
    let process = match cell.process {
        Life::Running => "running",
        Life::Paused => "paused",
        Life::Killed => "killed",
    };
    format!(in alloc; "{process} {}", cell.clock).ok()
}

/// A number.
fn number_text(alloc: Global, number: usize) -> Option<String> {
    format!(in alloc; "{number}").ok()
}

impl Bench {
    /// Puts a copy of a fault where it fits.
    fn put(&mut self, alloc: Global, fault: &Fault) -> Option<&'static str> {
        let again = fault.copy(alloc).ok()?;
        if !again.fits(&self.env) || self.env.laid() >= MAX_LAID {
            return Some("unfit");
        }
        self.env.put(&again, self.stamp);
        self.stamp = self.stamp.saturating_add(1);
        Some("ok")
    }

    /// What a fault answers.
    fn begin(&mut self, alloc: Global, call: &Call<'_>) -> Option<String> {
        match fault(alloc, &self.over, call) {
            Ok(fault) => self.put(alloc, &fault)?.to_string(alloc).ok(),
            Err(FaultError::OutOfMemory) => None,
            Err(refusal) => refusal.to_string(alloc).ok(),
        }
    }

    /// Makes a copy, on which the calls that follow work.
    fn copy(&mut self, alloc: Global) -> Option<String> {
        let copy = self.env.copy(alloc).ok()?;
        self.first = Some(std::mem::replace(&mut self.env, copy));
        "again".to_string(alloc).ok()
    }

    /// The cell of the link of a call.
    fn link(&self, alloc: Global, numbers: &[i64]) -> Option<String> {
        link_of(alloc, &self.env, ends(&self.over.places, numbers)?)
    }

    /// The cell of the link of a call, in what was copied.
    fn first_link(&self, alloc: Global, numbers: &[i64]) -> Option<String> {
        link_of(
            alloc,
            self.first.as_ref()?,
            ends(&self.over.places, numbers)?,
        )
    }

    /// The cell of the node of a call.
    fn node(&self, alloc: Global, numbers: &[i64]) -> Option<String> {
        let node = node(&self.over.places, *numbers.first()?)?;
        node_text(alloc, self.env.node(node)?)
    }

    /// What a call answers.
    fn act(&mut self, alloc: Global, call: &Call<'_>) -> Option<String> {
        let numbers = call.numbers.as_slice();
        match call.name {
            "link" => self.link(alloc, numbers),
            "first" => self.first_link(alloc, numbers),
            "node" => self.node(alloc, numbers),
            "count" => number_text(alloc, self.env.nodes().len()),
            "laid" => number_text(alloc, self.env.laid()),
            "again" => self.copy(alloc),
            _ => self.begin(alloc, call),
        }
    }

    /// Does what a text says, and answers.
    fn answer(&mut self, alloc: Global, text: &str) -> Option<String> {
        self.act(alloc, &spelled(alloc, text)?)
    }
}

/// The bench that the head of a row means.
fn bench_of(alloc: Global, head: &str) -> Option<Bench> {
    let over = over_first(alloc, head)?;
    Some(Bench {
        env: started(alloc, head.ends_with('c'))?,
        first: None,
        over,
        stamp: 0,
    })
}

/// The answers of calls, with `; ` between.
fn answers_of(alloc: Global, bench: &mut Bench, calls: &str) -> Option<String> {
    let mut answers = String::new(alloc);
    for call in calls.split("; ") {
        if !answers.is_empty() {
            answers.push_str("; ").ok()?;
        }
        answers.push_str(&bench.answer(alloc, call)?).ok()?;
    }
    Some(answers)
}

/// The answers of a row's calls. None: memory was refused.
fn answers_once(alloc: Global, row: &str) -> Option<String> {
    let (head, calls) = row.split_once(": ")?;
    answers_of(alloc, &mut bench_of(alloc, head)?, calls)
}

/// Whether a row's calls have its answers. They are made once more where memory was refused.
fn is_answered(alloc: Global, row: &str) -> bool {
    let (calls, wanted) = row.split_once(" => ").unwrap_or((row, ""));
    let answers = match answers_once(alloc, calls) {
        None => answers_once(alloc, calls),
        answers => answers,
    };
    match answers {
        Some(answers) => answers.as_str() == wanted,
        None => false,
    }
}

/// Asks each row. One with other answers is the failure.
fn ask_all(alloc: Global, rows: &str) -> Result<(), Fail> {
    for row in rows.lines() {
        if !is_answered(alloc, row) {
            return Err(Fail::new(row));
        }
    }
    Ok(())
}

#[test]
fn faults_make_cells(rt: HostRuntime) -> Result<(), Fail> {
    let rows = "\
        3: cut 0 1 0 1; link 0 1; link 1 0; laid => ok; cut 0 0; open 0 0; 1\n\
        3c: link 0 1; link 1 0; node 0; count; laid => cut 250 5; open 0 0; running 0; 3; 0\n\
        3: slow 250 0 1 0 1; slow 60000 0 1; loss 7 0 1; loss 4 0 1; link 0 1 => ok; ok; ok; ok; open 60250 7\n\
        3: pause 0 0; bump -500 0; kill 0; pause 0 0; bump -500 0; node 0 => ok; ok; ok; ok; ok; killed -1000\n\
        3: again; cut 0 1; link 0 1; first 0 1 => again; ok; cut 0 0; open 0 0\n\
        3: fix 300 0 1; slow 50 0 1; fix 20 0 1 0 1; link 0 1; link 1 0 => ok; ok; ok; open 70 0; open 0 0\n\
        3c: slow 50 0 1; fix 0 0 1; link 0 1; fix 60000 1 0; link 0 1 => ok; ok; cut 50 5; ok; cut 50 5\n\
        3: fix 20 0 1; again; link 0 1; fix 30 0 1; link 0 1; first 0 1 => ok; again; open 20 0; ok; open 30 0; open 20 0\n\
        4: cut 0 3; fix 20 0 3; link 0 1; laid => unfit; unfit; open 0 0; 0\n\
        4: cut; link 0 1 => ok; open 0 0";
    ask_all(rt.alloc(), rows)
}

#[test]
fn faults_are_refused(rt: HostRuntime) -> Result<(), Fail> {
    let rows = "\
        2: cut 0 1 0 1 => ok\n\
        2: cut 0 1 1 1 => self link\n\
        2: cut 0 1 1 2 => unknown node\n\
        2: cut 0 0 0 2 => unknown node\n\
        2: cut => ok\n\
        3: slow 0 0 1 => bad amount\n\
        3: slow 1 0 1 => ok\n\
        3: slow 60000 0 1 => ok\n\
        3: slow 60001 0 1 => bad amount\n\
        3: loss 0 0 1 => bad amount\n\
        3: loss 1 0 1 => ok\n\
        3: loss 20 0 1 => ok\n\
        3: loss 21 0 1 => bad amount\n\
        3: fix 0 0 1 0 1 => ok\n\
        3: fix 60000 0 1 => ok\n\
        3: fix 60001 0 1 => bad amount\n\
        3: fix 60001 0 1 1 1 => self link\n\
        3: fix 60001 1 1 1 3 => unknown node\n\
        3: bump 0 0 1 1 => bad amount\n\
        3: bump 1000000000 0 1 1 => ok\n\
        3: bump -1000000000 0 1 1 => ok\n\
        3: bump 1000000001 0 1 1 => bad amount\n\
        3: bump -1000000001 0 1 1 => bad amount\n\
        3: bump 1 0 1 0 => bad amount";
    ask_all(rt.alloc(), rows)
}

//! What is written: lines into writers that fail, and what stands in them.

use crate::narrow::Narrow;
use crate::spelled::ops_of;
use jh_checkers::{Explanation, Finding, write_finding};
use jh_edn::EdnError;
use jh_linear::{LinVerdict, Linearization, Stuck};
use jh_unique::UniqueReason;
use std::alloc::Global;

/// The line of the finding below.
const STUCK: &str =
    "{:valid? false, :stuck {:type :ok, :process :nemesis, :f :read, :value 5}, :order [2 0], :value -7, \
    :pending [1 3], :because :out-of-order, :named [3 1]}";

/// What is found of a register that is stuck. None: memory was refused.
fn stuck_finding(alloc: Global) -> Option<Finding> {
    let stuck = Stuck {
        end: 4,
        order: Linearization::of(Vec::from_slice(alloc, &[2, 0]).ok()?),
        value: Some(-7),
    };
    let explanation = Explanation {
        completion: ops_of(alloc, ":nemesis :ok :read 5")?.pop()?,
        pending: Vec::from_slice(alloc, &[1, 3]).ok()?,
        because: Some(UniqueReason::Behind(3, 1)),
    };
    Some(Finding::Register {
        judged: LinVerdict::Invalid(stuck),
        explanation: Some(explanation),
    })
}

/// Its line. None: memory was refused.
fn line_once(alloc: Global) -> Option<Vec<u8>> {
    let mut line = Vec::new(alloc);
    write_finding(&stuck_finding(alloc)?, &mut line).ok()?;
    Some(line)
}

#[test]
fn writes_where_a_register_is_stuck(rt: HostRuntime) {
    let line = match line_once(rt.alloc()) {
        None => line_once(rt.alloc()),
        line => line,
    };
    let Some(line) = line else {
        panic!(rt; "no line")
    };
    assert_eq!(rt; line.as_slice(), STUCK.as_bytes());
}

/// What comes of writing it to a writer that takes so many bytes. None: memory was refused.
fn written_once(alloc: Global, left: usize) -> Option<Result<(), EdnError>> {
    Some(write_finding(&stuck_finding(alloc)?, &mut Narrow { left }))
}

#[test]
fn says_that_the_writer_failed(rt: HostRuntime) {
    for left in 0..=STUCK.len() {
        let written = match written_once(rt.alloc(), left) {
            None => written_once(rt.alloc(), left),
            written => written,
        };
        let expected = if left < STUCK.len() {
            Err(EdnError::Write)
        } else {
            Ok(())
        };
        assert_eq!(rt; written, Some(expected), "at {left}");
    }
}

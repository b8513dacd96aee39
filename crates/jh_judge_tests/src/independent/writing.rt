//! What is written: the messages of the errors, and lines into writers that fail.

use crate::narrow::Narrow;
use jh_check::{CheckError, IdsResult, Tally, Verdict};
use jh_checkers::Finding;
use jh_edn::{EdnError, Value};
use jh_independent::{KeyFinding, KeysError, verdict_of_all, write_findings};
use jh_ops::PairError;
use std::alloc::Global;

/// The line of the findings below.
const TWO_KEYS: &str =
    "{:valid? false, :keys [[nil {:valid? true, :attempted 1, :acknowledged 0, :duplicated []}] \
    [7 {:valid? false, :attempted 2, :acknowledged 2, :duplicated []}]]}";

/// What is found of unique ids.
fn ids(alloc: Global, verdict: Verdict, attempted: usize, acknowledged: usize) -> Finding {
    Finding::Ids(IdsResult {
        verdict,
        attempted,
        acknowledged,
        duplicated: Tally::of(Vec::new(alloc)),
    })
}

/// Findings of two keys. None: memory was refused.
fn two_keys(alloc: Global) -> Option<Vec<KeyFinding>> {
    let mut found = Vec::with_capacity(alloc, 2).ok()?;
    found.push_reserved(KeyFinding {
        key: Value::Nil,
        finding: ids(alloc, Verdict::True, 1, 0),
    });
    found.push_reserved(KeyFinding {
        key: Value::Int(7),
        finding: ids(alloc, Verdict::False, 2, 2),
    });
    Some(found)
}

/// What comes of writing them to a writer that takes so many bytes. None: memory was refused.
fn written_once(alloc: Global, left: usize) -> Option<Result<(), EdnError>> {
    let found = two_keys(alloc)?;
    let verdict = verdict_of_all(alloc, &found).ok()?;
    Some(write_findings(verdict, &found, &mut Narrow { left }))
}

#[test]
fn says_that_the_writer_failed(rt: HostRuntime) {
    for left in 0..=TWO_KEYS.len() {
        let written = match written_once(rt.alloc(), left) {
            None => written_once(rt.alloc(), left),
            written => written,
        };
        let expected = if left < TWO_KEYS.len() {
            Err(EdnError::Write)
        } else {
            Ok(())
        };
        assert_eq!(rt; written, Some(expected), "at {left}");
    }
}

/// The line of the findings. None: memory was refused.
fn line_once(alloc: Global) -> Option<Vec<u8>> {
    let found = two_keys(alloc)?;
    let verdict = verdict_of_all(alloc, &found).ok()?;
    let mut line = Vec::new(alloc);
    write_findings(verdict, &found, &mut line).ok()?;
    Some(line)
}

#[test]
fn writes_the_line_of_all_keys(rt: HostRuntime) {
    let line = match line_once(rt.alloc()) {
        None => line_once(rt.alloc()),
        line => line,
    };
    let Some(line) = line else {
        panic!(rt; "no line")
    };
    assert_eq!(rt; line.as_slice(), TWO_KEYS.as_bytes());
}

#[test]
fn errors_have_messages(rt: HostRuntime) {
    let message = format!(in rt.alloc();
        "{}, {}, {}, {}, {}",
        KeysError::BadValue(3),
        KeysError::Key(CheckError::NegativeAdd(4)),
        KeysError::Key(CheckError::Pair(PairError::AfterCrash(5))),
        KeysError::Thread,
        KeysError::OutOfMemory
    );
    let expected =
        "operation 3: bad value, operation 4: negative add, operation 5: after crash, thread failed, \
        out of memory";
    // A refused growth leaves no text to compare.
    if let Ok(message) = message {
        assert_eq!(rt; message.as_str(), expected);
    }
}

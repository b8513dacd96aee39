//! Sets over time: what becomes of each element behind its add.

use crate::rows::{Judge, first_wrong, refusal};
use jh_ops::Op;
use jh_set_full::{SetFullResult, check_set_full, write_set_full};
use std::alloc::Global;

/// The checker of sets over time, for which stale reads are no matter, or are.
#[derive(Clone, Copy)]
struct SetFull {
    linearizable: bool,
}

/// The line of a result. None: memory was refused.
fn line_of(alloc: Global, found: &SetFullResult) -> Option<Vec<u8>> {
    let mut line = Vec::new(alloc);
    write_set_full(found, &mut line).ok()?;
    Some(line)
}

impl Judge for SetFull {
    fn said_of(&self, alloc: Global, history: &[Op]) -> Option<Vec<u8>> {
        match check_set_full(alloc, history, self.linearizable) {
            Ok(found) => line_of(alloc, &found),
            Err(error) => refusal(alloc, error),
        }
    }
}

/// An element that stays; one whose add overlaps the last read, which lacks it; one that is gone; a list and a vector, which are one
/// element.
#[test]
fn elements_are_stable_lost_or_never_read(rt: HostRuntime) {
    let rows = r#"
{:type :invoke, :process 0, :f :add, :value 1}
{:type :ok, :process 0, :f :add, :value 1}
{:type :invoke, :process 0, :f :read}
{:type :ok, :process 0, :f :read, :value [1]}
→ {:valid? true, :attempted 1, :stable 1, :lost [], :never-read [], :stale [], :duplicated {}}
§
{:type :invoke, :process 0, :f :add, :value 1}
{:type :invoke, :process 1, :f :read}
{:type :ok, :process 0, :f :add, :value 1}
{:type :ok, :process 1, :f :read, :value []}
→ {:valid? :unknown, :attempted 1, :stable 0, :lost [], :never-read [1], :stale [], :duplicated {}}
§
{:type :invoke, :process 0, :f :add, :value 1}
{:type :ok, :process 0, :f :add, :value 1}
{:type :invoke, :process 0, :f :read}
{:type :ok, :process 0, :f :read, :value ()}
→ {:valid? false, :attempted 1, :stable 0, :lost [1], :never-read [], :stale [], :duplicated {}}
§
{:type :invoke, :process 0, :f :add, :value [1]}
{:type :ok, :process 0, :f :add, :value [1]}
{:type :invoke, :process 0, :f :add, :value (1)}
{:type :ok, :process 0, :f :add, :value (1)}
{:type :invoke, :process 0, :f :read}
{:type :ok, :process 0, :f :read, :value #{[1]}}
→ {:valid? true, :attempted 1, :stable 1, :lost [], :never-read [], :stale [], :duplicated {}}
"#;
    let judge = SetFull {
        linearizable: false,
    };
    assert_eq!(rt; first_wrong(rt.alloc(), &judge, rows), None);
}

/// A read that lacks what was known to be there, and a later one that has it. The times are those of the ok add and of the invocation
/// of the first read.
const STALE: &str = r#"
{:type :invoke, :process 0, :f :add, :value "a", :time 0}
{:type :ok, :process 0, :f :add, :value "a", :time 1000000}
{:type :invoke, :process 0, :f :read, :time 4999999}
{:type :ok, :process 0, :f :read, :value [], :time 5000000}
{:type :invoke, :process 0, :f :read}
{:type :ok, :process 0, :f :read, :value ["a"]}
→ {:valid? "#;

/// Whether the row of a stale read is right with this verdict.
fn is_stale_row(alloc: Global, linearizable: bool, verdict: &str) -> Option<bool> {
    let mut row = String::new(alloc);
    row.push_str(STALE).ok()?;
    row.push_str(verdict).ok()?;
    row.push_str(
        r#", :attempted 1, :stable 1, :lost [], :never-read [], :stale [["a" 3]], :duplicated {}}"#,
    ).ok()?;
    Some(first_wrong(alloc, &SetFull { linearizable }, &row).is_none())
}

#[test]
fn stale_reads_matter_where_the_set_is_linearizable(rt: HostRuntime) {
    let alloc = rt.alloc();
    let lax = is_stale_row(alloc, false, "true").or_else(|| is_stale_row(alloc, false, "true"));
    let strict = is_stale_row(alloc, true, "false").or_else(|| is_stale_row(alloc, true, "false"));
    assert_eq!(rt; lax, Some(true));
    assert_eq!(rt; strict, Some(true));
}

/// What one read shows more than once; a read that shows no elements; a completion without an invocation.
#[test]
fn repeated_elements_and_bad_reads(rt: HostRuntime) {
    let rows = r#"
{:type :invoke, :process 0, :f :read}
{:type :ok, :process 0, :f :read, :value [2 2 3 2]}
→ {:valid? false, :attempted 0, :stable 0, :lost [], :never-read [], :stale [], :duplicated {2 3}}
§
{:type :invoke, :process 0, :f :read}
{:type :ok, :process 0, :f :read, :value 5}
→ operation 1: bad value
§
{:type :ok, :process 0, :f :read, :value 5}
→ operation 0: no invocation
"#;
    let judge = SetFull {
        linearizable: false,
    };
    assert_eq!(rt; first_wrong(rt.alloc(), &judge, rows), None);
}

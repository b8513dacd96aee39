//! The command `plot`: pages of histories, and what is refused. A row is an input, an arrow, and the
//! answer as `timelines` has it: the status, and parts of the page that stand in it one behind the other.
//! An input that begins with `--skip-unread` is read with that option. What is expected follows from the
//! definitions: times lie on 899 pixels, latencies on 299 from 0.1 ms to 1 ms.

use crate::rows::{push_error, with_status};
use crate::timelines::has_parts;
use jh_cli::{CliError, plot_run};
use std::alloc::Global;

/// The answer to an input; `None` where memory was refused.
fn answer_once(alloc: Global, input: &str) -> Option<Vec<u8>> {
    let (mut reader, skips_unread) = match input.trim().strip_prefix("--skip-unread") {
        Some(history) => (history.as_bytes(), true),
        None => (input.as_bytes(), false),
    };
    let mut page = Vec::new(alloc);
    match plot_run(alloc, &mut reader, &mut page, skips_unread) {
        Ok(status) => with_status(alloc, status, &page),
        Err(CliError::OutOfMemory | CliError::Write) => None,
        Err(error) => {
            push_error(&error, &mut page)?;
            Some(page)
        }
    }
}

/// Whether a row is right; `None` where memory was refused.
fn is_right_once(alloc: Global, row: &str) -> Option<bool> {
    let Some((input, parts)) = row.split_once('→') else {
        return Some(false);
    };
    let answer = answer_once(alloc, input)?;
    Some(str::from_utf8(&answer).is_ok_and(|page| has_parts(page, parts.trim())))
}

/// The first row that is wrong.
fn first_wrong(alloc: Global, rows: &str) -> Option<&str> {
    for row in rows.split('§') {
        let is_right = is_right_once(alloc, row).or_else(|| is_right_once(alloc, row));
        if is_right != Some(true) {
            return Some(row);
        }
    }
    None
}

#[test]
fn histories_are_plotted_with_their_faults(rt: HostRuntime) {
    let rows = r#"{:type :invoke, :process 0, :f :read, :value nil, :time 0}
{:type :info, :process :nemesis, :f :step, :value 0, :step [:begin 1 [:pause ["n1"]]], :time 0}
{:type :info, :process :nemesis, :f :step, :value [0 0], :time 500000}
{:type :ok, :process 0, :f :read, :value nil, :time 1000000}
→ 0
<h2>:read, calls: 1</h2>
<g class="shades">
<path d="M449 0V-299H899V0z"><title>1: pause n1</title></path>
<path class="ok" d="M0-299h0"/>
<path class="fail" d=""/>
<path class="p50" d="M899-299 h0"/>
§ {:type :invoke, :process 0, :f :read, :value nil, :time 7}
:active []
→ 0
<h2>:read, calls: 1</h2>
<path class="info" d="M899-0h0"/>
§
→ 0
<p>The history has no call, so there is nothing to draw.</p>
§ --skip-unread {:type :invoke, :process 0, :f :read, :value nil, :time 7, :latency 1.5}
→ 0
<h2>:read, calls: 1</h2>
<path class="info" d="M899-0h0"/>
"#;
    assert_eq!(rt; first_wrong(rt.alloc(), rows), None);
}

#[test]
fn inputs_are_refused(rt: HostRuntime) {
    let rows = r#"{:type :invoke, :process 0, :f :read, :value nil, :time 0}
{:type :ok, :process 0, :f :read, :value nil}
→ 3 operation 1: time missing
§ {:type :invoke, :process 0, :f :read, :time 0} {:type :invoke, :process 0, :f :read, :time 1}
→ 3 operation 1: double invoke
§ {:type :invoke
→ 3 line 2: unexpected end
§ 5
→ 3 operation 0: not a map
§ {:type :invoke, :process 0, :f :read, :value nil, :time 7, :latency 1.5}
→ 3 line 1: float unsupported
§ --skip-unread {:type :invoke, :process 0, :f :read, :value 1.5, :time 7}
→ 3 line 1: float unsupported
"#;
    assert_eq!(rt; first_wrong(rt.alloc(), rows), None);
}

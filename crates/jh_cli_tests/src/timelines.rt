//! The command `timeline`: pages of histories, and what is refused. A row is a question and an
//! input, an arrow, and the answer: the status, and parts of the page, each on a line, which stand
//! in it one behind the other; what stands on a line behind `!` does not stand behind them. Of an
//! error the answer is that of `rows`, and nothing is written. What is expected follows from the
//! definitions.
//!
//! A question is four parts: a workload, the value that a register has at first, and the records
//! from and before which are shown; each may be `-`, which is none. A fifth, `keys`, asks for a
//! section for each key.

use crate::rows::{push_error, with_status};
use jh_checkers::{Checker, Judging};
use jh_cli::{CliError, TimelineQuestion, timeline_run};
use jh_edn::read_all;
use jh_timeline_sections::Choice;
use std::alloc::Global;
use std::io::Write;

/// More configurations than a judge needs here.
const BUDGET: u64 = 1_000;

/// The steps of the schedule of whatever is shown.
const STEPS: &[u8] = b"[:begin 1 [:kill [\"n1\"]]] [:withdraw 2]";

/// The question that a text asks.
fn question_of(pieces: &str) -> Option<TimelineQuestion<'static>> {
    let mut pieces = pieces.split_whitespace();
    let checker = Checker::named(pieces.next()?);
    let initial = pieces.next()?.parse().ok();
    Some(TimelineQuestion {
        judging: checker.map(|checker| Judging {
            initial,
            explain: true,
            ..Judging::by(checker, BUDGET)
        }),
        choice: Choice {
            from: pieces.next()?.parse().ok(),
            to: pieces.next()?.parse().ok(),
        },
        independent: pieces.next() == Some("keys"),
        skips_unread: false,
    })
}

/// The answer to a question and an input; `None` where memory was refused.
fn answer_once(alloc: Global, question: TimelineQuestion<'_>, input: &str) -> Option<Vec<u8>> {
    let steps = read_all(alloc, &mut STEPS, 10).ok()?;
    let mut reader = input.as_bytes();
    let mut page = Vec::new(alloc);
    match timeline_run(alloc, &mut reader, &mut page, question, &steps) {
        Ok(status) => with_status(alloc, status, &page),
        Err(CliError::OutOfMemory | CliError::Write) => None,
        Err(error) => {
            push_error(&error, &mut page)?;
            Some(page)
        }
    }
}

/// Whether a page has these parts, one behind the other.
pub(crate) fn has_parts(page: &str, parts: &str) -> bool {
    let (status, parts) = parts.split_once('\n').unwrap_or((parts, ""));
    let Some((first, mut behind)) = page.split_once('\n') else {
        return false;
    };
    if first != status.trim() {
        return false;
    }
    for part in parts.lines() {
        if let Some(absent) = part.strip_prefix('!') {
            if behind.contains(absent) {
                return false;
            }
        } else if let Some((_, rest)) = behind.split_once(part) {
            behind = rest;
        } else {
            return false;
        }
    }
    true
}

/// Whether a row is right; `None` where memory was refused.
fn is_right_once(alloc: Global, row: &str) -> Option<bool> {
    let Some((text, parts)) = row.split_once('→') else {
        return Some(false);
    };
    let Some((pieces, input)) = text.trim().split_once('\n') else {
        return Some(false);
    };
    let Some(question) = question_of(pieces) else {
        return Some(false);
    };
    let answer = answer_once(alloc, question, input)?;
    Some(str::from_utf8(&answer).is_ok_and(|page| has_parts(page, parts.trim())))
}

/// The first row that is wrong.
fn first_wrong(alloc: Global, rows: &str) -> Option<&str> {
    for row in rows.split('§') {
        let is_right = is_right_once(alloc, row).or_else(|| is_right_once(alloc, row));
        if is_right != Some(true) {
            return Some(row);
        }
    }
    None
}

#[test]
fn registers_are_shown_with_what_is_found(rt: HostRuntime) {
    let rows = r#"register 0 - -
{:index 0, :type :invoke, :process 0, :f :write, :value 1} {:index 1, :type :ok, :process 0, :f :write, :value 1}
{:index 2, :type :invoke, :process 1, :f :read, :value nil} {:index 3, :type :ok, :process 1, :f :read, :value 1}
→ 0
<h1>Valid: 2 operations have an order</h1>
<pre>{:valid? true, :order [0 1]}</pre>
All 4 records.
<li>process 0 1</li>
<svg class="ok" x="240" y="0" width="232" height="32">
 write 1</text>
<svg class="ok" x="240" y="32" width="232" height="32">
 read 1</text>
<svg class="placed" x="240" y="0"
>0</text>
<svg class="placed" x="240" y="32"
>1</text>
!<svg
!<pre>
§ register 0 - -
{:index 0, :type :invoke, :process 0, :f :write, :value 1} {:index 1, :type :ok, :process 0, :f :write, :value 1}
{:index 2, :type :invoke, :process 1, :f :read, :value nil} {:index 3, :type :ok, :process 1, :f :read, :value 0}
→ 1
<h1>Not valid: no order of all operations, stuck at record 3 (process 1: read 0)</h1>
<pre>{:valid? false, :stuck {:index 3, :type :ok, :process 1, :f :read, :value 0}, :order [0], :value 1, :pending [1], :because :out-of-order, :named [1 0]}</pre>
<g class="marks">
<svg class="named" id="found-0-0" x="240" y="0" width="232" height="32">
>named</text>
<svg class="stuck" id="found-0-1" x="240" y="32" width="232" height="32">
>stuck</text>
!<svg
§ set - - -
{:type :invoke, :process 0, :f :add, :value 1}
→ 2
<h1>Unknown: the set was never read</h1>
<pre>{:valid? :unknown, :error &quot;Set was never read&quot;}</pre>
All 1 records.
<svg class="open" x="240" y="0" width="232" height="16">
 add 1</text>
"#;
    assert_eq!(rt; first_wrong(rt.alloc(), rows), None);
}

#[test]
fn what_run_prints_is_shown_too(rt: HostRuntime) {
    let rows = r#"- - - -
{:index 0, :time 0, :type :invoke, :process 0, :f :read, :value nil}
{:index 1, :time 1, :type :ok, :process 0, :f :read, :value nil}
:active [0 3]
{:nodes ["n1" "n2"]}
{:valid? true, :order [0]}
→ 0
<h1>A history</h1>
All 2 records.
<pre>:active [0 3]
{:nodes [&quot;n1&quot; &quot;n2&quot;]}
{:valid? true, :order [0]}</pre>
§ register - - -
{:index 0, :time 0, :type :invoke, :process 0, :f :read, :value nil}
{:index 1, :time 1, :type :ok, :process 0, :f :read, :value 0}
:active []
{:nodes ["n1" "n2"]}
{:valid? false, :order [0]}
{:valid? true, :order [0]}
→ 1
<h1>Not valid: no order of all operations, stuck at record 1 (process 0: read 0)</h1>
<p class="notice">The input says {:valid? true}, and this page judged it otherwise: were --initial, --model and --workload those of the run?</p>
<pre>{:valid? false, :stuck
§ register 0 - -
{:index 0, :time 0, :type :invoke, :process 0, :f :read, :value nil}
{:index 1, :time 1, :type :ok, :process 0, :f :read, :value 0}
:active []
{:valid? :unknown, :error "none"}
→ 0
<h1>Valid: 1 operation has an order</h1>
<p class="notice">The input says {:valid? :unknown}, and this page
§ register 0 - -
{:index 0, :time 0, :type :invoke, :process 0, :f :read, :value nil}
{:index 1, :time 1, :type :ok, :process 0, :f :read, :value 0}
:active []
{:valid? false, :order [0]}
{:valid? true, :order [0]}
 {:valid? false}
→ 0
<h1>Valid: 1 operation has an order</h1>
!class="notice"
§ - - - -
:active []
→ 0
All 0 records.
<pre>:active []</pre>
§ - - - -
{:index 0, :time 0, :type :invoke, :process 0, :f :read, :value nil}
:end
{:index 0, :time 0, :type :invoke, :process 0, :f :read, :value nil}
{:index 1, :time 1, :type :ok, :process 0, :f :read, :value nil}
:active []
→ 0
All 2 records.
<pre>:active []</pre>
§ - - - -
{:type :info, :process :nemesis, :f :step, :value 0} {:type :info, :process :nemesis, :f :step, :value [0 0]}
{:type :info, :process :nemesis, :f :step, :value 1} {:type :info, :process :nemesis, :f :step, :value [1 3]}
→ 0
<svg class="band" y="16" width="100%" height="48">
>1: kill n1</text>
>begin 1: kill n1</text>
>begin 1: kill n1: done</text>
>withdraw 2</text>
>withdraw 2: refused, code 3</text>
§ - - - -
{:type :info, :process :nemesis, :f :note, :value "
:active"}
→ 0
All 1 records.
!<pre>
§ - - - -
{:type :info, :process :nemesis, :f :note}
:active [
)
→ 0
All 1 records.
<pre>:active [
)</pre>
"#;
    assert_eq!(rt; first_wrong(rt.alloc(), rows), None);
}

#[test]
fn keys_have_sections_of_their_own(rt: HostRuntime) {
    let rows = r##"set - - - keys
{:type :invoke, :process 0, :f :add, :value [:a 1]} {:type :ok, :process 0, :f :add, :value [:a 1]}
{:type :info, :process :nemesis, :f :note}
{:type :invoke, :process 0, :f :add, :value [:b 2]} {:type :ok, :process 0, :f :add, :value [:b 2]}
{:type :invoke, :process 1, :f :add, :value [:c 3]} {:type :ok, :process 1, :f :add, :value [:c 3]}
{:type :invoke, :process 0, :f :read, :value [:a nil]} {:type :ok, :process 0, :f :read, :value [:a [1]]}
{:type :invoke, :process 0, :f :read, :value [:c nil]} {:type :ok, :process 0, :f :read, :value [:c []]}
→ 1
<h1>Not valid: 1 of 3 keys</h1>
<pre>{:valid? false, :keys [[:a {:valid? true,
<li><a href="#part-0">Key :c: not valid</a></li>
<li><a href="#part-1">Key :b: unknown</a></li>
<li><a href="#part-2">Key :a: valid</a></li>
<h2 id="part-0">Key :c: not valid</h2>
<p>All 4 records.</p>
<li>process 1 0</li>
 add 3</text>
<svg class="lost" id="found-0-0" x="240" y="0" width="232" height="32">
<h2 id="part-1">Key :b: unknown</h2>
<p>All 2 records.</p>
 add 2</text>
<h2 id="part-2">Key :a: valid</h2>
<p>All 4 records.</p>
 add 1</text>
!class="lost"
§ - - - - keys
{:type :invoke, :process 0, :f :read, :value (7 nil)}
{:type :invoke, :process 1, :f :write, :value [7 5]}
→ 0
<h1>A history</h1>
!<ul>
<h2 id="part-0">Key 7</h2>
<p>All 2 records.</p>
<svg class="open" x="240" y="0" width="232" height="16">
 read</text>
 write 5</text>
§ register - - - keys
{:type :info, :process :nemesis, :f :note}
→ 0
<h1>Valid: 0 keys</h1>
<pre>{:valid? true, :keys []}</pre>
!<svg
"##;
    assert_eq!(rt; first_wrong(rt.alloc(), rows), None);
}

#[test]
fn inputs_are_refused(rt: HostRuntime) {
    let rows = r#"- - - -
{:type :info, :process :nemesis, :f :note}
{:type
→ 3 line 2: unexpected end
§ - - - -
{:type :info, :process :nemesis, :f :note}
)
:active []
→ 3 line 2: bad token
§ - - - -
{:type :info, :process :nemesis, :f :note} 2
:active []
→ 3 operation 1: not a map
§ - - - -
{:type :info, :process :nemesis, :f :note} :active []
→ 3 operation 1: not a map
§ register - - -
{:type :invoke, :process 0, :f :read} {:type :invoke, :process 0, :f :read}
→ 3 operation 1: double invoke
§ register - - -
{:type :invoke, :process 0, :f :add, :value 1}
→ 3 operation 0: bad value
§ - - - - keys
{:type :info, :process :nemesis, :f :note} {:type :invoke, :process 0, :f :read, :value 3}
→ 3 operation 1: bad value
§ counter - - - keys
{:type :invoke, :process 0, :f :add, :value ["a" 1]} {:type :ok, :process 0, :f :add, :value ["b" 1]}
→ 3 operation 1: no invocation
§ set 5 - -
{:type
→ 3 --initial: only for register
"#;
    assert_eq!(rt; first_wrong(rt.alloc(), rows), None);
}

#[test]
fn records_are_chosen(rt: HostRuntime) {
    let rows = r#"- - 1 3
{:type :invoke, :process 0, :f :read} {:type :ok, :process 0, :f :read, :value 4}
{:type :invoke, :process 0, :f :read} {:type :ok, :process 0, :f :read, :value 5}
→ 0
Records 1 to 2 of 4; --from and --to choose others.
<svg class="ok" x="240" y="0" width="232" height="16">
 read 4</text>
<svg class="ok" x="240" y="16" width="232" height="16">
 read 5</text>
!<svg
§ - - - 9
{:type :invoke, :process 0, :f :read} {:type :invoke, :process 0, :f :read}
→ 0
All 2 records.
<svg class="open" x="240" y="0" width="232" height="16">
<svg class="open" x="240" y="16" width="232" height="16">
§ - - 2 1
{:type :invoke, :process 0, :f :read} {:type :invoke, :process 0, :f :read}
→ 0
No record of 2
!<svg class="open"
"#;
    assert_eq!(rt; first_wrong(rt.alloc(), rows), None);
}

/// So many records of the nemesis.
fn push_faults(count: u32, text: &mut String) -> Option<()> {
    for _ in 0..count {
        text.push_str("{:type :info, :process :nemesis, :f :note}\n")
            .ok()?;
    }
    Some(())
}

/// A row with a long history: an id is given twice behind so many other records, with so many
/// behind.
fn long_row(
    alloc: Global,
    workload: &str,
    before: u32,
    behind: u32,
    parts: &str,
) -> Option<String> {
    let mut row = String::new(alloc);
    row.push_str(workload).ok()?;
    row.push_str(" - - -\n").ok()?;
    push_faults(before, &mut row)?;
    for _ in 0..2 {
        row.push_str("{:type :invoke, :process 0, :f :generate}\n")
            .ok()?;
        row.push_str("{:type :ok, :process 0, :f :generate, :value 7}\n")
            .ok()?;
    }
    push_faults(behind, &mut row)?;
    row.push_str("→ ").ok()?;
    row.push_str(parts).ok()?;
    Some(row)
}

fn is_long_row_right(alloc: Global, workload: &str, before: u32, behind: u32, parts: &str) -> bool {
    let row = long_row(alloc, workload, before, behind, parts).or_else(|| long_row(
        alloc, workload, before, behind, parts,
    ));
    row.is_some_and(|row| first_wrong(alloc, row.as_str()) == None)
}

/// The first bar that is marked ends at the index 1501.
#[test]
fn long_histories_are_shown_around_what_is_found(rt: HostRuntime) {
    let shown = "1\nRecords 1001 to 2000 of 2504; --from and --to choose others.\n\
        <svg class=\"repeated\" id=\"found-0-0\" x=\"240\" y=\"7984\"\n";
    assert!(rt; is_long_row_right(rt.alloc(), "unique-ids", 1_500, 1_000, shown));
    let near = "1\nRecords 0 to 999 of 2054;\n";
    assert!(rt; is_long_row_right(rt.alloc(), "unique-ids", 50, 2_000, near));
}

#[test]
fn long_histories_are_shown_from_their_beginning(rt: HostRuntime) {
    let shown = "0\nRecords 0 to 999 of 2504;\n!<svg class=\"repeated\"\n";
    assert!(rt; is_long_row_right(rt.alloc(), "-", 1_500, 1_000, shown));
    let all = "1\nAll 2000 records.\n";
    assert!(rt; is_long_row_right(rt.alloc(), "unique-ids", 1_000, 996, all));
}

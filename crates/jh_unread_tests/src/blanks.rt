//! Rows of texts, each with a `~` before and behind each part that is to be blank.
//!
//! Each test passes, too, where one allocation is refused: what answers so is asked again.

use jh_edn::{values_in_line, write};
use jh_unread::without_unread;
use std::alloc::Global;

/// A row as the text that it stands for, and as what is to come of it.
#[derive(Drop)]
struct Texts {
    before: Vec<u8>,
    after: Vec<u8>,
}

/// The texts of a row. None: memory was refused.
fn texts_of(alloc: Global, row: &str) -> Option<Texts> {
    let mut before = Vec::new(alloc);
    let mut after = Vec::new(alloc);
    let mut is_blank = false;
    for b in row.as_bytes() {
        if *b == b'~' {
            is_blank = !is_blank;
        } else {
            before.push(*b).ok()?;
            let is_space = is_blank && *b != b'\n';
            after.push(if is_space { b' ' } else { *b }).ok()?;
        }
    }
    Some(Texts { before, after })
}

/// Whether a row holds. None: memory was refused.
fn holds(alloc: Global, row: &str) -> Option<bool> {
    let texts = texts_of(alloc, row)?;
    let text = str::from_utf8(&texts.before).ok()?;
    let found = without_unread(alloc, text).ok()?;
    Some(found.as_slice() == texts.after.as_slice())
}

#[test]
fn unread_pairs_are_blank(rt: HostRuntime) {
    let alloc = rt.alloc();
    let rows = [
        "{:type :ok, ~:time 1.5~}",
        "{~:ratio 1/2~, :f :read}",
        "{:type :info ~:error #object[java.lang.Object 0x1f \"x\"]~}",
        "{~:nan ##NaN~ :f :read}",
        "{~:big 99999999999999999999~ ~:small -9223372036854775809~ :least -9223372036854775808}",
        "{~:time 1.5~, ~:index 1e3~, :value 1}",
        "{:value 1.5 ~:time 2.5M~}",
        "{:a 1, ~:extra {:b {:c [0x1f]}}~, :f :read}",
        "{~1.5 :a~ :b 1 ~\"time\" 1.5~ ~#t :type 1.5~}",
        "{~:a 1.5~ :b}",
        "{~:time\n  [1.5\n   2]~\n:f :read}",
        "{:a 1 ; \"x\n ~:t 1.5~}",
        "{~:é 1.5é~ :f \"é\"}",
        "{~:a @~}{~:a .5~}\n{:a 1 ~:b `~}{:a}",
    ];
    for row in rows {
        let held = holds(alloc, row).or_else(|| holds(alloc, row));
        assert_eq!(rt; held, Some(true));
    }
}

#[test]
fn what_is_read_stays(rt: HostRuntime) {
    let alloc = rt.alloc();
    let rows = [
        "",
        "{}",
        "{:type 1.5, :f 1/2, :process 0x1f, :value [##NaN 1.5M]}",
        "{:error \"1.5 0x1f\" ; 1.5 0x1f\n :index 3}",
        "{:value {:time 1.5}}",
        "{:time foo/bar, :k :a.b/c, :n 12N, :m -5, :c \\a, :s #{1 2}, :l (1 2), :t #t nil}",
        "{#_ 1.5 :a 1 #_ 0x1f}",
        "1.5 @ #_ 0x1f",
        "#{{:time 1.5}}",
        "[[{:time 1.5}]]",
        "[#{} {:a {:b 1}} [1.5]]",
        "{:a [1.5 \\foo]}",
    ];
    for row in rows {
        let held = holds(alloc, row).or_else(|| holds(alloc, row));
        assert_eq!(rt; held, Some(true));
    }
}

#[test]
fn operations_are_found(rt: HostRuntime) {
    let alloc = rt.alloc();
    let rows = [
        "[{~:time 1.5~} {:index 1 ~:time 2.5~}]",
        "({~:time 1.5~} ([{:time 2.5}]) 3)",
        "#jepsen.history.Op{:index 0, ~:time 1.5~}",
        "#a #b [#c {~:t 1.5~} #d #_ 1 #e {~:t 2.5~}]",
        "1.5 {~:t 1.5~} [1.5 {~:t 1.5~}] {:f {:t 1.5}}",
        "#_ {:time 1.5} {~:time 2.5~} [#_ {:time 1.5} {~:time 2.5~}] #_ [{:t 1.5}]",
        "#_ #_ {:t 1.5} {:t 2.5} {~:t 3.5~}",
        "{:a #_ 7 1 ~:time #_ 0 1.5~ #_ 2 ~:b #_ 1.5 2~}",
        "{#_ #_ :x :y ~:t 1.5~ #_ #t 1.5 :f 1}",
        "{~:re #\"a.b\"~ :f :read, ~:fn #(inc %)~, ~:at @(a 1)~ ~:m #:ns{:a 1}~ :g 1}",
        "{~:set #{1.5}~ :type :ok}",
    ];
    for row in rows {
        let held = holds(alloc, row).or_else(|| holds(alloc, row));
        assert_eq!(rt; held, Some(true));
    }
}

#[test]
fn faults_are_left_to_the_reader(rt: HostRuntime) {
    let alloc = rt.alloc();
    let rows = [
        "{:time 1.5, :error \"abc}",
        "{~:a 1.5~} {:time 1.5, :error \"abc}",
        "{:time 1.5 :error \"a\\q\"} {:time 1.5}",
        "{~:a 1.5~} \"a\\q\" {:time 1.5}",
        "{:time 1.5] {:time 1.5}",
        "{:time 1.5",
        "[{~:time 1.5~}",
        "{~:a 1.5~} ] {:b 1.5}",
        "{:time (1.5] }",
        "{:a #_} {:t 1.5}",
        "{:a [1.5 \\foo] ~:b 1.5~}",
    ];
    for row in rows {
        let held = holds(alloc, row).or_else(|| holds(alloc, row));
        assert_eq!(rt; held, Some(true));
    }
}

/// The row of an operation with a float inside so many vectors. None: memory was refused.
fn nested(alloc: Global, depth: usize, mark: &str) -> Option<String> {
    let mut row = String::new(alloc);
    row.push('{').ok()?;
    row.push_str(mark).ok()?;
    row.push_str(":a ").ok()?;
    for _turn in 0..depth {
        row.push('[').ok()?;
    }
    row.push_str("1.5").ok()?;
    for _turn in 0..depth {
        row.push(']').ok()?;
    }
    row.push_str(mark).ok()?;
    row.push('}').ok()?;
    Some(row)
}

/// Whether the row of so many vectors holds. None: memory was refused.
fn nested_holds(alloc: Global, depth: usize, mark: &str) -> Option<bool> {
    holds(alloc, &nested(alloc, depth, mark)?)
}

#[test]
fn as_much_is_open_as_the_reader_takes(rt: HostRuntime) {
    let alloc = rt.alloc();
    for (depth, mark) in [(63, "~"), (64, "")] {
        let held = nested_holds(alloc, depth, mark).or_else(|| nested_holds(alloc, depth, mark));
        assert_eq!(rt; held, Some(true));
    }
}

/// What is read of a text without its unread pairs. None: memory was refused, or it is refused.
fn read_without(alloc: Global, text: &str) -> Option<Vec<u8>> {
    let found = without_unread(alloc, text).ok()?;
    let mut written = Vec::new(alloc);
    for value in &values_in_line(alloc, str::from_utf8(&found).ok()?).ok()? {
        write(value, &mut written).ok()?;
    }
    Some(written)
}

#[test]
fn the_rest_is_read(rt: HostRuntime) {
    let alloc = rt.alloc();
    let text = "{:type :ok, :time 1.5, :f :read, :error #object[a.B 0x1f \"x\"], :value 3}";
    let answer = read_without(alloc, text).or_else(|| read_without(alloc, text));
    let wanted = b"{:type :ok, :f :read, :value 3}".as_slice();
    assert!(rt; answer.is_some_and(|written| written.as_slice() == wanted));
}

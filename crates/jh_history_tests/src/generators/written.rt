//! What is written of the generator that a text means.
//!
//! A row is a text, which is written as it stands there; or a text, ` → `, and what is written of it.

use jh_edn::{Value, read_all, write};
use jh_gen::gen_of_value;
use jh_gen_texts::{generators_read_back, value_of_gen};
use std::alloc::Global;

/// The value of a text. None: memory was refused.
fn value_of(alloc: Global, text: &str) -> Option<Value> {
    read_all(alloc, &mut text.as_bytes(), 2).ok()?.pop()
}

/// What is written of the generator of a text. None: memory was refused.
fn rewritten_once(alloc: Global, text: &str) -> Option<Vec<u8>> {
    let source = gen_of_value(alloc, &value_of(alloc, text)?).ok()?;
    let mut written = Vec::new(alloc);
    write(&value_of_gen(alloc, &source).ok()?, &mut written).ok()?;
    Some(written)
}

const ROWS: &str = "[:nil]
[:once :read]
[:once [:write -3]]
[:forever [:cas 1 -2]]
[:forever [:add 9223372036854775807]]
[:once :generate]
[:once [:step 4294967295]]
[:rising -7]
[:rising-write 8]
[:once :txn]
[:seq]
[:seq [:nil] [:once :read] [:seq [:rising 1]]]
[:limit 0 [:nil]]
[:limit 4294967295 [:forever :read]]
[:mix [:once [:add 5]] [:rising 7]]
[:phases [:once [:write 0]] [:mix]]
[:reserve [:once :read]]
[:reserve 1 [:rising 2] 0 [:nil] [:once :read]]
[:each-thread [:limit 3 [:nil]]]
[:clients [:each-thread [:nil]]]
[:nemesis [:phases [:once [:step 0]]]]
(:limit +5 (:seq (:nil))) → [:limit 5 [:seq [:nil]]]
(:once (:cas 1 2)) → [:once [:cas 1 2]]";

#[test]
fn generators_are_written(rt: HostRuntime) {
    generators_read_back();
    for row in ROWS.lines() {
        let (text, wanted) = row.split_once(" → ").unwrap_or((row, row));
        let written = rewritten_once(rt.alloc(), text).or_else(|| rewritten_once(rt.alloc(), text));
        assert!(rt;
            written.is_some_and(|it| it.as_slice() == wanted.as_bytes()),
            "at {row}"
        );
    }
}

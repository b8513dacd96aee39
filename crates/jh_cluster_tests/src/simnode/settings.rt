//! Which settings a document means, and why others are refused.

use crate::simnode::documents::answer_once;
use crate::simnode::rows::{TextKind, ask_all};
use std::alloc::{AllocError, Global};
use std::test::Fail;

// A run in which two nodes are killed and lose what they knew; settings with nothing that has a default, of another
// workload; and those of a set on threads, which say so.
const DOCUMENTS: &str = r#"
start = '{:nodes ["n1" "n2" "n3"]}'
store = "quorum"
workload = "register"
generator = '[:seq [:once [:write 5]] [:once :read]]'
clients = 1
ops = 2
mode = "serial"
volatile = true
initial = 0
schedule = [
  '[0 [:begin 1 [:pause ["n3"]]]]',
  '[1 [:begin 2 [:kill ["n1" "n2"]]]]',
  '[1 [:withdraw 2]]',
  '[1 [:withdraw 1]]',
]
→ 100000 Serial; 3 nodes Quorum true Register Some(0); 1 2 0 4096 0; Seq(Gens { items: [Once(Client(Write(5))), Once(Client(Read))] }); 0 begin 1, 1 begin 2, 1 withdraw 2, 1 withdraw 1,
§ start = '{:nodes ["n1"]}'
store = "local"
workload = "unique-ids"
generator = '[:forever :generate]'
clients = 16
ops = 10_000
→ 100000 Threads; 1 nodes Local false Ids None; 16 10000 0 4096 0; Forever(Client(Generate));
§ start = '{:nodes ["n1"]}'
store = "lww"
workload = "set"
generator = '[:forever :read]'
clients = 2
ops = 1_000
mode = "threads"
→ 100000 Threads; 1 nodes Lww false Set None; 2 1000 0 4096 0; Forever(Client(Read));"#;

#[test]
fn documents_mean_settings(rt: HostRuntime) -> Result<(), Fail> {
    ask_all(rt.alloc(), TextKind::Document, DOCUMENTS)
}

const KEYS: &str = r##"
# all is good → ok
§ start = "a → not TOML
§ seed = 1
seed = 1
→ not TOML
§ seed = 9223372036854775808 → not TOML
§ zebra = 1
apple = 1
→ apple: unknown
§ apple = 1
Zebra = 1
→ Zebra: unknown
§ Start = 1 → Start: unknown
§ a.b = 1 → a: unknown
§ "" = 1 → : unknown
§ "two\nlines" = 1 → two\u{a}lines: unknown
§ "\u007f\u0085\\é" = 1 → \u{7f}\u{85}\é: unknown
§ kkkkkkkkkkkkkkkkkkkkkkkkkkkkkkkkkkkkkkkkkkkkkkkkkkkkkkkkkkkkkkkkkkkkkkkkkkkkkkkkkkkkkkkkkkkkkkkkkkkkkkkkkkkkkkkkkkkkkkkkkkkkkkkkkkkkkkkkkkkkkkkkkkkkkkkkkkkkkkkkkkkkkkkkkkkkkkkkkkkkkkkkkkkkkkkkkkkkkkkkk = 1
→ a key of 201 bytes: unknown
§ unheard = 1
!start
clients = 0
→ unheard: unknown
§ !start
!ops
→ start: missing
§ !store → store: missing
§ !workload → workload: missing
§ !generator
store = "none"
→ generator: missing
§ !clients → clients: missing
§ !ops
!mode
→ ops: missing
"##;

#[test]
fn looks_at_keys_first(rt: HostRuntime) -> Result<(), Fail> {
    ask_all(rt.alloc(), TextKind::Lines, KEYS)
}

const ELEMENTS: &str = r##"
start = 1 → start: bad value
§ start = "" → start: bad value
§ start = "#_ {:nodes [1]}" → start: bad value
§ start = '{:nodes ["n1"]} {:nodes ["n1"]}' → start: bad value
§ start = '{:nodes ["n1"]} ]' → start: bad value
§ start = '{:nodes ["n1"]' → start: bad value
§ start = '{:nodes []}' → start: bad value
§ start = '{:nodes ["n1"], :cut [["n1" "n2"]]}' → start: bad value
§ start = ' #_ [1] {:nodes ["n1"]} ; calm' → ok
§ generator = "[:sometimes]" → generator: bad value
§ generator = "[:nil] [:nil]" → generator: bad value
§ generator = ["[:nil]"] → generator: bad value
§ generator = "(:limit 1 [:forever [:cas 0 1]])" → ok
§ generator = "[:once [:add 1]]" → generator: bad value
§ generator = "[:once [:add 1]]"
schedule = 1
→ schedule: bad value
§ schedule = "[0 [:undo]]" → schedule: bad value
§ schedule = [1] → schedule: bad value
§ schedule = ["[0 [:undo]] 1"] → schedule: bad value
§ schedule = ["[10001 [:undo]]"] → schedule: bad value
§ schedule = ["[-1 [:undo]]"] → schedule: bad value
§ schedule = ["[[:undo]]"] → schedule: bad value
§ schedule = ["[0 [:undo] 1]"] → schedule: bad value
§ schedule = ["[0 [:redone]]"] → schedule: bad value
§ schedule = ['[0 [:begin 1 [:pause ["n2"]]]]', '[0 [:begin 2 [:pause ["n3"]]]]'] → schedule: bad value
§ schedule = ['[0 [:begin 1 [:pause ["n2"]]]]', '( 10000 (:undo) )'] → ok
§ schedule = [] → ok
"##;

#[test]
fn looks_at_elements(rt: HostRuntime) -> Result<(), Fail> {
    ask_all(rt.alloc(), TextKind::Lines, ELEMENTS)
}

const WORDS_AND_NUMBERS: &str = r##"
store = "Quorum" → store: bad value
§ store = 1 → store: bad value
§ store = "none"
clients = 0
→ store: bad value
§ workload = "ids" → workload: bad value
§ workload = "unique-ids"
generator = "[:once :generate]"
→ ok
§ clients = 0 → clients: bad value
§ clients = 17 → clients: bad value
§ clients = 1.0 → clients: bad value
§ clients = "1" → clients: bad value
§ clients = 1_6 → ok
§ clients = 0x10 → ok
§ ops = 0 → ops: bad value
§ ops = 10001 → ops: bad value
§ ops = 10_000 → ok
§ workload = "set"
ops = 1001
→ ops: bad value
§ workload = "set"
ops = 1000
→ ok
§ workload = "set"
mode = "threads"
→ ok
§ !mode → ok
§ mode = "threads" → ok
§ mode = "serial" → ok
§ mode = 1 → mode: bad value
§ mode = "both" → mode: bad value
§ mode = "Threads" → mode: bad value
§ ops = 0
mode = "both"
→ ops: bad value
§ mode = "both"
volatile = 1
→ mode: bad value
§ volatile = 1 → volatile: bad value
§ volatile = true → ok
§ initial = 1.5 → initial: bad value
§ initial = -9223372036854775808 → ok
§ workload = "counter"
initial = 0
→ initial: bad value
§ tick_every = -1 → tick_every: bad value
§ tick_every = 10001 → tick_every: bad value
§ rows = 0 → rows: bad value
§ rows = 65537 → rows: bad value
§ seed = -1 → seed: bad value
§ seed = 9223372036854775807 → ok
§ budget = 10000001 → budget: bad value
§ budget = -1
seed = -1
→ seed: bad value
§ tick_every = 10_000
rows = 65_536
budget = 10_000_000
→ ok
"##;

#[test]
fn looks_at_words_and_numbers(rt: HostRuntime) -> Result<(), Fail> {
    ask_all(rt.alloc(), TextKind::Lines, WORDS_AND_NUMBERS)
}

const HEAD: &str =
    "start = '{:nodes [\"n1\"]}'\nstore = 'lww'\nworkload = 'set'\ngenerator = '[:nil]'\n\
clients = 1\nops = 1\nmode = 'serial'\nschedule = [";

/// A document with so many entries.
fn long(alloc: Global, count: u32) -> Result<String, AllocError> {
    let mut document = HEAD.to_string(alloc)?;
    for _entry in 0..count {
        document.push_str("'[0 [:undo]]', ")?;
    }
    document.push_str("]")?;
    Ok(document)
}

/// The answer of a document with so many entries. None: memory was refused.
fn long_answer(alloc: Global, count: u32) -> Option<Vec<u8>> {
    answer_once(alloc, long(alloc, count).ok()?.as_bytes())
}

/// Whether this is the answer of a document with so many entries.
fn is_long_answer(alloc: Global, count: u32, wanted: &str) -> bool {
    let answer = match long_answer(alloc, count) {
        None => long_answer(alloc, count),
        answer => answer,
    };
    match answer {
        Some(answer) => answer.as_slice() == wanted.as_bytes(),
        None => false,
    }
}

#[test]
fn has_a_longest_schedule(rt: HostRuntime) {
    assert!(rt; is_long_answer(rt.alloc(), 1_024, "ok"));
    assert!(rt; is_long_answer(rt.alloc(), 1_025, "schedule: bad value"));
}

#[test]
fn wants_utf8(rt: HostRuntime) {
    let answer = match answer_once(rt.alloc(), b"# \xff") {
        None => answer_once(rt.alloc(), b"# \xff"),
        answer => answer,
    };
    assert!(rt; answer.is_some_and(|it| it.as_slice() == b"not TOML".as_slice()));
}

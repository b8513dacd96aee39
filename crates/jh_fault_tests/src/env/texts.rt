//! Worked texts of environments: which are refused and why, and how they are written.

use jh_edn::{Value, read_one, write};
use jh_env::{Env, EnvTextError, env_of_value, environments_read_back, value_of_env};
use std::alloc::Global;
use std::test::Fail;

/// What is written of an environment.
fn env_text(alloc: Global, env: &Env) -> Option<Vec<u8>> {
    let mut written = Vec::new(alloc);
    write(&value_of_env(alloc, env).ok()?, &mut written).ok()?;
    Some(written)
}

/// The text of the environment that a value means, or why it is refused. None: memory was refused.
fn value_answer(alloc: Global, value: &Value) -> Option<Vec<u8>> {
    match env_of_value(alloc, value) {
        Ok(env) => env_text(alloc, &env),
        Err(EnvTextError::OutOfMemory) => None,
        Err(error) => Some(error.to_string(alloc).ok()?.into_bytes()),
    }
}

/// The same of the first value of a text.
fn rewritten(alloc: Global, text: &str) -> Option<Vec<u8>> {
    match read_one(alloc, text, 0) {
        Ok(Some((value, _))) => value_answer(alloc, &value),
        _ => None,
    }
}

/// Whether a text has this answer. It is asked once more where memory was refused.
fn is_answer(alloc: Global, text: &str, wanted: &str) -> bool {
    let answer = match rewritten(alloc, text) {
        None => rewritten(alloc, text),
        answer => answer,
    };
    match answer {
        Some(answer) => answer.as_slice() == wanted.as_bytes(),
        None => false,
    }
}

const CALM: &str = "{:nodes [\"n1\" \"n2\"], :cut [], :slow [], :loss [], :down [], :clock []}";

/// Whether the text of a row has its answer, which is a refusal or a text that is read back as itself.
fn is_right(alloc: Global, row: &str) -> bool {
    let (text, wanted) = row.split_once(" => ").unwrap_or((row, ""));
    let wanted = if wanted == "calm" { CALM } else { wanted };
    is_answer(alloc, text, wanted) && (!wanted.starts_with('{') || is_answer(alloc, wanted, wanted))
}

/// Asks each row. One that is not right is the failure.
fn ask_all(alloc: Global, rows: &str) -> Result<(), Fail> {
    for row in rows.lines() {
        if !is_right(alloc, row) {
            return Err(Fail::new(row));
        }
    }
    Ok(())
}

// A text, and what it comes back as: `calm` is the text above.
const ROWS: &str = r#"{:nodes ["n1" "n2"]} => calm
{:nodes ["n1" "n2"], :cut [], :slow [], :loss [], :down [], :clock []} => calm
{:slow [["n1" "n2" 0]] :loss [["n1" "n2" 0]] :clock [["n1" 0]] :nodes ["n1" "n2"]} => calm
{:nodes ["n1" "n2"], :cut [["n2" "n1"]]} => {:nodes ["n1" "n2"], :cut [["n2" "n1"]], :slow [], :loss [], :down [], :clock []}
{:clock [["n2" -5] ["n1" 1000000000000]] :down [["n2" :killed] ["n1" :paused]] :loss [["n2" "n1" 20]] :slow [["n2" "n1" 60000] ["n1" "n2" 1]] :cut [["n2" "n1"] ["n1" "n2"]] :nodes ["n1" "n2"]} => {:nodes ["n1" "n2"], :cut [["n1" "n2"] ["n2" "n1"]], :slow [["n1" "n2" 1] ["n2" "n1" 60000]], :loss [["n2" "n1" 20]], :down [["n1" :paused] ["n2" :killed]], :clock [["n1" 1000000000000] ["n2" -5]]}
[[:nodes ["n1"]]] => not a map
{"nodes" ["n1"]} => unknown key
{:nodes ["n1"] :cuts []} => unknown key
{:cut 5} => nodes missing
{:nodes "n1"} => bad entry
{:nodes [:n1]} => bad entry
{:nodes [] :cut [["n1"]]} => bad entry
{:nodes ["n1" "n2"] :cut [["n1" "n2" 0]]} => bad entry
{:nodes ["n1" "n2"] :slow [["n1" "n2"]]} => bad entry
{:nodes ["n1" "n1"] :down [["n1" :running]]} => bad entry
{:nodes ["n1"] :clock {"n1" 5}} => bad entry
{:nodes []} => no nodes
{:nodes ["a" "a" "a" "a" "a" "a" "a" "a" "a" "a" "a" "a" "a" "a" "a" "a" "a" "a" "a" "a" "a" "a" "a" "a" "a" "a" "a" "a" "a" "a" "a" "a" "a" "a" "a" "a" "a" "a" "a" "a" "a" "a" "a" "a" "a" "a" "a" "a" "a" "a" "a" "a" "a" "a" "a" "a" "a" "a" "a" "a" "a" "a" "a" "a" "a"]} => too many nodes
{:nodes ["a" "a" "a" "a" "a" "a" "a" "a" "a" "a" "a" "a" "a" "a" "a" "a" "a" "a" "a" "a" "a" "a" "a" "a" "a" "a" "a" "a" "a" "a" "a" "a" "a" "a" "a" "a" "a" "a" "a" "a" "a" "a" "a" "a" "a" "a" "a" "a" "a" "a" "a" "a" "a" "a" "a" "a" "a" "a" "a" "a" "a" "a" "a" "a"]} => duplicate name
{:nodes ["n 1"] :cut [["n1" "n2"]]} => bad name
{:nodes ["n1" "n1"]} => duplicate name
{:nodes ["n1"] :cut [["n1" "n2"]]} => unknown node
{:nodes ["n1"] :cut [["n2" "n2"]]} => unknown node
{:nodes ["n1"] :down [["n2" :paused]]} => unknown node
{:nodes ["n1"] :cut [["n1" "n1"]]} => self link
{:nodes ["n1"] :slow [["n1" "n1" -5]]} => self link
{:nodes ["n1"] :clock [["n2" 0]] :cut [["n1" "n1"]]} => self link
{:nodes ["n1" "n2"] :slow [["n1" "n2" -1]]} => bad amount
{:nodes ["n1" "n2"] :slow [["n1" "n2" 60001]]} => bad amount
{:nodes ["n1" "n2"] :loss [["n1" "n2" 21]]} => bad amount
{:nodes ["n1"] :clock [["n1" -1000000000001]]} => bad amount
{:nodes ["n1" "n2"] :cut [["n1" "n2"] ["n2" "n1"] ["n1" "n2"]]} => repeated entry
{:nodes ["n1" "n2"] :slow [["n1" "n2" 5] ["n1" "n2" 0]]} => repeated entry
{:nodes ["n1" "n2"] :slow [["n1" "n2" 5] ["n1" "n2" -1]]} => bad amount
{:nodes ["n1"] :down [["n1" :paused] ["n1" :killed]]} => repeated entry
{:nodes ["n1"] :clock [["n1" 0] ["n1" 0]]} => repeated entry"#;

#[test]
fn reads_and_writes(rt: HostRuntime) -> Result<(), Fail> {
    environments_read_back();
    ask_all(rt.alloc(), ROWS)
}

//! What is warned of settings of a run.

use jh_plan_warnings::warnings_of;
use jh_settings::settings_of;
use std::alloc::Global;
use std::io::Write;
use std::rt::HostRuntime;
use std::test::Fail;

/// Rows `WORKLOAD GENERATOR | ENTRIES => WARNINGS`, each entry and each warning with `;` behind it and a space between them.
const ROWS: &str = r#"
register [:forever :read] | =>
register [:forever [:write 1]] | => the generator never asks for a read, by which the history is judged;
counter [:mix [:rising 0] [:limit 1 [:once :read]]] | =>
set [:rising 0] | => the generator never asks for a read, by which the history is judged;
unique-ids [:forever :generate] | =>
register [:once :read] | '[0 [:begin 1 [:pause ["n1"]]]]', '[0 [:withdraw 1]]' =>
register [:once :read] | '[0 [:withdraw 9]]', '[0 [:begin 1 [:pause ["n1"]]]]', '[1 [:withdraw 2]]' => entry 0 withdraws fault 9, which no entry before it begins; entry 2 withdraws fault 2, which no entry before it begins;
register [:nil] | '[0 [:withdraw 1]]', '[0 [:begin 1 [:pause ["n1"]]]]', '[1 [:withdraw-all]]' => the generator never asks for a read, by which the history is judged; entry 0 withdraws fault 1, which no entry before it begins;
"#;

/// Settings with this workload, this generator and these entries. None: memory was refused.
fn settings_with(alloc: Global, load: &str, entries: &str) -> Option<Vec<u8>> {
    let (workload, generator) = load.split_once(' ')?;
    let mut text = Vec::new(alloc);
    write!(
        &mut text,
        "start = '{{:nodes [\"n1\"]}}'\nstore = \"local\"\nclients = 1\nops = 4\n"
    )
    .ok()?;
    write!(
        &mut text,
        "workload = \"{workload}\"\ngenerator = '{generator}'\n"
    )
    .ok()?;
    write!(&mut text, "schedule = [{entries}]\n").ok()?;
    Some(text)
}

/// The warnings of settings. None: memory was refused, or they are refused.
fn warnings_text(alloc: Global, load: &str, entries: &str) -> Option<Vec<u8>> {
    let settings = settings_of(alloc, &settings_with(alloc, load, entries)?).ok()?;
    let mut text = Vec::new(alloc);
    for warning in &warnings_of(alloc, &settings.plan).ok()? {
        write!(&mut text, "{warning}; ").ok()?;
    }
    Some(text)
}

/// Whether these are the warnings of a row, asked once more where memory was refused.
fn is_warned(alloc: Global, load: &str, entries: &str, expected: &str) -> bool {
    let found = match warnings_text(alloc, load, entries) {
        None => warnings_text(alloc, load, entries),
        found => found,
    };
    match found {
        Some(found) => found.trim_ascii() == expected.trim().as_bytes(),
        None => false,
    }
}

#[test]
fn plans_are_warned_of(rt: HostRuntime) -> Result<(), Fail> {
    for row in ROWS.trim().lines() {
        let (given, expected) = row.split_once(" =>").ok_or("no warnings")?;
        let (load, entries) = given.split_once(" |").ok_or("no entries")?;
        if !is_warned(rt.alloc(), load, entries, expected) {
            return Err(Fail::new(row));
        }
    }
    Ok(())
}

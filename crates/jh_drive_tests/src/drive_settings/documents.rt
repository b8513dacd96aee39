//! Documents of settings, and what is answered to them.

use jh_drive_settings::{DriveSettings, drive_settings_of};
use jh_settings::SettingsError;
use jh_test_parts::Test;
use std::alloc::{AllocError, Global};
use std::io::Write;

/// What is good, a line for each key that is needed.
const GOOD: &str = r##"start = '{:nodes ["n1" "n2"]}'
workload = "register"
generator = "[:once :read]"
clients = 4
ops = 2
"##;

/// Whether one of the lines gives this key a value, or leaves it out, as `#key`.
fn has_key(lines: &str, key: &str) -> bool {
    for line in lines.split(" ; ") {
        let (other, _) = line.split_once(" = ").unwrap_or((line, ""));
        if other == key || other.strip_prefix("#") == Some(key) {
            return true;
        }
    }
    false
}

/// The document of lines, with ` ; ` between them, and of those good ones in whose place none of them stands.
fn document_of(alloc: Global, lines: &str) -> Result<String, AllocError> {
    let mut document = String::new(alloc);
    for line in lines.split(" ; ") {
        document.push_str(line)?;
        document.push_str("\n")?;
    }
    for line in GOOD.lines() {
        let (key, _) = line.split_once(" = ").unwrap_or((line, ""));
        if !has_key(lines, key) {
            document.push_str(line)?;
            document.push_str("\n")?;
        }
    }
    Ok(document)
}

/// Writes what a test is set to, beside its environment and its schedule.
fn put_test(text: &mut Vec<u8>, test: &Test) -> Option<()> {
    let counts = (test.clients(), test.ops(), test.recovery(), test.seed());
    let limits = (test.time_limit(), test.rate(), test.keys());
    let calls = (test.workload(), test.generator(), test.final_calls());
    let shape = test.transactions();
    write!(text, "{counts:?} {limits:?} {calls:?} {shape:?} ").ok()
}

/// What settings mean.
fn settings_text(alloc: Global, settings: &DriveSettings) -> Option<Vec<u8>> {
    let mut text = Vec::new(alloc);
    put_test(&mut text, &settings.test)?;
    for entry in settings.test.schedule() {
        write!(&mut text, "{entry:?} ").ok()?;
    }
    let judged = (settings.initial, settings.model, settings.budget);
    write!(&mut text, "{judged:?}").ok()?;
    Some(text)
}

/// The message of a refusal. None: memory was refused.
fn refusal(alloc: Global, error: &SettingsError) -> Option<Vec<u8>> {
    if matches!(error, SettingsError::OutOfMemory) {
        return None;
    }
    let mut text = Vec::new(alloc);
    write!(&mut text, "{error}").ok()?;
    Some(text)
}

/// What the document with these lines means, or why it is refused. None: memory was refused.
fn meaning(alloc: Global, lines: &str) -> Option<Vec<u8>> {
    let document = document_of(alloc, lines).ok()?;
    match drive_settings_of(alloc, document.as_bytes()) {
        Ok(settings) => settings_text(alloc, &settings),
        Err(error) => refusal(alloc, &error),
    }
}

/// Whether the document with these lines means this, or is refused so.
pub(crate) fn means(alloc: Global, lines: &str, expected: &str) -> bool {
    let got = meaning(alloc, lines).or_else(|| meaning(alloc, lines));
    got.is_some_and(|text| text.as_slice() == expected.as_bytes())
}

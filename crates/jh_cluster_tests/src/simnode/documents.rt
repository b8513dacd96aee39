//! Documents of settings, and what they mean.

use crate::simnode::plans::put_plan;
use crate::simnode::runs::message_of;
use jh_settings::{RunSettings, SettingsError, settings_of};
use std::alloc::{AllocError, Global};
use std::io::Write;

/// What is good, a line for each key.
const GOOD: &str = r##"start = '{:nodes ["n1" "n2"]}'
store = "quorum"
workload = "register"
generator = "[:once :read]"
clients = 1
ops = 2
mode = "serial"
"##;

/// Whether a line gives a key a value, or leaves it out.
fn is_for_key(line: &str, key: &str) -> bool {
    match line.split_once(" = ") {
        Some((other, _)) => other == key,
        None => line.strip_prefix("!") == Some(key),
    }
}

/// Whether one of the lines stands in for that of a key.
fn has_key(lines: &str, key: &str) -> bool {
    for line in lines.lines() {
        if is_for_key(line, key) {
            return true;
        }
    }
    false
}

/// Writes a line.
fn put_line(document: &mut String, line: &str) -> Result<(), AllocError> {
    document.push_str(line)?;
    document.push_str("\n")
}

/// Writes the lines that leave no key out.
fn put_given(document: &mut String, lines: &str) -> Result<(), AllocError> {
    for line in lines.lines() {
        if !line.starts_with("!") {
            put_line(document, line)?;
        }
    }
    Ok(())
}

/// Writes those good lines in whose place none of the others stands.
fn put_good(document: &mut String, lines: &str) -> Result<(), AllocError> {
    for line in GOOD.lines() {
        let (key, _) = line.split_once(" = ").unwrap_or((line, ""));
        if !has_key(lines, key) {
            put_line(document, line)?;
        }
    }
    Ok(())
}

/// The document of lines, and of those that are good otherwise. A line replaces that with the same key, and `!key`
/// leaves one out.
fn document_of(alloc: Global, lines: &str) -> Result<String, AllocError> {
    let mut document = String::new(alloc);
    put_given(&mut document, lines)?;
    put_good(&mut document, lines)?;
    Ok(document)
}

/// The message of a refusal. None: memory was refused.
fn refusal(alloc: Global, error: &SettingsError) -> Option<Vec<u8>> {
    match error {
        SettingsError::OutOfMemory => None,
        error => message_of(alloc, error),
    }
}

/// The budget, the mode and the parts of the plan of settings.
fn settings_text(alloc: Global, settings: &RunSettings) -> Option<Vec<u8>> {
    let mut text = Vec::new(alloc);
    write!(&mut text, "{} {:?}; ", settings.budget, settings.mode).ok()?;
    put_plan(&mut text, &settings.plan)?;
    Some(text)
}

/// The budget, the mode and the parts of the plan that a document means, as `plans` writes them.
pub(crate) fn document_text(alloc: Global, document: &str) -> Option<Vec<u8>> {
    match settings_of(alloc, document.as_bytes()) {
        Ok(settings) => settings_text(alloc, &settings),
        Err(error) => refusal(alloc, &error),
    }
}

/// `ok` of a document that is good, or its refusal. None: memory was refused.
pub(crate) fn answer_once(alloc: Global, document: &[u8]) -> Option<Vec<u8>> {
    match settings_of(alloc, document) {
        Ok(_) => b"ok".to_vec(alloc).ok(),
        Err(error) => refusal(alloc, &error),
    }
}

/// The answer of the document with these lines.
pub(crate) fn lines_answer(alloc: Global, lines: &str) -> Option<Vec<u8>> {
    answer_once(alloc, document_of(alloc, lines).ok()?.as_bytes())
}

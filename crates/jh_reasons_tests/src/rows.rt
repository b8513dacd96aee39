//! Rows `QUESTION | INPUT => LINES`: what is asked, the input with `¶` for each line feed, and the lines that are wanted, each
//! with `;` behind it and a space between them.
//!
//! Asked is `values` or `history`, of the first error of a text; `element N`, `operation N` with the functions of a workload behind
//! it, or `reply N`.

use jh_text_reasons::{InputKind, element_reasons, operation_reasons, reply_reasons, text_reasons};
use std::alloc::Global;
use std::test::Fail;

/// An input, with its line feeds. None: memory was refused.
fn input_of(alloc: Global, row: &str) -> Option<Vec<u8>> {
    let mut input = Vec::new(alloc);
    for part in row.split('¶') {
        input.extend_from_slice(part.as_bytes()).ok()?;
        input.push(b'\n').ok()?;
    }
    input.pop();
    Some(input)
}

/// The lines for an operation. None: memory was refused, or nothing is asked.
fn operation_lines(alloc: Global, asked: &str, input: &[u8]) -> Option<Vec<Vec<u8>>> {
    let (number, names) = asked.split_once(' ').unwrap_or((asked, ""));
    let mut functions = Vec::new(alloc);
    for name in names.split_whitespace() {
        functions.push(name).ok()?;
    }
    operation_reasons(alloc, input, number.parse().ok()?, &functions).ok()
}

/// The lines for a question. None: memory was refused, or nothing is asked.
fn lines_for(alloc: Global, question: &str, input: &[u8]) -> Option<Vec<Vec<u8>>> {
    match question.split_once(' ').unwrap_or((question, "")) {
        ("values", _) => text_reasons(alloc, input, InputKind::Values).ok(),
        ("history", _) => text_reasons(alloc, input, InputKind::History).ok(),
        ("element", number) => element_reasons(alloc, input, number.parse().ok()?).ok(),
        ("reply", number) => reply_reasons(alloc, input, number.parse().ok()?).ok(),
        (_, asked) => operation_lines(alloc, asked, input),
    }
}

/// The text of the lines for a row. None: memory was refused.
fn answer_to(alloc: Global, question: &str, row: &str) -> Option<Vec<u8>> {
    let input = input_of(alloc, row)?;
    let mut text = Vec::new(alloc);
    for line in &lines_for(alloc, question, &input)? {
        text.extend_from_slice(line).ok()?;
        text.extend_from_slice(b"; ").ok()?;
    }
    Some(text)
}

/// Whether these are the lines for a row, asked once more where memory was refused.
fn is_answered(alloc: Global, question: &str, row: &str, expected: &str) -> bool {
    let found = match answer_to(alloc, question, row) {
        None => answer_to(alloc, question, row),
        found => found,
    };
    match found {
        Some(found) => found.trim_ascii() == expected.trim().as_bytes(),
        None => false,
    }
}

/// Judges each row. One for which there are other lines is the failure.
pub(crate) fn judge_all(alloc: Global, rows: &str) -> Result<(), Fail> {
    for row in rows.trim().lines() {
        let (given, expected) = row.split_once(" =>").ok_or("no lines")?;
        let (question, input) = given.split_once(" | ").ok_or("no input")?;
        if !is_answered(alloc, question, input, expected) {
            return Err(Fail::new(row));
        }
    }
    Ok(())
}

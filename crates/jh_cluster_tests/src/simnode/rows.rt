//! Rows of a table, which is one text: `§` stands between two rows. A row is a text, an arrow, and what the text comes
//! to. White space around both is no part of them.

use crate::simnode::{documents, plans, runs, worlds};
use std::alloc::Global;
use std::test::Fail;

/// What the text of a row is.
#[derive(Clone, Copy)]
pub(crate) enum TextKind {
    /// Settings of a plan, which comes to its parts.
    Plan,
    /// Settings of a plan, which comes to its run.
    Run,
    /// The settings of a world and acts in it.
    Acts,
    /// A document of settings, which comes to them.
    Document,
    /// Lines of a document, of which the others are good.
    Lines,
}

/// What a text comes to. None: memory was refused.
fn answer_once(alloc: Global, kind: TextKind, text: &str) -> Option<Vec<u8>> {
    match kind {
        TextKind::Plan => plans::plan_text(alloc, text),
        TextKind::Run => runs::run_answer(alloc, text),
        TextKind::Acts => worlds::answers_text(alloc, text),
        TextKind::Document => documents::document_text(alloc, text),
        TextKind::Lines => documents::lines_answer(alloc, text),
    }
}

/// Whether a text comes to this. It is asked once more where memory was refused.
fn is_right(alloc: Global, kind: TextKind, text: &str, wanted: &str) -> bool {
    let answer = match answer_once(alloc, kind, text) {
        None => answer_once(alloc, kind, text),
        answer => answer,
    };
    match answer {
        Some(answer) => answer.as_slice() == wanted.as_bytes(),
        None => false,
    }
}

/// Asks each row. One that comes to something else is the failure.
pub(crate) fn ask_all(alloc: Global, kind: TextKind, rows: &str) -> Result<(), Fail> {
    for row in rows.split('§') {
        let (text, wanted) = row.split_once('→').unwrap_or((row, ""));
        if !is_right(alloc, kind, text.trim(), wanted.trim()) {
            return Err(Fail::new(row));
        }
    }
    Ok(())
}

//! Texts of operations and events.
//!
//! None is answered where memory was refused.

use jh_edn::{Value, write};
use jh_ops::{Op, value_of};
use jh_simnode::Event;
use std::alloc::Global;

fn put_value(text: &mut Vec<u8>, value: &Value) -> Option<()> {
    match write(value, text) {
        Ok(()) => text.push(b'\n').ok(),
        Err(_) => None,
    }
}

fn put_op(alloc: Global, text: &mut Vec<u8>, op: &Op) -> Option<()> {
    if !op.process.is_writable() {
        return None;
    }
    match value_of(alloc, op) {
        Ok(value) => put_value(text, &value),
        Err(_) => None,
    }
}

/// A line of each operation.
pub(crate) fn history_text(alloc: Global, history: &[Op]) -> Option<String> {
    let mut text = Vec::new(alloc);
    for op in history {
        put_op(alloc, &mut text, op)?;
    }
    String::from_utf8(text).ok()
}

/// What the derived `Debug` prints of events, which shows all that they hold.
pub(crate) fn journal_text(alloc: Global, journal: &[Event]) -> Option<String> {
    format!(in alloc; "{journal:?}").ok()
}

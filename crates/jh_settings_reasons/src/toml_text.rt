//! Why bytes are no TOML document.

ghost use Rattle.std.specs.Prelude.{◌≡◌, IfOk};

use crate::line::{add, add_shown, line_of};
use std::alloc::{AllocError, Global};

/// A place in a text.
#[derive(Clone, Copy)]
struct Place {
    /// From 1.
    line: usize,
    /// From 1, in characters.
    column: usize,
}

/// The place behind these bytes.
fn place_behind(bytes: &[u8]) -> Place {
    let mut place = Place { line: 1, column: 1 };
    for byte in bytes {
        if *byte == b'\n' {
            place = Place {
                line: place.line.saturating_add(1),
                column: 1,
            };
        } else if byte & 0xC0 != 0x80 {
            place.column = place.column.saturating_add(1);
        }
    }
    place
}

/// The line that says where and why these bytes, which are a text, are no document, without its
/// line feed.
fn error_line(alloc: Global, bytes: &[u8], error: &toml::de::Error) -> Result<Vec<u8>, AllocError> {
    let mut line = Vec::new(alloc);
    if let Some(span) = error.span() {
        let place = place_behind(&bytes[..span.start.min(bytes.len())]);
        add(&mut line, "line ")?;
        add_shown(&mut line, &place.line)?;
        add(&mut line, ", column ")?;
        add_shown(&mut line, &place.column)?;
        add(&mut line, ": ")?;
    }
    add(&mut line, error.message())?;
    Ok(line)
}

/// The line that says why bytes are no TOML document, without its line feed; of bytes that are one
/// it is `TOML`.
pub(crate) fn toml_line(alloc: Global, bytes: &[u8]) -> Result<Vec<u8>, AllocError> {
    if std::str::from_utf8(bytes).is_err() {
        return line_of(alloc, "not UTF-8");
    }
    match toml::table_from_slice(alloc, bytes) {
        Err(error) if error.is_memory() => Err(AllocError),
        Err(error) => error_line(alloc, bytes, &error),
        Ok(_) => line_of(alloc, "TOML"),
    }
}

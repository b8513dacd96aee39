//! Lines, made piece by piece.

ghost use Rattle.std.specs.Prelude.{◌≡◌, ◌++◌, IfOk, IfSome, OnOk};

use std::alloc::{AllocError, Global};
use std::fmt::Display;
use std::io::Write;

/// Adds a text to a line.
pub(crate) fn add(line: &mut Vec<u8>, text: &str) -> Result<(), AllocError>
    ensures { OnOk result (line.new.items ≡ line.old.items ++ text.now) }
{
    line.extend_from_slice(text.as_bytes())?;
    Ok(())
}

/// Adds what is shown of a value to a line.
pub(crate) fn add_shown<T: Display>(line: &mut Vec<u8>, shown: &T) -> Result<(), AllocError>
    ensures { OnOk result
        (IfSome (T.output shown.now) (λ text. line.new.items ≡ line.old.items ++ text)) }
{
    write!(line, "{shown}").map_err(|_| AllocError)
}

/// The line of a text, without its line feed.
pub(crate) fn line_of(alloc: Global, text: &str) -> Result<Vec<u8>, AllocError>
    ensures { IfOk result (λ line. line.items ≡ text.now) }
{
    let mut line = Vec::new(alloc);
    add(&mut line, text)?;
    Ok(line)
}

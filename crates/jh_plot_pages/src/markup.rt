//! Bytes as they stand in the page, and texts that come from outside. `Markup.antt` of jh_timeline_pages has the rule of these.

ghost use Rattle.std.specs.Prelude.{◌≡◌, IfErr, OnOk};
ghost use Rattle.std.specs.Io.KnownBytes.{Appends};
ghost use Rattle.jh_timeline_pages.specs.Markup.{escaped_bytes};

use jh_timeline_pages::{PageError, write_escaped};
use std::alloc::Global;
use std::io::Write;

/// Writes bytes as they are.
pub(crate) fn put<W: Write>(bytes: &[u8], writer: &mut W) -> Result<(), PageError>
    ensures bytes { OnOk result
        (Appends (W.contents writer.old) (W.contents writer.new) bytes.now) }
    ensures error { IfErr result (λ e. e ≡ PageError.Write) }
{
    writer.write_all(bytes).map_err(|_| PageError::Write)
}

/// Writes a text that comes from outside so that no byte of it is read as markup.
pub(crate) fn write_escaped_bytes<W: Write>(
    alloc: Global,
    bytes: &[u8],
    writer: &mut W,
) -> Result<(), PageError>
    ensures { OnOk result
        (Appends (W.contents writer.old) (W.contents writer.new) (escaped_bytes bytes.now)) }
{
    let text = String::from_utf8_lossy(alloc, bytes)?;
    write_escaped(text.as_str(), writer)
}

//! What of a result stands in the vectors of its line. `specs/Lines.antt` has the rule.

ghost use Rattle.std.specs.Prelude.{◌≡◌, ◌++◌, IfErr, OnOk};
ghost use Rattle.std.specs.Fmt.{signed_decimal};
ghost use Rattle.std.specs.Io.KnownBytes.{Appends};

use crate::counter::ReadBounds;
use crate::tally::Counted;
use itoa::Buffer;
use jh_edn::{EdnError, Element, put, write};
use std::io::Write;

/// Writes an integer.
fn write_integer<W: Write>(n: i128, writer: &mut W) -> Result<(), EdnError>
    ensures bytes { OnOk result
        (Appends (W.contents writer.old) (W.contents writer.new) (signed_decimal n)) }
    ensures error { IfErr result (λ e. e ≡ EdnError.Write) }
{
    put(Buffer::new().format(n).as_bytes(), writer)
}

/// Writes an integer behind a text.
fn write_behind<W: Write>(text: &[u8], n: i128, writer: &mut W) -> Result<(), EdnError>
    ensures bytes { OnOk result
        (Appends (W.contents writer.old) (W.contents writer.new) (text.now ++ signed_decimal n)) }
    ensures error { IfErr result (λ e. e ≡ EdnError.Write) }
{
    put(text, writer)?;
    write_integer(n, writer)
}

impl Element for ReadBounds {
    ghost use Rattle.jh_check.specs.Lines.{read_value};

    ghost value = { read_value };

    fn write_to<W: Write>(&self, writer: &mut W) -> Result<(), EdnError> {
        write_behind(b"[", self.lower, writer)?;
        write_behind(b" ", i128::from(self.value), writer)?;
        write_behind(b" ", self.upper, writer)?;
        put(b"]", writer)
    }
}

impl Element for Counted {
    ghost use Rattle.jh_check.specs.Tallies.{view_counted};
    ghost use Rattle.jh_check.specs.Lines.{counted_value};

    ghost value = { λ c. counted_value (view_counted c) };

    fn write_to<W: Write>(&self, writer: &mut W) -> Result<(), EdnError> {
        put(b"[", writer)?;
        write(&self.value, writer)?;
        write!(writer, " {}]", self.times).map_err(|_| EdnError::Write)
    }
}

//! A tally as a part of a line. `specs/Lines.antt` has the rule.

ghost use Rattle.std.specs.Prelude.{◌≡◌, IfErr, OnOk, codes, map};
ghost use Rattle.std.specs.Io.KnownBytes.{Appends};
ghost use Rattle.jh_edn.specs.Parts.{behind_pair_text};
ghost use Rattle.jh_edn.specs.Print.{joined_text, print, separator_before};
ghost use Rattle.jh_check.specs.Lines.{tally_value};
ghost use Rattle.jh_check.specs.TallyInside as inside;

use crate::tally::{Counted, Tally};
use jh_edn::{EdnError, Element, put, write};
use std::io::Write;

/// Writes what stands between two pairs of a map: nothing in front of the first.
///
/// Errors: `Write` where the writer failed, and no other.
pub fn separate<W: Write>(first: bool, writer: &mut W) -> Result<(), EdnError>
    ensures bytes { OnOk result
        (Appends (W.contents writer.old) (W.contents writer.new)
        (separator_before first (codes ", "))) }
    ensures error { IfErr result (λ e. e ≡ EdnError.Write) }
{
    if first { Ok(()) } else { put(b", ", writer) }
}

/// A value, and how often it is there.
fn write_entry<W: Write>(entry: &Counted, writer: &mut W) -> Result<(), EdnError>
    ensures bytes { OnOk result
        (Appends (W.contents writer.old) (W.contents writer.new) (inside.entry_text entry.now)) }
    ensures error { IfErr result (λ e. e ≡ EdnError.Write) }
{
    write(&entry.value, writer)?;
    put(b" ", writer)?;
    entry.times.write_to(writer)
}

/// Values with how often each is there, with `, ` between them.
fn write_entries<W: Write>(entries: &[Counted], writer: &mut W) -> Result<(), EdnError>
    ensures bytes { OnOk result
        (Appends (W.contents writer.old) (W.contents writer.new)
        (joined_text (codes ", ") (map inside.entry_text entries.now))) }
    ensures error { IfErr result (λ e. e ≡ EdnError.Write) }
{
    for (place, entry) in entries.iter().enumerate() {
        separate(place == 0, writer)?;
        write_entry(entry, writer)?;
    }
    Ok(())
}

/// A tally as a map.
fn write_map<W: Write>(tally: &Tally, writer: &mut W) -> Result<(), EdnError>
    ensures bytes { OnOk result
        (Appends (W.contents writer.old) (W.contents writer.new) (print (tally_value tally.now))) }
    ensures error { IfErr result (λ e. e ≡ EdnError.Write) }
{
    put(b"{", writer)?;
    write_entries(tally.as_slice(), writer)?;
    put(b"}", writer)
}

/// Writes a pair with a tally, behind others: `, :NAME {VALUE COUNT, ..}`.
///
/// Errors: `Write` where the writer failed, and no other.
pub fn write_tally<W: Write>(name: &str, tally: &Tally, writer: &mut W) -> Result<(), EdnError>
    ensures bytes { OnOk result
        (Appends (W.contents writer.old) (W.contents writer.new)
        (behind_pair_text name.now (tally_value tally.now))) }
    ensures error { IfErr result (λ e. e ≡ EdnError.Write) }
{
    put(b", :", writer)?;
    put(name.as_bytes(), writer)?;
    put(b" ", writer)?;
    write_map(tally, writer)
}

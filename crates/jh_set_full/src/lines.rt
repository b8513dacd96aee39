//! The one line of the result. `specs/Lines.antt` has the rule.

ghost use Rattle.std.specs.Prelude.{◌≡◌, IfErr, OnOk};
ghost use Rattle.std.specs.Io.KnownBytes.{Appends};
ghost use Rattle.jh_edn.specs.Print.{print};
ghost use Rattle.jh_set_full.specs.Lines.{number_or_nil, set_full_value};

use crate::set_full::SetFullResult;
use crate::stale::Stale;
use jh_check::{write_count, write_tally, write_verdict};
use jh_edn::{EdnError, Element, put, write, write_part};
use std::io::Write;

/// Writes a number, or nil where it is missing.
fn write_number<W: Write>(number: Option<u64>, writer: &mut W) -> Result<(), EdnError>
    ensures bytes { OnOk result
        (Appends (W.contents writer.old) (W.contents writer.new) (print (number_or_nil number))) }
    ensures error { IfErr result (λ e. e ≡ EdnError.Write) }
{
    match number {
        Some(number) => write!(writer, "{number}").map_err(|_| EdnError::Write),
        None => put(b"nil", writer),
    }
}

impl Element for Stale {
    ghost use Rattle.jh_set_full.specs.StaleView.{view_stale};
    ghost use Rattle.jh_set_full.specs.Lines.{stale_value};

    ghost value = { λ s. stale_value (view_stale s) };

    fn write_to<W: Write>(&self, writer: &mut W) -> Result<(), EdnError> {
        put(b"[", writer)?;
        write(&self.element, writer)?;
        put(b" ", writer)?;
        write_number(self.milliseconds, writer)?;
        put(b"]", writer)
    }
}

/// Writes the one line of the result for a set over time, without a line feed:
/// `{:valid? V, :attempted N, :stable N, :lost [..], :never-read [..], :stale [[element ms] ..],
/// :duplicated {element times, ..}}`.
///
/// Takes no memory. The writer may have taken a part of the line where it failed.
///
/// Errors: `Write` where the writer failed, and no other.
pub fn write_set_full<W: Write>(judged: &SetFullResult, writer: &mut W) -> Result<(), EdnError>
    ensures bytes { OnOk result
        (Appends (W.contents writer.old) (W.contents writer.new)
        (print (set_full_value judged.now))) }
    ensures error { IfErr result (λ e. e ≡ EdnError.Write) }
{
    write_verdict(judged.verdict, writer)?;
    write_count("attempted", judged.attempted, writer)?;
    write_count("stable", judged.stable, writer)?;
    write_part("lost", judged.lost.as_slice(), writer)?;
    write_part("never-read", judged.never_read.as_slice(), writer)?;
    write_part("stale", judged.stale.as_slice(), writer)?;
    write_tally("duplicated", &judged.duplicated, writer)?;
    put(b"}", writer)
}

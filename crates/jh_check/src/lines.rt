//! The one line of each result. `specs/Lines.antt` has the rule.

ghost use Rattle.std.specs.Prelude.{◌≡◌, ◌++◌, IfErr, OnOk, Some, codes, pos};
ghost use Rattle.std.specs.Io.KnownBytes.{Appends};
ghost use Rattle.jh_edn.specs.Edn.{int, keyword};
ghost use Rattle.jh_edn.specs.Parts.{behind_pair_text, map_of};
ghost use Rattle.jh_edn.specs.Print.{print};
ghost use Rattle.jh_check.specs.Lines.{counter_value, ids_value, set_pairs, set_value};
ghost use Rattle.jh_check.specs.Lines.{verdict_value};

use crate::counter::CounterResult;
use crate::ids::IdsResult;
use crate::set::{SetFound, SetResult};
use crate::verdict::Verdict;
use jh_edn::{EdnError, put, write_part};
use std::io::Write;

/// Writes the opening of a line, with the verdict. The line goes on with parts, and ends with `}`.
///
/// Errors: `Write` where the writer failed, and no other.
pub fn write_verdict<W: Write>(verdict: Verdict, writer: &mut W) -> Result<(), EdnError>
    ensures bytes { OnOk result (Appends (W.contents writer.old) (W.contents writer.new)
        (codes "{:valid? " ++ print (verdict_value verdict))) }
    ensures error { IfErr result (λ e. e ≡ EdnError.Write) }
{
    match verdict {
        Verdict::True => put(b"{:valid? true", writer),
        Verdict::Unknown => put(b"{:valid? :unknown", writer),
        Verdict::False => put(b"{:valid? false", writer),
    }
}

/// The line of a set that was read.
fn write_found<W: Write>(verdict: Verdict, found: &SetFound, writer: &mut W) -> Result<(), EdnError>
    ensures bytes { OnOk result (Appends (W.contents writer.old) (W.contents writer.new)
        (print (map_of (set_pairs verdict (Some found.now))))) }
    ensures error { IfErr result (λ e. e ≡ EdnError.Write) }
{
    write_verdict(verdict, writer)?;
    write_part("ok", found.ok.as_slice(), writer)?;
    write_part("lost", found.lost.as_slice(), writer)?;
    write_part("unexpected", found.unexpected.as_slice(), writer)?;
    write_part("recovered", found.recovered.as_slice(), writer)?;
    put(b"}", writer)
}

/// Writes the one line of a set's result, without a line feed:
/// `{:valid? V, :ok [..], :lost [..], :unexpected [..], :recovered [..]}`, or where the set was
/// never read `{:valid? :unknown, :error "Set was never read"}`.
///
/// Takes no memory. The writer may have taken a part of the line where it failed.
///
/// Errors: `Write` where the writer failed, and no other.
pub fn write_set<W: Write>(judged: &SetResult, writer: &mut W) -> Result<(), EdnError>
    ensures bytes { OnOk result
        (Appends (W.contents writer.old) (W.contents writer.new) (print (set_value judged.now))) }
    ensures error { IfErr result (λ e. e ≡ EdnError.Write) }
{
    match &judged.found {
        Some(found) => write_found(judged.verdict, found, writer),
        None => {
            write_verdict(judged.verdict, writer)?;
            put(b", :error \"Set was never read\"}", writer)
        }
    }
}

/// Writes the one line of a counter's result, without a line feed:
/// `{:valid? V, :reads [[lower value upper] ..], :errors [..]}`. Numbers are written in full, also
/// where they go beyond 64 bits.
///
/// Takes no memory. The writer may have taken a part of the line where it failed.
///
/// Errors: `Write` where the writer failed, and no other.
pub fn write_counter<W: Write>(judged: &CounterResult, writer: &mut W) -> Result<(), EdnError>
    ensures bytes { OnOk result
        (Appends (W.contents writer.old) (W.contents writer.new)
        (print (counter_value judged.now))) }
    ensures error { IfErr result (λ e. e ≡ EdnError.Write) }
{
    write_verdict(judged.verdict, writer)?;
    write_part("reads", judged.reads.as_slice(), writer)?;
    write_part("errors", judged.errors.as_slice(), writer)?;
    put(b"}", writer)
}

/// Writes a pair with a number, behind others: `, :NAME COUNT`.
///
/// Errors: `Write` where the writer failed, and no other.
pub fn write_count<W: Write>(name: &str, count: usize, writer: &mut W) -> Result<(), EdnError>
    ensures bytes { OnOk result
        (Appends (W.contents writer.old) (W.contents writer.new)
        (behind_pair_text name.now (int (pos count)))) }
    ensures error { IfErr result (λ e. e ≡ EdnError.Write) }
{
    write!(writer, ", :{name} {count}").map_err(|_| EdnError::Write)
}

/// Writes a pair with a keyword, behind others: `, :NAME :TEXT`.
///
/// Errors: `Write` where the writer failed, and no other.
pub fn write_keyword<W: Write>(name: &str, text: &str, writer: &mut W) -> Result<(), EdnError>
    ensures bytes { OnOk result
        (Appends (W.contents writer.old) (W.contents writer.new)
        (behind_pair_text name.now (keyword text.now))) }
    ensures error { IfErr result (λ e. e ≡ EdnError.Write) }
{
    write!(writer, ", :{name} :{text}").map_err(|_| EdnError::Write)
}

/// Writes the one line of the result for unique ids, without a line feed:
/// `{:valid? V, :attempted N, :acknowledged N, :duplicated [[id times] ..]}`.
///
/// Takes no memory. The writer may have taken a part of the line where it failed.
///
/// Errors: `Write` where the writer failed, and no other.
pub fn write_ids<W: Write>(judged: &IdsResult, writer: &mut W) -> Result<(), EdnError>
    ensures bytes { OnOk result
        (Appends (W.contents writer.old) (W.contents writer.new) (print (ids_value judged.now))) }
    ensures error { IfErr result (λ e. e ≡ EdnError.Write) }
{
    write_verdict(judged.verdict, writer)?;
    write_count("attempted", judged.attempted, writer)?;
    write_count("acknowledged", judged.acknowledged, writer)?;
    write_part("duplicated", judged.duplicated.as_slice(), writer)?;
    put(b"}", writer)
}

//! The one line of a bank's result. `specs/BankLines.antt` has the rule.

ghost use Rattle.std.specs.Prelude.{◌≡◌, ◌++◌, ◌&&◌, IfErr, OnOk, codes, is_none, pos};
ghost use Rattle.std.specs.Fmt.{signed_decimal};
ghost use Rattle.std.specs.Io.KnownBytes.{Appends};
ghost use Rattle.jh_edn.specs.Parts.{map_of};
ghost use Rattle.jh_edn.specs.Print.{print};
ghost use Rattle.jh_bank.specs.BankInside.{entries_text, worst_text};
ghost use Rattle.jh_bank.specs.BankLines.{bank_value, error_pairs, errors_value, kind_pairs};

use crate::judge::{BankErrors, BankResult, ReadErrors};
use jh_check::{separate, write_count, write_verdict};
use jh_edn::{EdnError, put};
use jh_ops::{Op, write_operation};
use std::io::Write;

/// Writes the opening of the value of reads with one error: how many there are.
fn write_opening<W: Write>(count: usize, writer: &mut W) -> Result<(), EdnError>
    ensures bytes { OnOk result (Appends (W.contents writer.old) (W.contents writer.new)
        (codes "{:count " ++ signed_decimal (pos count))) }
    ensures error { IfErr result (λ e. e ≡ EdnError.Write) }
{
    write!(writer, "{{:count {count}").map_err(|_| EdnError::Write)
}

/// Writes the value of reads with one error: how many there are, and the first of them.
fn write_errors<W: Write>(errors: &ReadErrors, writer: &mut W) -> Result<(), EdnError>
    ensures bytes { OnOk result
        (Appends (W.contents writer.old) (W.contents writer.new)
        (print (errors_value errors.now))) }
    ensures error { IfErr result (λ e. e ≡ EdnError.Write) }
{
    write_opening(errors.count, writer)?;
    put(b", :first ", writer)?;
    write_operation(&errors.first, writer)?;
    put(b"}", writer)
}

/// Writes a keyword and a space.
fn write_name<W: Write>(name: &str, writer: &mut W) -> Result<(), EdnError>
    ensures bytes { OnOk result (Appends (W.contents writer.old) (W.contents writer.new)
        (codes ":" ++ (name.now ++ codes " "))) }
    ensures error { IfErr result (λ e. e ≡ EdnError.Write) }
{
    put(b":", writer)?;
    put(name.as_bytes(), writer)?;
    put(b" ", writer)
}

/// Writes the pair of reads with one error, where there are such.
fn write_kind<W: Write>(
    first: bool,
    name: &str,
    errors: &Option<ReadErrors>,
    writer: &mut W,
) -> Result<(), EdnError>
    ensures bytes { OnOk result (Appends (W.contents writer.old) (W.contents writer.new)
        (entries_text first (kind_pairs name.now errors.now))) }
    ensures error { IfErr result (λ e. e ≡ EdnError.Write) }
{
    let Some(errors) = errors else {
        return Ok(());
    };
    separate(first, writer)?;
    write_name(name, writer)?;
    write_errors(errors, writer)
}

/// Whether the pair of the next error is the first one that is written: none was before, and there are
/// no reads with this error.
fn is_first(first: bool, errors: &Option<ReadErrors>) -> bool
    ensures { result ≡ (first && is_none errors.now) }
{
    first && errors.is_none()
}

/// Writes the map of all errors that occur.
fn write_kinds<W: Write>(errors: &BankErrors, writer: &mut W) -> Result<(), EdnError>
    ensures bytes { OnOk result
        (Appends (W.contents writer.old) (W.contents writer.new)
        (print (map_of (error_pairs errors.now)))) }
    ensures error { IfErr result (λ e. e ≡ EdnError.Write) }
{
    let second = is_first(true, &errors.unexpected_key);
    let third = is_first(second, &errors.nil_balance);
    let fourth = is_first(third, &errors.wrong_total);
    put(b"{", writer)?;
    write_kind(true, "unexpected-key", &errors.unexpected_key, writer)?;
    write_kind(second, "nil-balance", &errors.nil_balance, writer)?;
    write_kind(third, "wrong-total", &errors.wrong_total, writer)?;
    write_kind(fourth, "negative-value", &errors.negative_value, writer)?;
    put(b"}", writer)
}

/// Writes the worst read, behind other pairs, where there is one.
fn write_worst<W: Write>(worst: &Option<Op>, writer: &mut W) -> Result<(), EdnError>
    ensures bytes { OnOk result
        (Appends (W.contents writer.old) (W.contents writer.new) (worst_text worst.now)) }
    ensures error { IfErr result (λ e. e ≡ EdnError.Write) }
{
    let Some(op) = worst else {
        return Ok(());
    };
    put(b", :worst ", writer)?;
    write_operation(op, writer)
}

/// Writes the one line of a bank's result, without a line feed:
/// `{:valid? V, :reads N, :errors {:wrong-total {:count N, :first {..}} ..}}`. The errors that occur
/// stand in the order `:unexpected-key`, `:nil-balance`, `:wrong-total`, `:negative-value`. Where a
/// total is wrong, the worst read stands behind them: `, :worst {..}`.
///
/// Takes no memory. The writer may have taken a part of the line where it failed.
///
/// Errors: `Write` where the writer failed, and no other.
pub fn write_bank<W: Write>(judged: &BankResult, writer: &mut W) -> Result<(), EdnError>
    ensures bytes { OnOk result
        (Appends (W.contents writer.old) (W.contents writer.new) (print (bank_value judged.now))) }
    ensures error { IfErr result (λ e. e ≡ EdnError.Write) }
{
    write_verdict(judged.verdict, writer)?;
    write_count("reads", judged.reads, writer)?;
    put(b", :errors ", writer)?;
    write_kinds(&judged.errors, writer)?;
    write_worst(&judged.worst, writer)?;
    put(b"}", writer)
}

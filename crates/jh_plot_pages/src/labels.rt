//! The numbers beside the axes. `specs/Labels.antt` has the rule.

ghost use Rattle.std.specs.Prelude.{◌≡◌, IfErr, OnOk};
ghost use Rattle.std.specs.Io.KnownBytes.{Appends};
ghost use Rattle.std.specs.Fmt.{decimal};
ghost use Rattle.jh_plot_pages.specs.Labels.{decimals_text, latency_text, rate_text, time_text};

use crate::markup::put;
use jh_timeline_pages::PageError;
use std::io::Write;

/// Writes thousandths of a second behind the point, with no zero at their end.
fn write_decimals<W: Write>(thousandths: u64, writer: &mut W) -> Result<(), PageError>
    ensures bytes { OnOk result
        (Appends (W.contents writer.old) (W.contents writer.new) (decimals_text thousandths)) }
    ensures error { IfErr result (λ e. e ≡ PageError.Write) }
{
    let tenths = thousandths / 100;
    let hundredths = thousandths / 10 % 10;
    if thousandths == 0 {
        Ok(())
    } else if thousandths % 100 == 0 {
        write!(writer, ".{tenths}").map_err(|_| PageError::Write)
    } else if thousandths % 10 == 0 {
        write!(writer, ".{tenths}{hundredths}").map_err(|_| PageError::Write)
    } else {
        let last = thousandths % 10;
        write!(writer, ".{tenths}{hundredths}{last}").map_err(|_| PageError::Write)
    }
}

/// Writes a number in digits.
fn write_number<W: Write>(number: u64, writer: &mut W) -> Result<(), PageError>
    ensures bytes { OnOk result
        (Appends (W.contents writer.old) (W.contents writer.new) (decimal number)) }
    ensures error { IfErr result (λ e. e ≡ PageError.Write) }
{
    write!(writer, "{number}").map_err(|_| PageError::Write)
}

/// Writes a time of so many milliseconds: in seconds, with as many decimals as it has.
pub(crate) fn write_time<W: Write>(milliseconds: u64, writer: &mut W) -> Result<(), PageError>
    ensures bytes { OnOk result
        (Appends (W.contents writer.old) (W.contents writer.new) (time_text milliseconds)) }
    ensures error { IfErr result (λ e. e ≡ PageError.Write) }
{
    write_number(milliseconds / 1000, writer)?;
    write_decimals(milliseconds % 1000, writer)?;
    put(b" s", writer)
}

/// Writes a latency of so many nanoseconds: in the largest unit of which it is a whole number.
pub(crate) fn write_latency<W: Write>(nanoseconds: u64, writer: &mut W) -> Result<(), PageError>
    ensures bytes { OnOk result
        (Appends (W.contents writer.old) (W.contents writer.new) (latency_text nanoseconds)) }
    ensures error { IfErr result (λ e. e ≡ PageError.Write) }
{
    if nanoseconds % 1_000_000_000 == 0 {
        let seconds = nanoseconds / 1_000_000_000;
        write!(writer, "{seconds} s").map_err(|_| PageError::Write)
    } else if nanoseconds % 1_000_000 == 0 {
        let milliseconds = nanoseconds / 1_000_000;
        write!(writer, "{milliseconds} ms").map_err(|_| PageError::Write)
    } else if nanoseconds % 1000 == 0 {
        let microseconds = nanoseconds / 1000;
        write!(writer, "{microseconds} &#181;s").map_err(|_| PageError::Write)
    } else {
        write!(writer, "{nanoseconds} ns").map_err(|_| PageError::Write)
    }
}

/// Writes a rate of so many calls a second.
pub(crate) fn write_rate<W: Write>(calls: u64, writer: &mut W) -> Result<(), PageError>
    ensures bytes { OnOk result
        (Appends (W.contents writer.old) (W.contents writer.new) (rate_text calls)) }
    ensures error { IfErr result (λ e. e ≡ PageError.Write) }
{
    write!(writer, "{calls}/s").map_err(|_| PageError::Write)
}

//! What marks say, and where they stand. `specs/Marks.antt` and `specs/Drawings.antt` have the rule.

ghost use Rattle.std.specs.Prelude.{◌≡◌, All, IfErr, OnOk, Some, find, option_map};
ghost use Rattle.std.specs.Fmt.{signed_decimal};
ghost use Rattle.std.specs.Io.KnownBytes.{Appends};
ghost use Rattle.std.specs.List.{flat_map};
ghost use Rattle.jh_ops.specs.OperationWritten.{IsWritable};
ghost use Rattle.jh_timeline_pages.specs.Drawings.{drawn_mark, mark_name, mark_text, named_text};
ghost use Rattle.jh_timeline_pages.specs.Marks as rule;
ghost use Rattle.jh_timeline_pages.specs.Marks.{held_text, meaning_text, note_text};
ghost use Rattle.jh_timeline_pages.specs.Marks.{order_number_text, pending_meaning, place_meaning};
ghost use Rattle.jh_timeline_pages.specs.Marks.{step_text};
ghost use Rattle.jh_timeline.specs.declared.marks.Note.{Note};

use crate::bars::write_bar_place;
use crate::error::PageError;
use crate::markup::put;
use crate::pixels::Frame;
use crate::section::Section;
use crate::whereabouts::write_whereabouts;
use jh_timeline::{Bar, Mark, Note, Place, StepKind};
use std::io::Write;

/// Whether a note points at something.
fn is_pointer(note: Note) -> bool
    ensures { result ≡ rule.is_pointer note }
{
    match note {
        Note::Placed(_) | Note::Pending(_) => false,
        _ => true,
    }
}

/// Whether a note says that a history is stuck there.
fn is_stuck(note: Note) -> bool
    ensures { result ≡ rule.is_stuck note }
{
    match note {
        Note::Stuck => true,
        _ => false,
    }
}

/// The first mark that says that a history is stuck there, if one does.
fn stuck_mark(marks: &[Mark]) -> Option<&Mark>
    ensures { option_map (λ mark. mark.now) result ≡ find (λ mark. rule.is_stuck mark.note) marks.now }
{
    marks.iter().find(|mark| is_stuck(mark.note))
}

/// The first mark that points at something, if one does.
fn pointing_mark(marks: &[Mark]) -> Option<&Mark>
    ensures { option_map (λ mark. mark.now) result
        ≡ find (λ mark. rule.is_pointer mark.note) marks.now }
{
    marks.iter().find(|mark| is_pointer(mark.note))
}

/// The mark at which the page is looked at first: the one where a history is stuck, or else the first
/// one that points at something, which says more than a number in an order, or that an operation is
/// pending.
pub fn first_pointer(marks: &[Mark]) -> Option<&Mark>
    ensures { option_map (λ mark. mark.now) result ≡ rule.first_pointer marks.now }
{
    match stuck_mark(marks) {
        Some(mark) => Some(mark),
        None => pointing_mark(marks),
    }
}

/// The class of a note in the style.
fn class_of(note: Note) -> &'static str
    ensures { result.now ≡ rule.class_of note }
{
    match note {
        Note::Placed(_) => "placed",
        Note::Stuck => "stuck",
        Note::Pending(_) => "pending",
        Note::Lost => "lost",
        Note::Recovered => "recovered",
        Note::Unexpected => "unexpected",
        Note::Repeated => "repeated",
        Note::Outside { .. } => "outside",
        Note::Step { .. } => "step",
        Note::BadRead => "bad-read",
        Note::Stale => "stale",
        Note::WrongBalances => "wrong-balances",
        Note::Named => "named",
    }
}

/// The name of a kind of step.
fn kind_name(kind: StepKind) -> &'static str
    ensures { result.now ≡ rule.step_kind_name kind }
{
    match kind {
        StepKind::WriteRead => "wr",
        StepKind::WriteWrite => "ww",
        StepKind::FirstCommitter => "fcw",
        StepKind::ReadWrite => "rw",
        StepKind::RealTime => "rt",
    }
}

/// Writes the place of a transaction and how it leads to the next one.
fn write_step<W: Write>(place: usize, kind: StepKind, writer: &mut W) -> Result<(), PageError>
    ensures bytes { OnOk result
        (Appends (W.contents writer.old) (W.contents writer.new) (step_text place kind)) }
    ensures error { IfErr result (λ e. e ≡ PageError.Write) }
{
    let name = kind_name(kind);
    write!(writer, "{place} :{name}").map_err(|_| PageError::Write)
}

/// Writes the text of a note.
fn write_note<W: Write>(note: Note, writer: &mut W) -> Result<(), PageError>
    ensures bytes { OnOk result
        (Appends (W.contents writer.old) (W.contents writer.new) (note_text note)) }
    ensures error { IfErr result (λ e. e ≡ PageError.Write) }
{
    match note {
        Note::Placed(Place { number, .. }) => {
            write!(writer, "{number}").map_err(|_| PageError::Write)
        }
        Note::Pending(Some(Place { number, .. })) => {
            write!(writer, "pending {number}").map_err(|_| PageError::Write)
        }
        Note::Outside { lower, upper } => {
            write!(writer, "[{lower} {upper}]").map_err(|_| PageError::Write)
        }
        Note::Step { place, kind } => write_step(place, kind, writer),
        Note::BadRead => put(b"bad read", writer),
        Note::WrongBalances => put(b"wrong balances", writer),
        _ => put(class_of(note).as_bytes(), writer),
    }
}

/// Writes a value of a register.
fn write_value<W: Write>(value: i64, writer: &mut W) -> Result<(), PageError>
    ensures bytes { OnOk result
        (Appends (W.contents writer.old) (W.contents writer.new) (signed_decimal value)) }
    ensures error { IfErr result (λ e. e ≡ PageError.Write) }
{
    write!(writer, "{value}").map_err(|_| PageError::Write)
}

/// Writes that a register holds a value behind an operation.
fn write_held_value<W: Write>(value: i64, writer: &mut W) -> Result<(), PageError>
    ensures bytes { OnOk result
        (Appends (W.contents writer.old) (W.contents writer.new) (held_text (Some value))) }
    ensures error { IfErr result (λ e. e ≡ PageError.Write) }
{
    put(b"; the register then holds ", writer)?;
    write_value(value, writer)
}

/// Writes what a register holds behind an operation, where that is known.
fn write_held<W: Write>(holds: Option<i64>, writer: &mut W) -> Result<(), PageError>
    ensures bytes { OnOk result
        (Appends (W.contents writer.old) (W.contents writer.new) (held_text holds)) }
    ensures error { IfErr result (λ e. e ≡ PageError.Write) }
{
    match holds {
        Some(value) => write_held_value(value, writer),
        None => Ok(()),
    }
}

/// Writes a number in an order.
fn write_order_number<W: Write>(number: usize, writer: &mut W) -> Result<(), PageError>
    ensures bytes { OnOk result
        (Appends (W.contents writer.old) (W.contents writer.new) (order_number_text number)) }
    ensures error { IfErr result (λ e. e ≡ PageError.Write) }
{
    write!(writer, "number {number} in the order that was found").map_err(|_| PageError::Write)
}

/// Writes what a place in an order means.
fn write_place_meaning<W: Write>(place: Place, writer: &mut W) -> Result<(), PageError>
    ensures bytes { OnOk result
        (Appends (W.contents writer.old) (W.contents writer.new) (place_meaning place)) }
    ensures error { IfErr result (λ e. e ≡ PageError.Write) }
{
    write_order_number(place.number, writer)?;
    write_held(place.holds, writer)
}

/// Writes what it means that an operation is pending.
fn write_pending<W: Write>(place: Option<Place>, writer: &mut W) -> Result<(), PageError>
    ensures bytes { OnOk result
        (Appends (W.contents writer.old) (W.contents writer.new) (pending_meaning place)) }
    ensures error { IfErr result (λ e. e ≡ PageError.Write) }
{
    match place {
        Some(place) => {
            put(
                b"pending: it was not over where the history is stuck; ",
                writer,
            )?;
            write_place_meaning(place, writer)
        }
        None => put(
            b"pending: it was not over where the history is stuck",
            writer,
        ),
    }
}

/// The meaning of a note that has no number.
fn plain_meaning(note: Note) -> &'static [u8]
    ensures { result.now ≡ rule.plain_meaning note }
{
    match note {
        Note::Stuck => b"stuck: no order has room for this operation",
        Note::Lost => b"lost: it was added, and it is missing",
        Note::Recovered => b"recovered: it is there, and it was not known to be added",
        Note::Unexpected => b"unexpected: this gives what no add explains",
        Note::Repeated => b"repeated: this gives what was given more than once",
        Note::BadRead => b"bad read: no order explains it",
        Note::Stale => b"stale: it was known to be there, and a read behind that lacked it",
        Note::WrongBalances => b"wrong balances: the bank can't have these",
        Note::Named => b"named: the verdict stands on this operation",
        _ => b"",
    }
}

/// Writes what a note means.
fn write_meaning<W: Write>(note: Note, writer: &mut W) -> Result<(), PageError>
    ensures bytes { OnOk result
        (Appends (W.contents writer.old) (W.contents writer.new) (meaning_text note)) }
    ensures error { IfErr result (λ e. e ≡ PageError.Write) }
{
    match note {
        Note::Placed(place) => write_place_meaning(place, writer),
        Note::Pending(place) => write_pending(place, writer),
        Note::Outside { lower, upper } => {
            write!(writer, "outside its bounds: {lower} to {upper}").map_err(|_| PageError::Write)
        }
        Note::Step { place, .. } => write!(
            writer,
            "transaction {place}, with its step to the next one of the cycle"
        )
        .map_err(|_| PageError::Write),
        _ => put(plain_meaning(note), writer),
    }
}

/// Writes the name of a mark, to which a link may lead.
pub(crate) fn write_mark_name<W: Write>(
    number: usize,
    bar: usize,
    writer: &mut W,
) -> Result<(), PageError>
    ensures { OnOk result
        (Appends (W.contents writer.old) (W.contents writer.new) (mark_name number bar)) }
{
    write!(writer, "found-{number}-{bar}").map_err(|_| PageError::Write)
}

/// Writes the name of a mark that points at something, behind its class.
fn write_named<W: Write>(number: usize, mark: &Mark, writer: &mut W) -> Result<(), PageError>
    ensures { OnOk result
        (Appends (W.contents writer.old) (W.contents writer.new) (named_text number mark.now)) }
{
    if is_pointer(mark.note) {
        put(b"\" id=\"", writer)?;
        write_mark_name(number, mark.call, writer)
    } else {
        Ok(())
    }
}

/// Writes a mark at a bar, with what it means and where it stands.
fn write_mark<W: Write>(
    number: usize,
    frame: Frame,
    section: &Section,
    mark: &Mark,
    bar: &Bar,
    writer: &mut W,
) -> Result<(), PageError>
    requires { All (λ op. IsWritable op.process) section.now.history.items }
    ensures { OnOk result
        (Appends (W.contents writer.old) (W.contents writer.new)
        (mark_text number frame section.now mark.now (Some bar.now))) }
{
    put(b"<svg class=\"", writer)?;
    put(class_of(mark.note).as_bytes(), writer)?;
    write_named(number, mark, writer)?;
    write_bar_place(frame, bar, writer)?;
    put(b"<title>", writer)?;
    write_meaning(mark.note, writer)?;
    write_whereabouts(section, section.number_of_bar(mark.call), &bar.call, writer)?;
    put(b"</title><text x=\"228\" y=\"12\">", writer)?;
    write_note(mark.note, writer)?;
    put(b"</text></svg>\n", writer)
}

/// Writes a mark at the bar that it names.
fn draw_mark<W: Write>(
    number: usize,
    frame: Frame,
    section: &Section,
    mark: &Mark,
    writer: &mut W,
) -> Result<(), PageError>
    requires { All (λ op. IsWritable op.process) section.now.history.items }
    ensures { OnOk result
        (Appends (W.contents writer.old) (W.contents writer.new)
        (drawn_mark number frame section.now mark.now)) }
{
    match section.bar(mark.call) {
        Some(bar) => write_mark(number, frame, section, mark, &bar, writer),
        None => Ok(()),
    }
}

/// Writes all marks.
pub(crate) fn draw_marks<W: Write>(
    number: usize,
    frame: Frame,
    section: &Section,
    writer: &mut W,
) -> Result<(), PageError>
    requires { All (λ op. IsWritable op.process) section.now.history.items }
    ensures { OnOk result (Appends (W.contents writer.old) (W.contents writer.new)
        (flat_map (drawn_mark number frame section.now) section.now.marks.items)) }
{
    for mark in &section.marks {
        draw_mark(number, frame, section, mark, writer)?;
    }
    Ok(())
}

//! The bars of a picture. `specs/Drawings.antt` has the rule.

ghost use Rattle.std.specs.Prelude.{◌≡◌, All, IfOk, IfSome, OnOk, option_and_then, option_map};
ghost use Rattle.std.specs.Prelude.{Some, slice_get};
ghost use Rattle.std.specs.Io.KnownBytes.{Appends};
ghost use Rattle.std.specs.List.{flat_map};
ghost use Rattle.std.specs.Option.{ForSome};
ghost use Rattle.jh_ops.specs.Operation.{operation};
ghost use Rattle.jh_ops.specs.OperationWritten.{IsWritable};
ghost use Rattle.jh_timeline_pages.specs.Drawings as rule;
ghost use Rattle.jh_timeline_pages.specs.Drawings.{alone_text, bar_place, bar_text, box_text, drawn_bar};
ghost use Rattle.jh_timeline_pages.specs.Drawings.{operation_text, place_text, records_text};
ghost use Rattle.jh_timeline_pages.specs.Drawings.{section_record, signed_text};

use crate::endings::{
    alone_class, alone_sign, ending_class, ending_of, ending_sign, is_invocation,
};
use crate::error::PageError;
use crate::markup::{put, write_short_bytes};
use crate::pixels::{Frame, height_of, left_of, top_of};
use crate::record::write_record;
use crate::section::Section;
use crate::times::{duration, write_took};
use jh_bands::{answered_text, asked_text};
use jh_ops::{Kind, Op};
use jh_timeline::Bar;
use std::alloc::{AllocError, Global};
use std::io::Write;

/// The label of an operation.
fn bar_label(alloc: Global, invocation: &Op, completion: Option<&Op>) -> Result<Vec<u8>, AllocError>
    ensures { IfOk result (λ label. label.items ≡ rule.bar_label (operation invocation.now)
        (option_map (λ op. operation op.now) completion.entry)) }
{
    match completion {
        Some(op) => match op.kind {
            Kind::Ok => answered_text(alloc, &invocation.f, &op.value),
            _ => asked_text(alloc, &invocation.f, &invocation.value),
        },
        None => asked_text(alloc, &invocation.f, &invocation.value),
    }
}

/// Writes both records of an operation, and how long it took.
fn write_records<W: Write>(
    alloc: Global,
    invocation: &Op,
    completion: Option<&Op>,
    writer: &mut W,
) -> Result<(), PageError>
    requires invocation { IsWritable invocation.now.process }
    requires completion { ForSome completion (λ op. IsWritable op.now.process) }
    ensures { OnOk result (Appends (W.contents writer.old) (W.contents writer.new)
        (records_text (operation invocation.now)
        (option_map (λ op. operation op.now) completion.entry))) }
{
    write_record(alloc, invocation, writer)?;
    match completion {
        Some(op) => {
            put(b"\n", writer)?;
            write_record(alloc, op, writer)?;
            write_took(duration(invocation.time, op.time), writer)
        }
        None => Ok(()),
    }
}

/// Writes where a box begins, and how high it is.
fn write_place<W: Write>(
    left: u128,
    top: u128,
    height: u128,
    writer: &mut W,
) -> Result<(), PageError>
    ensures { OnOk result
        (Appends (W.contents writer.old) (W.contents writer.new) (place_text left top height)) }
{
    write!(
        writer,
        "\" x=\"{left}\" y=\"{top}\" width=\"232\" height=\"{height}\">\
         <rect width=\"100%\" height=\"100%\"/>"
    )
    .map_err(|_| PageError::Write)
}

/// Writes the place of a bar.
pub(crate) fn write_bar_place<W: Write>(
    frame: Frame,
    bar: &Bar,
    writer: &mut W,
) -> Result<(), PageError>
    ensures { OnOk result
        (Appends (W.contents writer.old) (W.contents writer.new) (bar_place frame bar.now)) }
{
    let left = left_of(frame, bar.lane);
    let top = top_of(frame, bar.call.first);
    write_place(left, top, height_of(frame, &bar.call), writer)
}

/// Writes the box of a bar.
fn write_box<W: Write>(
    class: &str,
    frame: Frame,
    bar: &Bar,
    writer: &mut W,
) -> Result<(), PageError>
    ensures { OnOk result
        (Appends (W.contents writer.old) (W.contents writer.new)
        (box_text class.now frame bar.now)) }
{
    put(b"<svg class=\"", writer)?;
    put(class.as_bytes(), writer)?;
    write_bar_place(frame, bar, writer)
}

/// Writes the end of a bar: its label behind a sign.
fn write_signed<W: Write>(
    alloc: Global,
    sign: &str,
    label: &[u8],
    writer: &mut W,
) -> Result<(), PageError>
    ensures { OnOk result
        (Appends (W.contents writer.old) (W.contents writer.new)
        (signed_text sign.now label.now)) }
{
    put(b"</title><text x=\"4\" y=\"12\">", writer)?;
    put(sign.as_bytes(), writer)?;
    write_short_bytes(alloc, label, writer)?;
    put(b"</text></svg>\n", writer)
}

/// The first process of a bar's lane.
fn first_process(section: &Section, bar: &Bar) -> Option<u64>
    ensures { result ≡ option_and_then (λ lane. slice_get lane.clients.items 0)
        (slice_get section.now.picture.lanes.items bar.now.lane) }
{
    let lane = section.picture.lanes.get(bar.lane)?;
    lane.clients.first().copied()
}

/// The process that a bar's label names: its own, where its lane had another one before.
fn named_process(section: &Section, bar: &Bar) -> Option<u64>
    ensures { result ≡ rule.named_process section.now bar.now }
{
    match first_process(section, bar) {
        Some(first) if first != bar.call.client => Some(bar.call.client),
        _ => None,
    }
}

/// Writes a label behind the process that it names.
fn write_named<W: Write>(client: u64, label: &[u8], writer: &mut W) -> Result<(), PageError>
    ensures { OnOk result (Appends (W.contents writer.old) (W.contents writer.new)
        (rule.named_label (Some client) label.now)) }
{
    write!(writer, "{client}: ").map_err(|_| PageError::Write)?;
    put(label, writer)
}

/// A label, behind the process that it names, if it names one.
fn named_label(alloc: Global, named: Option<u64>, label: Vec<u8>) -> Result<Vec<u8>, AllocError>
    ensures { IfOk result (λ text. text.items ≡ rule.named_label named label.items) }
{
    let Some(client) = named else {
        return Ok(label);
    };
    let mut text = Vec::new(alloc);
    match write_named(client, &label, &mut text) {
        Ok(()) => Ok(text),
        Err(_) => Err(AllocError),
    }
}

/// Writes the bar of an operation.
fn write_operation<W: Write>(
    alloc: Global,
    frame: Frame,
    bar: &Bar,
    named: Option<u64>,
    invocation: &Op,
    completion: Option<&Op>,
    writer: &mut W,
) -> Result<(), PageError>
    requires invocation { IsWritable invocation.now.process }
    requires completion { ForSome completion (λ op. IsWritable op.now.process) }
    ensures { OnOk result (Appends (W.contents writer.old) (W.contents writer.new)
        (operation_text frame bar.now named (operation invocation.now)
        (option_map (λ op. operation op.now) completion.entry))) }
{
    let ending = ending_of(completion);
    write_box(ending_class(ending), frame, bar, writer)?;
    put(b"<title>", writer)?;
    write_records(alloc, invocation, completion, writer)?;
    let label = named_label(alloc, named, bar_label(alloc, invocation, completion)?)?;
    write_signed(alloc, ending_sign(ending), &label, writer)
}

/// Writes the bar of a completion that answers no invocation.
fn write_alone<W: Write>(
    alloc: Global,
    frame: Frame,
    bar: &Bar,
    named: Option<u64>,
    op: &Op,
    writer: &mut W,
) -> Result<(), PageError>
    requires { IsWritable op.now.process }
    ensures { OnOk result (Appends (W.contents writer.old) (W.contents writer.new)
        (alone_text frame bar.now named (operation op.now))) }
{
    write_box(alone_class(op.kind), frame, bar, writer)?;
    put(b"<title>", writer)?;
    write_record(alloc, op, writer)?;
    let label = named_label(alloc, named, answered_text(alloc, &op.f, &op.value)?)?;
    write_signed(alloc, alone_sign(op.kind), &label, writer)
}

/// Writes a bar with its first record and its completion, if it has one.
fn write_bar<W: Write>(
    alloc: Global,
    frame: Frame,
    bar: &Bar,
    named: Option<u64>,
    first: &Op,
    completion: Option<&Op>,
    writer: &mut W,
) -> Result<(), PageError>
    requires first { IsWritable first.now.process }
    requires completion { ForSome completion (λ op. IsWritable op.now.process) }
    ensures { OnOk result (Appends (W.contents writer.old) (W.contents writer.new)
        (bar_text frame bar.now named (Some (operation first.now))
        (option_map (λ op. operation op.now) completion.entry))) }
{
    if is_invocation(first) {
        write_operation(alloc, frame, bar, named, first, completion, writer)
    } else {
        write_alone(alloc, frame, bar, named, first, writer)
    }
}

/// The completion of a bar, if it has one.
pub(crate) fn completion_of<'a>(section: &'a Section, bar: &Bar) -> Option<&'a Op>
    requires { All (λ op. IsWritable op.process) section.now.history.items }
    ensures found { option_map (λ op. operation op.now) result
        ≡ option_and_then (λ index. section_record section.now index) bar.now.call.completion }
    ensures writable { IfSome result (λ op. IsWritable op.now.process) }
{
    match bar.call.completion {
        Some(index) => section.record(index),
        None => None,
    }
}

/// Writes a bar, with the records that it has in the history.
fn draw_bar<W: Write>(
    alloc: Global,
    frame: Frame,
    section: &Section,
    bar: &Bar,
    writer: &mut W,
) -> Result<(), PageError>
    requires { All (λ op. IsWritable op.process) section.now.history.items }
    ensures { OnOk result
        (Appends (W.contents writer.old) (W.contents writer.new)
        (drawn_bar frame section.now bar.now)) }
{
    let completion = completion_of(section, bar);
    let named = named_process(section, bar);
    match section.record(bar.call.first) {
        Some(first) => write_bar(alloc, frame, bar, named, first, completion, writer),
        None => Ok(()),
    }
}

/// Writes all bars.
pub(crate) fn draw_bars<W: Write>(
    alloc: Global,
    frame: Frame,
    section: &Section,
    writer: &mut W,
) -> Result<(), PageError>
    requires { All (λ op. IsWritable op.process) section.now.history.items }
    ensures { OnOk result (Appends (W.contents writer.old) (W.contents writer.new)
        (flat_map (drawn_bar frame section.now) section.now.picture.bars.items)) }
{
    for bar in &section.picture.bars {
        draw_bar(alloc, frame, section, bar, writer)?;
    }
    Ok(())
}

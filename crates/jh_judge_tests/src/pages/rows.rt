//! Rows of histories with the page of each.
//!
//! A row is the title, and behind each ` | ` the notice and the checker's line, where it has them, and
//! what stands below all sections in further lines; for each section a line `#` with its heading, a
//! line with the window's two indexes, and behind each `;` a mark: a bar and what is said of it, and
//! its records, whose faults and lines are those that `jh_bands` finds; a line `=>`; and the page from its title on, without the legend, which stands behind
//! the first line or where a line `<legend>` does. An empty line ends it. A table is one text, since the proof of an array takes a
//! second for each row.

ghost use Rattle.std.specs.Prelude.{All, IfOk};
ghost use Rattle.jh_ops.specs.OperationWritten.{IsWritable};

use crate::spelled::mark_of;
use jh_bands::{Band, Line, bands_of, lines_of};
use jh_edn::read_all;
use jh_ops::{Op, history_of};
use jh_timeline::{Bar, Call, Mark, Window, picture_in};
use jh_timeline_marks::operation_numbers;
use jh_timeline_pages::{PageError, Section, Top, write_page};
use std::alloc::Global;
use std::io::Write;
use std::test::Fail;

/// What a page begins with, up to the style sheet.
const OPENING: &str =
    "<!DOCTYPE html>\n<html xmlns=\"http://www.w3.org/1999/xhtml\" lang=\"en\">\n<head>\n\
    <meta charset=\"utf-8\"/>\n<title>Timeline</title>\n<style>\n";

/// What stands between the style sheet and the title.
const BODY: &str = "</style>\n</head>\n<body>\n";

/// What stands behind the title and what belongs to it.
const LEGEND: &str = "<p class=\"legend\"><span class=\"ok\">&#10003; ok</span> \
    <span class=\"fail\">&#10007; fail</span> <span class=\"info\">? info</span> \
    <span class=\"open\">&#8230; no completion</span> \
    <span class=\"alone\">&#8627; no invocation</span> <span class=\"marked\">mark</span> \
    <span class=\"waits\">pending</span> <b>12</b> number in an order. Time goes down, and times are \
    in seconds. A line across is a record of the nemesis, and a shade, on paper a dashed box, is a \
    fault while it is active. A number and a colon before a label name the process, where its lane had \
    another one before. A dotted line goes on below a bar whose outcome is unknown: it may take effect \
    at any later time. Point at a bar or a line to see its records, at a mark to see what it \
    means.</p>\n";

/// More bytes than any page here has.
const ROOM: usize = 20_000;

/// The marks of a section.
fn marks_of(alloc: Global, text: &str) -> Result<Vec<Mark>, PageError> {
    let mut marks = Vec::new(alloc);
    for mark in text.split(';').skip(1) {
        if let Some(mark) = mark_of(mark) {
            marks.push(mark)?;
        }
    }
    Ok(marks)
}

/// The window of a section.
fn window_of(text: &str) -> Window {
    let mut pieces = text.split(|c| c == ' ' || c == ';');
    Window {
        from: pieces
            .next()
            .and_then(|piece| piece.parse().ok())
            .unwrap_or(0),
        to: pieces
            .next()
            .and_then(|piece| piece.parse().ok())
            .unwrap_or(0),
    }
}

/// The lines of the nemesis in a window.
fn lines_in(alloc: Global, window: Window, history: &[Op]) -> Result<Vec<Line>, PageError> {
    let mut lines = lines_of(alloc, &[], history)?;
    lines.retain(|line| window.from <= line.index && line.index < window.to);
    Ok(lines)
}

/// The faults that are active in a window.
fn bands_in(alloc: Global, window: Window, history: &[Op]) -> Result<Vec<Band>, PageError> {
    let mut bands = bands_of(alloc, &[], history)?;
    bands.retain(|band| band.from < window.to && band.to.is_none_or(|to| window.from < to));
    Ok(bands)
}

/// The numbers of the operations of bars.
fn numbers_in(
    alloc: Global,
    history: &[Op],
    bars: &[Bar],
) -> Result<Vec<Option<usize>>, PageError> {
    let calls: Vec<Call> = bars.iter().map(|bar| bar.call).collect(alloc)?;
    Ok(operation_numbers(alloc, history, &calls)?)
}

/// The history that records mean.
fn history_in(alloc: Global, text: &str) -> Result<Vec<Op>, PageError>
    ensures { IfOk result (λ ops. All (λ op. IsWritable op.process) ops.items) }
{
    let values = read_all(alloc, &mut text.as_bytes(), 1_000).map_err(|_| PageError::OutOfMemory)?;
    history_of(alloc, values).map_err(|_| PageError::OutOfMemory)
}

/// The section that a text spells.
fn section_of(alloc: Global, text: &str) -> Result<Section, PageError>
    ensures { IfOk result (λ section. All (λ op. IsWritable op.process) section.history.items) }
{
    let mut lines = text.splitn(3, '\n');
    let heading = lines.next().unwrap_or("").trim_start();
    let asked = lines.next().unwrap_or("");
    let history = history_in(alloc, lines.next().unwrap_or(""))?;
    let window = window_of(asked);
    let picture = picture_in(alloc, window, &history, &[])?;
    Ok(Section {
        heading: Vec::from_slice(alloc, heading.as_bytes())?,
        window,
        bands: bands_in(alloc, window, &history)?,
        lines: lines_in(alloc, window, &history)?,
        numbers: numbers_in(alloc, &history, &picture.bars)?,
        marks: marks_of(alloc, asked)?,
        picture,
        history,
    })
}

/// The sections of a row.
fn sections_of(alloc: Global, given: &str) -> Result<Vec<Section>, PageError>
    ensures { IfOk result (λ sections. All (λ section. All (λ op. IsWritable op.process)
        section.history.items) sections.items) }
{
    let mut sections = Vec::new(alloc);
    for text in given.split("\n#").skip(1) {
        sections.push(section_of(alloc, text)?)?;
    }
    Ok(sections)
}

/// The top that a text spells.
fn top_of(alloc: Global, text: &str) -> Result<Top, PageError> {
    let mut parts = text.splitn(3, " | ");
    let title = parts.next().unwrap_or("");
    let notice = parts.next().unwrap_or("");
    let line = parts.next().unwrap_or("");
    Ok(Top {
        title: Vec::from_slice(alloc, title.as_bytes())?,
        notice: Vec::from_slice(alloc, notice.as_bytes())?,
        line: Vec::from_slice(alloc, line.as_bytes())?,
    })
}

/// Writes the page that a row asks for.
pub(crate) fn write_asked<W: Write>(
    alloc: Global,
    given: &str,
    writer: &mut W,
) -> Result<(), PageError> {
    let above = given.split("\n#").next().unwrap_or("");
    let (line, below) = above.split_once('\n').unwrap_or((above, ""));
    let top = top_of(alloc, line)?;
    let sections = sections_of(alloc, given)?;
    write_page(alloc, &top, &sections, below.as_bytes(), writer)
}

/// The page that a row asks for. It has room from the start, so no writer fails.
fn page_of(alloc: Global, given: &str) -> Result<Vec<u8>, PageError> {
    let mut page = Vec::with_capacity(alloc, ROOM)?;
    write_asked(alloc, given, &mut page)?;
    Ok(page)
}

/// The same, asked once more where memory was refused. None: it failed otherwise.
pub(crate) fn asked(alloc: Global, given: &str) -> Option<Vec<u8>> {
    match page_of(alloc, given) {
        Err(PageError::OutOfMemory) => page_of(alloc, given).ok(),
        page => page.ok(),
    }
}

/// The two parts of a body between which the legend stands.
fn around_legend(body: &str) -> Option<(&str, &str)> {
    body.split_once("\n<legend>\n")
        .or_else(|| body.split_once('\n'))
}

/// What a page has up to its body, if it has this body.
fn head_of<'a>(page: &'a [u8], body: &str) -> Option<&'a str> {
    let (line, rest) = around_legend(body)?;
    let page = str::from_utf8(page).ok()?;
    page.strip_suffix('\n')?
        .strip_suffix(rest)?
        .strip_suffix(LEGEND)?
        .strip_suffix('\n')?
        .strip_suffix(line)
}

/// Asks for the page of each row. One with another page is the failure.
pub(crate) fn ask_all(alloc: Global, rows: &str) -> Result<(), Fail> {
    for row in rows.split("\n\n") {
        let (given, body) = row.split_once("\n=>\n").ok_or("no page")?;
        let page = asked(alloc, given).ok_or("no answer")?;
        let is_right = head_of(&page, body).is_some_and(|head| head.starts_with(OPENING)
            && head.ends_with(BODY));
        if !is_right {
            return Err(Fail::new(given));
        }
    }
    Ok(())
}

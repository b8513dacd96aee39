//! Rows `STEPS | RECORDS => BANDS`: the steps of a schedule, the records of a history, and the bands or the lines that are wanted.
//!
//! Records are separated by `; `. `ask PLACE` asks for the step of an entry, and `ask PLACE STEP` has the step too; `done PLACE
//! CODE` answers; `client` is a client's invocation, and `other KEYS` a record of another nemesis, with these keys. Each band is
//! `FROM TO LABEL;`, with `-` for TO where the fault is active at the end, and each line is `INDEX LABEL;`. They have a space
//! between them.

use jh_bands::{Band, Line, bands_of, lines_of};
use jh_edn::read_all;
use jh_histories::history_in;
use jh_ops::Op;
use std::alloc::Global;
use std::io::Write;
use std::test::Fail;

/// What is drawn of a history.
#[derive(Clone, Copy)]
pub(crate) enum Drawn {
    Bands,
    Lines,
}

/// Writes what the nemesis asks for: a place, and a step behind it, if there is one. None: memory was refused.
fn write_asked(asked: &str, text: &mut Vec<u8>) -> Option<()> {
    let start = "{:type :info, :process :nemesis, :f :step, :value";
    match asked.split_once(' ') {
        Some((place, step)) => write!(
            text,
            "{start} {place}, :step {step}, :links [], :nodes []"
        ).ok(),
        None => write!(text, "{start} {asked}").ok(),
    }
}

/// Writes a record but for its last brace. None: memory was refused.
fn write_record(record: &str, text: &mut Vec<u8>) -> Option<()> {
    let start = "{:type :info, :process :nemesis";
    match record.split_once(' ') {
        Some(("ask", asked)) => write_asked(asked, text),
        Some(("other", keys)) => write!(text, "{start}, {keys}").ok(),
        Some((_, answer)) => write!(text, "{start}, :f :step, :value [{answer}]").ok(),
        None => text
            .extend_from_slice(b"{:type :invoke, :process 0, :f :read")
            .ok(),
    }
}

/// The text of records. None: memory was refused.
fn text_of(alloc: Global, records: &str) -> Option<Vec<u8>> {
    let mut text = Vec::new(alloc);
    for record in records.split("; ") {
        write_record(record, &mut text)?;
        text.extend_from_slice(b"}\n").ok()?;
    }
    Some(text)
}

/// The history of records. None: memory was refused.
fn history_of_row(alloc: Global, records: &str) -> Option<Vec<Op>> {
    let text = text_of(alloc, records)?;
    history_in(alloc, str::from_utf8(&text).ok()?).ok()
}

/// Writes a band. None: memory was refused.
fn write_band(band: &Band, text: &mut Vec<u8>) -> Option<()> {
    match band.to {
        Some(to) => write!(text, "{} {to} ", band.from).ok()?,
        None => write!(text, "{} - ", band.from).ok()?,
    }
    text.extend_from_slice(&band.label).ok()?;
    text.extend_from_slice(b"; ").ok()
}

/// The text of bands. None: memory was refused.
fn text_of_bands(alloc: Global, bands: &[Band]) -> Option<Vec<u8>> {
    let mut text = Vec::new(alloc);
    for band in bands {
        write_band(band, &mut text)?;
    }
    Some(text)
}

/// The text of lines. None: memory was refused.
fn text_of_lines(alloc: Global, lines: &[Line]) -> Option<Vec<u8>> {
    let mut text = Vec::new(alloc);
    for line in lines {
        write!(text, "{} ", line.index).ok()?;
        text.extend_from_slice(&line.label).ok()?;
        text.extend_from_slice(b"; ").ok()?;
    }
    Some(text)
}

/// The text of what is drawn of a row. None: memory was refused.
fn answer_to(alloc: Global, drawn: Drawn, steps: &str, records: &str) -> Option<Vec<u8>> {
    let steps = read_all(alloc, &mut steps.as_bytes(), 10).ok()?;
    let history = history_of_row(alloc, records)?;
    match drawn {
        Drawn::Bands => text_of_bands(alloc, &bands_of(alloc, &steps, &history).ok()?),
        Drawn::Lines => text_of_lines(alloc, &lines_of(alloc, &steps, &history).ok()?),
    }
}

/// Whether this is drawn of a row, asked once more where memory was refused.
fn is_answered(alloc: Global, drawn: Drawn, steps: &str, records: &str, expected: &str) -> bool {
    let found = match answer_to(alloc, drawn, steps, records) {
        None => answer_to(alloc, drawn, steps, records),
        found => found,
    };
    match found {
        Some(found) => found.trim_ascii() == expected.as_bytes(),
        None => false,
    }
}

/// Judges each row. One of which something else is drawn is the failure.
pub(crate) fn judge_all(alloc: Global, drawn: Drawn, rows: &str) -> Result<(), Fail> {
    for row in rows.trim().lines() {
        let (given, expected) = row.split_once(" => ").ok_or("nothing is drawn")?;
        let (steps, records) = given.split_once("| ").ok_or("no records")?;
        if !is_answered(alloc, drawn, steps, records, expected) {
            return Err(Fail::new(row));
        }
    }
    Ok(())
}

//! Where reading goes on and where it ends: places, depth, turns and whole texts.

use crate::edn::rows::{Ask, MALFORMED, ask_all};
use crate::one_by_one::OneByOne;
use jh_edn::{
    EdnError, Value, equality_laws, read_all, read_bytes, read_one, spelled_once,
    values_are_spelled, values_in_line, write,
};
use std::alloc::{AllocError, Global};
use std::test::Fail;

/// The number before the first space, and the text behind it.
pub(crate) fn numbered(question: &str) -> Option<(u32, &str)> {
    let (number, text) = question.split_once(' ')?;
    Some((number.parse::<u32>().ok()?, text))
}

/// The values, printed with a space between.
pub(crate) fn print_all(alloc: Global, values: &[Value]) -> Result<Vec<u8>, EdnError> {
    let mut printed = Vec::new(alloc);
    for value in values {
        if !printed.is_empty() {
            printed.push(b' ')?;
        }
        write(value, &mut printed)?;
    }
    Ok(printed)
}

/// The values of a text, printed with a space between.
pub(crate) fn all(alloc: Global, text: &str) -> Result<Vec<u8>, EdnError> {
    print_all(alloc, &read_all(alloc, &mut text.as_bytes(), 2)?)
}

/// The element behind that place, which has to lie between two characters.
fn element_from(
    alloc: Global,
    text: &str,
    place: usize,
) -> Result<Option<(Value, usize)>, EdnError> {
    if text.is_char_boundary(place) {
        read_one(alloc, text, place)
    } else {
        Err(MALFORMED)
    }
}

/// The value, printed, and the place after it.
fn placed(alloc: Global, value: &Value, end: usize) -> Result<Vec<u8>, EdnError> {
    let mut printed = Vec::new(alloc);
    write(value, &mut printed)?;
    printed.extend_from_slice(format!(in alloc; " to {end}")?.as_bytes())?;
    Ok(printed)
}

/// The element of a text from a place on, asked as `PLACE TEXT`: printed, and the place after it.
pub(crate) fn element(alloc: Global, question: &str) -> Result<Vec<u8>, EdnError> {
    let (place, text) = numbered(question).ok_or(MALFORMED)?;
    match element_from(alloc, text, place as usize)? {
        Some((value, end)) => placed(alloc, &value, end),
        None => Ok(b"nothing".to_vec(alloc)?),
    }
}

#[test]
fn reads_on(rt: HostRuntime) -> Result<(), Fail> {
    let rows = "\
        0 1 -2\n 1.5\x1f1 to 1\
        \x1e1 1 -2\n 1.5\x1f-2 to 4\
        \x1e4 1 -2\n 1.5\x1fline 2: float unsupported\
        \x1e0  ,\n\x1fnothing";
    ask_all(rt.alloc(), &Ask::Element, rows)
}

/// Puts a part behind a text so many times.
fn add(text: &mut String, part: &str, times: u32) -> Result<(), AllocError> {
    for _ in 0..times {
        text.push_str(part)?;
    }
    Ok(())
}

/// So many openings, a value, and as many closings.
fn nest(alloc: Global, open: &str, close: &str, depth: u32) -> Result<String, AllocError> {
    let mut text = String::new(alloc);
    add(&mut text, open, depth)?;
    add(&mut text, "1", 1)?;
    add(&mut text, close, depth)?;
    Ok(text)
}

/// Whether an element is read of a text that is nested, asked as `DEPTH OPENING|CLOSING`.
pub(crate) fn nested(alloc: Global, question: &str) -> Result<Vec<u8>, EdnError> {
    let (depth, ends) = numbered(question).ok_or(MALFORMED)?;
    let (open, close) = ends.split_once('|').ok_or(MALFORMED)?;
    let text = nest(alloc, open, close, depth)?;
    match element_from(alloc, &text, 0)? {
        Some(_) => Ok(b"read".to_vec(alloc)?),
        None => Ok(b"nothing".to_vec(alloc)?),
    }
}

#[test]
fn limits_depth(rt: HostRuntime) -> Result<(), Fail> {
    let rows = "\
        64 [|]\x1fread\
        \x1e65 [|]\x1fline 1: too deep\
        \x1e64 (|)\x1fread\
        \x1e65 (|)\x1fline 1: too deep\
        \x1e64 {1 |}\x1fread\
        \x1e65 {1 |}\x1fline 1: too deep\
        \x1e64 #{|}\x1fread\
        \x1e65 #{|}\x1fline 1: too deep\
        \x1e64 #a |\x1fread\
        \x1e65 #a |\x1fline 1: too deep\
        \x1e64 #_| 1\x1fread\
        \x1e65 #_| 1\x1fline 1: too deep\
        \x1e1000000 [|]\x1fline 1: too deep";
    ask_all(rt.alloc(), &Ask::Nested, rows)
}

/// The bytes that are read one by one, asked as `READS BYTES`: at most so many reads are made.
pub(crate) fn in_reads(alloc: Global, question: &str) -> Result<Vec<u8>, EdnError> {
    let (reads, text) = numbered(question).ok_or(MALFORMED)?;
    let mut reader = OneByOne {
        left: text.as_bytes(),
    };
    read_bytes(alloc, &mut reader, reads)
}

#[test]
fn makes_few_reads(rt: HostRuntime) -> Result<(), Fail> {
    let rows = "\
        3 abc\x1finput too long\
        \x1e0 \x1finput too long\
        \x1e9 ab?c\x1fread failed\
        \x1e4 ab!c\x1finput too long\
        \x1e4 abc\x1fabc\
        \x1e5 ab!c\x1fabc";
    ask_all(rt.alloc(), &Ask::Reads, rows)
}

/// The bytes that are the numbers of a text's characters.
fn bytes_of(alloc: Global, text: &str) -> Result<Vec<u8>, AllocError> {
    let mut bytes = Vec::new(alloc);
    for character in text.chars() {
        bytes.push(u8::try_from(u32::from(character)).unwrap_or(b'?'))?;
    }
    Ok(bytes)
}

/// How many values there are in those bytes.
pub(crate) fn count(alloc: Global, question: &str) -> Result<Vec<u8>, EdnError> {
    let bytes = bytes_of(alloc, question)?;
    let count = read_all(alloc, &mut bytes.as_slice(), 2)?.len();
    Ok(format!(in alloc; "{count}")?.into_bytes())
}

#[test]
fn reads_whole_texts(rt: HostRuntime) -> Result<(), Fail> {
    let rows = "\
        {:a 1}\n:b \"c\"\x1f3\
        \x1e1\n2 {:a 1 :a 2}\x1fline 2: duplicate key\
        \x1e\u{ff}\x1fnot UTF-8";
    ask_all(rt.alloc(), &Ask::Count, rows)
}

/// The values of a line, printed with a space between.
pub(crate) fn line(alloc: Global, text: &str) -> Result<Vec<u8>, EdnError> {
    print_all(alloc, &values_in_line(alloc, text)?)
}

#[test]
fn reads_lines(rt: HostRuntime) -> Result<(), Fail> {
    let rows = "\
        \x1f\
        \x1e ,\t; nil\x1f\
        \x1e#_ 1\x1f\
        \x1e{:f :read}\x1f{:f :read}\
        \x1e:a [1 2]\n\x1f:a [1 2]\
        \x1e()[]\"\"1\x1f() [] \"\" 1\
        \x1e0 1 2 3 4 5 6 7 8 9\x1f0 1 2 3 4 5 6 7 8 9\
        \x1e1 2.5\x1fline 1: float unsupported\
        \x1e:a\n]\x1fline 2: bad token\
        \x1e1 2 {:b\x1fline 1: unexpected end\
        \x1e1.5 ]\x1fline 1: float unsupported";
    ask_all(rt.alloc(), &Ask::Line, rows)
}

#[test]
fn states_laws() {
    spelled_once();
    values_are_spelled();
    equality_laws();
}

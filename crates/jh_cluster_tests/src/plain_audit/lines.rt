//! The lines of a history: each operation as the texts that are printed of it.
//!
//! None is answered where memory was refused, or a text is no history of a run.

use std::alloc::Global;

/// What is printed of an operation under each key, but for the colons of `:type` and `:f`.
#[derive(Clone, Copy)]
pub struct Line<'a> {
    pub index: usize,
    pub kind: &'a str,
    pub process: &'a str,
    pub f: &'a str,
    pub value: &'a str,
    pub event: Option<usize>,
}

impl Line<'_> {
    /// Whether it is the nemesis's.
    pub fn is_nemesis(&self) -> bool {
        self.process == ":nemesis"
    }
}

/// What stands behind a key up to the next one, and all from there on.
fn taken<'a>(text: &'a str, key: &str) -> Option<(&'a str, &'a str)> {
    let text = text.strip_prefix(key)?;
    Some(text.split_once(", ").unwrap_or((text, "")))
}

/// The line whose text behind the place and the kind is this.
fn with_rest<'a>(index: usize, kind: &'a str, rest: &'a str) -> Option<Line<'a>> {
    let (process, rest) = taken(rest, ":process ")?;
    let (f, rest) = taken(rest, ":f :")?;
    let (value, rest) = taken(rest, ":value ")?;
    let event = rest
        .strip_prefix(":event ")
        .and_then(|number| number.parse().ok());
    Some(Line {
        index,
        kind,
        process,
        f,
        value,
        event,
    })
}

/// What a printed line means.
fn line_of(text: &str) -> Option<Line<'_>> {
    let (index, rest) = taken(text.strip_suffix('}')?, "{:index ")?;
    let (kind, rest) = taken(rest, ":type :")?;
    with_rest(index.parse().ok()?, kind, rest)
}

/// What the lines of a printed history mean.
pub fn lines_of<'a>(alloc: Global, text: &'a str) -> Option<Vec<Line<'a>>> {
    let mut lines = Vec::new(alloc);
    for line in text.lines() {
        lines.push(line_of(line)?).ok()?;
    }
    Some(lines)
}

/// The text of a line.
fn printed(alloc: Global, line: &Line<'_>) -> Option<String> {
    let Line {
        index,
        kind,
        process,
        f,
        value,
        event,
    } = line;
    match event {
        Some(number) => format!(in alloc;
            "{{:index {index}, :type :{kind}, :process {process}, :f :{f}, :value {value}, :event {number}}}\n"
        ).ok(),
        None => format!(in alloc;
            "{{:index {index}, :type :{kind}, :process {process}, :f :{f}, :value {value}}}\n"
        ).ok(),
    }
}

/// The text of lines.
pub fn text_of(alloc: Global, lines: &[Line<'_>]) -> Option<String> {
    let mut text = String::new(alloc);
    for line in lines {
        text.push_str(&printed(alloc, line)?).ok()?;
    }
    Some(text)
}

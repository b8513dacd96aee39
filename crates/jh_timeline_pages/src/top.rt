//! What stands on top of a page. `specs/Page.antt` has the rule.

ghost use Rattle.std.specs.Prelude.{OnOk};
ghost use Rattle.std.specs.Io.KnownBytes.{Appends};
ghost use Rattle.jh_timeline_pages.specs.Page.{folded_text, notice_text, top_text};

use crate::error::PageError;
use crate::markup::{put, write_escaped_bytes};
use std::alloc::Global;
use std::io::Write;

/// What stands on top of a page, as bytes that something else printed.
#[derive(Drop)]
pub struct Top {
    /// The heading: a sentence.
    pub title: Vec<u8>,
    /// A sentence below it. Empty: there is none.
    pub notice: Vec<u8>,
    /// The line of the checker, which is folded. Empty: there is none.
    pub line: Vec<u8>,
}

/// The page up to its heading. Its colours are for light and dark. On paper a picture is as wide as
/// the paper at most, and nothing needs a colour: a band has an outline there, and no fill.
const HEAD: &[u8] =
    b"<!DOCTYPE html>\n<html xmlns=\"http://www.w3.org/1999/xhtml\" lang=\"en\">\n<head>\n\
    <meta charset=\"utf-8\"/>\n<title>Timeline</title>\n<style>\n\
    :root { color-scheme: light dark; --ink: #1a1a1a; --paper: #ffffff; --ok: #b7e1b0; \
    --fail: #f2c6c6; --info: #fbe3a6; --open: #dddddd; --fault: #7a4fbf; --mark: #c00000; \
    --pending: #a05a00; --placed: #1f4fa0 }\n\
    @media (prefers-color-scheme: dark) { :root { --ink: #e6e6e6; --paper: #161616; \
    --ok: #2f5d2a; --fail: #6b2b2b; --info: #6a5314; --open: #3a3a3a; \
    --fault: #b497f0; --mark: #ff7070; --pending: #ffb454; --placed: #8ab4ff } }\n\
    body { margin: 1em; font: 12px sans-serif; color: var(--ink); background: var(--paper) }\n\
    h1 { font-size: 18px; overflow-wrap: anywhere }\n\
    h2, pre { font: 12px monospace; white-space: pre-wrap; overflow-wrap: anywhere }\n\
    h2 { margin-top: 2em; font-weight: bold }\n\
    .notice { color: var(--mark); font-weight: bold }\nsummary { cursor: pointer }\n\
    a { color: inherit }\nul, ol { padding-left: 2em }\n.picture { overflow-x: auto }\n\
    .lanes { position: sticky; top: 0; display: flex; flex-wrap: wrap; gap: 0 3em; margin: 0; \
    padding: 4px 2em; background: var(--paper); border-bottom: 1px solid var(--ink) }\n\
    svg text { font: 11px monospace; fill: var(--ink) }\n\
    rect { stroke: var(--ink); fill: var(--open); fill-opacity: 0.85 }\n.ok rect { fill: var(--ok) }\n\
    .fail rect { fill: var(--fail) }\n.info rect { fill: var(--info) }\n\
    .info rect, .open rect { stroke-dasharray: 4 2 }\n.alone rect { stroke-dasharray: 1 2 }\n\
    .band { overflow: visible }\n\
    .band rect { stroke: none; fill: var(--fault); fill-opacity: 0.12 }\n\
    .band text { fill: var(--fault); text-anchor: end }\n\
    .time { font-size: 9px; fill-opacity: 0.6; text-anchor: end }\n\
    .fault line { stroke: var(--fault); stroke-width: 2 }\n.fault text { fill: var(--fault); paint-order: stroke; stroke: var(--paper); stroke-width: 4px }\n\
    .tail { fill: none; stroke: var(--ink); stroke-opacity: 0.5; stroke-dasharray: 2 3 }\n\
    .marks > svg { scroll-margin-top: 6em }\n\
    .marks rect { fill: none; stroke: var(--mark); stroke-width: 4; pointer-events: none }\n\
    .marks text { fill: var(--mark); font-weight: bold; text-anchor: end }\n\
    .marks .pending rect { stroke: var(--pending); stroke-dasharray: 8 4 }\n\
    .marks .pending text { fill: var(--pending) }\n\
    .marks .placed rect { stroke: none }\n.marks .placed text { fill: var(--placed) }\n\
    .legend span { padding: 0 4px; border: 1px solid var(--ink); background: var(--open) }\n\
    .legend .ok { background: var(--ok) }\n.legend .fail { background: var(--fail) }\n\
    .legend .info { background: var(--info) }\n\
    .legend .info, .legend .open { border-style: dashed }\n\
    .legend .alone { border-style: dotted }\n\
    .legend .marked { border: 2px solid var(--mark); color: var(--mark); background: none }\n\
    .legend .waits { border: 2px dashed var(--pending); color: var(--pending); background: none }\n\
    .legend b { color: var(--placed) }\n\
    @media print { :root { --ink: #000000; --paper: #ffffff; --ok: #ffffff; --fail: #d8d8d8; \
    --info: #ffffff; --open: #ffffff; --fault: #000000; --mark: #000000; \
    --pending: #000000; --placed: #000000 }\n\
    .band rect { fill: none; stroke: var(--fault); stroke-dasharray: 6 3 }\n\
    .lanes { position: static }\n.picture { overflow: visible }\n.picture > svg { max-width: 100%; height: auto } }\n\
    </style>\n</head>\n<body>\n<h1>";

/// What signs and colours mean.
const LEGEND: &[u8] = b"<p class=\"legend\"><span class=\"ok\">&#10003; ok</span> \
    <span class=\"fail\">&#10007; fail</span> <span class=\"info\">? info</span> \
    <span class=\"open\">&#8230; no completion</span> \
    <span class=\"alone\">&#8627; no invocation</span> <span class=\"marked\">mark</span> \
    <span class=\"waits\">pending</span> <b>12</b> number in an order. Time goes down, and times are \
    in seconds. A line across is a record of the nemesis, and a shade, on paper a dashed box, is a \
    fault while it is active. A number and a colon before a label name the process, where its lane had \
    another one before. A dotted line goes on below a bar whose outcome is unknown: it may take effect \
    at any later time. Point at a bar or a line to see its records, at a mark to see what it \
    means.</p>\n";

/// Writes a sentence below the heading, if there is one.
fn write_notice<W: Write>(alloc: Global, notice: &[u8], writer: &mut W) -> Result<(), PageError>
    ensures { OnOk result
        (Appends (W.contents writer.old) (W.contents writer.new) (notice_text notice.now)) }
{
    if notice.is_empty() {
        return Ok(());
    }
    put(b"<p class=\"notice\">", writer)?;
    write_escaped_bytes(alloc, notice, writer)?;
    put(b"</p>\n", writer)
}

/// Writes the line of the checker, if there is one.
fn write_folded<W: Write>(alloc: Global, line: &[u8], writer: &mut W) -> Result<(), PageError>
    ensures { OnOk result
        (Appends (W.contents writer.old) (W.contents writer.new) (folded_text line.now)) }
{
    if line.is_empty() {
        return Ok(());
    }
    put(
        b"<details>\n<summary>The line of the checker</summary>\n<pre>",
        writer,
    )?;
    write_escaped_bytes(alloc, line, writer)?;
    put(b"</pre>\n</details>\n", writer)
}

/// Writes all that stands above the histories.
pub(crate) fn write_top<W: Write>(alloc: Global, top: &Top, writer: &mut W) -> Result<(), PageError>
    ensures { OnOk result
        (Appends (W.contents writer.old) (W.contents writer.new) (top_text top.now)) }
{
    put(HEAD, writer)?;
    write_escaped_bytes(alloc, top.title.as_slice(), writer)?;
    put(b"</h1>\n", writer)?;
    write_notice(alloc, top.notice.as_slice(), writer)?;
    write_folded(alloc, top.line.as_slice(), writer)?;
    put(LEGEND, writer)
}

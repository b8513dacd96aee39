//! The page of histories. `specs/Page.antt` has the rule.

ghost use Rattle.std.specs.Prelude.{All, OnOk, option_map};
ghost use Rattle.std.specs.Io.KnownBytes.{Appends};
ghost use Rattle.std.specs.List.{enumerate_from, flat_map};
ghost use Rattle.jh_ops.specs.OperationWritten.{IsWritable};
ghost use Rattle.jh_timeline_pages.specs.Page.{anchor_text, below_text, client_text, contents_text};
ghost use Rattle.jh_timeline_pages.specs.Page.{heading_text, jump_text, lane_text, page_text};
ghost use Rattle.jh_timeline_pages.specs.Page.{section_link_text, section_text};

use crate::error::PageError;
use crate::marks::{first_pointer, write_mark_name};
use crate::markup::{put, write_escaped_bytes};
use crate::picture::write_picture;
use crate::section::Section;
use crate::shown::{write_left_out, write_window};
use crate::top::{Top, write_top};
use jh_timeline::{Lane, Mark};
use std::alloc::Global;
use std::io::Write;

/// Writes the end of a tag with the name of a section, or a link to it.
fn write_name<W: Write>(tag: &str, number: usize, writer: &mut W) -> Result<(), PageError>
    ensures { OnOk result
        (Appends (W.contents writer.old) (W.contents writer.new) (anchor_text tag.now number)) }
{
    write!(writer, "{tag}part-{number}\">").map_err(|_| PageError::Write)
}

/// Writes the heading of a section.
fn write_heading<W: Write>(
    alloc: Global,
    number: usize,
    heading: &[u8],
    writer: &mut W,
) -> Result<(), PageError>
    ensures { OnOk result
        (Appends (W.contents writer.old) (W.contents writer.new)
        (heading_text number heading.now)) }
{
    if heading.is_empty() {
        return write_name("<p id=\"", number, writer);
    }
    write_name("<h2 id=\"", number, writer)?;
    write_escaped_bytes(alloc, heading, writer)?;
    put(b"</h2>\n<p>", writer)
}

/// Writes a link to a mark, if there is one.
fn write_jump<W: Write>(number: usize, mark: Option<&Mark>, writer: &mut W) -> Result<(), PageError>
    ensures { OnOk result
        (Appends (W.contents writer.old) (W.contents writer.new)
        (jump_text number (option_map (λ mark. mark.now) mark.entry))) }
{
    match mark {
        Some(mark) => {
            put(b"<p><a href=\"#", writer)?;
            write_mark_name(number, mark.call, writer)?;
            put(b"\">Go to what was found</a></p>\n", writer)
        }
        None => Ok(()),
    }
}

/// Writes the processes that a lane had.
fn write_clients<W: Write>(lane: &Lane, writer: &mut W) -> Result<(), PageError>
    ensures { OnOk result (Appends (W.contents writer.old) (W.contents writer.new)
        (flat_map client_text lane.now.clients.items)) }
{
    for client in &lane.clients {
        write!(writer, " {client}").map_err(|_| PageError::Write)?;
    }
    Ok(())
}

/// Writes a lane.
fn write_lane<W: Write>(lane: &Lane, writer: &mut W) -> Result<(), PageError>
    ensures { OnOk result
        (Appends (W.contents writer.old) (W.contents writer.new) (lane_text lane.now)) }
{
    put(b"<li>process", writer)?;
    write_clients(lane, writer)?;
    put(b"</li>\n", writer)
}

/// Writes all lanes.
fn write_lanes<W: Write>(lanes: &[Lane], writer: &mut W) -> Result<(), PageError>
    ensures { OnOk result
        (Appends (W.contents writer.old) (W.contents writer.new) (flat_map lane_text lanes.now)) }
{
    for lane in lanes {
        write_lane(lane, writer)?;
    }
    Ok(())
}

/// Writes a history.
fn write_section<W: Write>(
    alloc: Global,
    number: usize,
    section: &Section,
    writer: &mut W,
) -> Result<(), PageError>
    requires { All (λ op. IsWritable op.process) section.now.history.items }
    ensures { OnOk result
        (Appends (W.contents writer.old) (W.contents writer.new)
        (section_text number section.now)) }
{
    put(b"<section>\n", writer)?;
    write_heading(alloc, number, section.heading.as_slice(), writer)?;
    write_window(section.window, section.history.len(), writer)?;
    write_left_out(section.picture.left_out, writer)?;
    write_jump(number, first_pointer(section.marks.as_slice()), writer)?;
    put(b"<ol class=\"lanes\">\n", writer)?;
    write_lanes(section.picture.lanes.as_slice(), writer)?;
    put(b"</ol>\n", writer)?;
    write_picture(alloc, number, section, writer)?;
    put(b"</section>\n", writer)
}

/// Writes all histories.
fn write_sections<W: Write>(
    alloc: Global,
    sections: &[Section],
    writer: &mut W,
) -> Result<(), PageError>
    requires { All (λ section. All (λ op. IsWritable op.process) section.history.items)
        sections.now }
    ensures { OnOk result (Appends (W.contents writer.old) (W.contents writer.new)
        (flat_map (λ numbered. section_text numbered.0 numbered.1)
        (enumerate_from 0 sections.now))) }
{
    for (number, section) in sections.iter().enumerate() {
        write_section(alloc, number, section, writer)?;
    }
    Ok(())
}

/// Writes a link to a section.
fn write_link<W: Write>(
    alloc: Global,
    number: usize,
    section: &Section,
    writer: &mut W,
) -> Result<(), PageError>
    ensures { OnOk result
        (Appends (W.contents writer.old) (W.contents writer.new)
        (section_link_text number section.now)) }
{
    write_name("<li><a href=\"#", number, writer)?;
    write_escaped_bytes(alloc, section.heading.as_slice(), writer)?;
    put(b"</a></li>\n", writer)
}

/// Writes a link to each section.
fn write_links<W: Write>(
    alloc: Global,
    sections: &[Section],
    writer: &mut W,
) -> Result<(), PageError>
    ensures { OnOk result (Appends (W.contents writer.old) (W.contents writer.new)
        (flat_map (λ numbered. section_link_text numbered.0 numbered.1)
        (enumerate_from 0 sections.now))) }
{
    for (number, section) in sections.iter().enumerate() {
        write_link(alloc, number, section, writer)?;
    }
    Ok(())
}

/// Writes the table of contents, where there is more than one section.
fn write_contents<W: Write>(
    alloc: Global,
    sections: &[Section],
    writer: &mut W,
) -> Result<(), PageError>
    ensures { OnOk result
        (Appends (W.contents writer.old) (W.contents writer.new) (contents_text sections.now)) }
{
    if sections.len() <= 1 {
        return Ok(());
    }
    put(b"<ul>\n", writer)?;
    write_links(alloc, sections, writer)?;
    put(b"</ul>\n", writer)
}

/// Writes what stands below all sections.
fn write_below<W: Write>(alloc: Global, below: &[u8], writer: &mut W) -> Result<(), PageError>
    ensures { OnOk result
        (Appends (W.contents writer.old) (W.contents writer.new) (below_text below.now)) }
{
    if below.is_empty() {
        return Ok(());
    }
    put(b"<pre>", writer)?;
    write_escaped_bytes(alloc, below, writer)?;
    put(b"</pre>\n", writer)
}

/// Writes a page: its top, a table of contents where there is more than one section, then each
/// section with its picture, and a text below them all, if there is one.
///
/// Processes can be written, which `Process::is_writable` tests. A bar or a line whose index its
/// history lacks is not drawn, nor is a mark whose bar its picture lacks. A bar has at most one
/// mark, or else their texts lie upon each other. Takes O(n) for n records, bars, bands, lines and
/// marks, beside what their texts take.
///
/// The writer may have taken a part of the page where this failed.
///
/// Errors:
/// - `Write`: the writer failed;
/// - `OutOfMemory`.
pub fn write_page<W: Write>(
    alloc: Global,
    top: &Top,
    sections: &[Section],
    below: &[u8],
    writer: &mut W,
) -> Result<(), PageError>
    requires { All (λ section. All (λ op. IsWritable op.process) section.history.items)
        sections.now }
    ensures { OnOk result (Appends (W.contents writer.old) (W.contents writer.new)
        (page_text top.now sections.now below.now)) }
{
    write_top(alloc, top, writer)?;
    write_contents(alloc, sections, writer)?;
    write_sections(alloc, sections, writer)?;
    write_below(alloc, below, writer)?;
    put(b"</body>\n</html>\n", writer)
}

//! Texts as they stand in the page. `specs/Markup.antt` has the rule.

ghost use Rattle.std.specs.Prelude.{◌≡◌, ℕ, List, IfErr, IsTrue, OnOk, encode_utf8};
ghost use Rattle.std.specs.Io.KnownBytes.{Appends};
ghost use Rattle.std.specs.Str.{chars};
ghost use Rattle.jh_timeline_pages.specs.Markup.{escaped_text, escaped_bytes, is_inert, number_text};
ghost use Rattle.jh_timeline_pages.specs.Markup.{short_text, short_bytes, escaped_character};

use crate::error::PageError;
use std::alloc::Global;
use std::io::Write;

/// How many characters the label of a bar has room for: so many of a text are shown there.
const LABEL_ROOM: usize = 18;

/// Writes bytes as they are.
pub(crate) fn put<W: Write>(bytes: &[u8], writer: &mut W) -> Result<(), PageError>
    ensures bytes { OnOk result
        (Appends (W.contents writer.old) (W.contents writer.new) bytes.now) }
    ensures error { IfErr result (λ e. e ≡ PageError.Write) }
{
    writer.write_all(bytes).map_err(|_| PageError::Write)
}

/// Writes a character by its number.
fn write_number<W: Write>(c: char, writer: &mut W) -> Result<(), PageError>
    ensures bytes { OnOk result
        (Appends (W.contents writer.old) (W.contents writer.new) (number_text c)) }
    ensures error { IfErr result (λ e. e ≡ PageError.Write) }
{
    let number = c as u32;
    write!(writer, "\\u{{{number:x}}}").map_err(|_| PageError::Write)
}

/// Writes a character by itself.
fn write_itself<W: Write>(c: char, writer: &mut W) -> Result<(), PageError>
    ensures bytes { OnOk result
        (Appends (W.contents writer.old) (W.contents writer.new) (encode_utf8 c)) }
    ensures error { IfErr result (λ e. e ≡ PageError.Write) }
{
    let mut bytes = [0; 4];
    put(c.encode_utf8(&mut bytes).as_bytes(), writer)
}

/// Writes a character as it stands in the page.
#[tactic(auto, unfolding(crate::specs::Markup::escaped_character))]
fn write_shown<W: Write>(c: char, writer: &mut W) -> Result<(), PageError>
    ensures bytes { OnOk result
        (Appends (W.contents writer.old) (W.contents writer.new) (escaped_character c)) }
    ensures error { IfErr result (λ e. e ≡ PageError.Write) }
{
    match c {
        '<' => put(b"&lt;", writer),
        '>' => put(b"&gt;", writer),
        '&' => put(b"&amp;", writer),
        '"' => put(b"&quot;", writer),
        '\'' => put(b"&#39;", writer),
        '\0'..='\t' | '\x0b'..='\x1f' | '\x7f'..='\u{9f}' | '\u{fffe}' | '\u{ffff}' => write_number(
            c, writer,
        ),
        '\u{200b}'..='\u{200f}' | '\u{202a}'..='\u{202e}' | '\u{2066}'..='\u{2069}' | '\u{feff}' =>
            write_number(c, writer),
        _ => write_itself(c, writer),
    }
}

/// Writes a text so that it can stand between tags and in attributes, and no character of it is
/// read as markup: `<`, `>`, `&` and quotes as entities; as `\u{..}` what would not show, but for
/// line feeds, which stay, and what turns or hides the text around it.
///
/// Takes no memory. The writer may have taken a part of the text where it failed.
///
/// Errors: `Write` where the writer failed, and no other.
pub fn write_escaped<W: Write>(text: &str, writer: &mut W) -> Result<(), PageError>
    ensures bytes { OnOk result
        (Appends (W.contents writer.old) (W.contents writer.new) (escaped_text text.now)) }
    ensures error { IfErr result (λ e. e ≡ PageError.Write) }
{
    for c in text.chars() {
        write_shown(c, writer)?;
    }
    Ok(())
}

/// Writes a text in the same way where there is little room: its first characters, and dots where
/// it has more.
fn write_short<W: Write>(text: &str, writer: &mut W) -> Result<(), PageError>
    ensures { OnOk result
        (Appends (W.contents writer.old) (W.contents writer.new) (short_text (chars text.now))) }
{
    let mut written = 0;
    for character in text.chars() {
        if written == LABEL_ROOM {
            return put(b"&#8230;", writer);
        }
        write_shown(character, writer)?;
        written += 1;
    }
    Ok(())
}

/// Writes bytes that something else printed, where there is little room.
pub(crate) fn write_short_bytes<W: Write>(
    alloc: Global,
    bytes: &[u8],
    writer: &mut W,
) -> Result<(), PageError>
    ensures { OnOk result
        (Appends (W.contents writer.old) (W.contents writer.new) (short_bytes bytes.now)) }
{
    let text = String::from_utf8_lossy(alloc, bytes)?;
    write_short(text.as_str(), writer)
}

/// Writes bytes that something else printed, in the same way.
pub(crate) fn write_escaped_bytes<W: Write>(
    alloc: Global,
    bytes: &[u8],
    writer: &mut W,
) -> Result<(), PageError>
    ensures { OnOk result
        (Appends (W.contents writer.old) (W.contents writer.new) (escaped_bytes bytes.now)) }
{
    let text = String::from_utf8_lossy(alloc, bytes)?;
    write_escaped(text.as_str(), writer)
}

/// A law: no byte of an escaped text is read as markup, whatever the text is, and none of one that is
/// cut short, as labels are.
pub fn escaped_text_is_inert()
    ensures whole { (text : List ℕ) → IsTrue (is_inert (escaped_text text)) }
    ensures short { (characters : List ℕ) → IsTrue (is_inert (short_text characters)) }
{}

//! Printing a value.
//!
//! `print` of `specs/Print.antt` is the one printed text.

ghost use Rattle.std.specs.Prelude.{◌≡◌, OnOk, IfErr, [], ◌∷◌, ◌++◌, ◌+◌, ◌<◌, ◌≤◌, drop, length};
ghost use Rattle.std.specs.Prelude.{codes, encode_utf8};
ghost use Rattle.std.specs.Char.{digit_char};
ghost use Rattle.std.specs.Fmt.{signed_decimal};
ghost use Rattle.std.specs.Io.KnownBytes.{Appends};
ghost use Rattle.std.specs.List.{flat_map, prefix_len};
ghost use Rattle.jh_edn.specs.Bytes.{quote};
ghost use Rattle.jh_edn.specs.Edn.{items_of, members_of};
ghost use Rattle.jh_edn.specs.Print.{print, joined_text, item_texts, member_texts};
ghost use Rattle.jh_edn.specs.Print.{separator_before, escape, is_printed_bare, char_number};
ghost use Rattle.jh_edn.specs.Print.{char_text};
ghost use Rattle.jh_edn.specs.View.{view};

use crate::error::EdnError;
use crate::value::{Pairs, Value, Values};
use itoa::Buffer;
use std::io::Write;

/// Writes bytes as they are.
///
/// Errors: `Write` where the writer failed, and no other.
pub fn put<W: Write>(bytes: &[u8], writer: &mut W) -> Result<(), EdnError>
    ensures bytes { OnOk result
        (Appends (W.contents writer.old) (W.contents writer.new) bytes.now) }
    ensures error { IfErr result (λ e. e ≡ EdnError.Write) }
{
    writer.write_all(bytes).map_err(|_| EdnError::Write)
}

/// The separator, unless this is the first.
pub(crate) fn separate<W: Write>(
    first: bool,
    separator: &[u8],
    writer: &mut W,
) -> Result<(), EdnError>
    ensures bytes { OnOk result
        (Appends (W.contents writer.old) (W.contents writer.new)
        (separator_before first separator.now)) }
    ensures error { IfErr result (λ e. e ≡ EdnError.Write) }
{
    if first {
        Ok(())
    } else {
        put(separator, writer)
    }
}

/// An integer, in decimal.
fn write_int<W: Write>(n: i64, writer: &mut W) -> Result<(), EdnError>
    ensures bytes { OnOk result
        (Appends (W.contents writer.old) (W.contents writer.new) (signed_decimal n)) }
    ensures error { IfErr result (λ e. e ≡ EdnError.Write) }
{
    put(Buffer::new().format(n).as_bytes(), writer)
}

/// A byte of a string, as it stands between quotes.
fn write_byte<W: Write>(b: u8, writer: &mut W) -> Result<(), EdnError>
    ensures bytes { OnOk result
        (Appends (W.contents writer.old) (W.contents writer.new) (escape b)) }
    ensures error { IfErr result (λ e. e ≡ EdnError.Write) }
{
    match b {
        b'"' => put(b"\\\"", writer),
        b'\\' => put(b"\\\\", writer),
        b'\n' => put(b"\\n", writer),
        b'\t' => put(b"\\t", writer),
        b'\r' => put(b"\\r", writer),
        b'\x08' => put(b"\\b", writer),
        b'\x0c' => put(b"\\f", writer),
        _ => put(&[b], writer),
    }
}

/// A byte that stands for itself between quotes.
#[tactic(auto, unfolding(crate::specs::Print::is_printed_bare))]
fn is_bare(b: u8) -> bool
    ensures { result ≡ is_printed_bare b }
{
    !matches!(b, b'"' | b'\\' | b'\n' | b'\t' | b'\r' | b'\x08' | b'\x0c')
}

/// How many bytes from that place on stand for themselves.
fn bare_len(bytes: &[u8]) -> usize
    ensures len { result ≡ prefix_len is_printed_bare bytes.now }
    ensures within { result ≤ length bytes.now }
{
    bytes.iter().take_while(|b| is_bare(**b)).count()
}

/// What stands behind the byte at that place.
fn behind(bytes: &[u8], place: usize) -> &[u8]
    requires { place < length bytes.now }
    ensures { result.now ≡ drop (place + 1) bytes.now }
{
    &bytes[place + 1..]
}

/// A string in quotes. Goes from one byte that is escaped to the next, for most strings have none.
fn write_text<W: Write>(text: &str, writer: &mut W) -> Result<(), EdnError>
    ensures bytes { OnOk result (Appends (W.contents writer.old) (W.contents writer.new)
        (quote ∷ (flat_map escape text.now ++ quote ∷ []))) }
    ensures error { IfErr result (λ e. e ≡ EdnError.Write) }
{
    put(b"\"", writer)?;
    let mut left = text.as_bytes();
    'pieces: loop {
        let len = bare_len(left);
        put(&left[..len], writer)?;
        if len == left.len() {
            put(b"\"", writer)?;
            return Ok(());
        }
        write_byte(left[len], writer)?;
        left = behind(left, len);
    }
}

/// A hexadecimal digit, in lower case.
fn hex_digit(value: u8) -> u8
    requires { value < 16 }
    ensures { result ≡ digit_char value }
{
    if value < 10 {
        b'0' + value
    } else {
        b'a' + (value - 10)
    }
}

/// A character that would not show, by its number.
fn write_number<W: Write>(b: u8, writer: &mut W) -> Result<(), EdnError>
    ensures bytes { OnOk result
        (Appends (W.contents writer.old) (W.contents writer.new) (char_number b)) }
    ensures error { IfErr result (λ e. e ≡ EdnError.Write) }
{
    put(
        &[b'u', b'0', b'0', hex_digit(b / 16), hex_digit(b % 16)],
        writer,
    )
}

/// A character by itself.
fn write_itself<W: Write>(c: char, writer: &mut W) -> Result<(), EdnError>
    ensures bytes { OnOk result
        (Appends (W.contents writer.old) (W.contents writer.new) (encode_utf8 c)) }
    ensures error { IfErr result (λ e. e ≡ EdnError.Write) }
{
    let mut bytes = [0; 4];
    put(c.encode_utf8(&mut bytes).as_bytes(), writer)
}

/// What stands behind the backslash of a character.
#[tactic(auto, unfolding(crate::specs::Print::char_text))]
fn write_char<W: Write>(c: char, writer: &mut W) -> Result<(), EdnError>
    ensures bytes { OnOk result
        (Appends (W.contents writer.old) (W.contents writer.new) (char_text c)) }
    ensures error { IfErr result (λ e. e ≡ EdnError.Write) }
{
    match c {
        '\n' => put(b"newline", writer),
        '\r' => put(b"return", writer),
        ' ' => put(b"space", writer),
        '\t' => put(b"tab", writer),
        '\x0c' => put(b"formfeed", writer),
        '\x08' => put(b"backspace", writer),
        '\0'..='\x1f' | '\x7f' => write_number(c as u8, writer),
        _ => write_itself(c, writer),
    }
}

/// Prints the value: members in the order held, one space between elements, `, ` between pairs.
///
/// Takes no memory. The writer may have taken a part of the text where it failed.
///
/// Errors: `Write` where the writer failed, and no other.
#[cycle(write)]
pub fn write<W: Write>(value: &Value, writer: &mut W) -> Result<(), EdnError>
    ensures bytes { OnOk result
        (Appends (W.contents writer.old) (W.contents writer.new) (print (view value.now))) }
    ensures error { IfErr result (λ e. e ≡ EdnError.Write) }
{
    match value {
        Value::Nil => put(b"nil", writer),
        Value::Bool(b) => put(if *b { b"true" } else { b"false" }, writer),
        Value::Int(n) => write_int(*n, writer),
        Value::Char(c) => {
            put(b"\\", writer)?;
            write_char(*c, writer)
        }
        Value::Str(text) => write_text(text.as_str(), writer),
        Value::Keyword(name) => {
            put(b":", writer)?;
            put(name.as_str().as_bytes(), writer)
        }
        Value::Symbol(name) => put(name.as_str().as_bytes(), writer),
        Value::List(items) => {
            put(b"(", writer)?;
            write_items(items, writer)?;
            put(b")", writer)
        }
        Value::Vector(items) => {
            put(b"[", writer)?;
            write_items(items, writer)?;
            put(b"]", writer)
        }
        Value::Map(pairs) => {
            put(b"{", writer)?;
            write_pairs(pairs, writer)?;
            put(b"}", writer)
        }
        Value::Set(items) => {
            put(b"#{", writer)?;
            write_items(items, writer)?;
            put(b"}", writer)
        }
        Value::Tagged(tagged) => {
            put(b"#", writer)?;
            put(tagged.tag().as_bytes(), writer)?;
            put(b" ", writer)?;
            write(&tagged.inside.1, writer)
        }
    }
}

/// The elements, with one space between them.
#[cycle(write)]
fn write_items<W: Write>(items: &Values, writer: &mut W) -> Result<(), EdnError>
    ensures bytes { OnOk result (Appends (W.contents writer.old) (W.contents writer.new)
        (joined_text (codes " ") (item_texts (items_of items.now)))) }
    ensures error { IfErr result (λ e. e ≡ EdnError.Write) }
{
    for (place, item) in items.items.iter().enumerate() {
        separate(place == 0, b" ", writer)?;
        write(item, writer)?;
    }
    Ok(())
}

/// The pairs, each a key, a space and its value, with `, ` between pairs.
#[cycle(write)]
fn write_pairs<W: Write>(pairs: &Pairs, writer: &mut W) -> Result<(), EdnError>
    ensures bytes { OnOk result (Appends (W.contents writer.old) (W.contents writer.new)
        (joined_text (codes ", ") (member_texts (members_of pairs.now)))) }
    ensures error { IfErr result (λ e. e ≡ EdnError.Write) }
{
    for (place, pair) in pairs.items.iter().enumerate() {
        let (key, value) = pair;
        separate(place == 0, b", ", writer)?;
        write(key, writer)?;
        put(b" ", writer)?;
        write(value, writer)?;
    }
    Ok(())
}

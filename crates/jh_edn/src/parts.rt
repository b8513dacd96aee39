//! A line that is a map is written pair by pair, and no value is made of it: a pair may hold a
//! vector of elements. `specs/Parts.antt` has the rule. A crate that has results of its own writes
//! them as an `Element`.

ghost use Rattle.std.specs.Prelude.{◌≡◌, IfErr, OnOk, codes, map, pos};
ghost use Rattle.std.specs.Io.KnownBytes.{Appends};
ghost use Rattle.jh_edn.specs.Edn.{Edn, int};
ghost use Rattle.jh_edn.specs.Parts.{behind_pair_text, vector_of};
ghost use Rattle.jh_edn.specs.Print.{joined_text, print};
ghost use Rattle.jh_edn.specs.View.{view};

use crate::error::EdnError;
use crate::value::Value;
use crate::writer::{put, separate, write};
use itoa::Buffer;
use std::io::Write;

/// What stands in a vector of a line.
pub trait Element {
    /// Its value, as a contract sees it.
    ghost value: { Self → Edn };

    /// Writes its text.
    ///
    /// Errors: `Write` where the writer failed, and no other.
    fn write_to<W: Write>(&self, writer: &mut W) -> Result<(), EdnError>
        ensures bytes { OnOk result
            (Appends (W.contents writer.old) (W.contents writer.new)
            (print (Self.value self.now))) }
        ensures error { IfErr result (λ e. e ≡ EdnError.Write) };
}

impl Element for Value {
    ghost value = { view };

    fn write_to<W: Write>(&self, writer: &mut W) -> Result<(), EdnError> {
        write(self, writer)
    }
}

impl Element for usize {
    ghost value = { λ place. int (pos place) };

    fn write_to<W: Write>(&self, writer: &mut W) -> Result<(), EdnError> {
        put(Buffer::new().format(*self).as_bytes(), writer)
    }
}

/// Writes elements with one space between.
fn write_elements<T: Element, W: Write>(items: &[T], writer: &mut W) -> Result<(), EdnError>
    ensures bytes { OnOk result (Appends (W.contents writer.old) (W.contents writer.new)
        (joined_text (codes " ") (map (λ x. print (T.value x)) items.now))) }
    ensures error { IfErr result (λ e. e ≡ EdnError.Write) }
{
    for (place, item) in items.iter().enumerate() {
        separate(place == 0, b" ", writer)?;
        item.write_to(writer)?;
    }
    Ok(())
}

/// Writes a vector of elements.
fn write_vector<T: Element, W: Write>(items: &[T], writer: &mut W) -> Result<(), EdnError>
    ensures bytes { OnOk result (Appends (W.contents writer.old) (W.contents writer.new)
        (print (vector_of (map T.value items.now)))) }
    ensures error { IfErr result (λ e. e ≡ EdnError.Write) }
{
    put(b"[", writer)?;
    write_elements(items, writer)?;
    put(b"]", writer)
}

/// Writes a pair of a map, behind others: a keyword with a vector of elements.
///
/// Errors: `Write` where the writer failed, and no other.
pub fn write_part<T: Element, W: Write>(
    name: &str,
    items: &[T],
    writer: &mut W,
) -> Result<(), EdnError>
    ensures bytes { OnOk result (Appends (W.contents writer.old) (W.contents writer.new)
        (behind_pair_text name.now (vector_of (map T.value items.now)))) }
    ensures error { IfErr result (λ e. e ≡ EdnError.Write) }
{
    put(b", :", writer)?;
    put(name.as_bytes(), writer)?;
    put(b" ", writer)?;
    write_vector(items, writer)
}

//! Lists and vectors whose elements are taken one by one.

use crate::edn::reading::{numbered, print_all};
use crate::edn::rows::{Ask, MALFORMED, ask_all};
use jh_edn::{EdnError, Sink, Value, read_sequence};
use std::alloc::{AllocError, Global};
use std::test::Fail;

/// Puts the elements into a vector.
#[derive(Drop)]
struct Taken {
    values: Vec<Value>,
}

impl Sink for Taken {
    ghost use Rattle.std.specs.Prelude.{◌≡◌};
    ghost use Rattle.jh_edn.specs.View.{views};

    ghost has_taken = { λ taken elements. views taken.values.items ≡ elements };

    fn take(&mut self, _alloc: Global, element: Value) -> Result<(), AllocError> {
        self.values.push(element)?;
        Ok(())
    }
}

/// Takes the elements behind that place, which has to lie between two characters.
fn take_from(
    alloc: Global,
    text: &str,
    place: usize,
    taken: &mut Taken,
) -> Result<Option<usize>, EdnError> {
    if text.is_char_boundary(place) {
        read_sequence(alloc, text, place, taken)
    } else {
        Err(MALFORMED)
    }
}

/// The elements of a list or vector, asked as `PLACE TEXT`: printed, with a space between, and the place after its bracket.
pub(crate) fn elements(alloc: Global, question: &str) -> Result<Vec<u8>, EdnError> {
    let (place, text) = numbered(question).ok_or(MALFORMED)?;
    let mut taken = Taken {
        values: Vec::new(alloc),
    };
    let end = take_from(alloc, text, place as usize, &mut taken)?;
    let mut printed = print_all(alloc, &taken.values)?;
    let behind = match end {
        Some(end) => format!(in alloc; " to {end}")?,
        None => format!(in alloc; "none")?,
    };
    printed.extend_from_slice(behind.as_bytes())?;
    Ok(printed)
}

#[test]
fn takes_elements(rt: HostRuntime) -> Result<(), Fail> {
    let rows = "\
        0 [1 (2 3) {:a #t []}] 4\x1f1 (2 3) {:a #t []} to 20\
        \x1e2 1 ; two\n #_ 5 (:a #_ [] \"b\" ; c\n)\x1f:a \"b\" to 33\
        \x1e0 []\x1f to 2\
        \x1e0 \x1fnone\
        \x1e0 #t [1]\x1fnone\
        \x1e0 #{1}\x1fnone\
        \x1e0 {1 2}\x1fnone\
        \x1e0 7\x1fnone";
    ask_all(rt.alloc(), &Ask::Elements, rows)
}

#[test]
fn refuses_elements(rt: HostRuntime) -> Result<(), Fail> {
    let rows = "\
        0 [1\n 1.5\x1fline 2: float unsupported\
        \x1e0 [1\n 2\x1fline 2: unexpected end\
        \x1e0 (1 2]\x1fline 1: bad token\
        \x1e0 #_ \x1fline 1: unexpected end\
        \x1e0 \n[{:a 1 :a 2}]\x1fline 2: duplicate key";
    ask_all(rt.alloc(), &Ask::Elements, rows)
}

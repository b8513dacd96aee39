//! Reading a list or a vector element by element, so that its elements never stand beside one
//! another.
//!
//! `Reads` of `specs/Spelling.antt` says what is read, and `specs/Sequences.antt` what is taken of
//! it.

ghost use Rattle.std.specs.Prelude.{◌≡◌, ◌⊎◌, ◌∷◌, [], ◌<◌, List, Ok, IfOk, IfErr, IfSome, IfNone};
ghost use Rattle.std.specs.Prelude.{OnOk};
ghost use Rattle.std.specs.Str.{IsUtf8, IsCharBoundary};
ghost use Rattle.jh_edn.specs.Bytes.{IsAscii};
ghost use Rattle.jh_edn.specs.Edn.{Edn};
ghost use Rattle.jh_edn.specs.Gives.{Fails};
ghost use Rattle.jh_edn.specs.Reading.{IsFirstErrorAt};
ghost use Rattle.jh_edn.specs.Sequences as sequences;
ghost use Rattle.jh_edn.specs.Sequences.{elements_to, Takes, TakesSequence, ReadsNoSequence};
ghost use Rattle.jh_edn.specs.Spelling.{NothingReads};
ghost use Rattle.jh_edn.specs.View.{view};

use crate::element::{after_gap, next_item};
use crate::error::EdnError;
use crate::reader::{DEPTH_LIMIT, error_in};
use crate::syntax_error::ReadError;
use crate::value::Value;
use std::alloc::{AllocError, Global};

/// Takes the elements of a list or a vector, one by one, as they are read.
pub trait Sink {
    /// It has taken these elements.
    ghost has_taken: { Self → List Edn → Type 0 };

    /// One element more. Fails only where memory does.
    fn take(&mut self, alloc: Global, element: Value) -> Result<(), AllocError>
        ensures { OnOk result
            (Takes (Self.has_taken self.old) (Self.has_taken self.new) (view element ∷ [])) };
}

/// The bracket that closes the list or the vector that the text begins with.
fn closing(rest: &str) -> Option<u8>
    ensures { result ≡ sequences.closing_bracket rest.now }
{
    match rest.as_bytes() {
        [b'(', ..] => Some(b')'),
        [b'[', ..] => Some(b']'),
        _ => None,
    }
}

/// Gives the sink the elements up to a closing bracket. Answers what stands behind it.
fn give_elements<'a, S: Sink>(
    alloc: Global,
    rest: &'a str,
    close: u8,
    sink: &mut S,
) -> Result<&'a str, ReadError>
    requires { IsAscii close }
    ensures taken { IfOk result (λ after. (elements : List Edn)
        × (elements_to close rest.now ≡ Ok (elements, after.now))
        × Takes (S.has_taken sink.old) (S.has_taken sink.new) elements) }
    ensures text { IfOk result (λ after. IsUtf8 after.now) }
    ensures fails { IfErr result (λ e. Fails e (elements_to close rest.now)) }
{
    let mut left = rest;
    'turns: loop {
        let (next, after) = next_item(alloc, left, close, DEPTH_LIMIT - 1)?;
        let Some(element) = next else {
            return Ok(after);
        };
        sink.take(alloc, element)?;
        left = after;
    }
}

/// Reads the list or the vector that begins behind the gap at `at`, and gives the sink each of its
/// elements as soon as it is read. Answers the place after its closing bracket, in bytes. `None`,
/// and the sink is left alone, where no list and no vector begins, but something else, also a tag
/// before one, or where only a gap is left.
///
/// Takes the time that `read_one` takes, and the memory of one element at a time.
///
/// Errors: the error whose deciding character comes first, with its line in the whole text;
/// `OutOfMemory` where memory for an element, or for the sink, was refused before that. The sink
/// may have taken elements before.
pub fn read_sequence<S: Sink>(
    alloc: Global,
    text: &str,
    at: usize,
    sink: &mut S,
) -> Result<Option<usize>, EdnError>
    requires { IsCharBoundary text.now at }
    ensures some { IfOk result (λ o. IfSome o
        (TakesSequence (S.has_taken sink.old) (S.has_taken sink.new) text.now at)) }
    ensures place { IfOk result (λ o. IfSome o (λ end. (at < end) × IsCharBoundary text.now end)) }
    ensures none { IfOk result (λ o. IfNone o (ReadsNoSequence text.now at)) }
    ensures unchanged { IfOk result (λ o. IfNone o (sink.new ≡ sink.old)) }
    ensures refused { IfErr result (λ e. (e ≡ EdnError.OutOfMemory) ⊎ NothingReads text.now at) }
    ensures first_error { IfErr result
        (λ e. (e ≡ EdnError.OutOfMemory) ⊎ IsFirstErrorAt text.now at e) }
{
    let here = match after_gap(alloc, &text[at..], DEPTH_LIMIT) {
        Ok(here) => here,
        Err(error) => return Err(error_in(text, error)),
    };
    let Some(close) = closing(here) else {
        return Ok(None);
    };
    match give_elements(alloc, &here[1..], close, sink) {
        Ok(after) => Ok(Some(text.len() - after.len())),
        Err(error) => Err(error_in(text, error)),
    }
}

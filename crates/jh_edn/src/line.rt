//! Reading every value of a text that a program holds, and which error it has.
//!
//! `values_in` of `specs/Lines.antt` says what is read.

ghost use Rattle.std.specs.Prelude.{◌≡◌, ◌⊎◌, IfOk, IfErr, Ok};
ghost use Rattle.jh_edn.specs.Gives.{Gives};
ghost use Rattle.jh_edn.specs.Lines.{values_in, IsFirstErrorIn};
ghost use Rattle.jh_edn.specs.View.{views};

use crate::element::{after_gap, element};
use crate::error::EdnError;
use crate::reader::{DEPTH_LIMIT, error_in};
use crate::syntax_error::ReadError;
use crate::value::Value;
use std::alloc::Global;

/// The values of a text, or where its first error stands.
pub(crate) fn line_values(alloc: Global, text: &str) -> Result<Vec<Value>, ReadError>
    ensures { Gives (λ v. views v.items) result (values_in text.now) }
{
    let mut values = Vec::new(alloc);
    let mut left = text;
    // Each value takes a byte, so the turn after the last finds the end.
    let most = text.len() + 1;
    for _turn in 0..most {
        let here = after_gap(alloc, left, DEPTH_LIMIT)?;
        if here.is_empty() {
            return Ok(values);
        }
        let (value, after) = element(alloc, here, DEPTH_LIMIT)?;
        values.push(value)?;
        left = after;
    }
    Ok(values)
}

/// The values of a text: those of a line that a program was sent.
///
/// Takes time as `read_one` does. `read_all` reads a whole reader instead.
///
/// Errors: the error whose deciding character comes first, with its line in the text; `OutOfMemory`
/// where memory was refused before that.
pub fn values_in_line(alloc: Global, text: &str) -> Result<Vec<Value>, EdnError>
    ensures values { IfOk result (λ v. values_in text.now ≡ Ok (views v.items)) }
    ensures first_error { IfErr result
        (λ e. (e ≡ EdnError.OutOfMemory) ⊎ IsFirstErrorIn text.now e) }
{
    line_values(alloc, text).map_err(|error| error_in(text, error))
}

//! Reading every element of a text.

ghost use Rattle.std.specs.Prelude.{◌≢◌, IfOk, IfErr, IfSome};
ghost use Rattle.std.specs.Str.{IsUtf8};
ghost use Rattle.jh_edn.specs.Refused.{RefusesText, IsFirstIfInText};
ghost use Rattle.jh_edn.specs.Spelling.{SpellsAll};
ghost use Rattle.jh_edn.specs.View.{views};

use crate::bytes::read_bytes;
use crate::error::EdnError;
use crate::reader::read_one;
use crate::value::Value;
use std::alloc::Global;
use std::io::Read;

/// The values of a whole text.
fn values_of(alloc: Global, text: &str) -> Result<Vec<Value>, EdnError>
    ensures values { IfOk result (λ v. SpellsAll (views v.items) text.now) }
    ensures refused { IfErr result (RefusesText text.now) }
    ensures first_error { IfErr result (IsFirstIfInText text.now) }
{
    let mut values = Vec::new(alloc);
    let mut at = 0;
    while let Some((value, end)) = read_one(alloc, text, at)? {
        values.push(value)?;
        at = end;
    }
    Ok(values)
}

/// The values of the text that the reader gives, read in at most `reads` reads.
///
/// Errors: those of `read_bytes`, then `Utf8`, then the text's first error, with its line.
pub fn read_all<R: Read>(alloc: Global, reader: &mut R, reads: u32) -> Result<Vec<Value>, EdnError>
    ensures values { IfOk result
        (λ v. IfSome (R.remaining reader.old) (λ bytes. SpellsAll (views v.items) bytes)) }
    ensures utf8 { IfOk result (λ _. IfSome (R.remaining reader.old) IsUtf8) }
    ensures refused { IfErr result
        (λ e. IfSome (R.remaining reader.old) (λ bytes. RefusesText bytes e)) }
    ensures first_error { IfErr result
        (λ e. IfSome (R.remaining reader.old) (λ bytes. IsFirstIfInText bytes e)) }
    ensures error { IfErr result (λ e. e ≢ EdnError.Write) }
{
    let bytes = read_bytes(alloc, reader, reads)?;
    let Ok(text) = str::from_utf8(&bytes) else {
        return Err(EdnError::Utf8);
    };
    values_of(alloc, text)
}

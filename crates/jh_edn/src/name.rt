//! The names of keywords and symbols, and tags.
//!
//! `is_name`, `is_symbol_name` and `is_tag` of `specs/Spelling.antt` say which there are.

ghost use Rattle.std.specs.Prelude.{◌≡◌, ◌==◌, MatchOption, true, false};
ghost use Rattle.std.specs.List.{list_all, count_by};
ghost use Rattle.jh_edn.specs.Bytes as bytes;
ghost use Rattle.jh_edn.specs.Spelling as spelling;

use crate::scan::{is_digit, is_first, is_letter, is_symbol};

/// How many slashes a name has whose characters are all those of symbols, or `None` where one is
/// not.
fn count_slashes(name: &[u8]) -> Option<usize>
    ensures { MatchOption result
        (list_all bytes.is_symbol name.now ≡ false)
        (λ n. (list_all bytes.is_symbol name.now ≡ true)
        × (n ≡ count_by (λ c. c == bytes.slash) name.now)) }
{
    let mut count = 0;
    for b in name {
        if !is_symbol(*b) {
            return None;
        }
        if *b == b'/' {
            count += 1;
        }
    }
    Some(count)
}

/// The name of a keyword.
#[tactic(auto, unfolding(crate::specs::Spelling::is_name, crate::specs::Bytes::is_first, crate::specs::Bytes::is_symbol, crate::specs::Bytes::is_digit))]
pub(crate) fn is_name(name: &[u8]) -> bool
    ensures { result ≡ spelling.is_name name.now }
{
    let [first, ..] = name else {
        return false;
    };
    let Some(slashes) = count_slashes(name) else {
        return false;
    };
    is_first(*first) && slashes < 2 && name[name.len() - 1] != b'/'
}

/// Whether the name is a value of its own: `nil`, `true` or `false`.
#[tactic(auto, unfolding(crate::specs::Spelling::is_constant))]
fn is_constant(name: &[u8]) -> bool
    ensures { result ≡ spelling.is_constant name.now }
{
    matches!(name, b"nil" | b"true" | b"false")
}

/// A digit stands first, or second behind a first `+`, `-` or `.`.
#[tactic(auto, unfolding(crate::specs::Spelling::looks_numeric, crate::specs::Bytes::is_digit))]
fn looks_numeric(name: &[u8]) -> bool
    ensures { result ≡ spelling.looks_numeric name.now }
{
    match name {
        [] => false,
        [b'+' | b'-' | b'.', second, ..] => is_digit(*second),
        [first, ..] => is_digit(*first),
    }
}

/// Whether a symbol may have this name.
#[tactic(auto, unfolding(crate::specs::Spelling::is_symbol_name))]
pub(crate) fn is_symbol_name(name: &[u8]) -> bool
    ensures { result ≡ spelling.is_symbol_name name.now }
{
    matches!(name, b"/") || (is_name(name) && !looks_numeric(name) && !is_constant(name))
}

/// Whether this may be a tag, without its `#`.
#[tactic(auto, unfolding(crate::specs::Spelling::is_tag, crate::specs::Bytes::is_letter))]
pub(crate) fn is_tag(name: &[u8]) -> bool
    ensures { result ≡ spelling.is_tag name.now }
{
    let [first, ..] = name else {
        return false;
    };
    is_letter(*first) && is_symbol_name(name)
}

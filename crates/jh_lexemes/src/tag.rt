//! Which tokens are tags.
//!
//! `is_tag` of `jh_edn/specs/Spelling.antt` says it.

ghost use Rattle.std.specs.Prelude.{◌≡◌, ◌==◌, MatchOption, true, false};
ghost use Rattle.std.specs.List.{list_all, count_by};
ghost use Rattle.jh_edn.specs.Bytes as bytes;
ghost use Rattle.jh_edn.specs.Spelling as spelling;

/// An ASCII letter.
#[tactic(auto, unfolding(jh_edn::specs::Bytes::is_letter))]
fn is_letter(b: u8) -> bool
    ensures { result ≡ bytes.is_letter b }
{
    matches!(b, b'A'..=b'Z' | b'a'..=b'z')
}

/// A character of symbols.
#[tactic(auto, unfolding(jh_edn::specs::Bytes::is_symbol, jh_edn::specs::Bytes::is_digit))]
fn is_symbol(b: u8) -> bool
    ensures { result ≡ bytes.is_symbol b }
{
    matches!(
        b,
        b'a'..=b'z'
            | b'0'..=b'9'
            | b'A'..=b'Z'
            | b'.'
            | b'*'
            | b'+'
            | b'!'
            | b'-'
            | b'_'
            | b'?'
            | b'$'
            | b'%'
            | b'&'
            | b'='
            | b'<'
            | b'>'
            | b':'
            | b'#'
            | b'\''
            | b'/'
    )
}

/// How many slashes a name has whose characters are all those of symbols, or `None` where one is
/// not.
fn count_slashes(name: &[u8]) -> Option<usize>
    ensures { MatchOption result
        (list_all bytes.is_symbol name.now ≡ false)
        (λ n. (list_all bytes.is_symbol name.now ≡ true)
        × (n ≡ count_by (λ c. c == bytes.slash) name.now)) }
{
    let mut count = 0;
    for b in name {
        if !is_symbol(*b) {
            return None;
        }
        if *b == b'/' {
            count += 1;
        }
    }
    Some(count)
}

/// Whether the name is a value of its own: `nil`, `true` or `false`.
#[tactic(auto, unfolding(jh_edn::specs::Spelling::is_constant))]
fn is_constant(name: &[u8]) -> bool
    ensures { result ≡ spelling.is_constant name.now }
{
    matches!(name, b"nil" | b"true" | b"false")
}

/// Whether this may be a tag, without its `#`.
#[tactic(auto, unfolding(jh_edn::specs::Spelling::is_tag, jh_edn::specs::Spelling::is_symbol_name, jh_edn::specs::Spelling::is_name, jh_edn::specs::Spelling::looks_numeric, jh_edn::specs::Bytes::is_letter, jh_edn::specs::Bytes::is_first, jh_edn::specs::Bytes::is_symbol, jh_edn::specs::Bytes::is_digit))]
pub(crate) fn is_tag(name: &[u8]) -> bool
    ensures { result ≡ spelling.is_tag name.now }
{
    let [first, ..] = name else {
        return false;
    };
    if !is_letter(*first) || is_constant(name) {
        return false;
    }
    match count_slashes(name) {
        Some(slashes) => slashes < 2 && name[name.len() - 1] != b'/',
        None => false,
    }
}

//! Looking ahead in a text: what a byte is, and how far bytes of one kind go.
//!
//! `specs/Bytes.antt` says what each byte is.

ghost use Rattle.std.specs.Prelude.{◌≡◌, ◌≤◌, ◌<◌, drop, length, slice_index, ◌==◌, IfSome};
ghost use Rattle.std.specs.Str.{IsCharBoundary};
ghost use Rattle.std.specs.List.{prefix_len};
ghost use Rattle.jh_edn.specs.Bytes as bytes;
ghost use Rattle.jh_edn.specs.Bytes.{IsAscii, escaped_byte};
ghost use Rattle.jh_edn.specs.Reading as reading;

/// White space, with the comma.
#[tactic(auto, unfolding(crate::specs::Bytes::is_space))]
fn is_space(b: u8) -> bool
    ensures { result ≡ bytes.is_space b }
{
    matches!(b, b' ' | b',' | b'\t'..=b'\r')
}

/// A byte other than white space that ends a token.
#[tactic(auto, unfolding(crate::specs::Bytes::is_delimiter))]
fn is_delimiter(b: u8) -> bool
    ensures { result ≡ bytes.is_delimiter b }
{
    matches!(
        b,
        b'(' | b')' | b'[' | b']' | b'{' | b'}' | b'"' | b';' | b'\\'
    )
}

/// A byte of a token. Most are letters and digits, for which the first test is enough.
#[tactic(auto, using(crate::proofs::TextFrontLemmas::letter_token), unfolding(crate::specs::Bytes::is_token_byte))]
pub(crate) fn is_token_byte(b: u8) -> bool
    ensures { result ≡ bytes.is_token_byte b }
{
    matches!(b, b'a'..=b'z' | b'0'..=b'9') || (!is_space(b) && !is_delimiter(b))
}

/// A byte that stands for itself in a string.
#[tactic(auto, unfolding(crate::specs::Bytes::is_plain))]
fn is_plain(b: u8) -> bool
    ensures { result ≡ bytes.is_plain b }
{
    b != b'"' && b != b'\\'
}

/// A decimal digit.
#[tactic(auto, unfolding(crate::specs::Bytes::is_digit))]
pub(crate) fn is_digit(b: u8) -> bool
    ensures { result ≡ bytes.is_digit b }
{
    matches!(b, b'0'..=b'9')
}

/// A character of symbols. Most are small letters, for which the first test is enough.
#[tactic(auto, unfolding(crate::specs::Bytes::is_symbol, crate::specs::Bytes::is_digit))]
pub(crate) fn is_symbol(b: u8) -> bool
    ensures { result ≡ bytes.is_symbol b }
{
    if matches!(b, b'a'..=b'z') {
        return true;
    }
    matches!(
        b,
        b'0'..=b'9'
            | b'A'..=b'Z'
            | b'.'
            | b'*'
            | b'+'
            | b'!'
            | b'-'
            | b'_'
            | b'?'
            | b'$'
            | b'%'
            | b'&'
            | b'='
            | b'<'
            | b'>'
            | b':'
            | b'#'
            | b'\''
            | b'/'
    )
}

/// An ASCII letter.
#[tactic(auto, unfolding(crate::specs::Bytes::is_letter))]
pub(crate) fn is_letter(b: u8) -> bool
    ensures { result ≡ bytes.is_letter b }
{
    matches!(b, b'A'..=b'Z' | b'a'..=b'z')
}

/// A byte that a name may begin with.
#[tactic(auto, unfolding(crate::specs::Bytes::is_first))]
pub(crate) fn is_first(b: u8) -> bool
    ensures { result ≡ bytes.is_first b }
{
    is_symbol(b) && !matches!(b, b':' | b'#' | b'\'' | b'/')
}

/// What the byte after a backslash stands for.
#[tactic(auto, unfolding(crate::specs::Bytes::escaped_byte))]
pub(crate) fn unescape(b: u8) -> Option<char>
    ensures value { result ≡ escaped_byte b }
    ensures ascii { IfSome result (λ c. IsAscii c × IsAscii b) }
{
    match b {
        b't' => Some('\t'),
        b'r' => Some('\r'),
        b'n' => Some('\n'),
        b'\\' => Some('\\'),
        b'"' => Some('"'),
        b'b' => Some('\x08'),
        b'f' => Some('\x0c'),
        _ => None,
    }
}

/// How many bytes of white space and comments the text begins with.
fn blank_len(rest: &str) -> usize
    ensures rest { drop result rest.now ≡ reading.text_after_blank rest.now }
    ensures boundary { IsCharBoundary rest.now result }
{
    let mut in_comment = false;
    let mut len = 0;
    for b in rest.as_bytes() {
        if in_comment {
            in_comment = *b != b'\n';
        } else if *b == b';' {
            in_comment = true;
        } else if !is_space(*b) {
            return len;
        }
        len += 1;
    }
    len
}

/// How many bytes of a token the text begins with.
#[tactic(auto, using(crate::proofs::TextFrontLemmas::token_stops))]
pub(crate) fn token_len(rest: &str) -> usize
    ensures len { result ≡ prefix_len bytes.is_token_byte rest.now }
    ensures boundary { IsCharBoundary rest.now result }
{
    rest.as_bytes()
        .iter()
        .take_while(|b| is_token_byte(**b))
        .count()
}

/// How many bytes the text begins with that stand for themselves in a string.
#[tactic(auto, using(crate::proofs::TextFrontLemmas::plain_stops))]
pub(crate) fn plain_len(rest: &str) -> usize
    ensures len { result ≡ prefix_len bytes.is_plain rest.now }
    ensures boundary { IsCharBoundary rest.now result }
{
    rest.as_bytes().iter().take_while(|b| is_plain(**b)).count()
}

/// How many digits the bytes begin with.
pub(crate) fn digits_len(token: &[u8]) -> usize
    ensures len { result ≡ prefix_len bytes.is_digit token.now }
    ensures within { result ≤ length token.now }
{
    token.iter().take_while(|b| is_digit(**b)).count()
}

/// The text after the white space and the comments that it begins with.
pub(crate) fn after_blank(rest: &str) -> &str
    ensures { result.now ≡ reading.text_after_blank rest.now }
{
    let len = blank_len(rest);
    &rest[len..]
}

/// Whether the text begins with the `#_` of a discard.
#[tactic(auto, unfolding(crate::specs::Bytes::begins_discard))]
pub(crate) fn begins_discard(rest: &str) -> bool
    ensures { result ≡ bytes.begins_discard rest.now }
{
    matches!(rest.as_bytes(), [b'#', b'_', ..])
}

/// Whether a set begins here, where a `#` stands first.
pub(crate) fn begins_set(rest: &[u8]) -> bool
    ensures { result ≡ (slice_index rest.now 1 == bytes.open_brace) }
{
    matches!(rest, [_, b'{', ..])
}

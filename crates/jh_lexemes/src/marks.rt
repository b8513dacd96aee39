//! What a byte is, and how far bytes of one kind go.
//!
//! `jh_edn/specs/Bytes.antt` says what each byte is.

ghost use Rattle.std.specs.Prelude.{◌≡◌};
ghost use Rattle.std.specs.List.{prefix_len};
ghost use Rattle.jh_edn.specs.Bytes as bytes;
ghost use Rattle.jh_lexemes.specs.Lexemes.{is_escape, is_in_line};

/// White space, with the comma.
#[tactic(auto, unfolding(jh_edn::specs::Bytes::is_space))]
pub(crate) fn is_space(b: u8) -> bool
    ensures { result ≡ bytes.is_space b }
{
    matches!(b, b' ' | b',' | b'\t'..=b'\r')
}

/// A byte other than white space that ends a token.
#[tactic(auto, unfolding(jh_edn::specs::Bytes::is_delimiter))]
fn is_delimiter(b: u8) -> bool
    ensures { result ≡ bytes.is_delimiter b }
{
    matches!(
        b,
        b'(' | b')' | b'[' | b']' | b'{' | b'}' | b'"' | b';' | b'\\'
    )
}

/// A byte of a token.
#[tactic(auto, unfolding(jh_edn::specs::Bytes::is_token_byte))]
fn is_token_byte(b: u8) -> bool
    ensures { result ≡ bytes.is_token_byte b }
{
    !is_space(b) && !is_delimiter(b)
}

/// A byte that may stand behind a backslash in a string.
#[tactic(auto, unfolding(jh_edn::specs::Bytes::escaped_byte, crate::specs::Lexemes::is_escape))]
pub(crate) fn is_escape(b: u8) -> bool
    ensures { result ≡ is_escape b }
{
    matches!(b, b't' | b'r' | b'n' | b'\\' | b'"' | b'b' | b'f')
}

/// How many bytes of white space these begin with.
pub(crate) fn space_len(rest: &[u8]) -> usize
    ensures { result ≡ prefix_len bytes.is_space rest.now }
{
    rest.iter().take_while(|b| is_space(**b)).count()
}

/// How many bytes of a token these begin with.
pub(crate) fn token_len(rest: &[u8]) -> usize
    ensures { result ≡ prefix_len bytes.is_token_byte rest.now }
{
    rest.iter().take_while(|b| is_token_byte(**b)).count()
}

/// How many bytes stand before the first line feed.
pub(crate) fn line_len(rest: &[u8]) -> usize
    ensures { result ≡ prefix_len is_in_line rest.now }
{
    rest.iter().take_while(|b| **b != b'\n').count()
}

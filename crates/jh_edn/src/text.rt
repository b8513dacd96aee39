//! Texts that values hold: names, strings, tags. A short one lies in the value itself, and takes no
//! memory.
//!
//! `kept_bytes` of `specs/TextInside.antt` is what a contract sees of a text.

ghost use Rattle.std.specs.Prelude.{◌≡◌, ◌≤◌, IfOk, length};
ghost use Rattle.std.specs.String.{string_bytes};

use std::alloc::{AllocError, Global};
use std::boxed::Box;
use std::marker::Model;
use std::{fmt, str};

/// How many bytes a text may have that lies in the value itself. With one more for its length and
/// eight for the kinds beside it, a value takes 32 bytes.
const MAX_SHORT: usize = 15;

/// A text of few bytes. A contract sees its bytes.
#[derive(Drop)]
struct Short {
    bytes: [u8; MAX_SHORT],
    len: u8,
}

impl Model for Short {
    ghost use Rattle.std.specs.Prelude.{◌≤◌, ℕ, List, take, length, IsUtf8};

    ghost Value = { List ℕ };

    ghost view = { λ s. take s.len s.bytes };

    ghost invariant = { λ s. (s.len ≤ 15) × ∥ IsUtf8 (take s.len s.bytes) ∥₁ };
}

impl Short {
    /// A copy of the text.
    fn of(text: &str) -> Short
        requires { length text.now ≤ 15 }
        ensures { result ≡ text.now }
    {
        let mut bytes = [0; MAX_SHORT];
        let len = text.len();
        bytes[..len].copy_from_slice(text.as_bytes());
        Short {
            bytes,
            len: len as u8,
        }
    }

    /// The text as a string slice.
    fn as_str(&self) -> &str
        ensures { result.now ≡ self.now }
    {
        unsafe { str::from_utf8_unchecked(&self.bytes[..usize::from(self.len)]) }
    }
}

/// Where the bytes of a text lie.
#[derive(Drop)]
enum Kept {
    Short(Short),
    Long(Box<String>),
}

/// A text that a value holds. A contract sees its bytes, which are UTF-8.
///
/// Of up to 15 bytes it takes no memory.
#[derive(Drop)]
pub struct Text {
    kept: Kept,
}

impl Model for Text {
    ghost use Rattle.std.specs.Prelude.{List, ℕ};
    ghost use Rattle.jh_edn.specs.TextInside.{kept_bytes};

    ghost Value = { List ℕ };

    ghost view = { λ a. kept_bytes a.kept };
}

impl Text {
    /// A copy of the text.
    ///
    /// Errors: where it has more than 15 bytes and there is no memory for them.
    pub fn of(alloc: Global, text: &str) -> Result<Text, AllocError>
        ensures { IfOk result (λ copy. copy ≡ text.now) }
    {
        if text.len() <= MAX_SHORT {
            Ok(Text::short(text))
        } else {
            Text::long(alloc, String::from_str(alloc, text)?)
        }
    }

    /// The text of a string. A long one stays where it is.
    ///
    /// Errors: where it is long and there is no memory for what points to it.
    pub(crate) fn of_string(alloc: Global, text: String) -> Result<Text, AllocError>
        ensures { IfOk result (λ kept. kept ≡ string_bytes text) }
    {
        if text.len() <= MAX_SHORT {
            Ok(Text::short(text.as_str()))
        } else {
            Text::long(alloc, text)
        }
    }

    /// A text of at most 15 bytes, which lies in the value itself.
    fn short(text: &str) -> Text
        requires { length text.now ≤ 15 }
        ensures { result ≡ text.now }
    {
        let short = Short::of(text);
        Text {
            kept: Kept::Short(short),
        }
    }

    /// The text of a string, which stays where it is.
    fn long(alloc: Global, text: String) -> Result<Text, AllocError>
        ensures { IfOk result (λ kept. kept ≡ string_bytes text) }
    {
        Ok(Text {
            kept: Kept::Long(Box::new(alloc, text)?),
        })
    }

    /// The text as a string slice.
    pub fn as_str(&self) -> &str
        ensures { result.now ≡ self.now }
    {
        match &self.kept {
            Kept::Short(text) => text.as_str(),
            Kept::Long(text) => text.as_str(),
        }
    }
}

impl fmt::Debug for Text {
    fn fmt<W: fmt::Write>(&self, f: &mut fmt::Formatter<W>) -> fmt::Result {
        fmt::Debug::fmt(&self.as_str(), f)
    }
}

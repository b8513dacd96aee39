//! Why settings are refused. The texts are those that users see, and docs/settings.md lists them.

ghost use Rattle.std.specs.Prelude.{◌≡◌, IfOk, string_bytes};
ghost use Rattle.jh_settings.specs.declared.error.SettingsError.TheVariants.{OutOfMemory};

use crate::keys::Key;
use jh_one_line::OnOneLine;
use std::alloc::{AllocError, AllocFailed, Global};
use std::fmt::{self, Display, Formatter, Write};
use std::marker::Model;
use thiserror::Error;

/// How many bytes a key has at most that is shown itself.
pub(crate) const MAX_SHOWN_KEY: usize = 200;

/// The text of a key that is none of the command's. A contract sees its bytes, which are UTF-8.
///
/// It is shown on one line: control characters are written as `\u{..}`, with their number in
/// hexadecimal digits, and all others as they are. A key of more than 200 bytes is shown by how
/// many bytes it has.
#[derive(Debug, Drop)]
pub struct KeyText {
    text: String,
}

impl Model for KeyText {
    ghost use Rattle.std.specs.Prelude.{List, ℕ};
    ghost use Rattle.std.specs.String.{string_bytes};

    ghost Value = { List ℕ };

    ghost view = { λ a. string_bytes a.text };
}

impl KeyText {
    /// The key of this text.
    pub(crate) fn of(alloc: Global, text: &str) -> Result<KeyText, AllocError>
        ensures { IfOk result (λ key. key ≡ text.now) }
    {
        Ok(KeyText {
            text: String::from_str(alloc, text)?,
        })
    }

    /// The key as it stands in the document.
    pub fn as_str(&self) -> &str
        ensures { result.now ≡ self.now }
    {
        self.text.as_str()
    }
}

impl Display for KeyText {
    ghost use Rattle.std.specs.Prelude.{Some};
    ghost use Rattle.jh_settings.specs.Shown.{shown_key};

    ghost output = { λ key. Some (shown_key key) };

    fn fmt<W: Write>(&self, f: &mut Formatter<W>) -> fmt::Result {
        let bytes = self.text.len();
        if bytes > MAX_SHOWN_KEY {
            write!(f, "a key of {bytes} bytes")
        } else {
            write!(f, "{}", OnOneLine(self.as_str()))
        }
    }
}

/// Why settings are refused. Of a run the first that applies is given, in the order of the
/// variants; of a test a key that says how keys are shared may be missing behind a bad value
/// (`drive_settings_in`).
#[derive(Debug, Drop, Error)]
pub enum SettingsError {
    /// The bytes are not UTF-8, or spell no TOML document.
    #[error("not TOML")]
    NotToml,
    /// A key that is none of the command's, the first of such in byte order.
    #[error("{0}: unknown")]
    Unknown(KeyText),
    /// A needed key does not stand in the document, the first of such in their order.
    #[error("{0}: missing")]
    Missing(Key),
    /// The value under a key is none that it may have, the first of such in their order.
    #[error("{0}: bad value")]
    BadValue(Key),
    /// Memory was refused before one of the others was found.
    #[error("out of memory")]
    OutOfMemory,
}

impl From<AllocError> for SettingsError {
    ghost use Rattle.std.specs.Prelude.{◌≡◌};
    ghost use Rattle.jh_settings.specs.declared.error.SettingsError.TheVariants.{OutOfMemory};

    ghost from_gives = { λ _ e. e ≡ OutOfMemory };

    fn from(_error: AllocError) -> SettingsError {
        SettingsError::OutOfMemory
    }
}

impl<T: Drop> From<AllocFailed<T>> for SettingsError {
    ghost use Rattle.std.specs.Prelude.{◌≡◌};
    ghost use Rattle.jh_settings.specs.declared.error.SettingsError.TheVariants.{OutOfMemory};

    ghost from_gives = { λ _ e. e ≡ OutOfMemory };

    fn from(_error: AllocFailed<T>) -> SettingsError {
        SettingsError::OutOfMemory
    }
}

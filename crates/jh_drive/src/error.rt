//! Why a test of a real database ended otherwise than with a verdict. `specs/DriveErrors.antt` has the
//! exit status and the text of each.

ghost use Rattle.std.specs.Prelude.{◌≡◌};
ghost use Rattle.jh_drive.specs.DriveErrors.{drive_status, drive_text};
ghost use Rattle.jh_drive.specs.declared.error.DriveError.TheVariants.{OutOfMemory};

use jh_check::CheckError;
use jh_independent::KeysError;
use jh_reports::{FAILED, REFUSED};
use jh_settings::SettingsError;
use jh_test_parts::Complaint;
use std::alloc::AllocError;
use std::error::Error;
use std::fmt::{self, Display, Formatter};

/// Why a test ended otherwise than with a verdict. The report is written before `Reply`, `RepliesEnded`,
/// `Read` and `TooManyTurns`, but for a trial whose adapter had not answered `:ready`.
#[derive(Debug, Drop)]
pub enum DriveError {
    /// The settings are none of a test.
    Settings(SettingsError),
    /// The settings could not be read.
    SettingsRead,
    /// What a search of tests names as kinds of faults are none.
    BadPalette,
    /// The first line that is no reply, by its number from 1.
    Reply { number: u64, why: Complaint },
    /// The input ended before the test did.
    RepliesEnded,
    /// The input could not be read on.
    Read,
    /// The conversation took 2^64 - 1 turns, more than can be counted.
    TooManyTurns,
    /// The history can't be judged.
    Mismatch,
    /// The output could not be written.
    Write,
    OutOfMemory,
}

impl DriveError {
    /// The exit status: 3 where settings or a reply are refused, 4 where the replies ended or the machine
    /// failed.
    pub fn status(&self) -> u8
        ensures { result ≡ drive_status self.now }
    {
        match self {
            DriveError::Settings(_) | DriveError::BadPalette | DriveError::Reply { .. } => REFUSED,
            DriveError::SettingsRead
            | DriveError::RepliesEnded
            | DriveError::Read
            | DriveError::TooManyTurns
            | DriveError::Mismatch
            | DriveError::Write
            | DriveError::OutOfMemory => FAILED,
        }
    }
}

impl Display for DriveError {
    ghost output = { drive_text };

    fn fmt<W: fmt::Write>(&self, f: &mut Formatter<W>) -> fmt::Result {
        match self {
            DriveError::Settings(error) => write!(f, "settings: {error}"),
            DriveError::SettingsRead => f.write_str("settings: read failed"),
            DriveError::BadPalette => f.write_str(
                "--palette: not kinds of cut, slow, loss, fix, pause, kill, bump, with commas between",
            ),
            DriveError::Reply { number, why } => write!(f, "reply {number}: {why}"),
            DriveError::RepliesEnded => f.write_str("replies ended"),
            DriveError::Read => f.write_str("read failed"),
            DriveError::TooManyTurns => f.write_str("too many turns"),
            DriveError::Mismatch => f.write_str("mismatch"),
            DriveError::Write => f.write_str("write failed"),
            DriveError::OutOfMemory => f.write_str("out of memory"),
        }
    }
}

impl Error for DriveError {}

impl From<SettingsError> for DriveError {
    ghost use Rattle.jh_drive.specs.DriveErrors.{drive_settings_error};

    ghost from_gives = { λ error e. e ≡ drive_settings_error error };

    fn from(error: SettingsError) -> DriveError {
        match error {
            SettingsError::OutOfMemory => DriveError::OutOfMemory,
            _ => DriveError::Settings(error),
        }
    }
}

impl From<CheckError> for DriveError {
    ghost use Rattle.jh_drive.specs.DriveErrors.{check_refusal};

    ghost from_gives = { λ error e. e ≡ check_refusal error };

    fn from(error: CheckError) -> DriveError {
        match error {
            CheckError::OutOfMemory => DriveError::OutOfMemory,
            _ => DriveError::Mismatch,
        }
    }
}

impl From<KeysError> for DriveError {
    ghost use Rattle.jh_drive.specs.DriveErrors.{keys_refusal};

    ghost from_gives = { λ error e. e ≡ keys_refusal error };

    fn from(error: KeysError) -> DriveError {
        match error {
            KeysError::OutOfMemory => DriveError::OutOfMemory,
            _ => DriveError::Mismatch,
        }
    }
}

impl From<AllocError> for DriveError {
    ghost from_gives = { λ _ e. e ≡ OutOfMemory };

    fn from(_error: AllocError) -> DriveError {
        DriveError::OutOfMemory
    }
}

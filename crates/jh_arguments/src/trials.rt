//! What is asked of many tests in one conversation. `specs/Answers.antt` has the rule.

ghost use Rattle.std.specs.Prelude.{◌≡◌, ◌<◌, ◌+◌, ◌^◌, IsErrOf};
ghost use Rattle.jh_drive.specs.declared.error.DriveError.TheVariants as DriveErrors;
ghost use Rattle.jh_settings.specs.declared.error.SettingsError.{SettingsError};
ghost use Rattle.jh_arguments.specs.Answers.{AreAskedTo, IsReducedTo};

use crate::commands::TrialQuestion;
use jh_drive::DriveError;
use jh_drive_search::{TrialOptions, search_drive, search_settings_of};
use jh_drive_shrink::shrink_drive;
use jh_lines::{ByLines, Streams};
use jh_shrink::ShrinkObserver;
use std::alloc::Global;
use std::io::{BufReader, Read, Write};

/// Tries these candidates of the test that bytes set.
///
/// Errors: `BadPalette`, then those of `search_settings_of`, before anything is told or read; else those of
/// `search_drive`.
pub(crate) fn try_test<R, W>(
    alloc: Global,
    settings: &[u8],
    candidates: TrialQuestion,
    streams: &mut Streams<R, W>,
) -> Result<u8, DriveError>
where
    R: Read,
    W: Write,
    requires { candidates.from + candidates.runs < 2 ^ 64 }
    ensures tried { AreAskedTo settings.now candidates candidates.palette
        (R.remaining streams.old.reader)
        (W.contents streams.old.writer) (W.contents streams.new.writer) result }
    ensures streams_kept { (error : SettingsError) → IsErrOf result (DriveErrors.Settings error)
        → (streams.new.reader ≡ streams.old.reader) × (streams.new.writer ≡ streams.old.writer) }
{
    let Some(palette) = candidates.palette else {
        return Err(DriveError::BadPalette);
    };
    let settings = match search_settings_of(alloc, settings) {
        Ok(settings) => settings,
        Err(error) => return Err(error),
    };
    let options = TrialOptions {
        from: candidates.from,
        runs: candidates.runs,
        faults: candidates.faults,
        palette,
    };
    let Ok(reader) = BufReader::new(alloc, &mut streams.reader) else {
        return Err(DriveError::OutOfMemory);
    };
    let mut lines = ByLines::new(alloc, reader);
    search_drive(alloc, settings, &options, &mut lines, &mut streams.writer)
}

/// Makes the schedule of the test that bytes set small, by so many tests at most, and one more with what
/// is left.
///
/// Errors: those of `search_settings_of`, before anything is told or read; else those of `shrink_drive`.
pub(crate) fn reduce_test<R, W, O>(
    alloc: Global,
    settings: &[u8],
    runs: u64,
    streams: &mut Streams<R, W>,
    observer: &mut O,
) -> Result<u8, DriveError>
where
    R: Read,
    W: Write,
    O: ShrinkObserver,
    ensures reduced { IsReducedTo settings.now runs (R.remaining streams.old.reader)
        (W.contents streams.old.writer) (W.contents streams.new.writer) result }
    ensures streams_kept { (error : SettingsError) → IsErrOf result (DriveErrors.Settings error)
        → (streams.new.reader ≡ streams.old.reader) × (streams.new.writer ≡ streams.old.writer) }
{
    let settings = match search_settings_of(alloc, settings) {
        Ok(settings) => settings,
        Err(error) => return Err(error),
    };
    let Ok(reader) = BufReader::new(alloc, &mut streams.reader) else {
        return Err(DriveError::OutOfMemory);
    };
    let mut lines = ByLines::new(alloc, reader);
    shrink_drive(
        alloc,
        settings,
        runs,
        &mut lines,
        &mut streams.writer,
        observer,
    )
}

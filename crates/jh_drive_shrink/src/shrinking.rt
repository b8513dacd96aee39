//! A test whose schedule is made small. `specs/DriveShrink.antt` has the rule.

ghost use Rattle.std.specs.Prelude.{◌≡◌, ◌≢◌, ◌++◌, IfErr, List, MatchResult, Option, ℕ};
ghost use Rattle.std.specs.Io.KnownBytes.{Appends};
ghost use Rattle.jh_checkers.specs.declared.finding.Judging.{Judging};
ghost use Rattle.jh_drive.specs.Drive.{IsNotWritten};
ghost use Rattle.jh_drive.specs.declared.error.DriveError.TheVariants as DriveErrors;
ghost use Rattle.jh_drive_search.specs.DriveSearch.{MeansSettings};
ghost use Rattle.jh_drive_settings.specs.Settings.{AreDriveSettingsOf};
ghost use Rattle.jh_lines.specs.ByLines.{left_by_lines};
ghost use Rattle.jh_settings.specs.declared.error.SettingsError.{SettingsError};
ghost use Rattle.jh_test_settings_texts.specs.WritableEntries.{test_in_order};
ghost use Rattle.jh_drive_shrink.specs.DriveShrink.{IsShrunkBy, IsTestShrunk, settings_judging, test_of_part};
ghost use Rattle.jh_drive_shrink.specs.PartsInside.{part_at};
ghost use Rattle.jh_drive_shrink.specs.ShrinkInside.{FailsTest, IsLeftByTrials, IsPartWritten};
ghost use Rattle.jh_drive_shrink.specs.ShrinkInside.{IsTestHeld, IsTextOfTrial};
ghost use Rattle.jh_drive_shrink.specs.ToldInside.{told_heading};

use crate::judge::{Smallest, shrink_by_trials};
use crate::parts::test_at;
use crate::told::Told;
use crate::trying::{HeldTrial, hold_test, judging_by};
use jh_drive::{DriveError, write_bytes, write_test_report};
use jh_drive_search::SearchSettings;
use jh_drive_settings::DriveSettings;
use jh_lines::ByLines;
use jh_reports::DONE;
use jh_shrink::ShrinkObserver;
use jh_simnode::Schedule;
use jh_test_settings_texts::settings_with;
use std::alloc::Global;
use std::io::{BufRead, Write};

/// Writes what is told of the part at these places, and behind it the settings that mean it.
fn write_part<W: Write>(
    alloc: Global,
    settings: SearchSettings,
    places: &Schedule,
    told: Told,
    writer: &mut W,
) -> Result<(), DriveError>
    requires means { MeansSettings settings }
    ensures { MatchResult result
        (λ _. (text : List ℕ)
        × Appends (W.contents writer.old) (W.contents writer.new) (told_heading told ++ text)
        × AreDriveSettingsOf text
        (test_in_order (test_of_part settings.settings.test (part_at settings.settings.test places.now)))
        settings.settings.initial settings.settings.model settings.settings.budget)
        IsNotWritten }
{
    let part = test_at(alloc, &settings.settings.test, places)?;
    let text = settings_with(alloc, settings.table, &part)?;
    write_bytes(writer, told.heading())?;
    write_bytes(writer, text.as_bytes())?;
    Ok(())
}

/// Writes the report of a trial of the part at these places, what is told of the part, and the settings that
/// mean it.
fn write_shown<W: Write>(
    alloc: Global,
    settings: SearchSettings,
    places: &Schedule,
    told: Told,
    held: &HeldTrial,
    writer: &mut W,
) -> Result<(), DriveError>
    requires means { MeansSettings settings }
    ensures { (judging : Judging) → IsTextOfTrial judging held.now
        → MatchResult result
        (λ _. IsPartWritten judging settings (part_at settings.settings.test places.now) told held.now
        (W.contents writer.old) (W.contents writer.new))
        IsNotWritten }
{
    write_test_report(alloc, held.trial.conversation(), &held.judged, writer)?;
    write_part(alloc, settings, places, told, writer)
}

/// Holds the trial of what is left once more, behind those that it was left by.
fn hold_last<B: BufRead, W: Write>(
    alloc: Global,
    settings: &DriveSettings,
    smallest: &Smallest,
    lines: &mut ByLines<B>,
    writer: &mut W,
) -> Result<HeldTrial, DriveError>
    ensures { MatchResult result
        (IsTestHeld (test_of_part settings.now.test (part_at settings.now.test smallest.now.places))
        (settings_judging settings.now)
        smallest.now.held smallest.now.read
        (left_by_lines B.remaining lines.old) (left_by_lines B.remaining lines.new)
        (W.contents writer.old) (W.contents writer.new))
        (FailsTest (test_of_part settings.now.test (part_at settings.now.test smallest.now.places))
        (settings_judging settings.now)
        smallest.now.held smallest.now.read
        (left_by_lines B.remaining lines.old) (left_by_lines B.remaining lines.new)
        (W.contents writer.old) (W.contents writer.new)) }
{
    let part = test_at(alloc, &settings.test, &smallest.places)?;
    let judging = judging_by(settings);
    hold_test(
        alloc,
        part,
        judging,
        smallest.held,
        smallest.read,
        lines,
        writer,
    )
}

/// Tries what is left once more, and writes what came of it; or writes that the test did not fail.
fn show_smallest<B: BufRead, W: Write>(
    alloc: Global,
    settings: SearchSettings,
    smallest: &Smallest,
    lines: &mut ByLines<B>,
    writer: &mut W,
) -> Result<u8, DriveError>
    requires means { MeansSettings settings }
    ensures { (runs : ℕ) (input before : Option (List ℕ))
        → IsLeftByTrials settings.settings.test (settings_judging settings.settings)
        input (left_by_lines B.remaining lines.old) before (W.contents writer.old) runs smallest.now
        → IsTestShrunk settings.settings.test (settings_judging settings.settings) runs
        input (left_by_lines B.remaining lines.new) before (W.contents writer.new)
        settings.settings.initial settings.settings.model settings.settings.budget result }
{
    if smallest.told.has_passed() {
        write_bytes(writer, smallest.told.heading())?;
        return Ok(DONE);
    }
    let held = hold_last(alloc, &settings.settings, smallest, lines, writer)?;
    let told = smallest.told.behind(held.judged.status);
    write_shown(alloc, settings, &smallest.places, told, &held, writer)?;
    Ok(told.status())
}

/// Makes the schedule of a test of a real database small by trials of the test with parts of it, one after
/// another in one conversation: before each it tells `{:type :test, :number I, :seed S}`, and holds the test once
/// the adapter has answered `:ready`. Entries are taken out as long as the history is still not
/// valid.
///
/// What is left is tried once more, and its report is written, a line, and behind it the settings that mean the
/// test with what is left:
///
/// | line | what is left | status |
/// |---|---|---|
/// | `:minimal` | the test fails, and did not without any one of the entries | 1 |
/// | `:budget` | the fewest with which it failed, when all `runs` trials were held; the given ones, where none may be | 2 |
/// | `:not-reproduced` | it failed before, or is the whole schedule where no trial might be held before; it did not fail this time | 2 |
///
/// Where the test does not fail with its whole schedule, the line `:not-reproduced` is written alone, with status 0.
/// At most `runs` trials are held, and the last one. An observer is told before each but the last how many
/// entries are left and which it is.
///
/// A reader that blocks may keep it waiting. It takes memory for one test at a time, and for the places of the
/// entries of each.
///
/// Errors, behind the tests that came to their end and with the report of the one that did not, if it had begun:
/// `Reply` with the first line that was no reply, by its number over all tests, `RepliesEnded`, `Read` and
/// `TooManyTurns`; `Mismatch` where a history can't be judged; `Write`; `OutOfMemory`. No other.
pub fn shrink_drive<B: BufRead, W: Write, O: ShrinkObserver>(
    alloc: Global,
    settings: SearchSettings,
    runs: u64,
    lines: &mut ByLines<B>,
    writer: &mut W,
    observer: &mut O,
) -> Result<u8, DriveError>
    requires means { MeansSettings settings }
    ensures shrunk { IsShrunkBy settings runs
        (left_by_lines B.remaining lines.old) (left_by_lines B.remaining lines.new)
        (W.contents writer.old) (W.contents writer.new) result }
    ensures taken { (error : SettingsError) → IfErr result (λ e. e ≢ DriveErrors.Settings error) }
{
    let smallest = shrink_by_trials(alloc, &settings.settings, runs, lines, writer, observer)?;
    show_smallest(alloc, settings, &smallest, lines, writer)
}

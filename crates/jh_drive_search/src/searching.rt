//! The first candidate of a test that fails. `specs/DriveSearch.antt` has the rule.

ghost use Rattle.std.specs.Prelude.{◌≡◌, ◌≢◌, ◌++◌, ◌<◌, ◌+◌, ◌^◌, All, IfErr, List, Ok, ℕ, ℤ};
ghost use Rattle.std.specs.Prelude.{MatchResult, Option};
ghost use Rattle.std.specs.Io.KnownBytes.{Appends};
ghost use Rattle.toml.specs.View.{table_view};
ghost use Rattle.jh_checkers.specs.declared.finding.Judging.{Judging};
ghost use Rattle.jh_drive.specs.Drive.{IsNotWritten};
ghost use Rattle.jh_drive.specs.declared.error.DriveError.TheVariants as DriveErrors;
ghost use Rattle.jh_drive_settings.specs.Settings.{AreDriveSettingsOf};
ghost use Rattle.jh_lines.specs.ByLines.{left_by_lines};
ghost use Rattle.jh_settings.specs.declared.error.SettingsError.{SettingsError};
ghost use Rattle.jh_test_settings_texts.specs.UpToSchedule.{AreSettingsUpToSeedAndSchedule};
ghost use Rattle.jh_test_settings_texts.specs.WritableEntries.{IsWritableTestEntry, test_in_order};
ghost use Rattle.jh_txn.specs.declared.model.ConsistencyModel.{ConsistencyModel};
ghost use Rattle.jh_drive_search.specs.DriveSearch as rule;
ghost use Rattle.jh_drive_search.specs.DriveSearch.{IsFound, IsSearchBy, IsSearched, MeansSettings};
ghost use Rattle.jh_drive_search.specs.DriveSearch.{found_heading, none_found_line};
ghost use Rattle.jh_drive_search.specs.SearchInside.{HasEnded, IsFailing};

use crate::options::TrialOptions;
use crate::settings::SearchSettings;
use jh_checkers::Judging;
use jh_drive::{DriveError, judging_of, write_bytes, write_test_report};
use jh_drive_settings::DriveSettings;
use jh_lines::ByLines;
use jh_reports::{DONE, INVALID, Output, UNKNOWN};
use jh_test_candidates::test_candidate;
use jh_test_parts::Test;
use jh_test_settings_texts::{settings_with, time_limits_are_writable};
use jh_trials::{Trial, hold_trial};
use std::alloc::Global;
use std::io::{BufRead, Write};
use toml::Table;

/// What the trials of candidates came to.
#[derive(Drop)]
pub(crate) enum Searched {
    /// The trial of the first candidate that fails, by its number, and what was found in its history.
    Failing {
        number: u64,
        trial: Trial,
        judged: Output,
    },
    /// None fails, and of so many the verdict is unknown.
    None {
        unknown: u64,
    },
}

/// Tries candidates one after another, up to the first that fails.
fn try_candidates<B: BufRead, W: Write>(
    alloc: Global,
    test: &Test,
    judging: Judging<'_>,
    options: &TrialOptions,
    lines: &mut ByLines<B>,
    writer: &mut W,
) -> Result<Searched, DriveError>
    requires { options.now.from + options.now.runs < 2 ^ 64 }
    ensures { MatchResult result
        (HasEnded test.now judging.entry options.now
        (left_by_lines B.remaining lines.old) (left_by_lines B.remaining lines.new)
        (W.contents writer.old) (W.contents writer.new))
        (rule.BreaksOff test.now judging.entry options.now
        (left_by_lines B.remaining lines.old) (left_by_lines B.remaining lines.new)
        (W.contents writer.old) (W.contents writer.new)) }
{
    let mut unknown = 0;
    let mut read = 0;
    for index in 0..options.runs {
        let number = options.from + index;
        let candidate = test_candidate(alloc, test, options.palette, options.faults, number)?;
        let mut trial = Trial::begin(alloc, candidate, number, read)?;
        let judged = hold_trial(alloc, &mut trial, judging, lines, writer)?;
        if judged.status == INVALID {
            return Ok(Searched::Failing {
                number,
                trial,
                judged,
            });
        }
        unknown += u64::from(judged.status == UNKNOWN);
        read = trial.read();
    }
    Ok(Searched::None { unknown })
}

/// Writes the line `:found`, and behind it the settings of a candidate.
fn write_found<W: Write>(
    alloc: Global,
    table: Table,
    candidate: &Test,
    writer: &mut W,
) -> Result<(), DriveError>
    requires known { (initial : Option ℤ) × (model : ConsistencyModel) × (budget : ℕ)
        × AreSettingsUpToSeedAndSchedule (table_view table) candidate.now initial model budget }
    requires seed { candidate.now.seed < 2 ^ 63 }
    requires written { All IsWritableTestEntry candidate.now.schedule }
    ensures { MatchResult result
        (λ _. (settings : List ℕ)
        × Appends (W.contents writer.old) (W.contents writer.new) (found_heading ++ settings)
        × ((initial : Option ℤ) (model : ConsistencyModel) (budget : ℕ)
        → AreSettingsUpToSeedAndSchedule (table_view table) candidate.now initial model budget
        → AreDriveSettingsOf settings (test_in_order candidate.now) initial model budget))
        IsNotWritten }
{
    let settings = settings_with(alloc, table, candidate)?;
    write_bytes(writer, b":found\n")?;
    write_bytes(writer, settings.as_bytes())?;
    Ok(())
}

/// Writes that none of so many candidates fails, and of how many the verdict is unknown.
fn write_none<W: Write>(
    alloc: Global,
    tried: u64,
    unknown: u64,
    writer: &mut W,
) -> Result<(), DriveError>
    ensures { MatchResult result
        (λ _. Appends (W.contents writer.old) (W.contents writer.new) (none_found_line tried unknown))
        IsNotWritten }
{
    let line = format!(in alloc; ":none {{:tried {tried}, :unknown {unknown}}}\n")?;
    write_bytes(writer, line.as_bytes())
}

/// The status of a search that found none.
fn none_status(unknown: u64) -> u8
    ensures { result ≡ rule.none_status unknown }
{
    if unknown == 0 { DONE } else { UNKNOWN }
}

/// Writes the report of a test that fails, the line `:found`, and the settings that mean it.
fn write_failing<W: Write>(
    alloc: Global,
    settings: SearchSettings,
    options: &TrialOptions,
    number: u64,
    trial: &Trial,
    judged: &Output,
    writer: &mut W,
) -> Result<(), DriveError>
    requires means { MeansSettings settings }
    ensures { (judging : Judging) (input rest before : Option (List ℕ))
        → judged.now.status ≡ 1
        → IsFailing settings.settings.test judging options.now
        input rest before (W.contents writer.old) number trial.now judged.now.text.items
        → MatchResult result
        (λ _. IsFound settings.settings.test judging options.now
        input rest before (W.contents writer.new)
        settings.settings.initial settings.settings.model settings.settings.budget)
        IsNotWritten }
{
    // So settings can say the candidate.
    time_limits_are_writable();
    write_test_report(alloc, trial.conversation(), judged, writer)?;
    let test = &settings.settings.test;
    let candidate = test_candidate(alloc, test, options.palette, options.faults, number)?;
    write_found(alloc, settings.table, &candidate, writer)
}

/// Writes what the trials came to, and gives the status.
fn write_searched<W: Write>(
    alloc: Global,
    settings: SearchSettings,
    options: &TrialOptions,
    searched: &Searched,
    writer: &mut W,
) -> Result<u8, DriveError>
    requires means { MeansSettings settings }
    ensures { (judging : Judging) (input rest before : Option (List ℕ))
        → HasEnded settings.settings.test judging options.now
        input rest before (W.contents writer.old) searched.now
        → MatchResult result
        (λ status. IsSearched settings.settings.test judging options.now
        input rest before (W.contents writer.new)
        settings.settings.initial settings.settings.model settings.settings.budget (Ok status))
        IsNotWritten }
{
    match searched {
        Searched::Failing {
            number,
            trial,
            judged,
        } => {
            write_failing(alloc, settings, options, *number, trial, judged, writer)?;
            Ok(INVALID)
        }
        Searched::None { unknown } => {
            write_none(alloc, options.runs, *unknown, writer)?;
            Ok(none_status(*unknown))
        }
    }
}

/// Tries candidates of a test of a real database, one after another in one conversation: before each it tells
/// `{:type :test, :number I, :seed S}`, and holds the test once the adapter has answered `:ready`. It goes on to
/// the first of which the history is not valid, and writes its report, the line `:found`, and behind it the
/// settings that mean this candidate; or a line `:none` with how many were tried, and of how many it is not
/// known. The answer is the exit status: 1 where one was found, 0 where all are valid, 2 where some are unknown.
///
/// A reader that blocks may keep it waiting. It takes memory for one test at a time.
///
/// Errors, behind the tests that came to their end and with the report of the one that did not, if it had begun:
/// `Reply` with the first line that was no reply, by its number over all tests, `RepliesEnded`, `Read` and
/// `TooManyTurns`; `Mismatch` where a history can't be judged; `Write`; `OutOfMemory`. No other.
pub fn search_drive<B: BufRead, W: Write>(
    alloc: Global,
    settings: SearchSettings,
    options: &TrialOptions,
    lines: &mut ByLines<B>,
    writer: &mut W,
) -> Result<u8, DriveError>
    requires within { options.now.from + options.now.runs < 2 ^ 64 }
    requires means { MeansSettings settings }
    ensures searched { IsSearchBy settings options.now
        (left_by_lines B.remaining lines.old) (left_by_lines B.remaining lines.new)
        (W.contents writer.old) (W.contents writer.new) result }
    ensures taken { (error : SettingsError) → IfErr result (λ e. e ≢ DriveErrors.Settings error) }
{
    let DriveSettings {
        test,
        initial,
        model,
        budget,
    } = &settings.settings;
    let judging = judging_of(test, *initial, *model, *budget);
    let searched = try_candidates(alloc, test, judging, options, lines, writer)?;
    write_searched(alloc, settings, options, &searched, writer)
}

//! One trial of the test with a part of its schedule. `specs/ShrinkInside.antt` says what is known of it.

ghost use Rattle.std.specs.Prelude.{◌≡◌, MatchResult};
ghost use Rattle.jh_lines.specs.ByLines.{left_by_lines};
ghost use Rattle.jh_drive_shrink.specs.DriveShrink.{settings_judging};
ghost use Rattle.jh_drive_shrink.specs.ShrinkInside.{FailsTest, IsTestHeld};

use jh_checkers::Judging;
use jh_drive::{DriveError, judging_of};
use jh_drive_settings::DriveSettings;
use jh_lines::ByLines;
use jh_reports::Output;
use jh_test_parts::Test;
use jh_trials::{Trial, hold_trial};
use std::alloc::Global;
use std::io::{BufRead, Write};

/// A trial that was held to its end, and what was found in its history.
#[derive(Drop)]
pub(crate) struct HeldTrial {
    pub(crate) trial: Trial,
    pub(crate) judged: Output,
}

/// By what the history of a test is judged.
pub(crate) fn judging_by(settings: &DriveSettings) -> Judging<'static>
    ensures { result ≡ settings_judging settings.now }
{
    let DriveSettings {
        test,
        initial,
        model,
        budget,
    } = settings;
    judging_of(test, *initial, *model, *budget)
}

/// Holds the trial of a test, behind so many trials in which so many lines were read.
///
/// Errors: those of `hold_trial`.
pub(crate) fn hold_test<B: BufRead, W: Write>(
    alloc: Global,
    test: Test,
    judging: Judging<'_>,
    number: u64,
    read: u64,
    lines: &mut ByLines<B>,
    writer: &mut W,
) -> Result<HeldTrial, DriveError>
    ensures { MatchResult result
        (IsTestHeld test judging.entry number read
        (left_by_lines B.remaining lines.old) (left_by_lines B.remaining lines.new)
        (W.contents writer.old) (W.contents writer.new))
        (FailsTest test judging.entry number read
        (left_by_lines B.remaining lines.old) (left_by_lines B.remaining lines.new)
        (W.contents writer.old) (W.contents writer.new)) }
{
    let mut trial = Trial::begin(alloc, test, number, read)?;
    let judged = hold_trial(alloc, &mut trial, judging, lines, writer)?;
    Ok(HeldTrial { trial, judged })
}

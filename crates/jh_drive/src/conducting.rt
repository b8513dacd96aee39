//! A test of a real database, from its settings to its report. `specs/Drive.antt` has the rule.

ghost use Rattle.std.specs.Prelude.{◌≡◌, IfErr, None, Some, ℤ, Option};
ghost use Rattle.jh_drive.specs.Drive as rule;
ghost use Rattle.jh_conversation.specs.Conversations.{IsTestBegun};
ghost use Rattle.jh_drive.specs.Drive.{IsAnswered, IsDriven};
ghost use Rattle.jh_test_parts.specs.Test.{TestValue};
ghost use Rattle.jh_settings.specs.declared.error.SettingsError.{SettingsError};
ghost use Rattle.jh_drive.specs.declared.error.DriveError.TheVariants as DriveErrors;

use crate::calls::CallObserver;
use crate::error::DriveError;
use crate::report::report_test;
use jh_checkers::Judging;
use jh_conversation::{BadLine, Conversation};
use jh_drive_settings::{DriveSettings, drive_settings_of};
use jh_lines::{Ending, Machine, Streams, converse_over};
use jh_test_parts::Test;
use jh_txn::ConsistencyModel;
use std::alloc::Global;
use std::io::{Read, Write};

/// By what the history of a test is judged: from what a register holds at first, by the model that
/// transactions are to keep, reaching at most so many configurations.
pub fn judging_of(
    test: &Test,
    initial: Option<i64>,
    model: ConsistencyModel,
    budget: u64,
) -> Judging<'static>
    ensures { result ≡ rule.judging_of test.now initial model budget }
{
    Judging {
        initial,
        model: Some(model),
        ..Judging::by(test.workload().checker(), budget)
    }
}

/// Why a conversation did not come to its end. `Over` never comes here: `drive_answer` has an answer of
/// its own for a test that is over.
fn ended_early(ending: Ending) -> DriveError
    ensures { result ≡ rule.ended_early ending }
{
    match ending {
        Ending::ReadFailed(_) => DriveError::Read,
        Ending::WriteFailed(_) => DriveError::Write,
        Ending::OutOfMemory => DriveError::OutOfMemory,
        Ending::TooManyTurns => DriveError::TooManyTurns,
        Ending::InputEnded | Ending::Over => DriveError::RepliesEnded,
    }
}

/// How a test ends whose conversation is held: by the first line that was no reply, where there was one;
/// else by the exit status of its verdict, where it came to its end, and by what ended it early, where not.
pub fn drive_answer(
    bad: Option<BadLine>,
    is_over: bool,
    ending: Ending,
    status: u8,
) -> Result<u8, DriveError>
    ensures { result ≡ rule.drive_answer bad is_over ending status }
{
    if let Some(BadLine { number, why }) = bad {
        return Err(DriveError::Reply { number, why });
    }
    if is_over {
        Ok(status)
    } else {
        Err(ended_early(ending))
    }
}

/// Holds a conversation that has begun, and writes its report.
fn hold<R: Read, W: Write, O: CallObserver>(
    alloc: Global,
    conversation: &mut Conversation,
    judging: Judging<'_>,
    streams: &mut Streams<R, W>,
    observer: &mut O,
) -> Result<u8, DriveError>
    ensures { (t : TestValue) → IsTestBegun t conversation.old → IsAnswered t judging.entry
        (R.remaining streams.old.reader) (R.remaining streams.new.reader)
        (W.contents streams.old.writer) (W.contents streams.new.writer) result }
{
    let ending = converse_over(alloc, streams, conversation);
    match ending {
        Ending::WriteFailed(_) => return Err(DriveError::Write),
        Ending::OutOfMemory => return Err(DriveError::OutOfMemory),
        Ending::Over | Ending::InputEnded | Ending::ReadFailed(_) | Ending::TooManyTurns => {}
    }
    let bad = conversation.bad();
    let is_over = conversation.is_over();
    match report_test(alloc, conversation, judging, &mut streams.writer, observer) {
        Ok(status) => drive_answer(bad, is_over, ending, status),
        Err(error) => Err(error),
    }
}

/// Conducts a test, and writes its report.
fn conduct<R: Read, W: Write, O: CallObserver>(
    alloc: Global,
    test: Test,
    judging: Judging<'_>,
    streams: &mut Streams<R, W>,
    observer: &mut O,
) -> Result<u8, DriveError>
    ensures { IsAnswered test judging.entry
        (R.remaining streams.old.reader) (R.remaining streams.new.reader)
        (W.contents streams.old.writer) (W.contents streams.new.writer) result }
{
    let mut conversation = Conversation::begin(alloc, test)?;
    hold(alloc, &mut conversation, judging, streams, observer)
}

/// Conducts the test of a real database that settings in TOML set: tells the writer all that is due
/// before it reads on, hears the reader until the test is over or the input ends, and writes the report
/// behind it. The answer is the exit status of the verdict: 0 where the history is valid, 1 where it is
/// not, 2 where that is not known. It tells an observer how the calls ended, once the conversation is over.
///
/// A reader that blocks may keep it waiting. It takes memory in proportion to the history, and to the
/// longest line; an answer to a line takes time in proportion to the clients and to what is told.
///
/// Errors: `Settings`, before anything is told or read; then, with all of the report written, `Reply` with
/// the first line that was no reply, `RepliesEnded` where the input ended before the test did,
/// `Read` where the input could not be read on, `TooManyTurns` after 2^64 - 1 turns; `Mismatch`
/// where the history can't be judged, with all of the report written but its last line; `Write`;
/// `OutOfMemory`. No other: neither `SettingsRead` nor `BadPalette`.
pub fn drive<R: Read, W: Write, O: CallObserver>(
    alloc: Global,
    settings: &[u8],
    streams: &mut Streams<R, W>,
    observer: &mut O,
) -> Result<u8, DriveError>
    ensures driven { IsDriven settings.now
        (R.remaining streams.old.reader) (R.remaining streams.new.reader)
        (W.contents streams.old.writer) (W.contents streams.new.writer) result }
    ensures unread { (error : SettingsError) → IfErr result
        (λ e. e ≡ DriveErrors.Settings error → streams.new ≡ streams.old) }
{
    let settings = match drive_settings_of(alloc, settings) {
        Ok(settings) => settings,
        Err(error) => return Err(DriveError::from(error)),
    };
    let DriveSettings {
        test,
        initial,
        model,
        budget,
    } = settings;
    let judging = judging_of(&test, initial, model, budget);
    conduct(alloc, test, judging, streams, observer)
}

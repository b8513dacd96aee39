//! Who tries the test with parts of its schedule, for `jh_shrink`. `specs/ShrinkInside.antt` says what is known.

ghost use Rattle.std.specs.Prelude.{◌≡◌, ◌⊎◌, ◌+◌, ◌≤◌, ℕ, IfErr, IfOk, IsSome, List};
ghost use Rattle.std.specs.Prelude.{MatchResult, Option, Some};
ghost use Rattle.jh_drive.specs.declared.error.DriveError.TheVariants as DriveErrors;
ghost use Rattle.jh_lines.specs.ByLines.{left_by_lines};
ghost use Rattle.jh_drive_shrink.specs.DriveShrink.{BreaksShrinking, settings_judging, test_of_part};
ghost use Rattle.jh_drive_shrink.specs.PartsInside.{all_places, part_at, place_numbers};
ghost use Rattle.jh_shrink.specs.Shrunk.{IsBudget, IsShrunk, RefusesShrink};
ghost use Rattle.jh_drive_shrink.specs.ShrinkInside.{FailsTest, HasAnswered, HaveAnswered, IsLearnt};
ghost use Rattle.jh_drive_shrink.specs.ShrinkInside.{IsLeftByTrials, IsSmallestOf, IsTestHeld, IsUnlearnt};
ghost use Rattle.jh_drive_shrink.specs.ShrinkInside.{AreAt, IsUnasked, KeepsAnswers};

use crate::parts::{all_places, numbers_of, test_at};
use crate::told::Told;
use crate::trying::{HeldTrial, hold_test, judging_by};
use jh_drive::DriveError;
use jh_drive_settings::DriveSettings;
use jh_lines::ByLines;
use jh_reports::INVALID;
use jh_shrink::{ScheduleJudge, ShrinkError, ShrinkObserver, Shrunk, shrink_by};
use jh_simnode::Schedule;
use std::alloc::{AllocError, Global};
use std::io::{BufRead, Write};

/// What a trial of a part answered.
#[derive(Drop)]
pub(crate) struct Answer {
    /// The places of its entries.
    places: Vec<u32>,
    failed: bool,
}

/// How far the trials are. What was answered is kept, so that it stands however often more is asked.
#[derive(Drop)]
pub(crate) struct Progress {
    /// How often it was asked.
    asked: u64,
    /// How many lines were read.
    read: u64,
    answers: Vec<Answer>,
    /// Why a trial did not come to its end. Behind it none is held.
    error: Option<DriveError>,
}

/// Tries the test with each part that it is asked about. It owns no memory, and holds no value with a reference
/// inside: else nothing would be known of what was lent to it once it is gone.
#[derive(Drop)]
struct TrialJudge<'t, 's, B, W> {
    alloc: Global,
    settings: &'t DriveSettings,
    lines: &'s mut ByLines<B>,
    writer: &'s mut W,
    progress: &'s mut Progress,
}

/// What is left of a schedule, and how far the trials are.
#[derive(Drop)]
pub(crate) struct Smallest {
    /// What is known of it.
    pub(crate) told: Told,
    pub(crate) places: Schedule,
    /// How many trials were held, and how many lines were read in them.
    pub(crate) held: u64,
    pub(crate) read: u64,
}

/// Keeps what a trial of the part at these places answered, and says whether it failed.
fn learn(
    alloc: Global,
    progress: &mut Progress,
    places: &Schedule,
    held: &HeldTrial,
) -> Result<bool, AllocError>
    ensures learnt { IfOk result
        (IsLearnt progress.old progress.new (place_numbers places.now) held.now) }
    ensures same { IfErr result (λ _. IsUnlearnt progress.old progress.new) }
{
    let failed = held.judged.status == INVALID;
    let places = numbers_of(alloc, places)?;
    progress.answers.push(Answer { places, failed })?;
    progress.read = held.trial.read();
    Ok(failed)
}

impl<B: BufRead, W: Write> TrialJudge<'_, '_, B, W> {
    /// Tries the part at these places, which is the trial of this number.
    fn try_part(&mut self, number: u64, places: &Schedule) -> Result<HeldTrial, DriveError>
        ensures same { (self.new.settings ≡ self.old.settings)
            × (self.new.lines.ghost_name ≡ self.old.lines.ghost_name)
            × (self.new.writer.ghost_name ≡ self.old.writer.ghost_name)
            × (self.new.progress ≡ self.old.progress) }
        ensures tried { MatchResult result
            (IsTestHeld
            (test_of_part self.old.settings.now.test (part_at self.old.settings.now.test places.now))
            (settings_judging self.old.settings.now) number self.old.progress.now.read
            (left_by_lines B.remaining self.old.lines.now) (left_by_lines B.remaining self.new.lines.now)
            (W.contents self.old.writer.now) (W.contents self.new.writer.now))
            (FailsTest
            (test_of_part self.old.settings.now.test (part_at self.old.settings.now.test places.now))
            (settings_judging self.old.settings.now) number self.old.progress.now.read
            (left_by_lines B.remaining self.old.lines.now) (left_by_lines B.remaining self.new.lines.now)
            (W.contents self.old.writer.now) (W.contents self.new.writer.now)) }
    {
        let part = test_at(self.alloc, &self.settings.test, places)?;
        hold_test(
            self.alloc,
            part,
            judging_by(self.settings),
            number,
            self.progress.read,
            self.lines,
            self.writer,
        )
    }

    /// Tries the part at these places, which is the trial of this number, and keeps the answer: whether it failed.
    fn answer_by_trial(&mut self, number: u64, places: &Schedule) -> Result<bool, DriveError>
        ensures same { (self.new.settings ≡ self.old.settings)
            × (self.new.lines.ghost_name ≡ self.old.lines.ghost_name)
            × (self.new.writer.ghost_name ≡ self.old.writer.ghost_name)
            × (self.new.progress.ghost_name ≡ self.old.progress.ghost_name)
            × (self.new.progress.now.asked ≡ self.old.progress.now.asked)
            × (self.new.progress.now.error ≡ self.old.progress.now.error) }
        ensures kept { KeepsAnswers self.old.progress.now self.new.progress.now }
        ensures answered { IfOk result
            (λ failed. HasAnswered self.new.progress.now places.now (Some failed)) }
        ensures went { (input before : Option (List ℕ))
            → HaveAnswered self.old.settings.now.test (settings_judging self.old.settings.now)
            input (left_by_lines B.remaining self.old.lines.now)
            before (W.contents self.old.writer.now) number self.old.progress.now
            → MatchResult result
            (λ _. HaveAnswered self.old.settings.now.test (settings_judging self.old.settings.now)
            input (left_by_lines B.remaining self.new.lines.now)
            before (W.contents self.new.writer.now) (number + 1) self.new.progress.now)
            (BreaksShrinking self.old.settings.now.test (settings_judging self.old.settings.now) (number + 1)
            input (left_by_lines B.remaining self.new.lines.now)
            before (W.contents self.new.writer.now)) }
    {
        let held = self.try_part(number, places)?;
        Ok(learn(self.alloc, self.progress, places, &held)?)
    }
}

impl<B: BufRead, W: Write> ScheduleJudge for TrialJudge<'_, '_, B, W> {
    ghost use Rattle.std.specs.Prelude.{None};
    ghost use Rattle.std.proofs.Common.{refl, ◌∙◌};

    ghost is_ready = { λ c. Unit {0} };

    ghost has_answered = { λ c. HasAnswered c.progress.now };

    ghost asked = { λ c. c.progress.now.asked };

    ghost becomes = { λ one next. (next.settings ≡ one.settings)
        × (next.lines.ghost_name ≡ one.lines.ghost_name)
        × (next.writer.ghost_name ≡ one.writer.ghost_name)
        × (next.progress.ghost_name ≡ one.progress.ghost_name)
        × KeepsAnswers one.progress.now next.progress.now
        × ((input before : Option (List ℕ))
        → AreAt one.settings.now.test (settings_judging one.settings.now) input (left_by_lines B.remaining one.lines.now)
        before (W.contents one.writer.now) one.progress.now
        → AreAt next.settings.now.test (settings_judging next.settings.now) input (left_by_lines B.remaining next.lines.now)
        before (W.contents next.writer.now) next.progress.now) };

    ghost stays = { λ one. (
      refl,
      refl,
      refl,
      refl,
      record {
        answers = λ answer it. it;
        none = λ it. it;
      },
      λ input before it. it,
    ) };

    ghost goes_on = { λ one next last first then. (
      then.0 ∙ first.0,
      then.1 ∙ first.1,
      then.2 ∙ first.2,
      then.3 ∙ first.3,
      record {
        answers = λ answer it. then.4.answers answer (first.4.answers answer it);
        none = λ it. then.4.none (first.4.none it);
      },
      λ input before it. then.5 input before (first.5 input before it),
    ) };

    ghost keeps = { λ one next schedule answer later said. (elim answer
        as (λ a. HasAnswered one.progress.now schedule a → HasAnswered next.progress.now schedule a) [
          | None ↦ λ it. later.4.none it
          | Some failed ↦ λ it. (it.0, later.4.answers it.0 it.1, it.2, it.3)
        ]) said };

    fn judge(&mut self, schedule: &Schedule) -> Option<bool> {
        let number = self.progress.asked;
        self.progress.asked += 1;
        if self.progress.error.is_some() {
            return None;
        }
        match self.answer_by_trial(number, schedule) {
            Ok(failed) => Some(failed),
            Err(error) => {
                self.progress.error = Some(error);
                None
            }
        }
    }
}

/// What is left, or why a trial did not come to its end.
fn smallest_of(
    shrunk: Result<Shrunk, ShrinkError>,
    progress: Progress,
) -> Result<Smallest, DriveError>
    requires { IfErr shrunk (λ e. e ≡ ShrinkError.Judge → IsSome progress.error) }
    ensures { MatchResult result (IsSmallestOf shrunk progress)
        (λ e. (progress.error ≡ Some e) ⊎ (e ≡ DriveErrors.OutOfMemory)) }
{
    let Progress {
        asked,
        read,
        error,
        ..
    } = progress;
    if let Some(error) = error {
        return Err(error);
    }
    let (told, places) = match shrunk {
        Ok(Shrunk::Minimal(places)) => (Told::Minimal, places),
        Ok(Shrunk::Budget(places)) => (Told::Budget, places),
        Ok(Shrunk::NotFailing(places)) => (Told::NotReproduced, places),
        Err(ShrinkError::OutOfMemory) => return Err(DriveError::OutOfMemory),
        Err(ShrinkError::Judge) => unreachable!(),
    };
    Ok(Smallest {
        told,
        places,
        held: asked,
        read,
    })
}

/// Makes the list of all places of the schedule small by trials, and keeps in `progress` how far
/// these are.
fn shrink_places<B: BufRead, W: Write, O: ShrinkObserver>(
    alloc: Global,
    settings: &DriveSettings,
    runs: u64,
    lines: &mut ByLines<B>,
    writer: &mut W,
    progress: &mut Progress,
    observer: &mut O,
) -> Result<Shrunk, ShrinkError>
    requires fresh { IsUnasked progress.old }
    ensures shrunk { MatchResult result
        (IsShrunk (HasAnswered progress.new) runs (all_places settings.now.test))
        (RefusesShrink (HasAnswered progress.new) (all_places settings.now.test)) }
    ensures within { progress.new.asked ≤ runs }
    ensures used_up { IfOk result (λ shrunk. IsBudget shrunk → progress.new.asked ≡ runs) }
    ensures went { AreAt settings.now.test (settings_judging settings.now)
        (left_by_lines B.remaining lines.old) (left_by_lines B.remaining lines.new)
        (W.contents writer.old) (W.contents writer.new) progress.new }
{
    let Ok(places) = all_places(alloc, &settings.test) else {
        return Err(ShrinkError::OutOfMemory);
    };
    let mut judge = TrialJudge {
        alloc,
        settings,
        lines,
        writer,
        progress,
    };
    shrink_by(alloc, places, &mut judge, runs, observer)
}

/// Makes the schedule of a test small by at most so many trials.
///
/// Errors: those of `hold_trial`, for the trial that did not come to its end; `OutOfMemory`.
pub(crate) fn shrink_by_trials<B: BufRead, W: Write, O: ShrinkObserver>(
    alloc: Global,
    settings: &DriveSettings,
    runs: u64,
    lines: &mut ByLines<B>,
    writer: &mut W,
    observer: &mut O,
) -> Result<Smallest, DriveError>
    ensures { MatchResult result
        (IsLeftByTrials settings.now.test (settings_judging settings.now)
        (left_by_lines B.remaining lines.old) (left_by_lines B.remaining lines.new)
        (W.contents writer.old) (W.contents writer.new) runs)
        (BreaksShrinking settings.now.test (settings_judging settings.now) runs
        (left_by_lines B.remaining lines.old) (left_by_lines B.remaining lines.new)
        (W.contents writer.old) (W.contents writer.new)) }
{
    let mut progress = Progress {
        asked: 0,
        read: 0,
        answers: Vec::new(alloc),
        error: None,
    };
    let shrunk = shrink_places(
        alloc,
        settings,
        runs,
        lines,
        writer,
        &mut progress,
        observer,
    );
    smallest_of(shrunk, progress)
}

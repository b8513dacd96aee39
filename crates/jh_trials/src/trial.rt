//! A test behind the line that tells of it. `specs/Trials.antt` has the rule.

ghost use Rattle.std.specs.Prelude.{◌≡◌, ◌++◌, IfOk, OnOk, string_bytes, true};
ghost use Rattle.jh_edn.specs.View.{views};
ghost use Rattle.jh_test_parts.specs.LineMeanings.{line_meaning_by};
ghost use Rattle.jh_trials.specs.Trials as rule;
ghost use Rattle.jh_trials.specs.Trials.{IsTrialBegun};

use jh_conversation::{BadLine, Conversation};
use jh_edn::{EdnError, Value, values_in_line};
use jh_test_parts::{Complaint, LineMeaning, Test, line_meaning};
use std::alloc::{AllocError, Global};
use std::marker::Model;
use std::str;

/// How far a trial is.
#[derive(Clone, Copy, Debug, PartialEq, Eq)]
pub enum Stage {
    /// The adapter has not answered the line of the test.
    Waiting,
    /// It has answered it by this line, which is not `:ready`: no call is made.
    Refused(BadLine),
    /// It has answered it by `:ready`, which was the line of this number.
    Begun(u64),
}

/// A test and where it stands: it waits for `:ready`, or its conversation is held. Once memory was
/// refused in the midst of a line it is used no more.
#[derive(Drop)]
pub struct Trial {
    alloc: Global,
    number: u64,
    conversation: Conversation,
    stage: Stage,
    read: u64,
}

impl Model for Trial {
    ghost use Rattle.jh_trials.specs.Trials.{TrialValue};

    ghost Value = { TrialValue };

    ghost use Rattle.std.specs.Coded.{codes};
    ghost use Rattle.jh_edn.specs.Code.{edn_coded};
    ghost use Rattle.jh_gen.specs.Code.{generator_coded};
    ghost use Rattle.jh_gen.specs.DriverState.{driver_coded};

    ghost coded = { Prim.hlevel (codes, edn_coded, generator_coded, driver_coded) };

    ghost view = { λ v. record {
      number = v.number;
      conversation = v.conversation;
      stage = v.stage;
      read = v.read;
    } };
}

/// The line that tells of a test, by its number and its seed.
fn test_line(alloc: Global, number: u64, seed: u64) -> Result<String, AllocError>
    ensures { IfOk result (λ line. string_bytes line ≡ rule.test_line number seed) }
{
    format!(in alloc; "{{:type :test, :number {number}, :seed {seed}}}\n")
}

/// Whether these values are the one keyword `:ready`.
fn are_ready(values: &[Value]) -> bool
    ensures { result ≡ rule.are_ready (views values.now) }
{
    match values {
        [value] => value.is_keyword("ready"),
        _ => false,
    }
}

/// Whether a line is `:ready`.
fn is_ready(alloc: Global, line: &[u8]) -> Result<bool, AllocError>
    ensures { IfOk result (λ ready. ready ≡ rule.is_ready line.now) }
{
    let Ok(text) = str::from_utf8(line) else {
        return Ok(false);
    };
    match values_in_line(alloc, text) {
        Ok(values) => Ok(are_ready(&values)),
        Err(EdnError::OutOfMemory) => Err(AllocError),
        Err(_) => Ok(false),
    }
}

/// How far a trial is behind the line of this number, which is not `:ready`.
fn stage_by_meaning(number: u64, meaning: &LineMeaning) -> Stage
    ensures { result ≡ rule.stage_by_meaning number (line_meaning_by meaning.now) }
{
    let why = match meaning {
        LineMeaning::Nothing | LineMeaning::Clock(_) => return Stage::Waiting,
        LineMeaning::Stop | LineMeaning::Op(_, _) => Complaint::NotReady,
        LineMeaning::Bad(why) => *why,
    };
    Stage::Refused(BadLine { number, why })
}

/// How far a trial that waits is behind the line of this number.
fn stage_behind(alloc: Global, number: u64, line: &[u8]) -> Result<Stage, AllocError>
    ensures { IfOk result (λ stage. stage ≡ rule.stage_behind_line number line.now Stage.Waiting) }
{
    if is_ready(alloc, line)? {
        return Ok(Stage::Begun(number));
    }
    let meaning = line_meaning(alloc, line)?;
    Ok(stage_by_meaning(number, &meaning))
}

impl Trial {
    /// The trial of a test by this number, where so many lines were read before it. Nothing of the
    /// test is told before the adapter has answered `:ready`.
    ///
    /// Error: memory was refused.
    pub fn begin(alloc: Global, test: Test, number: u64, read: u64) -> Result<Trial, AllocError>
        ensures { IfOk result (IsTrialBegun test number read) }
    {
        Ok(Trial {
            alloc,
            number,
            conversation: Conversation::begin(alloc, test)?,
            stage: Stage::Waiting,
            read,
        })
    }

    /// The first line that was no reply, by its number from 1 over the lines of all trials.
    pub fn bad(&self) -> Option<BadLine>
        ensures { result ≡ rule.trial_bad self.now }
    {
        match self.stage {
            Stage::Waiting => None,
            Stage::Refused(bad) => Some(bad),
            Stage::Begun(before) => self.conversation.bad().map(|bad| BadLine {
                number: before.saturating_add(bad.number),
                why: bad.why,
            }),
        }
    }

    /// How many lines were read by now, in this trial and in those before it.
    pub fn read(&self) -> u64
        ensures { result ≡ self.now.read }
    {
        self.read
    }

    /// Whether the adapter has answered `:ready`.
    pub fn has_begun(&self) -> bool
        ensures { result ≡ rule.has_begun self.now }
    {
        matches!(self.stage, Stage::Begun(_))
    }

    /// The test, and where it stands.
    pub fn conversation(&self) -> &Conversation
        ensures { result.now ≡ self.now.conversation }
    {
        &self.conversation
    }
}

impl jh_lines::Machine for Trial {
    ghost use Rattle.std.specs.Prelude.{[], false, if◌then◌else◌};
    ghost use Rattle.std.proofs.Common.{ap, refl, sym, true≢false, ◌∙◌};
    ghost use Rattle.jh_conversation.specs.Lines.{count_line, is_test_over, take_in, take_line};
    ghost use Rattle.jh_conversation.specs.Text.{said_lines};
    ghost use Rattle.jh_conversation.specs.Turn.{turn};
    ghost use Rattle.jh_test_parts.specs.LineMeanings.{line_meaning};
    ghost use Rattle.jh_trials.specs.Trials.{said_in_stage, conversation_in, is_over_in, is_trial_over};
    ghost use Rattle.jh_trials.specs.Trials.{lines_counted, stage_behind_line, trial_after, trial_answer};
    ghost use Rattle.jh_trials.specs.Trials.{trial_opening};
    ghost use Rattle.jh_trials.specs.declared.trial.Stage.TheVariants.{Begun, Refused, Waiting};

    ghost opening = { trial_opening };

    ghost after_line = { trial_after };

    ghost answer_to = { trial_answer };

    ghost has_finished = { is_trial_over };

    ghost stays_over = { λ v line over. (elim v.stage as (λ stage. is_over_in stage v.conversation ≡ true
        → (said_in_stage stage v.conversation line ≡ [])
        × (is_over_in (stage_behind_line (lines_counted v.read 1) line stage)
        (conversation_in stage v.conversation line) ≡ true)) [
          | Waiting ↦ λ never. absurd (true≢false (sym never))
          | Refused bad ↦ λ it. (refl, refl)
          | Begun before ↦ λ it. (
            ap (λ b. if b then [] else said_lines v.conversation.test
                (take_line v.conversation.test v.conversation.machine line)) it,
            ap (λ b. is_test_over (if b then count_line v.conversation.machine
                else turn v.conversation.test (take_in v.conversation.test (line_meaning line)
                (count_line v.conversation.machine)))) it ∙ it,
          )
        ]) over };

    fn open(&self, out: &mut Vec<u8>) -> Result<(), AllocError> {
        let line = test_line(self.alloc, self.number, self.conversation.test().seed())?;
        out.extend_from_slice(line.as_bytes())
    }

    fn answer(&mut self, line: &[u8], out: &mut Vec<u8>) -> Result<(), AllocError> {
        self.read = self.read.saturating_add(1);
        match self.stage {
            Stage::Waiting => {
                self.stage = stage_behind(self.alloc, self.read, line)?;
                if self.has_begun() {
                    self.conversation.open(out)?;
                }
                Ok(())
            }
            Stage::Refused(_) => Ok(()),
            Stage::Begun(_) => self.conversation.answer(line, out),
        }
    }

    fn is_over(&self) -> bool {
        match self.stage {
            Stage::Waiting => false,
            Stage::Refused(_) => true,
            Stage::Begun(_) => self.conversation.is_over(),
        }
    }
}

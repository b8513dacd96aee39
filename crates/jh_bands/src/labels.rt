//! What names faults, and what records of the nemesis say. `specs/Bands.antt` and `specs/Lines.antt`
//! have the rules.

ghost use Rattle.std.specs.Prelude.{◌≡◌, ◌++◌, IfOk, OnOk, option_map};
ghost use Rattle.jh_edn.specs.View.{views};
ghost use Rattle.jh_ops.specs.Operation.{operation};
ghost use Rattle.jh_bands.specs.Bands as bands;
ghost use Rattle.jh_bands.specs.BandsInside.{view_answered, view_asked, view_begun, view_step};
ghost use Rattle.jh_bands.specs.Lines as rule;
ghost use Rattle.jh_bands.specs.Lines.{answer_in_words, step_outcome_text, step_in_words};

use crate::step::{Answered, Asked, Fault, Step, answered_step, asked_in, is_done_code};
use crate::words::{write_asked, write_integer, write_words};
use jh_edn::Value;
use jh_ops::Op;
use std::alloc::{AllocError, Global};

/// Writes what names a fault.
pub(crate) fn write_fault(fault: Fault, text: &mut Vec<u8>) -> Result<(), AllocError>
    ensures { OnOk result (text.new.items
        ≡ text.old.items ++ bands.label_of (view_begun fault.entry)) }
{
    write_integer(fault.id, text)?;
    text.extend_from_slice(b": ")?;
    write_words(fault.value, text)
}

/// Writes a step in words.
fn write_step(step: Step, text: &mut Vec<u8>) -> Result<(), AllocError>
    ensures { OnOk result (text.new.items
        ≡ text.old.items ++ step_in_words (view_step step.entry)) }
{
    match step {
        Step::Begin(fault) => {
            text.extend_from_slice(b"begin ")?;
            write_fault(fault, text)
        }
        Step::Withdraw(id) => {
            text.extend_from_slice(b"withdraw ")?;
            write_integer(id, text)
        }
        Step::WithdrawAll => text.extend_from_slice(b"withdraw all"),
        Step::Undo => text.extend_from_slice(b"undo"),
        Step::Redo => text.extend_from_slice(b"redo"),
    }
}

/// Writes what became of a step, by the code of its answer.
fn write_outcome(code: i64, text: &mut Vec<u8>) -> Result<(), AllocError>
    ensures { OnOk result (text.new.items ≡ text.old.items ++ step_outcome_text code) }
{
    if is_done_code(code) {
        text.extend_from_slice(b": done")
    } else {
        text.extend_from_slice(b": refused, code ")?;
        write_integer(code, text)
    }
}

/// Writes a step with what became of it.
fn write_answered(answered: Answered, text: &mut Vec<u8>) -> Result<(), AllocError>
    ensures { OnOk result (text.new.items
        ≡ text.old.items ++ answer_in_words (view_answered answered.entry)) }
{
    write_step(answered.step, text)?;
    write_outcome(answered.code, text)
}

/// Writes the label of a record of the nemesis that asks for no step that is known.
fn write_answer(waiting: Option<Asked>, op: &Op, text: &mut Vec<u8>) -> Result<(), AllocError>
    ensures { OnOk result (text.new.items ≡ text.old.items
        ++ rule.answer_label (option_map view_asked waiting.entry) (operation op.now)) }
{
    match answered_step(waiting, op) {
        Some(answered) => write_answered(answered, text),
        None => write_asked(&op.f, &op.value, text),
    }
}

/// Writes the label of a record of the nemesis, behind the one that asked for the step that waits.
fn write_line(
    steps: &[Value],
    waiting: Option<Asked>,
    op: &Op,
    text: &mut Vec<u8>,
) -> Result<(), AllocError>
    ensures { OnOk result (text.new.items ≡ text.old.items ++ rule.line_label
        (views steps.now) (option_map view_asked waiting.entry) (operation op.now)) }
{
    match asked_in(steps, op) {
        Some(asked) => write_step(asked.step, text),
        None => write_answer(waiting, op, text),
    }
}

/// What names a fault.
pub(crate) fn fault_label(alloc: Global, fault: Fault) -> Result<Vec<u8>, AllocError>
    ensures { IfOk result (λ label. label.items ≡ bands.label_of (view_begun fault.entry)) }
{
    let mut label = Vec::new(alloc);
    write_fault(fault, &mut label)?;
    Ok(label)
}

/// The label of a record of the nemesis, behind the one that asked for the step that waits.
pub(crate) fn line_label(
    alloc: Global,
    steps: &[Value],
    waiting: Option<Asked>,
    op: &Op,
) -> Result<Vec<u8>, AllocError>
    ensures { IfOk result (λ label. label.items ≡ rule.line_label
        (views steps.now) (option_map view_asked waiting.entry) (operation op.now)) }
{
    let mut label = Vec::new(alloc);
    write_line(steps, waiting, op, &mut label)?;
    Ok(label)
}

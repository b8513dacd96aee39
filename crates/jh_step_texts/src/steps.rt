//! Steps as EDN values, read. `specs/StepText.antt` has the rule, case by case; a new step is a new
//! case there.

ghost use Rattle.std.specs.Prelude.{◌≡◌, IfOk, length, option_and_then};
ghost use Rattle.jh_edn.specs.View.{view};
ghost use Rattle.jh_step_texts.specs.FaultText.{IsParsedAs, IsRingOverAll, fault_spelling};
ghost use Rattle.jh_step_texts.specs.StepText as rule;
ghost use Rattle.jh_step_texts.specs.StepText.{parsed_step, parsed_begin, fault_of_begin};
ghost use Rattle.jh_step_texts.specs.StepText.{parsed_withdraw, parsed_keyword};
ghost use Rattle.jh_nemesis.specs.Steps.{FitsNodes};

use crate::{faults, spelling};
use jh_edn::Value;
use jh_env::{FaultError, Nodes};
use jh_nemesis::Step;
use std::alloc::{AllocError, Global};
use thiserror::Error;

/// Why a value is refused as a step.
#[derive(Clone, Copy, Debug, PartialEq, Eq, Error)]
pub enum StepTextError {
    #[error("bad step")]
    BadStep,
    #[error("bad id")]
    BadId,
    #[error("unknown node")]
    UnknownNode,
    #[error("self link")]
    SelfLink,
    #[error("bad amount")]
    BadAmount,
    #[error("out of memory")]
    OutOfMemory,
}

impl From<FaultError> for StepTextError {
    ghost use Rattle.std.specs.Prelude.{◌≡◌};
    ghost use Rattle.jh_step_texts.specs.FaultText.{refusal_of};

    ghost from_gives = { λ fault e. e ≡ refusal_of fault };

    fn from(fault: FaultError) -> StepTextError {
        match fault {
            FaultError::UnknownNode => StepTextError::UnknownNode,
            FaultError::SelfLink => StepTextError::SelfLink,
            FaultError::BadAmount => StepTextError::BadAmount,
            FaultError::OutOfMemory => StepTextError::OutOfMemory,
        }
    }
}

impl From<AllocError> for StepTextError {
    ghost use Rattle.std.specs.Prelude.{◌≡◌};
    ghost use Rattle.jh_step_texts.specs.declared.steps.StepTextError.TheVariants.{OutOfMemory};

    ghost from_gives = { λ _ e. e ≡ OutOfMemory };

    fn from(_: AllocError) -> StepTextError {
        StepTextError::OutOfMemory
    }
}

/// The id that an integer gives, where it is in the range of ids.
fn id_of(id: i64) -> Option<u32>
    ensures { result ≡ rule.id_of id }
{
    u32::try_from(id).ok()
}

/// The begin of a fault under this id, or why it is refused.
fn begin_of(alloc: Global, nodes: &Nodes, id: i64, fault: &Value) -> Result<Step, StepTextError>
    ensures parsed { IsParsedAs result (parsed_begin nodes.now id (view fault.now)) }
    ensures ring { IfOk result
        (λ _. IsRingOverAll (length nodes.now) (fault_spelling (view fault.now))) }
    ensures fits { IfOk result (FitsNodes (length nodes.now)) }
{
    let Some(spelled) = spelling::fault_spelling(fault) else {
        return Err(StepTextError::BadStep);
    };
    let Some(id) = id_of(id) else {
        return Err(StepTextError::BadId);
    };
    match faults::fault_of(alloc, nodes, spelled) {
        Ok(fault) => Ok(Step::Begin(id, fault)),
        Err(refusal) => Err(refusal),
    }
}

/// The withdrawal of the fault of this id, or why it is refused.
fn withdraw_of(id: i64) -> Result<Step, StepTextError>
    ensures { IsParsedAs result (parsed_withdraw id) }
{
    match id_of(id) {
        Some(id) => Ok(Step::Withdraw(id)),
        None => Err(StepTextError::BadId),
    }
}

/// The step that a keyword alone means, or why it is refused.
fn step_of_keyword(name: &str) -> Result<Step, StepTextError>
    ensures { IsParsedAs result (parsed_keyword name.now) }
{
    match name {
        "withdraw-all" => Ok(Step::WithdrawAll),
        "undo" => Ok(Step::Undo),
        "redo" => Ok(Step::Redo),
        _ => Err(StepTextError::BadStep),
    }
}

/// The step that a value means, its nodes given by their names: `[:begin ID FAULT]`,
/// `[:withdraw ID]`, `[:withdraw-all]`, `[:undo]` or `[:redo]`, ids from 0 to 4,294,967,295. A
/// fault is `[:cut LINKS]`, `[:slow MS LINKS]`, `[:loss LEVEL LINKS]`, `[:fix MS LINKS]`,
/// `[:pause NODES]`, `[:kill NODES]` or `[:bump {NODE MS, ..}]`; or it is the cut of a grudge over
/// all nodes: `[:halves]`, `[:split-one NODE]`, `[:bridge]`, `[:ring]`, which takes the nodes as
/// they are listed, or `[:ring SEED]`, which shuffles them first, for one seed always alike, and
/// leaves none out. `named_faults_are_grudges` ties these to their grudges.
///
/// Errors, in this order: `BadStep` where the value, or the fault in it, has none of these shapes;
/// `BadId`; then over the whole fault `UnknownNode`, `SelfLink`, `BadAmount` also where a node is
/// bumped twice or the seed is below zero; `OutOfMemory`.
pub fn step_of_value(alloc: Global, nodes: &Nodes, value: &Value) -> Result<Step, StepTextError>
    ensures parsed { IsParsedAs result (parsed_step nodes.now (view value.now)) }
    ensures ring { IfOk result (λ _. IsRingOverAll (length nodes.now)
        (option_and_then fault_spelling (fault_of_begin (view value.now)))) }
    ensures fits { IfOk result (FitsNodes (length nodes.now)) }
{
    let Some(parts) = value.elements() else {
        return Err(StepTextError::BadStep);
    };
    match parts {
        [Value::Keyword(name)] => step_of_keyword(name.as_str()),
        [Value::Keyword(name), Value::Int(id)] if name.as_str() == "withdraw" => withdraw_of(*id),
        [Value::Keyword(name), Value::Int(id), fault] if name.as_str() == "begin" => {
            begin_of(alloc, nodes, *id, fault)
        }
        _ => Err(StepTextError::BadStep),
    }
}

//! Steps as EDN values, written. `specs/StepWritten.antt` has the rule, case by case.

ghost use Rattle.std.specs.Prelude.{◌≡◌, ◌∷◌, [], pos, length, IfOk};
ghost use Rattle.jh_edn.specs.Edn.{int, keyword};
ghost use Rattle.jh_edn.specs.View.{view, views};
ghost use Rattle.jh_step_texts.specs.StepWritten.{step_values, edn_of_step};
ghost use Rattle.jh_nemesis.specs.Steps.{FitsNodes};

use crate::fault_writing::value_of_fault;
use jh_edn::{Value, Values};
use jh_env::Nodes;
use jh_nemesis::Step;
use std::alloc::{AllocError, Global};

/// A keyword and an id.
fn keyword_and_id(alloc: Global, name: &str, id: u32) -> Result<Vec<Value>, AllocError>
    ensures { IfOk result (λ values. views values.items ≡ keyword name.now ∷ int (pos id) ∷ []) }
{
    let mut values = Vec::new(alloc);
    values.push(Value::keyword(alloc, name)?)?;
    values.push(Value::Int(i64::from(id)))?;
    Ok(values)
}

/// A keyword alone.
fn keyword_alone(alloc: Global, name: &str) -> Result<Vec<Value>, AllocError>
    ensures { IfOk result (λ values. views values.items ≡ keyword name.now ∷ []) }
{
    let mut values = Vec::new(alloc);
    values.push(Value::keyword(alloc, name)?)?;
    Ok(values)
}

/// The values that are written of a step.
fn step_values(alloc: Global, nodes: &Nodes, step: &Step) -> Result<Vec<Value>, AllocError>
    requires { FitsNodes (length nodes.now) step.now }
    ensures { IfOk result (λ values. views values.items ≡ step_values nodes.now step.now) }
{
    match step {
        Step::Begin(id, fault) => {
            let mut values = keyword_and_id(alloc, "begin", *id)?;
            values.push(value_of_fault(alloc, nodes, fault)?)?;
            Ok(values)
        }
        Step::Withdraw(id) => keyword_and_id(alloc, "withdraw", *id),
        Step::WithdrawAll => keyword_alone(alloc, "withdraw-all"),
        Step::Undo => keyword_alone(alloc, "undo"),
        Step::Redo => keyword_alone(alloc, "redo"),
    }
}

/// The text of a step over these nodes, as `step_of_value` reads it: `[:begin ID FAULT]`,
/// `[:withdraw ID]`, `[:withdraw-all]`, `[:undo]` or `[:redo]`. A fault that was named by a grudge
/// is written as the cut that it is; links stand by the place of their source and then of their
/// destination, nodes by place.
///
/// Each node that a begun fault names is one of these, which `Fault::fits_nodes` tests.
pub fn value_of_step(alloc: Global, nodes: &Nodes, step: &Step) -> Result<Value, AllocError>
    requires { FitsNodes (length nodes.now) step.now }
    ensures { IfOk result (λ value. view value ≡ edn_of_step nodes.now step.now) }
{
    Ok(Value::Vector(Values::of(step_values(alloc, nodes, step)?)))
}

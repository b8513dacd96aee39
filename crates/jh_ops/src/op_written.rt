//! Operations as EDN values: written. `specs/OperationWritten.antt` has the rule.

ghost use Rattle.std.specs.Prelude.{◌≡◌, ◌∷◌, [], ◌++◌, IfOk, OnOk};
ghost use Rattle.jh_edn.specs.Edn.{keyword};
ghost use Rattle.jh_edn.specs.View.{view, view_pairs};
ghost use Rattle.jh_ops.specs.Operation.{operation};
ghost use Rattle.jh_ops.specs.OperationWritten as rule;
ghost use Rattle.jh_ops.specs.OperationWritten.{IsWritable, OperationsReadBack, integer_pairs};
ghost use Rattle.jh_ops.specs.OperationWritten.{four_pairs};
ghost use Rattle.jh_ops.specs.OperationWritten.{value_written};

use crate::operation::{Kind, Op, Process};
use jh_edn::{Pairs, Value};
use std::alloc::{AllocError, Global};

/// The name of a kind, without its colon.
fn kind_name(kind: Kind) -> &'static str
    ensures { result.now ≡ rule.kind_name kind }
{
    match kind {
        Kind::Invoke => "invoke",
        Kind::Ok => "ok",
        Kind::Fail => "fail",
        Kind::Info => "info",
    }
}

/// The value that is written of a process.
fn process_value(alloc: Global, process: Process) -> Result<Value, AllocError>
    requires { IsWritable process }
    ensures { IfOk result (λ value. view value ≡ rule.process_value process) }
{
    match process {
        Process::Client(number) => Ok(Value::Int(number as i64)),
        Process::Nemesis => Value::keyword(alloc, "nemesis"),
    }
}

/// Adds a pair with a keyword.
fn push_pair(
    alloc: Global,
    pairs: &mut Vec<(Value, Value)>,
    name: &str,
    value: Value,
) -> Result<(), AllocError>
    ensures { OnOk result (view_pairs pairs.new.items
        ≡ view_pairs pairs.old.items ++ (keyword name.now, view value) ∷ []) }
{
    pairs.push((Value::keyword(alloc, name)?, value))?;
    Ok(())
}

/// Adds a pair with a keyword and an integer, where there is an integer.
fn push_integer(
    alloc: Global,
    pairs: &mut Vec<(Value, Value)>,
    name: &str,
    integer: Option<i64>,
) -> Result<(), AllocError>
    ensures { OnOk result (view_pairs pairs.new.items
        ≡ view_pairs pairs.old.items ++ integer_pairs name.now integer) }
{
    match integer {
        Some(integer) => push_pair(alloc, pairs, name, Value::Int(integer)),
        None => Ok(()),
    }
}

/// Adds the parts that each operation has.
fn push_four(alloc: Global, pairs: &mut Vec<(Value, Value)>, op: &Op) -> Result<(), AllocError>
    requires { IsWritable op.now.process }
    ensures { OnOk result (view_pairs pairs.new.items
        ≡ view_pairs pairs.old.items ++ four_pairs (operation op.now)) }
{
    push_pair(
        alloc,
        pairs,
        "type",
        Value::keyword(alloc, kind_name(op.kind))?,
    )?;
    push_pair(alloc, pairs, "process", process_value(alloc, op.process)?)?;
    push_pair(alloc, pairs, "f", op.f.copy(alloc)?)?;
    push_pair(alloc, pairs, "value", op.value.copy(alloc)?)?;
    Ok(())
}

/// Adds copies of pairs, in their order.
fn push_copies(
    alloc: Global,
    pairs: &mut Vec<(Value, Value)>,
    rest: &[(Value, Value)],
) -> Result<(), AllocError>
    ensures { OnOk result (view_pairs pairs.new.items
        ≡ view_pairs pairs.old.items ++ view_pairs rest.now) }
{
    for pair in rest {
        pairs.push((pair.0.copy(alloc)?, pair.1.copy(alloc)?))?;
    }
    Ok(())
}

/// The value of an operation: a map with the keys `:index` and `:time` where they are there,
/// `:type`, `:process`, `:f`, `:value`, and then the others in the order held. A client's number
/// has to be an integer of a text, which `Process::is_writable` tests; what `op_of` made has one.
pub fn value_of(alloc: Global, op: &Op) -> Result<Value, AllocError>
    requires { IsWritable op.now.process }
    ensures { IfOk result (λ value. view value ≡ value_written (operation op.now)) }
{
    let mut pairs = Vec::new(alloc);
    push_integer(alloc, &mut pairs, "index", op.index)?;
    push_integer(alloc, &mut pairs, "time", op.time)?;
    push_four(alloc, &mut pairs, op)?;
    push_copies(alloc, &mut pairs, op.rest.as_slice())?;
    Ok(Value::Map(Pairs::of(pairs)))
}

/// A law: what is written of an operation that was parsed is parsed as that operation.
pub fn operations_read_back()
    ensures { OperationsReadBack }
{}

//! Operations as EDN texts: printed, which is the text of the value that is written of one
//! (`specs/OperationWritten.antt`). No value is made for it, so it takes no memory, and a client may
//! have any number.

ghost use Rattle.std.specs.Prelude.{◌≡◌, ◌++◌, IfErr, OnOk, codes};
ghost use Rattle.std.specs.Io.KnownBytes.{Appends};
ghost use Rattle.jh_edn.specs.Parts.{behind_pair_text};
ghost use Rattle.jh_edn.specs.Print.{print};
ghost use Rattle.jh_edn.specs.View.{view, view_pairs};
ghost use Rattle.jh_ops.specs.Operation.{operation};
ghost use Rattle.jh_ops.specs.OperationWritten as written;
ghost use Rattle.jh_ops.specs.OperationWritten.{value_written};
ghost use Rattle.jh_ops.specs.PrintedInside.{front_text, rest_text, type_text};

use crate::operation::{Kind, Op, Process};
use jh_edn::{EdnError, Element, Value, put, write};
use std::io::Write;

/// Writes a pair with an integer in front of others, where there is one.
fn write_front<W: Write>(name: &str, integer: Option<i64>, writer: &mut W) -> Result<(), EdnError>
    ensures bytes { OnOk result
        (Appends (W.contents writer.old) (W.contents writer.new) (front_text name.now integer)) }
    ensures error { IfErr result (λ e. e ≡ EdnError.Write) }
{
    let Some(number) = integer else {
        return Ok(());
    };
    put(b":", writer)?;
    put(name.as_bytes(), writer)?;
    put(b" ", writer)?;
    write(&Value::Int(number), writer)?;
    put(b", ", writer)
}

/// Writes the type, in front of the process.
fn write_type<W: Write>(kind: Kind, writer: &mut W) -> Result<(), EdnError>
    ensures bytes { OnOk result
        (Appends (W.contents writer.old) (W.contents writer.new) (type_text kind)) }
    ensures error { IfErr result (λ e. e ≡ EdnError.Write) }
{
    match kind {
        Kind::Invoke => put(b":type :invoke", writer),
        Kind::Ok => put(b":type :ok", writer),
        Kind::Fail => put(b":type :fail", writer),
        Kind::Info => put(b":type :info", writer),
    }
}

/// Writes the process, behind the type.
fn write_process<W: Write>(process: Process, writer: &mut W) -> Result<(), EdnError>
    ensures bytes { OnOk result (Appends (W.contents writer.old) (W.contents writer.new)
        (behind_pair_text (codes "process") (written.process_value process))) }
    ensures error { IfErr result (λ e. e ≡ EdnError.Write) }
{
    match process {
        Process::Client(number) => {
            write!(writer, ", :process {number}").map_err(|_| EdnError::Write)
        }
        Process::Nemesis => put(b", :process :nemesis", writer),
    }
}

/// Writes a pair behind others.
fn write_pair<W: Write>(pair: &(Value, Value), writer: &mut W) -> Result<(), EdnError>
    ensures bytes { OnOk result (Appends (W.contents writer.old) (W.contents writer.new)
        (codes ", " ++ (print (view pair.now.0) ++ (codes " " ++ print (view pair.now.1))))) }
    ensures error { IfErr result (λ e. e ≡ EdnError.Write) }
{
    put(b", ", writer)?;
    write(&pair.0, writer)?;
    put(b" ", writer)?;
    write(&pair.1, writer)
}

/// Writes pairs behind others.
fn write_rest<W: Write>(rest: &[(Value, Value)], writer: &mut W) -> Result<(), EdnError>
    ensures bytes { OnOk result
        (Appends (W.contents writer.old) (W.contents writer.new)
        (rest_text (view_pairs rest.now))) }
    ensures error { IfErr result (λ e. e ≡ EdnError.Write) }
{
    for pair in rest {
        write_pair(pair, writer)?;
    }
    Ok(())
}

/// Writes the index, the time, the type and the process.
fn write_head<W: Write>(op: &Op, writer: &mut W) -> Result<(), EdnError>
    ensures bytes { OnOk result (Appends (W.contents writer.old) (W.contents writer.new)
        (((front_text (codes "index") op.now.index ++ front_text (codes "time") op.now.time)
        ++ type_text op.now.kind)
        ++ behind_pair_text (codes "process") (written.process_value op.now.process))) }
    ensures error { IfErr result (λ e. e ≡ EdnError.Write) }
{
    write_front("index", op.index, writer)?;
    write_front("time", op.time, writer)?;
    write_type(op.kind, writer)?;
    write_process(op.process, writer)
}

/// Writes the function, the value and all other keys.
fn write_body<W: Write>(op: &Op, writer: &mut W) -> Result<(), EdnError>
    ensures bytes { OnOk result (Appends (W.contents writer.old) (W.contents writer.new)
        ((behind_pair_text (codes "f") (view op.now.f)
        ++ behind_pair_text (codes "value") (view op.now.value)) ++ rest_text op.now.rest)) }
    ensures error { IfErr result (λ e. e ≡ EdnError.Write) }
{
    put(b", :f ", writer)?;
    write(&op.f, writer)?;
    put(b", :value ", writer)?;
    write(&op.value, writer)?;
    write_rest(op.rest.as_slice(), writer)
}

/// Writes the text of an operation, without a line feed.
///
/// Takes no memory. The writer may have taken a part of the text where it failed.
///
/// Errors: `Write` where the writer failed, and no other.
pub fn write_operation<W: Write>(op: &Op, writer: &mut W) -> Result<(), EdnError>
    ensures bytes { OnOk result
        (Appends (W.contents writer.old) (W.contents writer.new)
        (print (value_written (operation op.now)))) }
    ensures error { IfErr result (λ e. e ≡ EdnError.Write) }
{
    put(b"{", writer)?;
    write_head(op, writer)?;
    write_body(op, writer)?;
    put(b"}", writer)
}

/// Operations can be elements of a vector that is written, as `jh_edn::write_part` writes one.
impl Element for Op {
    ghost value = { λ op. value_written (operation op) };

    fn write_to<W: Write>(&self, writer: &mut W) -> Result<(), EdnError> {
        write_operation(self, writer)
    }
}

//! Operations as EDN values: read. `specs/OperationText.antt` has the rule, key by key.

ghost use Rattle.std.specs.Prelude.{◌≡◌, List, IfOk, IfSome, Some, option_map};
ghost use Rattle.std.specs.Option.{option_or};
ghost use Rattle.jh_edn.specs.Edn.{Edn, int};
ghost use Rattle.jh_edn.specs.View.{view, view_pairs};
ghost use Rattle.jh_ops.specs.OperationText as rule;
ghost use Rattle.jh_ops.specs.OperationText.{IsOperationParsed, parsed_op, op_of_pairs};
ghost use Rattle.jh_ops.specs.OperationWritten.{IsWritable};
ghost use Rattle.jh_ops.specs.FieldsInside as inside;
ghost use Rattle.jh_ops.specs.FieldsInside.{FieldsValue, Holds};
ghost use Rattle.jh_ops.specs.declared.op_text.Field.TheVariants as field;

use crate::operation::{Kind, Op, Process};
use jh_edn::{Pairs, Value};
use std::alloc::Global;
use thiserror::Error;

/// Why a value is refused as an operation.
#[derive(Clone, Copy, Debug, PartialEq, Eq, Error)]
pub enum OpError {
    #[error("not a map")]
    NotMap,
    #[error("type missing")]
    MissingType,
    /// The `:type` is none of `:invoke`, `:ok`, `:fail` and `:info`.
    #[error("bad type")]
    BadType,
    #[error("f missing")]
    MissingF,
    #[error("process missing")]
    MissingProcess,
    /// The `:process` is no integer from 0 and not `:nemesis`.
    #[error("bad process")]
    BadProcess,
    #[error("out of memory")]
    OutOfMemory,
}

/// Which part of an operation a pair is.
#[derive(Clone, Copy)]
enum Field {
    Kind,
    F,
    Process,
    Value,
    /// A `:time` that is an integer.
    Time(i64),
    /// An `:index` that is an integer.
    Index(i64),
    /// No part of its own: the pair is kept as it stands.
    Other,
}

/// What a value says under `:time`.
fn time_field(value: &Value) -> Field
    ensures { result ≡ inside.time_field (view value.now) }
{
    match value {
        Value::Int(number) => Field::Time(*number),
        _ => Field::Other,
    }
}

/// What a value says under `:index`.
fn index_field(value: &Value) -> Field
    ensures { result ≡ inside.index_field (view value.now) }
{
    match value {
        Value::Int(number) => Field::Index(*number),
        _ => Field::Other,
    }
}

/// Which part a pair is.
fn field_of(key: &Value, value: &Value) -> Field
    ensures { result ≡ inside.field_of (view key.now) (view value.now) }
{
    let Value::Keyword(name) = key else {
        return Field::Other;
    };
    match name.as_str() {
        "type" => Field::Kind,
        "f" => Field::F,
        "process" => Field::Process,
        "value" => Field::Value,
        "time" => time_field(value),
        "index" => index_field(value),
        _ => Field::Other,
    }
}

/// Keeps what is given, where nothing is kept yet.
fn keep_first<T: Drop>(kept: &mut Option<T>, given: T)
    ensures { kept.new ≡ option_or kept.old (Some given) }
{
    if kept.is_none() {
        *kept = Some(given);
    }
}

/// The parts of an operation, as far as the pairs of its map were gone through. Of two pairs with one
/// key the first counts.
struct Fields {
    kind: Option<Value>,
    f: Option<Value>,
    process: Option<Value>,
    value: Option<Value>,
    time: Option<i64>,
    index: Option<i64>,
    /// The other pairs, as they stand.
    rest: Vec<(Value, Value)>,
    /// No memory was refused for the other pairs. A refusal waits until all pairs are seen, since what
    /// is wrong with the operation comes first.
    is_whole: bool,
}

impl Fields {
    /// The parts before the first pair.
    fn none(alloc: Global) -> Fields
        ensures { Holds result inside.no_fields }
    {
        Fields {
            kind: None,
            f: None,
            process: None,
            value: None,
            time: None,
            index: None,
            rest: Vec::new(alloc),
            is_whole: true,
        }
    }

    /// Adds a pair that is no part of its own.
    fn add_other(&mut self, key: Value, value: Value)
        ensures { (said : FieldsValue) → Holds self.old said
            → Holds self.new (inside.with_field said field.Other (view key, view value)) }
    {
        if self.rest.push((key, value)).is_err() {
            self.is_whole = false;
        }
    }

    /// Adds a pair.
    fn add(&mut self, key: Value, value: Value)
        ensures { (said : FieldsValue) → Holds self.old said
            → Holds self.new (inside.with_pair said (view key, view value)) }
    {
        match field_of(&key, &value) {
            Field::Kind => keep_first(&mut self.kind, value),
            Field::F => keep_first(&mut self.f, value),
            Field::Process => keep_first(&mut self.process, value),
            Field::Value => keep_first(&mut self.value, value),
            Field::Time(number) => keep_first(&mut self.time, number),
            Field::Index(number) => keep_first(&mut self.index, number),
            Field::Other => self.add_other(key, value),
        }
    }
}

/// The parts of an operation that the pairs of a map say.
fn fields_in(alloc: Global, pairs: Vec<(Value, Value)>) -> Fields
    ensures { Holds result (inside.fields_of (view_pairs pairs.items)) }
{
    let mut fields = Fields::none(alloc);
    let mut rest = pairs.into_iter();
    while let Some((key, value)) = rest.next() {
        fields.add(key, value);
    }
    fields
}

/// The kind that a value means, if it means one.
fn kind_of_value(value: &Value) -> Option<Kind>
    ensures { result ≡ rule.kind_of_value (view value.now) }
{
    let Value::Keyword(name) = value else {
        return None;
    };
    match name.as_str() {
        "invoke" => Some(Kind::Invoke),
        "ok" => Some(Kind::Ok),
        "fail" => Some(Kind::Fail),
        "info" => Some(Kind::Info),
        _ => None,
    }
}

/// The client with this number, if the number is from 0 on.
fn client_of(number: i64) -> Option<Process>
    ensures named { result ≡ rule.process_of (int number) }
    ensures writable { IfSome result IsWritable }
{
    u64::try_from(number).ok().map(Process::Client)
}

/// The process that a value means, if it means one.
fn process_of(value: &Value) -> Option<Process>
    ensures named { result ≡ rule.process_of (view value.now) }
    ensures writable { IfSome result IsWritable }
{
    match value {
        Value::Int(number) => client_of(*number),
        Value::Keyword(name) if name.as_str() == "nemesis" => Some(Process::Nemesis),
        _ => None,
    }
}

/// The kind that is said by what stands under `:type`.
fn kind_under(value: &Option<Value>) -> Result<Kind, OpError>
    ensures { result ≡ inside.kind_under (option_map view value.now) }
{
    match value {
        Some(value) => kind_of_value(value).ok_or(OpError::BadType),
        None => Err(OpError::MissingType),
    }
}

/// The process that is said by what stands under `:process`.
fn process_under(value: &Option<Value>) -> Result<Process, OpError>
    ensures named { result ≡ inside.process_under (option_map view value.now) }
    ensures writable { IfOk result IsWritable }
{
    match value {
        Some(value) => process_of(value).ok_or(OpError::BadProcess),
        None => Err(OpError::MissingProcess),
    }
}

/// The operation of these parts, or the first refusal that applies.
fn op_with(fields: Fields) -> Result<Op, OpError>
    ensures parsed { (pairs : List (Edn × Edn)) → Holds fields (inside.fields_of pairs)
        → IsOperationParsed result (op_of_pairs pairs) }
    ensures writable { IfOk result (λ op. IsWritable op.process) }
{
    let Fields {
        kind,
        f,
        process,
        value,
        time,
        index,
        rest,
        is_whole,
    } = fields;
    let kind = kind_under(&kind)?;
    let Some(f) = f else {
        return Err(OpError::MissingF);
    };
    let process = process_under(&process)?;
    if !is_whole {
        return Err(OpError::OutOfMemory);
    }
    Ok(Op {
        kind,
        f,
        value: value.unwrap_or(Value::Nil),
        process,
        time,
        index,
        rest: Pairs::of(rest),
    })
}

/// The operation that a value means: a map of `:type`, one of `:invoke`, `:ok`, `:fail` and
/// `:info`; `:f`; `:process`, an integer from 0 or `:nemesis`; and if wanted `:value`, nil where it
/// is missing, `:time` and `:index`. Tags around the map are ignored. All other pairs are kept in
/// their order, also those of a `:time` or an `:index` that is no integer. Of a key that a map made
/// by hand holds twice, the first counts.
///
/// Takes time linear in the pairs and copies no text: the value is taken apart.
///
/// Errors, in this order: `NotMap`; `MissingType`, `BadType`; `MissingF`; `MissingProcess`,
/// `BadProcess`; `OutOfMemory`.
pub fn op_of(alloc: Global, value: Value) -> Result<Op, OpError>
    ensures parsed { IsOperationParsed result (parsed_op (view value)) }
    ensures writable { IfOk result (λ op. IsWritable op.process) }
{
    match value.untagged().into_pairs() {
        Some(pairs) => op_with(fields_in(alloc, pairs)),
        None => Err(OpError::NotMap),
    }
}

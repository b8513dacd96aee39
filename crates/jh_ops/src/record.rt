//! The parts of a recorded operation: its function, the shape of its value, and their numbers.
//! `specs/Words.antt` has the rule, `specs/RecordParts.antt` what a body computes of it; a new
//! function is a variant here and a case of both.

ghost use Rattle.std.specs.Prelude.{◌≡◌, ◌&&◌, length};
ghost use Rattle.jh_edn.specs.Edn.{is_integer};
ghost use Rattle.std.specs.List.{list_all};
ghost use Rattle.jh_edn.specs.View.{view};
ghost use Rattle.jh_ops.specs.RecordParts as rule;
ghost use Rattle.jh_ops.specs.Words as words;

use crate::operation::Kind;
use jh_edn::Value;

/// The greatest number of integers in a recorded vector: a claim of `jh_slots` has at most 255 rows
/// of five words, and the heading takes three of them. `jh_workers` has the same number
/// (`MAX_INTEGERS`).
pub(crate) const MAX_INTEGERS: usize = 1272;

/// What a recorded operation asks for (`:f`).
#[derive(Clone, Copy, Debug, PartialEq, Eq)]
pub(crate) enum Function {
    Read,
    Write,
    Cas,
    Add,
    Generate,
    /// The nemesis takes a step of its schedule.
    Step,
}

/// The shape of what a recorded operation asks with, or answers (`:value`).
#[derive(Clone, Copy, Debug, PartialEq, Eq)]
pub(crate) enum ValueShape {
    Nil,
    Integer,
    /// A vector of integers.
    Vector,
}

impl Function {
    /// The name of the function, without its colon.
    pub(crate) fn name(self) -> &'static str
        ensures { result.now ≡ words.function_name self }
    {
        match self {
            Function::Read => "read",
            Function::Write => "write",
            Function::Cas => "cas",
            Function::Add => "add",
            Function::Generate => "generate",
            Function::Step => "step",
        }
    }

    /// The number of the function in the first word of a record.
    pub(crate) fn number(self) -> u64
        ensures { result ≡ words.function_number self }
    {
        match self {
            Function::Read => 0,
            Function::Write => 1,
            Function::Cas => 2,
            Function::Add => 3,
            Function::Generate => 4,
            Function::Step => 5,
        }
    }

    /// The function with this number, if there is one.
    pub(crate) fn of_number(number: u64) -> Option<Function>
        ensures { result ≡ rule.function_numbered number }
    {
        match number {
            0 => Some(Function::Read),
            1 => Some(Function::Write),
            2 => Some(Function::Cas),
            3 => Some(Function::Add),
            4 => Some(Function::Generate),
            5 => Some(Function::Step),
            _ => None,
        }
    }

    /// The function that a value names, if it names one.
    pub(crate) fn of_value(value: &Value) -> Option<Function>
        ensures { result ≡ rule.function_of (view value.now) }
    {
        let Value::Keyword(name) = value else {
            return None;
        };
        match name.as_str() {
            "read" => Some(Function::Read),
            "write" => Some(Function::Write),
            "cas" => Some(Function::Cas),
            "add" => Some(Function::Add),
            "generate" => Some(Function::Generate),
            "step" => Some(Function::Step),
            _ => None,
        }
    }

    /// Whether it may have a value of this shape with so many integers, if a value of this shape
    /// may have so many.
    fn takes(self, shape: ValueShape, count: usize) -> bool
        ensures { result ≡ rule.takes self shape count }
    {
        match (self, shape) {
            (Function::Read, _) => true,
            (Function::Write, ValueShape::Integer) => true,
            (Function::Cas, ValueShape::Vector) => count == 2,
            (Function::Add, ValueShape::Integer) => true,
            (Function::Generate, ValueShape::Nil) => true,
            (Function::Generate, ValueShape::Integer) => true,
            (Function::Step, ValueShape::Integer) => true,
            (Function::Step, ValueShape::Vector) => count == 2,
            _ => false,
        }
    }

    /// Whether a record of it may have a value of this shape, of so many integers.
    pub(crate) fn may_have(self, shape: ValueShape, count: usize) -> bool
        ensures { result ≡ (rule.holds shape count && rule.takes self shape count) }
    {
        shape.holds(count) && self.takes(shape, count)
    }
}

impl ValueShape {
    /// The number of the shape in the first word of a record.
    pub(crate) fn number(self) -> u64
        ensures { result ≡ rule.shape_number self }
    {
        match self {
            ValueShape::Nil => 0,
            ValueShape::Integer => 1,
            ValueShape::Vector => 2,
        }
    }

    /// The shape with this number, if there is one.
    pub(crate) fn of_number(number: u64) -> Option<ValueShape>
        ensures { result ≡ rule.shape_numbered number }
    {
        match number {
            0 => Some(ValueShape::Nil),
            1 => Some(ValueShape::Integer),
            2 => Some(ValueShape::Vector),
            _ => None,
        }
    }

    /// The shape of a value that may be recorded, but for the number of its integers.
    pub(crate) fn of_value(value: &Value) -> Option<ValueShape>
        ensures { result ≡ rule.shape_of_value (view value.now) }
    {
        match value {
            Value::Nil => Some(ValueShape::Nil),
            Value::Int(_) => Some(ValueShape::Integer),
            Value::Vector(items) => are_integers(items.as_slice()).then_some(ValueShape::Vector),
            _ => None,
        }
    }

    /// Whether a recorded value of this shape has so many integers.
    fn holds(self, count: usize) -> bool
        ensures { result ≡ rule.holds self count }
    {
        match self {
            ValueShape::Nil => count == 0,
            ValueShape::Integer => count == 1,
            ValueShape::Vector => count <= MAX_INTEGERS,
        }
    }
}

/// Whether all values are integers.
pub fn are_integers(values: &[Value]) -> bool
    ensures { result ≡ list_all (λ value. is_integer (view value)) values.now }
{
    values.iter().all(|value| value.is_integer())
}

/// How many words the integers of a value take.
pub(crate) fn count_of(value: &Value) -> usize
    ensures { result ≡ length (rule.elements (view value.now)) }
{
    match value {
        Value::Int(_) => 1,
        Value::Vector(items) => items.len(),
        _ => 0,
    }
}

/// The number of a kind, from 0 to 3.
pub(crate) fn kind_number(kind: Kind) -> u64
    ensures { result ≡ words.kind_number kind }
{
    match kind {
        Kind::Invoke => 0,
        Kind::Ok => 1,
        Kind::Fail => 2,
        Kind::Info => 3,
    }
}

/// The kind of a number from 0 to 3.
pub(crate) fn kind_of_number(number: u64) -> Kind
    ensures { result ≡ rule.kind_numbered number }
{
    match number {
        0 => Kind::Invoke,
        1 => Kind::Ok,
        2 => Kind::Fail,
        _ => Kind::Info,
    }
}

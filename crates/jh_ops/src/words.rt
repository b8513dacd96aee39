//! Operations as words of 64 bits: what a log that threads share keeps of one. `specs/Words.antt`
//! has the rule.

ghost use Rattle.std.specs.Prelude.{◌≡◌, ◌+◌, ◌*◌, ◌<◌, ◌≤◌, ◌^◌, [], length, take, drop, map};
ghost use Rattle.std.specs.Prelude.{true};
ghost use Rattle.std.specs.Prelude.{◌↔◌, IsTrue, IfOk, IfErr, IfSome, MatchOption, MatchResult};
ghost use Rattle.std.specs.Int.{w64, cast_signed};
ghost use Rattle.jh_edn.specs.Edn.{int};
ghost use Rattle.jh_edn.specs.View.{view, view_pairs, views};
ghost use Rattle.jh_ops.specs.Operation.{operation};
ghost use Rattle.jh_ops.specs.OperationWritten.{IsWritable};
ghost use Rattle.jh_ops.specs.RecordParts as parts;
ghost use Rattle.jh_ops.specs.RecordParts.{IsHeadingOf, CannotBeKept, IsWordOf, BeginWith};
ghost use Rattle.jh_ops.specs.Words as rule;
ghost use Rattle.jh_ops.specs.declared.words.WordsError.TheVariants.{BadWords};
ghost use Rattle.jh_ops.specs.Words.{IsRecordedAs, RefusesOperation, RefusesWords, AreRecordedOnce};

use crate::operation::{Kind, Op, Process};
use crate::record::{Function, ValueShape, count_of, kind_number, kind_of_number};
use jh_edn::{Pairs, Value, Values};
use std::alloc::{AllocError, Global};
use thiserror::Error;

/// Why an operation has no words, or words are of no operation.
#[derive(Clone, Copy, Debug, PartialEq, Eq, Error)]
pub enum WordsError {
    /// `to_words`: the operation is none of those that can be recorded, which are listed there.
    #[error("not recordable")]
    NotRecordable,
    /// `to_words`: there are more words than places.
    #[error("too small")]
    TooSmall,
    /// `of_words`: no operation has these words.
    #[error("bad words")]
    BadWords,
    /// `of_words` alone.
    #[error("out of memory")]
    OutOfMemory,
}

/// What the first word means.
#[derive(Clone, Copy)]
struct FirstWord {
    kind: Kind,
    function: Function,
    shape: ValueShape,
}

impl FirstWord {
    /// The first word of a record with these parts.
    fn word(self) -> u64
        ensures { result ≡ parts.first_word self }
    {
        kind_number(self.kind) + 4 * self.function.number() + 64 * self.shape.number()
    }

    /// What a word means as the first of a record, if it can be that.
    fn of_word(word: u64) -> Option<FirstWord>
        ensures { MatchOption result (parts.IsNoFirstWord word)
            (λ first. parts.first_word first ≡ word) }
    {
        Some(FirstWord {
            kind: kind_of_number(word % 4),
            function: Function::of_number(word / 4 % 16)?,
            shape: ValueShape::of_number(word / 64)?,
        })
    }
}

/// The word of a process.
fn process_word(process: Process) -> u64
    requires { IsWritable process }
    ensures { result ≡ rule.process_word process }
{
    match process {
        Process::Client(number) => number,
        Process::Nemesis => u64::MAX,
    }
}

/// The process of a word, if it is the word of one.
fn process_of_word(word: u64) -> Option<Process>
    ensures { MatchOption result (parts.IsNoProcessWord word)
        (λ process. IsWritable process × (rule.process_word process ≡ word)) }
{
    match word {
        u64::MAX => Some(Process::Nemesis),
        number if number <= i64::MAX as u64 => Some(Process::Client(number)),
        _ => None,
    }
}

/// The word of the event under the one key that there may be beside the parts that each operation
/// has.
fn event_word(rest: &[(Value, Value)]) -> Option<u64>
    ensures word { result ≡ parts.event_word_in (view_pairs rest.now) }
    ensures small { IfSome result (λ word. word ≤ 2 ^ 63) }
{
    match rest {
        [] => Some(0),
        [(key, Value::Int(number))] if key.is_keyword("event") => {
            u64::try_from(*number).ok().map(|number| number + 1)
        }
        _ => None,
    }
}

/// Whether it has nothing that words do not keep, but for its function, its value and its other
/// keys.
fn is_plain(op: &Op) -> bool
    ensures { IsTrue result ↔ parts.IsPlain (operation op.now) }
{
    op.time.is_none() && op.index.is_none() && op.process.is_writable()
}

/// The three first words of an operation that can be recorded.
fn heading_of(op: &Op) -> Option<[u64; 3]>
    ensures { MatchOption result (CannotBeKept (operation op.now))
        (IsHeadingOf (operation op.now)) }
{
    let event = event_word(op.rest.as_slice())?;
    let function = Function::of_value(&op.f)?;
    let shape = ValueShape::of_value(&op.value)?;
    let count = count_of(&op.value);
    if !is_plain(op) {
        return None;
    }
    if !function.may_have(shape, count) {
        return None;
    }
    let first = FirstWord {
        kind: op.kind,
        function,
        shape,
    };
    Some([first.word(), process_word(op.process), event])
}

/// The word of an integer; 0 for any other value.
fn integer_word(value: &Value) -> u64
    ensures { IsWordOf (view value.now) result }
{
    match value {
        Value::Int(number) => number.cast_unsigned(),
        _ => 0,
    }
}

/// Writes the three first words.
fn write_heading(heading: [u64; 3], words: &mut [u64])
    requires { 3 ≤ length words.now }
    ensures heading { take 3 words.new ≡ heading }
    ensures rest { drop 3 words.new ≡ drop 3 words.old }
{
    let [first, process, event] = heading;
    words[0] = first;
    words[1] = process;
    words[2] = event;
}

/// Writes a word for each integer, after the three first words.
fn write_integers(items: &[Value], words: &mut [u64])
    requires { 3 + length items.now ≤ length words.now }
    ensures before { take 3 words.new ≡ take 3 words.old }
    ensures integers { parts.AreWordsOfValues (take (length items.now) (drop 3 words.new))
        (views items.now) }
    ensures after { drop (3 + length items.now) words.new ≡ drop (3 + length items.now) words.old }
{
    for (place, item) in items.iter().enumerate() {
        words[3 + place] = integer_word(item);
    }
}

/// Writes the words of a value, after the three first words.
fn write_value(value: &Value, words: &mut [u64])
    requires { 3 + length (parts.elements (view value.now)) ≤ length words.now }
    ensures before { take 3 words.new ≡ take 3 words.old }
    ensures integers { parts.AreWordsOfValues
        (take (length (parts.elements (view value.now))) (drop 3 words.new))
        (parts.elements (view value.now)) }
    ensures after { drop (3 + length (parts.elements (view value.now))) words.new
        ≡ drop (3 + length (parts.elements (view value.now))) words.old }
{
    match value {
        Value::Int(_) => words[3] = integer_word(value),
        Value::Vector(items) => write_integers(items.as_slice(), words),
        _ => {}
    }
}

/// Writes the words of an operation of a run to the first places of `words`, and answers how many
/// there are, from 3 to 1,275: one for kind, function and shape of the value, one for the process,
/// one for the event, and one for each integer. The others keep what they hold. Recordable are
/// operations without a time, an index and other keys than `:event`, an integer from 0: a read of
/// nil, an integer or a vector of integers; a write or an add of an integer; a cas of a vector of
/// two; a generate of nil or an integer; a step of an integer or a vector of two. The words are
/// this project's own.
///
/// Takes no memory, and time linear in the words.
///
/// Errors, which leave the words as they were, in this order: `NotRecordable`; `TooSmall`.
pub fn to_words(op: &Op, words: &mut [u64]) -> Result<usize, WordsError>
    ensures recorded { IfOk result (λ len. IsRecordedAs (operation op.now) (take len words.new)) }
    ensures within { IfOk result (λ len. len ≤ length words.old) }
    ensures others { IfOk result (λ len. drop len words.new ≡ drop len words.old) }
    ensures refused { IfErr result (RefusesOperation (operation op.now) (length words.old)) }
    ensures unchanged { IfErr result (λ _. words.new ≡ words.old) }
{
    let Some(heading) = heading_of(op) else {
        return Err(WordsError::NotRecordable);
    };
    let len = 3 + count_of(&op.value);
    if words.len() < len {
        return Err(WordsError::TooSmall);
    }
    write_heading(heading, words);
    write_value(&op.value, words);
    Ok(len)
}

/// What the first words of a record mean.
#[derive(Clone, Copy)]
struct Heading {
    first: FirstWord,
    process: Process,
    event: u64,
}

/// What the first words mean, if an operation is recorded as these words.
fn heading_in(words: &[u64]) -> Option<Heading>
    ensures { MatchOption result (RefusesWords words.now BadWords) (BeginWith words.now) }
{
    let [first, process, event, integers @ ..] = words else {
        return None;
    };
    let first = FirstWord::of_word(*first)?;
    let process = process_of_word(*process)?;
    if *event > 1 << 63 {
        return None;
    }
    if !first.function.may_have(first.shape, integers.len()) {
        return None;
    }
    Some(Heading {
        first,
        process,
        event: *event,
    })
}

/// The integers of words, as values.
fn integers_of(alloc: Global, words: &[u64]) -> Result<Vec<Value>, AllocError>
    ensures { IfOk result
        (λ values. views values.items ≡ map int (map (cast_signed w64) words.now)) }
{
    let mut values = Vec::new(alloc);
    for word in words {
        values.push(Value::Int(word.cast_signed()))?;
    }
    Ok(values)
}

/// The value of this shape with these integers.
fn value_with(alloc: Global, shape: ValueShape, words: &[u64]) -> Result<Value, AllocError>
    requires { parts.holds shape (length words.now) ≡ true }
    ensures { IfOk result (λ value. view value
        ≡ rule.content_value (parts.content_of shape (map (cast_signed w64) words.now))) }
{
    match shape {
        ValueShape::Nil => Ok(Value::Nil),
        ValueShape::Integer => Ok(Value::Int(words[0].cast_signed())),
        ValueShape::Vector => Ok(Value::Vector(Values::of(integers_of(alloc, words)?))),
    }
}

/// The other keys of an operation that names this event: the pair of `:event` with its number, or no
/// pair where it names none.
pub fn event_pairs(alloc: Global, event: Option<u64>) -> Result<Pairs, AllocError>
    requires { IfSome event (λ number. number < 2 ^ 63) }
    ensures { IfOk result (λ pairs. pairs ≡ rule.pairs_of_event event) }
{
    let mut pairs = Vec::new(alloc);
    if let Some(number) = event {
        pairs.push((Value::keyword(alloc, "event")?, Value::Int(number as i64)))?;
    }
    Ok(Pairs::of(pairs))
}

/// The event of a word.
fn event_of_word(word: u64) -> Option<u64>
    ensures { result ≡ parts.event_of word }
{
    word.checked_sub(1)
}

/// The operation of a heading with these integers.
fn op_with(alloc: Global, heading: Heading, integers: &[u64]) -> Result<Op, AllocError>
    requires event { heading.event ≤ 2 ^ 63 }
    requires shape { parts.holds heading.first.shape (length integers.now) ≡ true }
    ensures { IfOk result
        (λ op. operation op ≡ rule.operation_of (parts.record_of heading integers.now)) }
{
    Ok(Op {
        kind: heading.first.kind,
        f: Value::keyword(alloc, heading.first.function.name())?,
        value: value_with(alloc, heading.first.shape, integers)?,
        process: heading.process,
        time: None,
        index: None,
        rest: event_pairs(alloc, event_of_word(heading.event))?,
    })
}

/// The operation that was recorded as these words by `to_words`.
///
/// Takes time linear in the words.
///
/// Errors, in this order: `BadWords`, where no operation is recorded as them; `OutOfMemory`.
pub fn of_words(alloc: Global, words: &[u64]) -> Result<Op, WordsError>
    ensures { MatchResult result (λ op. IsRecordedAs (operation op) words.now)
        (RefusesWords words.now) }
{
    let Some(heading) = heading_in(words) else {
        return Err(WordsError::BadWords);
    };
    match op_with(alloc, heading, &words[3..]) {
        Ok(op) => Ok(op),
        Err(_) => Err(WordsError::OutOfMemory),
    }
}

/// A law: an operation is recorded as one list of words, and no other operation as it.
pub fn recorded_once()
    ensures { AreRecordedOnce }
{}

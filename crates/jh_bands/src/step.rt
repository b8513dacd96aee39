//! Steps of a nemesis, as records of a history have them. `specs/Replay.antt` says what a value
//! means as a step, and `specs/Bands.antt` which records ask for steps and answer them.

ghost use Rattle.std.specs.Prelude.{◌≡◌, option_and_then, option_map};
ghost use Rattle.jh_edn.specs.View.{view, views};
ghost use Rattle.jh_ops.specs.Operation.{operation};
ghost use Rattle.jh_bands.specs.Bands as rule;
ghost use Rattle.jh_bands.specs.BandsInside.{view_answered, view_asked, view_step};
ghost use Rattle.jh_bands.specs.Replay as replay;

use jh_edn::{Value, value_under};
use jh_ops::{Kind, Op};

/// A fault under its id.
#[derive(Clone, Copy)]
pub(crate) struct Fault<'a> {
    pub(crate) id: i64,
    /// Its text.
    pub(crate) value: &'a Value,
}

/// A step.
#[derive(Clone, Copy)]
pub(crate) enum Step<'a> {
    /// A fault is begun.
    Begin(Fault<'a>),
    /// The active fault of an id is withdrawn.
    Withdraw(i64),
    /// All active faults are withdrawn.
    WithdrawAll,
    /// The last change is undone.
    Undo,
    /// What was undone last is done again.
    Redo,
}

/// A step that waits for its answer.
#[derive(Clone, Copy)]
pub(crate) struct Asked<'a> {
    /// The place of its entry in the schedule, which is the value of the record that asks for it.
    pub(crate) place: i64,
    pub(crate) step: Step<'a>,
}

/// A step that was answered.
#[derive(Clone, Copy)]
pub(crate) struct Answered<'a> {
    pub(crate) step: Step<'a>,
    /// The code of the answer: 0, or why the step was refused.
    pub(crate) code: i64,
}

/// The step that is a keyword alone.
fn step_named<'a>(name: &str) -> Option<Step<'a>>
    ensures { option_map view_step result ≡ replay.step_named name.now }
{
    match name {
        "withdraw-all" => Some(Step::WithdrawAll),
        "undo" => Some(Step::Undo),
        "redo" => Some(Step::Redo),
        _ => None,
    }
}

/// The step that these elements mean.
fn step_meant(elements: &[Value]) -> Option<Step<'_>>
    ensures { option_map view_step result ≡ replay.step_meant (views elements.now) }
{
    match elements {
        [Value::Keyword(name)] => step_named(name.as_str()),
        [Value::Keyword(name), Value::Int(id)] if name.as_str() == "withdraw" => {
            Some(Step::Withdraw(*id))
        }
        [Value::Keyword(name), Value::Int(id), value] if name.as_str() == "begin" => {
            Some(Step::Begin(Fault { id: *id, value }))
        }
        _ => None,
    }
}

/// The step that a value means, if it means one.
fn step_in(value: &Value) -> Option<Step<'_>>
    ensures { option_map view_step result ≡ replay.step_in (view value.now) }
{
    step_meant(value.elements()?)
}

/// The entry of a schedule at a place.
fn scheduled_at(steps: &[Value], place: i64) -> Option<&Value>
    ensures { option_map (λ entry. view entry.now) result ≡ rule.scheduled_at (views steps.now) place }
{
    steps.get(usize::try_from(place).ok()?)
}

/// The text of the step that a record asks for, if it is known. Its value is this place in the schedule.
fn known_step_text<'a>(steps: &'a [Value], place: i64, op: &'a Op) -> Option<&'a Value>
    ensures { option_map (λ text. view text.now) result
        ≡ rule.known_step_text (views steps.now) place op.now.rest }
{
    match value_under("step", op.rest.as_slice()) {
        Some(text) => Some(text),
        None => scheduled_at(steps, place),
    }
}

/// Whether a record asks for a step or answers one.
fn is_of_step(op: &Op) -> bool
    ensures { result ≡ rule.is_of_step (operation op.now) }
{
    !op.process.is_client() && (Kind::Info.is(op.kind) && op.f.is_keyword("step"))
}

/// The step that a record asks for, where it is known. Its value is this place in the schedule.
fn asked_at<'a>(steps: &'a [Value], op: &'a Op, place: i64) -> Option<Asked<'a>>
    ensures { option_map view_asked result
        ≡ rule.asked_at (views steps.now) op.now.rest place }
{
    let step = step_in(known_step_text(steps, place, op)?)?;
    Some(Asked { place, step })
}

/// The step that a record asks for, if it asks for one that is known: under its key `:step`, or else
/// the one of the schedule at its place.
pub(crate) fn asked_in<'a>(steps: &'a [Value], op: &'a Op) -> Option<Asked<'a>>
    ensures { option_map view_asked result
        ≡ rule.asked_in (views steps.now) (operation op.now) }
{
    if is_of_step(op) {
        asked_at(steps, op, op.value.as_integer()?)
    } else {
        None
    }
}

/// The code that elements have behind a place, if they are the place and a code.
fn code_behind(place: i64, elements: &[Value]) -> Option<i64>
    ensures { result ≡ rule.code_behind place (views elements.now) }
{
    match elements {
        [Value::Int(answered), Value::Int(code)] if *answered == place => Some(*code),
        _ => None,
    }
}

/// The code with which a record answers the step at a place, if it answers it.
fn answer_code(place: i64, op: &Op) -> Option<i64>
    ensures { result ≡ rule.answer_code place (operation op.now) }
{
    if is_of_step(op) {
        code_behind(place, op.value.elements()?)
    } else {
        None
    }
}

/// The step that waited for its answer, where a record answers it.
pub(crate) fn answered_step<'a>(waiting: Option<Asked<'a>>, op: &Op) -> Option<Answered<'a>>
    ensures { option_map view_answered result
        ≡ rule.answered_step (option_map view_asked waiting.entry) (operation op.now) }
{
    let asked = waiting?;
    let code = answer_code(asked.place, op)?;
    Some(Answered {
        step: asked.step,
        code,
    })
}

/// Whether a code says that the step was done.
pub(crate) fn is_done_code(code: i64) -> bool
    ensures { result ≡ rule.is_done_code code }
{
    code == 0
}

/// The step that waited for its answer, where a record says that it was done.
pub(crate) fn done_step<'a>(waiting: Option<Asked<'a>>, op: &Op) -> Option<Step<'a>>
    ensures { option_map view_step result
        ≡ rule.done_step (option_map view_asked waiting.entry) (operation op.now) }
{
    match answered_step(waiting, op) {
        Some(answered) if is_done_code(answered.code) => Some(answered.step),
        _ => None,
    }
}

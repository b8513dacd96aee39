//! Edits, one after another. An entry is known by when it is due.
//!
//! None is answered where memory was refused.

use crate::first::entry;
use crate::shrink::entries::{dues, schedule};
use jh_shrink::{EditError, Editor, InsertError, MAX_EDITS};
use std::alloc::Global;

/// An edit, an undo or a redo.
#[derive(Clone, Copy)]
enum Act {
    Delete(usize),
    Insert(usize, u32),
    Replace(usize, u32),
    Undo,
    Redo,
}

fn refusal(alloc: Global, is_refused: bool, text: &str) -> Option<String> {
    String::from_str(alloc, if is_refused { text } else { "" }).ok()
}

fn edit_refusal(alloc: Global, answer: Result<(), EditError>) -> Option<String> {
    match answer {
        Ok(()) => Some(String::new(alloc)),
        Err(EditError::OutOfMemory) => None,
        Err(error) => error.to_string(alloc).ok(),
    }
}

fn insert_refusal(alloc: Global, answer: Result<(), InsertError>) -> Option<String> {
    match answer {
        Ok(()) => Some(String::new(alloc)),
        Err(InsertError::OutOfMemory) => None,
        Err(error) => error.to_string(alloc).ok(),
    }
}

/// What an act is refused with; an empty text where it is accepted.
fn refused(alloc: Global, editor: &mut Editor, act: Act) -> Option<String> {
    match act {
        Act::Delete(place) => edit_refusal(alloc, editor.delete(place)),
        Act::Replace(place, at) => edit_refusal(alloc, editor.replace(place, entry(at))),
        Act::Insert(place, at) => insert_refusal(alloc, editor.insert(place, entry(at))),
        Act::Undo => refusal(alloc, editor.undo().is_err(), "nothing to undo"),
        Act::Redo => refusal(alloc, editor.redo().is_err(), "nothing to redo"),
    }
}

/// What an act is answered.
fn answered(alloc: Global, editor: &mut Editor, act: Act) -> Option<String> {
    let refused = refused(alloc, editor, act)?;
    if !refused.is_empty() {
        return Some(refused);
    }
    let dues = dues(alloc, editor.schedule())?;
    format!(in alloc; "{dues:?}").ok()
}

/// The acts of the worked example, with their answers: the entries 0, 1, 2, 3 are edited.
static ACTS: [(Act, &str); 13] = [
    (Act::Delete(0), "[1, 2, 3]"),
    (Act::Delete(1), "[1, 3]"),
    (Act::Undo, "[1, 2, 3]"),
    (Act::Redo, "[1, 3]"),
    (Act::Insert(3, 4), "bad place"),
    (Act::Replace(0, 4), "[4, 3]"),
    (Act::Redo, "nothing to redo"),
    (Act::Undo, "[1, 3]"),
    (Act::Undo, "[1, 2, 3]"),
    (Act::Undo, "[0, 1, 2, 3]"),
    (Act::Undo, "nothing to undo"),
    (Act::Insert(4, 4), "[0, 1, 2, 3, 4]"),
    (Act::Replace(5, 4), "bad place"),
];

/// The number of the first act with another answer.
fn first_wrong(alloc: Global) -> Option<Option<usize>> {
    let mut editor = Editor::new(alloc, schedule(alloc, 4)?).ok()?;
    for (number, (act, wanted)) in ACTS.iter().enumerate() {
        if answered(alloc, &mut editor, *act)?.as_str() != *wanted {
            return Some(Some(number));
        }
    }
    Some(None)
}

#[test]
fn edits_are_made_and_taken_back(rt: HostRuntime) {
    let wrong = match first_wrong(rt.alloc()) {
        None => first_wrong(rt.alloc()),
        wrong => wrong,
    };
    assert_eq!(rt; wrong, Some(None));
}

/// The answer to an insertion into the longest schedule.
fn into_the_longest(alloc: Global) -> Option<Result<(), InsertError>> {
    let mut editor = Editor::new(alloc, schedule(alloc, 1_024)?).ok()?;
    Some(editor.insert(0, entry(0)))
}

#[test]
fn a_schedule_is_too_long(rt: HostRuntime) {
    let answer = match into_the_longest(rt.alloc()) {
        None => into_the_longest(rt.alloc()),
        answer => answer,
    };
    assert_eq!(rt; answer, Some(Err(InsertError::TooLong)));
}

/// The answers to an edit after as many as can be undone, and to an undo then.
fn after_the_last(alloc: Global) -> Option<(Result<(), EditError>, bool)> {
    let mut editor = Editor::new(alloc, schedule(alloc, 1)?).ok()?;
    for _ in 0..MAX_EDITS {
        editor.replace(0, entry(7)).ok()?;
    }
    Some((editor.delete(0), editor.undo().is_ok()))
}

#[test]
fn edits_are_too_many(rt: HostRuntime) {
    let answers = match after_the_last(rt.alloc()) {
        None => after_the_last(rt.alloc()),
        answers => answers,
    };
    assert_eq!(rt; answers, Some((Err(EditError::TooManyEdits), true)));
}

/// The schedule that an editor gives back.
fn given_back(alloc: Global) -> Option<Vec<u32>> {
    let mut editor = Editor::new(alloc, schedule(alloc, 3)?).ok()?;
    editor.delete(1).ok()?;
    dues(alloc, editor.into_schedule().entries())
}

#[test]
fn an_editor_gives_its_schedule_back(rt: HostRuntime) {
    let given = match given_back(rt.alloc()) {
        None => given_back(rt.alloc()),
        given => given,
    };
    assert!(rt; given.is_some_and(|given| given.as_slice() == [0, 2].as_slice()));
}

//! The messages of errors of environments, the nemesis, and texts of steps.

use jh_env::{FaultError, NodesError, StartError};
use jh_nemesis::{
    BeginError, NothingToRedo, NothingToUndo, StepAnswer, WithdrawAllError, WithdrawError,
};
use jh_step_texts::StepTextError;
use std::alloc::{AllocError, Global};
use std::fmt::Display;

/// The messages of errors, with a `;` behind each.
fn messages_once<E: Display>(alloc: Global, errors: &[E]) -> Result<String, AllocError> {
    let mut messages = String::new(alloc);
    for error in errors {
        messages.push_str(&format!(in alloc; "{error};")?)?;
    }
    Ok(messages)
}

/// Whether these are the messages of errors. They are written once more where memory was refused.
fn are_messages<E: Display>(alloc: Global, errors: &[E], wanted: &str) -> bool {
    let messages = match messages_once(alloc, errors) {
        Err(_) => messages_once(alloc, errors),
        messages => messages,
    };
    match messages {
        Ok(messages) => messages.as_str() == wanted,
        Err(_) => false,
    }
}

#[test]
fn names_have_messages(rt: HostRuntime) {
    let errors = [
        NodesError::NoNodes,
        NodesError::TooManyNodes,
        NodesError::BadName,
        NodesError::DuplicateName,
        NodesError::OutOfMemory,
    ];
    let wanted = "no nodes;too many nodes;bad name;duplicate name;out of memory;";
    assert!(rt; are_messages(rt.alloc(), &errors, wanted));
}

#[test]
fn faults_have_messages(rt: HostRuntime) {
    let errors = [
        FaultError::UnknownNode,
        FaultError::SelfLink,
        FaultError::BadAmount,
        FaultError::OutOfMemory,
    ];
    let wanted = "unknown node;self link;bad amount;out of memory;";
    assert!(rt; are_messages(rt.alloc(), &errors, wanted));
}

#[test]
fn starts_have_messages(rt: HostRuntime) {
    let errors = [
        StartError::UnknownNode,
        StartError::SelfLink,
        StartError::BadAmount,
    ];
    let wanted = "unknown node;self link;bad amount;";
    assert!(rt; are_messages(rt.alloc(), &errors, wanted));
}

#[test]
fn begins_have_messages(rt: HostRuntime) {
    let errors = [
        BeginError::IdTaken,
        BeginError::TooManyActive,
        BeginError::TooManySteps,
        BeginError::OutOfMemory,
    ];
    let wanted = "id taken;too many active;too many steps;out of memory;";
    assert!(rt; are_messages(rt.alloc(), &errors, wanted));
}

#[test]
fn withdrawals_have_messages(rt: HostRuntime) {
    let errors = [
        WithdrawError::NotActive,
        WithdrawError::TooManySteps,
        WithdrawError::OutOfMemory,
    ];
    let wanted = "not active;too many steps;out of memory;";
    assert!(rt; are_messages(rt.alloc(), &errors, wanted));
}

#[test]
fn withdrawals_of_all_have_messages(rt: HostRuntime) {
    let errors = [
        WithdrawAllError::NothingActive,
        WithdrawAllError::TooManySteps,
        WithdrawAllError::OutOfMemory,
    ];
    let wanted = "nothing active;too many steps;out of memory;";
    assert!(rt; are_messages(rt.alloc(), &errors, wanted));
}

#[test]
fn steps_back_and_forth_have_messages(rt: HostRuntime) {
    assert!(rt; are_messages(rt.alloc(), &[NothingToUndo], "nothing to undo;"));
    assert!(rt; are_messages(rt.alloc(), &[NothingToRedo], "nothing to redo;"));
}

#[test]
fn texts_have_messages(rt: HostRuntime) {
    let errors = [
        StepTextError::BadStep,
        StepTextError::BadId,
        StepTextError::UnknownNode,
        StepTextError::SelfLink,
        StepTextError::BadAmount,
        StepTextError::OutOfMemory,
    ];
    let wanted = "bad step;bad id;unknown node;self link;bad amount;out of memory;";
    assert!(rt; are_messages(rt.alloc(), &errors, wanted));
}

/// The codes by which a history records answers, from 0 on.
#[test]
fn answers_have_codes(rt: HostRuntime) {
    let answers = [
        StepAnswer::Ok,
        StepAnswer::IdTaken,
        StepAnswer::TooManyActive,
        StepAnswer::TooManySteps,
        StepAnswer::NotActive,
        StepAnswer::NothingActive,
        StepAnswer::NothingToUndo,
        StepAnswer::NothingToRedo,
    ];
    for (place, answer) in answers.iter().enumerate() {
        assert_eq!(rt; answer.code(), place as i64);
    }
}

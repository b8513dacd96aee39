//! What has a name: the messages of errors, the requests of workloads, and each request.
//!
//! - `message operation ERROR`: the message of an error that refuses the operation at place 0.
//! - `message pairs ERROR`, `message words ERROR`: the messages of no pairs, and of no words.
//! - `requests WORKLOAD`: its requests among read, write, compare and set, add, generate and a transaction, with a space
//!   behind each.
//! - `request NAME`: the name under which it is recorded, and its argument.

use crate::ops::rows::ask_all;
use jh_edn::write;
use jh_ops::{HistoryError, OpError, PairError, Request, WordsError, Workload};
use std::alloc::Global;
use std::fmt::Display;
use std::test::Fail;

/// The message of an error, and a line feed.
fn message_text<E: Display>(alloc: Global, error: &E) -> Option<Vec<u8>> {
    Some(format!(in alloc; "{error}\n").ok()?.into_bytes())
}

fn op_error(name: &str) -> Option<OpError> {
    match name {
        "NotMap" => Some(OpError::NotMap),
        "MissingType" => Some(OpError::MissingType),
        "BadType" => Some(OpError::BadType),
        "MissingF" => Some(OpError::MissingF),
        "MissingProcess" => Some(OpError::MissingProcess),
        "BadProcess" => Some(OpError::BadProcess),
        "OutOfMemory" => Some(OpError::OutOfMemory),
        _ => None,
    }
}

fn pair_error(name: &str) -> Option<PairError> {
    match name {
        "AfterCrash 2" => Some(PairError::AfterCrash(2)),
        "DoubleInvoke 1" => Some(PairError::DoubleInvoke(1)),
        "NoInvoke 0" => Some(PairError::NoInvoke(0)),
        "OutOfMemory" => Some(PairError::OutOfMemory),
        _ => None,
    }
}

fn words_error(name: &str) -> Option<WordsError> {
    match name {
        "NotRecordable" => Some(WordsError::NotRecordable),
        "TooSmall" => Some(WordsError::TooSmall),
        "BadWords" => Some(WordsError::BadWords),
        "OutOfMemory" => Some(WordsError::OutOfMemory),
        _ => None,
    }
}

pub(crate) fn message(alloc: Global, text: &str) -> Option<Vec<u8>> {
    match text.split_once(' ')? {
        ("operation", name) => message_text(alloc, &HistoryError::Op(0, op_error(name)?)),
        ("pairs", name) => message_text(alloc, &pair_error(name)?),
        (_, name) => message_text(alloc, &words_error(name)?),
    }
}

#[test]
fn errors_have_messages(rt: HostRuntime) -> Result<(), Fail> {
    let rows = r#"message operation NotMap → operation 0: not a map
§ message operation MissingType → operation 0: type missing
§ message operation BadType → operation 0: bad type
§ message operation MissingF → operation 0: f missing
§ message operation MissingProcess → operation 0: process missing
§ message operation BadProcess → operation 0: bad process
§ message operation OutOfMemory → operation 0: out of memory
§ message pairs AfterCrash 2 → operation 2: after crash
§ message pairs DoubleInvoke 1 → operation 1: double invoke
§ message pairs NoInvoke 0 → operation 0: no invocation
§ message pairs OutOfMemory → out of memory
§ message words NotRecordable → not recordable
§ message words TooSmall → too small
§ message words BadWords → bad words
§ message words OutOfMemory → out of memory
"#;
    ask_all(rt.alloc(), rows)
}

fn workload(name: &str) -> Option<Workload> {
    match name {
        "register" => Some(Workload::Register),
        "counter" => Some(Workload::Counter),
        "set" => Some(Workload::Set),
        "ids" => Some(Workload::Ids),
        _ => None,
    }
}

fn request(name: &str) -> Request {
    match name {
        "read" => Request::Read,
        "write" => Request::Write(i64::MIN),
        "cas" => Request::Cas(0, -1),
        "add" => Request::Add(i64::MAX),
        "generate" => Request::Generate,
        _ => Request::Txn,
    }
}

pub(crate) fn requests(alloc: Global, text: &str) -> Option<Vec<u8>> {
    let workload = workload(text)?;
    let mut names = String::new(alloc);
    for name in "read write cas add generate txn".split(' ') {
        if request(name).is_of(workload) {
            names.push_str(name).ok()?;
            names.push(' ').ok()?;
        }
    }
    Some(names.into_bytes())
}

/// The requests of each workload, as docs/generators.md has them.
#[test]
fn each_workload_has_its_requests(rt: HostRuntime) -> Result<(), Fail> {
    let rows = "\
        requests register → read write cas \
        § requests counter → read add \
        § requests set → read add \
        § requests ids → generate ";
    ask_all(rt.alloc(), rows)
}

/// The name of a request, and its argument.
pub(crate) fn recorded(alloc: Global, name: &str) -> Option<Vec<u8>> {
    let request = request(name);
    let argument = request.argument(alloc).ok()?;
    let mut text = Vec::new(alloc);
    text.extend_from_slice(request.name().as_bytes()).ok()?;
    text.push(b' ').ok()?;
    write(&argument, &mut text).ok()?;
    Some(text)
}

/// How each request is recorded.
#[test]
fn requests_have_names_and_arguments(rt: HostRuntime) -> Result<(), Fail> {
    let rows = "\
        request read → read nil\
        § request write → write -9223372036854775808\
        § request cas → cas [0 -1]\
        § request add → add 9223372036854775807\
        § request generate → generate nil\
        § request txn → txn nil";
    ask_all(rt.alloc(), rows)
}

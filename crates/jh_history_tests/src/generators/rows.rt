//! Rows of calls with their answers, and what a row calls.
//!
//! A row is a line `CALL => ANSWER`, where an answer is printed as its type is (`Debug`). The calls are:
//!
//!     read TEXT              the generator of a text
//!     copy TEXT              a copy of the generator of a text
//!     suits CLIENTS TEXT     whether it suits a register, a counter, a set, ids, and transactions
//!     driver CLIENTS TEXT    a driver of it, which the next rows ask
//!     ask WORD THREAD        what the driver answers to `client-0`, `client-1`, `client-2` or `nemesis`
//!     end HOW THREAD         the thread's operation ends as `ok`, `fail` or `info`
//!     process THREAD         the process of a thread's next operation

use jh_edn::{EdnError, Value, read_all};
use jh_gen::{Driver, DriverError, Ended, Gen, GenTextError, Thread, gen_of_value};
use jh_ops::Workload;
use std::alloc::{AllocError, Global};
use std::fmt::Debug;
use std::test::Fail;

/// The first row with another answer.
pub(crate) fn first_wrong(alloc: Global, rows: &str) -> Result<Option<&str>, Fail> {
    let mut driver = drive(alloc, "[:nil]", 1)??;
    for row in rows.trim().lines() {
        let (call, expected) = row.trim().split_once(" => ").ok_or("no answer")?;
        if answer(alloc, &mut driver, call)?.as_str() != expected {
            return Ok(Some(row));
        }
    }
    Ok(None)
}

fn answer(alloc: Global, driver: &mut Driver, call: &str) -> Result<String, Fail> {
    let (name, rest) = call.split_once(' ').ok_or("no call")?;
    match name {
        "read" => given(alloc, rest),
        "copy" => copied(alloc, rest),
        "suits" => suited(alloc, rest),
        "driver" => renewed(alloc, driver, rest),
        "ask" => asked(alloc, driver, rest),
        "end" => ended(alloc, driver, rest),
        _ => printed(alloc, &driver.process(thread_of(rest))),
    }
}

fn given(alloc: Global, text: &str) -> Result<String, Fail> {
    printed(alloc, &read(alloc, text)?)
}

fn copied(alloc: Global, text: &str) -> Result<String, Fail> {
    let source = read(alloc, text)??;
    printed(alloc, &copy(alloc, &source)?)
}

/// A number, and the text behind it.
fn numbered(text: &str) -> Result<(u32, &str), Fail> {
    let (number, rest) = text.split_once(' ').ok_or("no number")?;
    Ok((number.parse()?, rest))
}

fn suited(alloc: Global, text: &str) -> Result<String, Fail> {
    let (clients, text) = numbered(text)?;
    let source = read(alloc, text)??;
    let suited = [
        source.suits(Workload::Register, clients),
        source.suits(Workload::Counter, clients),
        source.suits(Workload::Set, clients),
        source.suits(Workload::Ids, clients),
        source.suits_transactions(clients),
    ];
    printed(alloc, &suited)
}

fn renewed(alloc: Global, driver: &mut Driver, text: &str) -> Result<String, Fail> {
    let (clients, text) = numbered(text)?;
    let made = match drive(alloc, text, clients)? {
        Err(error) => Err(error),
        Ok(made) => {
            *driver = made;
            Ok(())
        }
    };
    printed(alloc, &made)
}

fn asked(alloc: Global, driver: &mut Driver, text: &str) -> Result<String, Fail> {
    let (draw, thread) = numbered(text)?;
    let answer = driver.ask(thread_of(thread), u64::from(draw));
    printed(alloc, &answer)
}

fn ended(alloc: Global, driver: &mut Driver, text: &str) -> Result<String, Fail> {
    let (how, thread) = text.split_once(' ').ok_or("no end")?;
    let ended = match how {
        "ok" => Ended::Ok,
        "fail" => Ended::Fail,
        _ => Ended::Info,
    };
    let answer = driver.complete(thread_of(thread), ended);
    printed(alloc, &answer)
}

fn thread_of(text: &str) -> Thread {
    match text {
        "client-0" => Thread::Client(0),
        "client-1" => Thread::Client(1),
        "client-2" => Thread::Client(2),
        _ => Thread::Nemesis,
    }
}

/// What the derived `Debug` prints, which shows all that a value holds; once more where memory was refused.
fn printed<T: Debug>(alloc: Global, answer: &T) -> Result<String, Fail> {
    match format!(in alloc; "{answer:?}") {
        Ok(text) => Ok(text),
        Err(_) => Ok(format!(in alloc; "{answer:?}")?),
    }
}

/// The values of a text, once more where memory was refused.
fn values(alloc: Global, text: &str) -> Result<Vec<Value>, EdnError> {
    match read_all(alloc, &mut text.as_bytes(), 2) {
        Err(EdnError::OutOfMemory) => read_all(alloc, &mut text.as_bytes(), 2),
        answer => answer,
    }
}

/// The generator of a text.
fn read(alloc: Global, text: &str) -> Result<Result<Gen, GenTextError>, Fail> {
    let value = values(alloc, text)?.pop().ok_or("no value")?;
    match gen_of_value(alloc, &value) {
        Err(GenTextError::OutOfMemory) => Ok(gen_of_value(alloc, &value)),
        answer => Ok(answer),
    }
}

/// A copy, once more where memory was refused.
fn copy(alloc: Global, source: &Gen) -> Result<Gen, AllocError> {
    match source.copy(alloc) {
        Err(_) => source.copy(alloc),
        answer => answer,
    }
}

/// The driver of a text.
pub(crate) fn drive(
    alloc: Global,
    text: &str,
    clients: u32,
) -> Result<Result<Driver, DriverError>, Fail> {
    match Driver::new(alloc, read(alloc, text)??, clients) {
        Err(DriverError::OutOfMemory) => Ok(Driver::new(alloc, read(alloc, text)??, clients)),
        answer => Ok(answer),
    }
}

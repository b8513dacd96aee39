//! Random histories of a register, by three clients.

use jh_test_kit::Dice;
use std::alloc::{AllocError, Global};

/// One that does operations, one after another.
#[derive(Clone, Copy)]
struct Client {
    process: u64,
    /// The function of the operation that is not done.
    waiting: Option<&'static str>,
}

/// A function, and the value that is asked with.
fn random_call(dice: &mut Dice) -> (&'static str, &'static str) {
    match dice.below(8) {
        0 => (":write", "0"),
        1 => (":write", "1"),
        2 => (":write", "2"),
        3 => (":cas", "[0 1]"),
        4 => (":cas", "(1 2)"),
        5 => (":cas", "[2 0]"),
        _ => (":read", "nil"),
    }
}

/// How an operation ends, and the value that is answered.
fn random_end(dice: &mut Dice) -> (&'static str, &'static str) {
    match dice.below(10) {
        0 => (":fail", "nil"),
        1 => (":info", "nil"),
        2 => (":ok", "nil"),
        3 | 5 => (":ok", "1"),
        4 | 6 => (":ok", "2"),
        _ => (":ok", "0"),
    }
}

impl Client {
    /// What it does next: type, function and value.
    fn next(&mut self, dice: &mut Dice) -> (&'static str, &'static str, &'static str) {
        let Some(f) = self.waiting else {
            let (f, value) = random_call(dice);
            self.waiting = Some(f);
            return (":invoke", f, value);
        };
        let (kind, value) = random_end(dice);
        self.waiting = None;
        if kind == ":info" {
            self.process = self.process.saturating_add(3);
        }
        (kind, f, value)
    }
}

/// A history of at most this many calls.
pub fn random_history(alloc: Global, dice: &mut Dice, most: u64) -> Result<String, AllocError> {
    let mut text = String::new(alloc);
    let mut clients = [0, 1, 2].map(|process| Client {
        process,
        waiting: None,
    });
    let mut made = 0u64;
    for _ in 0..24 {
        let client = &mut clients[dice.below(3) as usize];
        if client.waiting.is_none() {
            if made >= most {
                continue;
            }
            made += 1;
        }
        let process = client.process;
        let (kind, f, value) = client.next(dice);
        text.push_str(&format!(in alloc; "{process} {kind} {f} {value}; ")?)?;
    }
    Ok(text)
}

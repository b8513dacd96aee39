//! A long history of a register by many clients, each busy all the time.

use jh_linear::RegCall;
use jh_test_kit::Dice;
use std::alloc::{AllocError, Global};

/// One that does operations, one after another.
#[derive(Clone, Copy)]
struct Client {
    /// What is asked, until it ended.
    call: Option<RegCall>,
    /// How it ends, once it happened.
    end: Option<&'static str>,
}

/// A random one of the five values.
fn random_value(dice: &mut Dice) -> i64 {
    i64::try_from(dice.below(5)).unwrap_or(0)
}

/// A random call: a read, a write, or a compare and set.
fn random_call(dice: &mut Dice) -> RegCall {
    let old = random_value(dice);
    let new = random_value(dice);
    match dice.below(3) {
        0 => RegCall::Read(None),
        1 => RegCall::Write(new),
        _ => RegCall::Cas(old, new),
    }
}

impl Client {
    /// Lets a call happen on a register.
    fn happen(&mut self, call: RegCall, register: &mut i64) {
        self.end = Some(":ok");
        match call {
            RegCall::Read(_) => self.call = Some(RegCall::Read(Some(*register))),
            RegCall::Write(new) => *register = new,
            RegCall::Cas(old, new) if old == *register => *register = new,
            RegCall::Cas(_, _) => self.end = Some(":fail"),
        }
    }

    /// Asks, happens or ends, in turn. What is seen of it is its type and the call.
    fn act(&mut self, dice: &mut Dice, register: &mut i64) -> Option<(&'static str, RegCall)> {
        match (self.call, self.end) {
            (None, _) => {
                let call = random_call(dice);
                self.call = Some(call);
                Some((":invoke", call))
            }
            (Some(call), None) => {
                self.happen(call, register);
                None
            }
            (Some(call), Some(end)) => {
                self.call = None;
                self.end = None;
                Some((end, call))
            }
        }
    }
}

/// The function and the value of a call.
fn call_text(alloc: Global, call: RegCall) -> Result<String, AllocError> {
    match call {
        RegCall::Read(None) => ":read nil".to_string(alloc),
        RegCall::Read(Some(value)) => format!(in alloc; ":read {value}"),
        RegCall::Write(new) => format!(in alloc; ":write {new}"),
        RegCall::Cas(old, new) => format!(in alloc; ":cas [{old} {new}]"),
    }
}

/// A history of so many calls on a register that starts with 0: sixteen clients, with reads, writes
/// and compare-and-sets in thirds, over five values.
pub fn busy_history(alloc: Global, count: usize) -> Result<String, AllocError> {
    let mut dice = Dice::new(11);
    let mut text = String::new(alloc);
    let mut clients = [Client {
        call: None,
        end: None,
    }; 16];
    let mut register = 0;
    let mut made = 0;
    for _ in 0..count.saturating_mul(4) {
        let process = dice.below(16);
        let client = &mut clients[process as usize];
        if client.call.is_none() {
            if made >= count {
                continue;
            }
            made += 1;
        }
        if let Some((kind, call)) = client.act(&mut dice, &mut register) {
            let text_of_call = call_text(alloc, call)?;
            text.push_str(&format!(in alloc; "{process} {kind} {text_of_call}; ")?)?;
        }
    }
    Ok(text)
}

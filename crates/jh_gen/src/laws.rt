//! Laws of drivers as states and of their limits, each the clause of a function that does nothing.

ghost use Rattle.std.specs.Prelude.{◌≡◌};
ghost use Rattle.jh_gen.specs.DriverState.{AskedAnswers, EndKeepsGenerator};
ghost use Rattle.jh_gen.specs.DriverState.{max_calls, max_clients};

use crate::driver::{MAX_CALLS, MAX_CLIENTS};

/// What a driver answers by its state alone is what the generator that it stands for offers, after
/// the calls that it gave (jepsen.generator). With `end_keeps_generator` this goes through a whole
/// test whose state keeps the driver as a value, and no trace.
pub fn asked_answers()
    ensures { AskedAnswers }
{}

/// The end of an operation is no call: the driver stands for the same generator and trace after it.
pub fn end_keeps_generator()
    ensures { EndKeepsGenerator }
{}

/// The limits that code can name are the numbers of the definitions.
pub fn limits()
    ensures calls { MAX_CALLS ≡ max_calls }
    ensures clients { MAX_CLIENTS ≡ max_clients }
{}

//! What a generator of rising numbers asks with each of them. `specs/Rises.antt` has the rule.

ghost use Rattle.std.specs.Prelude.{◌≡◌};
ghost use Rattle.jh_gen.specs.Rises.{risen};

use jh_ops::{Call, Request};

/// What a rising generator asks with each number.
#[derive(Clone, Copy, Debug, PartialEq, Eq)]
pub enum Rise {
    /// Adds of it: elements of a set, each added once.
    Adds,
    /// Writes of it: values of a register, each written once.
    Writes,
}

impl Rise {
    /// The call with this number.
    pub fn call(self, number: i64) -> Call
        ensures { result ≡ risen self number }
    {
        match self {
            Rise::Adds => Call::Client(Request::Add(number)),
            Rise::Writes => Call::Client(Request::Write(number)),
        }
    }
}

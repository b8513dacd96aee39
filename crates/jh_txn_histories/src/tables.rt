//! The tables of numbers that grow while a history is read.

ghost use Rattle.std.specs.Prelude.{◌≡◌, []};

use jh_numbers::Numbers;
use std::alloc::Global;

/// The numbers of keys, which have the owner 0, and of elements, whose owner is the number of their key.
#[derive(Drop)]
pub(crate) struct Tables {
    pub(crate) keys: Numbers,
    pub(crate) elements: Numbers,
}

impl Tables {
    /// No numbers. Takes no memory.
    pub(crate) fn new(alloc: Global) -> Tables
        ensures keys { result.keys ≡ [] }
        ensures elements { result.elements ≡ [] }
    {
        Tables {
            keys: Numbers::new(alloc),
            elements: Numbers::new(alloc),
        }
    }
}

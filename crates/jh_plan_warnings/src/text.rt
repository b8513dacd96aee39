//! The warnings as users read them. `specs/Warnings.antt` has each text.

use crate::warnings::Warning;
use std::fmt::{self, Display, Formatter};

impl Display for Warning {
    ghost use Rattle.std.specs.Prelude.{Some};
    ghost use Rattle.jh_plan_warnings.specs.Warnings.{warning_text};

    ghost output = { λ warning. Some (warning_text warning) };

    fn fmt<W: fmt::Write>(&self, f: &mut Formatter<W>) -> fmt::Result {
        match *self {
            Warning::NeverReads => {
                f.write_str("the generator never asks for a read, by which the history is judged")
            }
            Warning::NeverBegun { entry, id } => write!(
                f,
                "entry {entry} withdraws fault {id}, which no entry before it begins"
            ),
        }
    }
}

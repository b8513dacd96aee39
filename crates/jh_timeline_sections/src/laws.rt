//! A law of the limits, the clause of a function that does nothing.

ghost use Rattle.std.specs.Prelude.{◌≡◌};
ghost use Rattle.jh_timeline_sections.specs.Windows.{max_whole, shown_around, shown_before};

use crate::window::{MAX_WHOLE, SHOWN_AROUND, SHOWN_BEFORE};

/// The limits that code can name are the numbers of the definitions.
pub fn limits()
    ensures whole { MAX_WHOLE ≡ max_whole }
    ensures around { SHOWN_AROUND ≡ shown_around }
    ensures before { SHOWN_BEFORE ≡ shown_before }
{}

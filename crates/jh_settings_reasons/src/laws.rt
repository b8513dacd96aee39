//! That the limits of the code are those of the definitions. `specs/Limits.antt` has the numbers.

ghost use Rattle.std.specs.Prelude.{◌≡◌};
ghost use Rattle.jh_settings_reasons.specs.Limits.{max_shown_name, max_shown_part};

use crate::generator::MAX_SHOWN_PART;
use crate::schedule::MAX_SHOWN_NAME;

/// The limits of the lines are the numbers of the definitions.
pub fn limits()
    ensures part { MAX_SHOWN_PART ≡ max_shown_part }
    ensures name { MAX_SHOWN_NAME ≡ max_shown_name }
{}

//! That the limits of the code are those of the definitions. `specs/Limits.antt` has the numbers.

ghost use Rattle.std.specs.Prelude.{◌≡◌};
ghost use Rattle.jh_drive_settings.specs.Limits.{max_rate, max_recovery_ms};

use crate::numbers::{MAX_RATE, MAX_RECOVERY_MS};

/// The limits that code can name are the numbers of the definitions.
pub fn limits()
    ensures rate { MAX_RATE ≡ max_rate }
    ensures recovery { MAX_RECOVERY_MS ≡ max_recovery_ms }
{}

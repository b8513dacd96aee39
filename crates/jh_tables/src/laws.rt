//! A law of the limits, the clause of a function that does nothing.

ghost use Rattle.std.specs.Prelude.{◌≡◌};
ghost use Rattle.jh_tables.specs.Limits.{max_laid, max_loss, max_nodes};

use crate::counted::{LEVELS, MAX_FIXES, MAX_NODES};
use crate::tables::MAX_LAID;

/// The limits that code can name are the numbers of the definitions.
pub fn limits()
    ensures put { MAX_LAID ≡ max_laid }
    ensures fixes { MAX_FIXES ≡ max_laid }
    ensures levels { LEVELS ≡ max_loss }
    ensures nodes { MAX_NODES ≡ max_nodes }
{}

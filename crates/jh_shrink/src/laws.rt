//! A law of the limits, the clause of a function that does nothing.

ghost use Rattle.std.specs.Prelude.{◌≡◌};
ghost use Rattle.jh_shrink.specs.Edits.{max_edits};

use crate::editor::MAX_EDITS;

/// The limit that code can name is the number of the definition.
pub fn limits()
    ensures edits { MAX_EDITS ≡ max_edits }
{}

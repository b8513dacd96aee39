//! A law of the limits, the clause of a function that does nothing.

ghost use Rattle.std.specs.Prelude.{◌≡◌, pos};
ghost use Rattle.jh_tables.specs.Limits.{max_bumped_ms, max_delay_ms, max_fixed_ms, max_laid};
ghost use Rattle.jh_tables.specs.Limits.{max_loss, max_offset_ms, max_slowed_ms};
ghost use Rattle.jh_tables.specs.Limits.{max_start_delay_ms, max_start_offset_ms};

use crate::environment::{MAX_DELAY_MS, MAX_LAID, MAX_OFFSET_MS};
use crate::faults::{MAX_BUMPED_MS, MAX_FIXED_MS, MAX_LOSS, MAX_SLOWED_MS};
use crate::starting::{MAX_START_DELAY_MS, MAX_START_LOSS, MAX_START_OFFSET_MS};

/// The limits that code can name are the numbers of the definitions.
pub fn limits()
    ensures put { MAX_LAID ≡ max_laid }
    ensures delay { MAX_DELAY_MS ≡ max_delay_ms }
    ensures offset { MAX_OFFSET_MS ≡ max_offset_ms }
    ensures start_delay { MAX_START_DELAY_MS ≡ max_start_delay_ms }
    ensures start_loss { MAX_START_LOSS ≡ max_loss }
    ensures start_offset { MAX_START_OFFSET_MS ≡ pos max_start_offset_ms }
    ensures slowed { MAX_SLOWED_MS ≡ max_slowed_ms }
    ensures fixed { MAX_FIXED_MS ≡ max_fixed_ms }
    ensures loss { MAX_LOSS ≡ max_loss }
    ensures bumped { MAX_BUMPED_MS ≡ pos max_bumped_ms }
{}

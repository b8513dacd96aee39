//! That the limits and defaults of the code are those of the definitions. `specs/Limits.antt` and
//! `specs/Shown.antt` have the numbers.

ghost use Rattle.std.specs.Prelude.{◌≡◌};
ghost use Rattle.jh_settings.specs.Limits.{default_budget, default_rows, max_budget, max_due_at};
ghost use Rattle.jh_settings.specs.Limits.{max_seed, max_tick_every, max_time_ms};
ghost use Rattle.jh_settings.specs.Shown.{max_shown_key};

use crate::error::MAX_SHOWN_KEY;
use crate::numbers::{
    DEFAULT_BUDGET, DEFAULT_ROWS, MAX_BUDGET, MAX_SEED, MAX_TICK_EVERY, MAX_TIME_MS,
};
use crate::schedule::MAX_DUE_AT;

/// The limits and defaults that code can name are the numbers of the definitions.
pub fn limits()
    ensures budget { MAX_BUDGET ≡ max_budget }
    ensures default_budget { DEFAULT_BUDGET ≡ default_budget }
    ensures default_rows { DEFAULT_ROWS ≡ default_rows }
    ensures seed { MAX_SEED ≡ max_seed }
    ensures tick_every { MAX_TICK_EVERY ≡ max_tick_every }
    ensures due_at { MAX_DUE_AT ≡ max_due_at }
    ensures time { MAX_TIME_MS ≡ max_time_ms }
    ensures shown { MAX_SHOWN_KEY ≡ max_shown_key }
{}

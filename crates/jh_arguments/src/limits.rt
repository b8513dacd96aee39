//! How great the numbers of options may be, as ranges of `clap` take them. `specs/Limits.antt` has the
//! same numbers, but for that of threads, which `jh_tasks` has, and that of a budget, which
//! `jh_settings` has: `line.rt` has `clap` refuse what is beyond them, and `commands.rt` takes what is
//! within.

/// The greatest number of a candidate, and the most candidates: the sum of the two still fits 64 bits.
pub(crate) const MAX_CANDIDATES: i64 = i64::MAX;

/// The most random faults of a candidate.
pub(crate) const MAX_FAULTS: i64 = 256;

/// The longest time over which calls are spread: a day. So is `MAX_TIME_MS` of `jh_settings`,
/// for another reason: it is the latest moment of a test.
pub(crate) const MAX_SPREAD_MS: i64 = 86_400_000;

/// The most threads that judge keys or try candidates.
pub(crate) const MAX_THREADS: i64 = 16;

/// The most that a judge or `shrink` may do: configurations, or runs.
pub(crate) const MAX_BUDGET: i64 = 10_000_000;

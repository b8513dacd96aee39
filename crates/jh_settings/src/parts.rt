//! What settings mean, by groups of keys that stand together in their order. `specs/Inside.antt` says which
//! keys each group has.

use crate::choices::Mode;
use jh_env::Env;
use jh_gen::Gen;
use jh_ops::Workload;
use jh_simnode::Store;

/// The cluster that answers calls, and which calls may come.
#[derive(Drop)]
pub(crate) struct Cluster {
    pub environment: Env,
    pub store: Store,
    pub workload: Workload,
    pub generator: Gen,
}

/// How many calls come, how they run, and what they find at first.
#[derive(Clone, Copy, Drop)]
pub(crate) struct Load {
    pub clients: u32,
    pub ops: u32,
    pub mode: Mode,
    pub volatile: bool,
    pub initial: Option<i64>,
}

/// Numbers of the settings: after how many of its calls a client thread ticks, how many rows the log
/// has, the seed of what is random, and the budget of the judgement. `specs/Limits.antt` has the
/// greatest that they may be, and the defaults.
#[derive(Clone, Copy, Drop)]
pub(crate) struct Numbers {
    pub tick_every: u32,
    pub rows: u32,
    pub seed: u64,
    pub budget: u64,
}

//! What settings mean, by groups of keys that stand together in their order. `specs/Inside.antt` says which
//! keys each group has.

use jh_env::Env;
use jh_gen::Gen;
use jh_test_parts::{TestEntry, TestWorkload, TransactionShape};
use jh_txn::ConsistencyModel;

/// What is asked of the database.
#[derive(Drop)]
pub(crate) struct Asked {
    pub environment: Env,
    pub workload: TestWorkload,
    pub generator: Gen,
}

/// How many calls are given, when, and of which keys.
#[derive(Clone, Copy, Drop)]
pub(crate) struct Pace {
    pub clients: u32,
    pub ops: u32,
    pub time_limit: Option<u32>,
    pub rate: Option<u32>,
    pub threads_per_key: Option<u32>,
    pub ops_per_key: Option<u32>,
    pub recovery: u32,
}

/// What is set for registers or for transactions alone, the seed of what is random, and how the history is
/// judged.
#[derive(Clone, Copy, Drop)]
pub(crate) struct Details {
    pub initial: Option<i64>,
    pub transactions: TransactionShape,
    pub model: ConsistencyModel,
    pub seed: u64,
    pub budget: u64,
}

/// All parts.
#[derive(Drop)]
pub(crate) struct Parts {
    pub asked: Asked,
    pub pace: Pace,
    pub final_calls: Option<Gen>,
    pub details: Details,
    pub schedule: Vec<TestEntry>,
}

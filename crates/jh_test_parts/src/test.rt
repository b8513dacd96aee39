//! What a test of a real database is set to. `specs/Test.antt` says what each part is and which tests
//! can be made.

ghost use Rattle.std.specs.Prelude.{◌≡◌, ◌↔◌, ◌<◌, ◌≤◌, [], All, IfOk, IfSome, IsTrue, MatchResult};
ghost use Rattle.std.specs.Prelude.{length, option_map};
ghost use Rattle.jh_env.specs.Overlay.{StandsFor};
ghost use Rattle.jh_nemesis.specs.Steps.{FitsNodes};
ghost use Rattle.jh_gen.specs.View.{generator_of};
ghost use Rattle.jh_test_parts.specs.Limits.{max_test_entries};
ghost use Rattle.jh_test_parts.specs.Test as rule;
ghost use Rattle.jh_test_parts.specs.Test.{IsFitTest, IsGoodShape, RefusesTest};

use crate::parts::{
    KeyShares, MAX_KEY_APPENDS, MAX_TRANSACTION_KEYS, MAX_TRANSACTION_OPS, TestEntry,
    TransactionShape,
};
use crate::workload::TestWorkload;
use jh_env::{Env, Node, Nodes};
use jh_gen::{Gen, Inner, MAX_CALLS, MAX_CLIENTS};
use jh_ops::Workload;
use std::alloc::{AllocError, Global};
use std::marker::Model;
use thiserror::Error;

/// The most entries of the schedule of a test. Settings with more are refused before a test is made, by
/// `MAX_ENTRIES` of `jh_simnode`, which is the same number.
pub const MAX_TEST_ENTRIES: usize = 1_024;

/// What a test is made of.
#[derive(Drop)]
pub struct TestData {
    /// The environment, on which no fault is laid.
    pub environment: Env,
    pub workload: TestWorkload,
    /// Where the calls of *main* come from.
    pub generator: Gen,
    /// Where the calls of *final* come from, where there are some.
    pub final_calls: Option<Gen>,
    /// How many threads make calls: 1 to 16.
    pub clients: u32,
    /// How many calls they make at most: 1 to 1,000,000; each makes two `Op`s, and one where it is
    /// never answered.
    pub ops: u32,
    /// Milliseconds from which on no call of *main* is given.
    pub time_limit: Option<u32>,
    /// Calls of *main* a second, at most.
    pub rate: Option<u32>,
    pub keys: Option<KeyShares>,
    pub transactions: TransactionShape,
    /// Milliseconds between the end of all faults and the final calls.
    pub recovery: u32,
    /// The seed of the random numbers.
    pub seed: u64,
    /// The steps of the nemesis: at most 1,024.
    pub schedule: Vec<TestEntry>,
}

/// Why a test is refused.
#[derive(Clone, Copy, Debug, PartialEq, Eq, Error)]
pub enum TestError {
    /// The number of clients is not from 1 to 16.
    #[error("bad clients")]
    BadClients,
    /// The number of calls is not from 1 to 1,000,000.
    #[error("bad ops")]
    BadOps,
    /// The threads of a key do not divide the clients, or a key has no calls.
    #[error("bad keys")]
    BadKeys,
    /// The generator does not suit what is tested and the number of clients.
    #[error("bad generator")]
    BadGenerator,
    /// The generator of the final calls does not suit them.
    #[error("bad final")]
    BadFinal,
    /// There are more than 1,024 entries, or a fault names a node that is not in the environment.
    #[error("bad schedule")]
    BadSchedule,
    /// Transactions are over no keys or more than 1,000, of no micro-operations or more than 100, or
    /// with no appends of a key or more than 10,000.
    #[error("bad transactions")]
    BadTransactions,
    #[error("out of memory")]
    OutOfMemory,
}

impl From<AllocError> for TestError {
    ghost use Rattle.std.specs.Prelude.{◌≡◌};
    ghost use Rattle.jh_test_parts.specs.declared.test.TestError.TheVariants.{OutOfMemory};

    ghost from_gives = { λ _ e. e ≡ OutOfMemory };

    fn from(_error: AllocError) -> TestError {
        TestError::OutOfMemory
    }
}

/// What a test of a real database is set to. A contract sees its parts, which are those that it was
/// made of.
#[derive(Drop)]
pub struct Test {
    environment: Env,
    workload: TestWorkload,
    generator: Inner,
    final_calls: Option<Inner>,
    clients: u32,
    ops: u32,
    time_limit: Option<u32>,
    rate: Option<u32>,
    keys: Option<KeyShares>,
    transactions: TransactionShape,
    recovery: u32,
    seed: u64,
    schedule: Vec<TestEntry>,
}

impl Model for Test {
    ghost use Rattle.jh_test_parts.specs.Test.{TestValue};

    ghost Value = { TestValue };

    ghost use Rattle.std.specs.Coded.{codes};
    ghost use Rattle.jh_gen.specs.Code.{generator_coded};

    ghost coded = { Prim.hlevel (codes, generator_coded) };

    ghost use Rattle.jh_test_parts.specs.TestInside.{test_of, IsFitInside};

    ghost view = { test_of };

    ghost invariant = { IsFitInside };
}

/// Whether each node that a fault of the schedule names is in the environment.
fn all_fit(schedule: &[TestEntry], environment: &Env) -> bool
    ensures { IsTrue result
        ↔ All (λ entry. FitsNodes (length environment.now.names) entry.step) schedule.now }
{
    for entry in schedule {
        if !entry.step.fits(environment) {
            return false;
        }
    }
    true
}

/// Whether the threads of a key divide the clients, and each key has calls.
fn are_shares(clients: u32, keys: Option<KeyShares>) -> bool
    ensures { result ≡ rule.are_shares clients keys }
{
    match keys {
        None => true,
        Some(shares) => { 0 < shares.threads && clients % shares.threads == 0 && 0 < shares.calls }
    }
}

/// Whether the calls of a generator are requests of what is tested.
fn suits(workload: TestWorkload, clients: u32, generator: &Gen) -> bool
    ensures { result ≡ rule.suits_workload workload clients (generator_of generator.now) }
{
    match workload {
        TestWorkload::Register => generator.suits(Workload::Register, clients),
        TestWorkload::Counter => generator.suits(Workload::Counter, clients),
        TestWorkload::Set => generator.suits(Workload::Set, clients),
        TestWorkload::Ids => generator.suits(Workload::Ids, clients),
        TestWorkload::ListAppend => generator.suits_transactions(clients),
    }
}

/// Whether the generator of the final calls, where there is one, suits too.
fn final_calls_suit(workload: TestWorkload, clients: u32, final_calls: &Option<Gen>) -> bool
    ensures { result
        ≡ rule.final_calls_suit workload clients (option_map generator_of final_calls.now) }
{
    match final_calls {
        None => true,
        Some(generator) => suits(workload, clients, generator),
    }
}

/// Whether transactions can be made so.
fn are_made_so(shape: TransactionShape) -> bool
    ensures { IsTrue result ↔ IsGoodShape shape }
{
    1 <= shape.keys
        && shape.keys <= MAX_TRANSACTION_KEYS
        && 1 <= shape.most
        && shape.most <= MAX_TRANSACTION_OPS
        && 1 <= shape.appends
        && shape.appends <= MAX_KEY_APPENDS
}

/// Refuses data of which no test is made.
fn judge(fields: &TestData) -> Result<(), TestError>
    ensures { MatchResult result (λ _. IsFitTest (rule.test_of_data fields.now))
        (RefusesTest (rule.test_of_data fields.now)) }
{
    if fields.clients < 1 || fields.clients > MAX_CLIENTS {
        return Err(TestError::BadClients);
    }
    if fields.ops < 1 || fields.ops > MAX_CALLS {
        return Err(TestError::BadOps);
    }
    if !are_shares(fields.clients, fields.keys) {
        return Err(TestError::BadKeys);
    }
    if !suits(fields.workload, fields.clients, &fields.generator) {
        return Err(TestError::BadGenerator);
    }
    if !final_calls_suit(fields.workload, fields.clients, &fields.final_calls) {
        return Err(TestError::BadFinal);
    }
    if fields.schedule.len() > MAX_TEST_ENTRIES || !all_fit(&fields.schedule, &fields.environment) {
        return Err(TestError::BadSchedule);
    }
    if !are_made_so(fields.transactions) {
        return Err(TestError::BadTransactions);
    }
    Ok(())
}

/// The same generator once more, to be held by another test.
fn copied(alloc: Global, generator: &Inner) -> Result<Inner, AllocError>
    ensures { IfOk result (λ copy. copy ≡ generator.now) }
{
    Inner::of(alloc, generator.as_gen().copy(alloc)?)
}

/// The same final calls once more, where there are some.
fn copied_final(alloc: Global, final_calls: &Option<Inner>) -> Result<Option<Inner>, AllocError>
    ensures { IfOk result (λ copy. copy ≡ final_calls.now) }
{
    match final_calls {
        None => Ok(None),
        Some(generator) => Ok(Some(copied(alloc, generator)?)),
    }
}

impl Test {
    /// The test of this data.
    ///
    /// Errors, in this order: `BadClients` where there are not 1 to 16; `BadOps` where there are not
    /// 1 to 1,000,000; `BadKeys` where the threads of a key do not divide the clients, or a key has no
    /// calls; `BadGenerator`, then `BadFinal`, where a generator does not suit what is tested and the
    /// number of clients (`Gen::suits`); `BadSchedule` where there are more than 1,024 entries, or a
    /// fault names a node that is not in the environment; `BadTransactions` where a number of
    /// `transactions` is out of its range; `OutOfMemory`.
    pub fn new(alloc: Global, fields: TestData) -> Result<Test, TestError>
        requires { StandsFor fields.environment [] }
        ensures { MatchResult result
            (λ test. (test ≡ rule.test_of_data fields) × IsFitTest test)
            (RefusesTest (rule.test_of_data fields)) }
    {
        judge(&fields)?;
        let TestData {
            environment,
            workload,
            generator,
            final_calls,
            clients,
            ops,
            time_limit,
            rate,
            keys,
            transactions,
            recovery,
            seed,
            schedule,
        } = fields;
        let final_calls = match final_calls {
            None => None,
            Some(generator) => Some(Inner::of(alloc, generator)?),
        };
        Ok(Test {
            environment,
            workload,
            generator: Inner::of(alloc, generator)?,
            final_calls,
            clients,
            ops,
            time_limit,
            rate,
            keys,
            transactions,
            recovery,
            seed,
            schedule,
        })
    }

    /// The test with another schedule, of at most 1,024 entries whose faults name nodes of its
    /// environment, and with another seed, all else being the same. Takes time and memory for every
    /// cell of the environment and for the generators.
    ///
    /// Error: memory was refused.
    pub fn with_schedule(
        &self,
        alloc: Global,
        schedule: Vec<TestEntry>,
        seed: u64,
    ) -> Result<Test, AllocError>
        requires few { length schedule.items ≤ max_test_entries }
        requires fit { All (λ entry. FitsNodes (length self.now.start.names) entry.step)
            schedule.items }
        ensures { IfOk result
            (λ made. made ≡ rule.test_with_schedule self.now schedule.items seed) }
    {
        Ok(Test {
            environment: self.environment.copy(alloc)?,
            workload: self.workload,
            generator: copied(alloc, &self.generator)?,
            final_calls: copied_final(alloc, &self.final_calls)?,
            clients: self.clients,
            ops: self.ops,
            time_limit: self.time_limit,
            rate: self.rate,
            keys: self.keys,
            transactions: self.transactions,
            recovery: self.recovery,
            seed,
            schedule,
        })
    }

    /// The environment before the first fault.
    pub fn environment(&self) -> &Env
        ensures environment { result.now ≡ self.now.start }
        ensures calm { StandsFor self.now.start [] }
    {
        &self.environment
    }

    /// The nodes, with their names.
    pub fn nodes(&self) -> &Nodes
        ensures { result.now ≡ self.now.start.names }
    {
        self.environment.nodes()
    }

    /// What its clients call, and which checker judges its history: what the database is asked to be.
    pub fn workload(&self) -> TestWorkload
        ensures { result ≡ self.now.workload }
    {
        self.workload
    }

    /// Where the calls of *main* come from.
    pub fn generator(&self) -> &Gen
        ensures { generator_of result.now ≡ self.now.generator }
    {
        self.generator.as_gen()
    }

    /// Where the calls of *final* come from, where there are some.
    pub fn final_calls(&self) -> Option<&Gen>
        ensures { option_map (λ g. generator_of g.now) result ≡ self.now.final_calls }
    {
        match &self.final_calls {
            None => None,
            Some(generator) => Some(generator.as_gen()),
        }
    }

    /// How many threads make calls, from 1 to 16.
    pub fn clients(&self) -> u32
        ensures clients { result ≡ self.now.clients }
        ensures fit { IsFitTest self.now }
    {
        self.clients
    }

    /// How many calls they make at most.
    pub fn ops(&self) -> u32
        ensures { result ≡ self.now.ops }
    {
        self.ops
    }

    /// Milliseconds from which on no call of *main* is given, where there is a limit.
    pub fn time_limit(&self) -> Option<u32>
        ensures { result ≡ self.now.time_limit }
    {
        self.time_limit
    }

    /// Calls of *main* a second, at most, where there is a limit.
    pub fn rate(&self) -> Option<u32>
        ensures { result ≡ self.now.rate }
    {
        self.rate
    }

    /// How keys are shared, where they are independent.
    pub fn keys(&self) -> Option<KeyShares>
        ensures keys { result ≡ self.now.keys }
        ensures some { IfSome result (λ shares. (0 < shares.threads) × (0 < shares.calls)) }
    {
        self.keys
    }

    /// How transactions are made.
    pub fn transactions(&self) -> TransactionShape
        ensures transactions { result ≡ self.now.transactions }
        ensures good { IsGoodShape result }
    {
        self.transactions
    }

    /// Milliseconds between the end of all faults and the final calls.
    pub fn recovery(&self) -> u32
        ensures { result ≡ self.now.recovery }
    {
        self.recovery
    }

    /// The seed of the random numbers.
    pub fn seed(&self) -> u64
        ensures { result ≡ self.now.seed }
    {
        self.seed
    }

    /// The steps of the nemesis, at most 1,024.
    pub fn schedule(&self) -> &[TestEntry]
        ensures schedule { result.now ≡ self.now.schedule }
    {
        &self.schedule
    }

    /// The thread of a process.
    pub fn thread_of(&self, process: u64) -> u32
        ensures thread { result ≡ rule.thread_of_process self.now process }
        ensures within { result < self.now.clients }
    {
        (process % u64::from(self.clients)) as u32
    }

    /// The node that a thread calls.
    pub fn node_of(&self, thread: u32) -> Node
        ensures { result ≡ rule.node_of_thread self.now thread }
    {
        self.environment.nodes().of_thread(thread)
    }
}

//! What a run does. `specs/Plans.antt` says which plans can be run; a new part is a field here and
//! of `PlanValue` there.

ghost use Rattle.std.specs.Prelude.{◌≡◌, ◌↔◌, ◌<◌, [], All, IsTrue, MatchResult, length};
ghost use Rattle.jh_env.specs.Overlay.{StandsFor};
ghost use Rattle.jh_nemesis.specs.Steps.{FitsNodes};
ghost use Rattle.jh_gen.specs.View.{generator_of};
ghost use Rattle.jh_simnode.specs.Plans as rule;
ghost use Rattle.jh_simnode.specs.Plans.{IsFit, IsKeptPlan, RefusesPlan, RefusesSchedule};
ghost use Rattle.jh_simnode.specs.declared.plan.PlanError.TheVariants.{OutOfMemory};

use crate::database::{Database, Store};
use crate::schedule::{Entry, Schedule};
use jh_env::Env;
use jh_gen::{Gen, Inner, MAX_CLIENTS};
use jh_ops::Workload;
use std::alloc::{AllocError, Global};
use std::marker::Model;
use thiserror::Error;

/// The most rows of the log of a run on threads. A log of `jh_slots` may have as many, so it refuses no
/// number of rows that a plan has.
pub const MAX_ROWS: u32 = 65_536;

/// What a run does: on which environment and database, by how many clients, which calls, which steps
/// of the nemesis. A contract sees its parts, which are those that it was made of.
#[derive(Debug, Drop)]
pub struct Plan {
    environment: Env,
    database: Database,
    clients: u32,
    ops: u32,
    generator: Inner,
    schedule: Schedule,
    tick_every: u32,
    rows: u32,
    seed: u64,
}

impl Model for Plan {
    ghost use Rattle.jh_simnode.specs.Plans.{PlanValue};

    ghost Value = { PlanValue };

    ghost use Rattle.std.specs.Coded.{codes};
    ghost use Rattle.jh_gen.specs.Code.{generator_coded};

    ghost coded = { Prim.hlevel (codes, generator_coded) };

    ghost use Rattle.jh_simnode.specs.Inside.{plan_of, IsKeptInside};

    ghost view = { plan_of };

    ghost invariant = { IsKeptInside };
}

/// Why a plan is refused.
#[derive(Clone, Copy, Debug, PartialEq, Eq, Error)]
pub enum PlanError {
    /// The number of clients is not from 1 to 16.
    #[error("bad clients")]
    BadClients,
    /// The number of calls is not from 1 to 10,000, or to 1,000 for a set.
    #[error("bad ops")]
    BadOps,
    /// The number of rows is not from 1 to 65,536.
    #[error("bad rows")]
    BadRows,
    /// The generator does not suit the workload and the number of clients.
    #[error("bad generator")]
    BadGenerator,
    /// A fault of the schedule names a node that is not in the environment.
    #[error("bad step")]
    BadStep,
    #[error("out of memory")]
    OutOfMemory,
}

impl From<AllocError> for PlanError {
    ghost use Rattle.std.specs.Prelude.{◌≡◌};
    ghost use Rattle.jh_simnode.specs.declared.plan.PlanError.TheVariants.{OutOfMemory};

    ghost from_gives = { λ _ e. e ≡ OutOfMemory };

    fn from(_error: AllocError) -> PlanError {
        PlanError::OutOfMemory
    }
}

/// Whether each node that a fault of the schedule names is in the environment.
fn all_fit(schedule: &[Entry], environment: &Env) -> bool
    ensures { IsTrue result
        ↔ All (λ entry. FitsNodes (length environment.now.names) entry.step) schedule.now }
{
    for entry in schedule {
        if !entry.step.fits(environment) {
            return false;
        }
    }
    true
}

/// What a plan is made of.
#[derive(Drop)]
pub struct PlanData {
    /// The environment, on which no fault is laid.
    pub environment: Env,
    pub database: Database,
    /// How many client threads make calls: 1 to 16.
    pub clients: u32,
    /// How many calls are made at most: 1 to `Workload::max_calls`; each makes two `Op`s.
    pub ops: u32,
    /// Where the calls come from.
    pub generator: Gen,
    /// The steps of the nemesis.
    pub schedule: Schedule,
    /// After how many of its calls each client thread makes a tick; none is made where that is 0.
    pub tick_every: u32,
    /// The size of the log of a run on threads: 1 to 65,536 rows.
    pub rows: u32,
    /// The seed of the random numbers.
    pub seed: u64,
}

impl Plan {
    /// The plan of this data. Memory is taken for the place of the generator.
    ///
    /// Errors, in this order: `BadClients` where there are not 1 to 16; `BadOps` where `ops` is not
    /// from 1 to 10,000, or to 1,000 for a set; `BadRows` where there are not 1 to 65,536;
    /// `BadGenerator` where the generator does not suit the workload and the number of clients
    /// (`Gen::suits`); `BadStep` where a fault of the schedule names a node that is not in the
    /// environment; `OutOfMemory`.
    pub fn new(alloc: Global, fields: PlanData) -> Result<Plan, PlanError>
        requires { StandsFor fields.environment [] }
        ensures { MatchResult result
            (λ plan. (plan ≡ rule.plan_of_data fields) × IsFit plan)
            (RefusesPlan (rule.plan_of_data fields)) }
    {
        Plan::judge(&fields)?;
        let PlanData {
            environment,
            database,
            clients,
            ops,
            generator,
            schedule,
            tick_every,
            rows,
            seed,
        } = fields;
        let generator = Inner::of(alloc, generator)?;
        let plan = Plan {
            environment,
            database,
            clients,
            ops,
            generator,
            schedule,
            tick_every,
            rows,
            seed,
        };
        Ok(plan)
    }

    /// Refuses data of which no plan is made.
    fn judge(fields: &PlanData) -> Result<(), PlanError>
        ensures { MatchResult result
            (λ _. IsFit (rule.plan_of_data fields.now))
            (RefusesPlan (rule.plan_of_data fields.now)) }
    {
        if fields.clients < 1 || fields.clients > MAX_CLIENTS {
            return Err(PlanError::BadClients);
        }
        if fields.ops < 1 || fields.ops > fields.database.workload.max_calls() {
            return Err(PlanError::BadOps);
        }
        if fields.rows < 1 || fields.rows > MAX_ROWS {
            return Err(PlanError::BadRows);
        }
        if !fields
            .generator
            .suits(fields.database.workload, fields.clients)
        {
            return Err(PlanError::BadGenerator);
        }
        if !all_fit(fields.schedule.entries(), &fields.environment) {
            return Err(PlanError::BadStep);
        }
        Ok(())
    }

    /// The plan with another schedule, all else being the same.
    ///
    /// Errors: `BadStep` where a fault of the schedule names a node that is not in the environment;
    /// `OutOfMemory`.
    pub fn with_schedule(&self, alloc: Global, schedule: Schedule) -> Result<Plan, PlanError>
        ensures { MatchResult result
            (λ plan. plan ≡ rule.plan_with_schedule self.now schedule)
            (RefusesSchedule self.now schedule) }
    {
        if !all_fit(schedule.entries(), self.environment()) {
            return Err(PlanError::BadStep);
        }
        let generator = self.generator.as_gen().copy(alloc)?;
        Ok(Plan {
            environment: self.environment.copy(alloc)?,
            database: self.database,
            clients: self.clients,
            ops: self.ops,
            generator: Inner::of(alloc, generator)?,
            schedule,
            tick_every: self.tick_every,
            rows: self.rows,
            seed: self.seed,
        })
    }

    /// The plan with another seed, all else being the same. Takes no memory.
    pub fn with_seed(self, seed: u64) -> Plan
        ensures { result ≡ rule.plan_with_seed self seed }
    {
        Plan { seed, ..self }
    }

    /// The environment that the run starts from.
    pub fn environment(&self) -> &Env
        ensures environment { result.now ≡ self.now.env }
        ensures calm { StandsFor self.now.env [] }
    {
        &self.environment
    }

    /// The database that the nodes keep.
    pub fn database(&self) -> Database
        ensures { result ≡ self.now.database }
    {
        self.database
    }

    /// How the nodes keep their replicas together.
    pub fn store(&self) -> Store
        ensures { result ≡ self.now.database.store }
    {
        self.database.store
    }

    /// Whether a node that is killed loses its replica.
    pub fn volatile(&self) -> bool
        ensures { result ≡ self.now.database.volatile }
    {
        self.database.volatile
    }

    /// What clients ask of the database.
    pub fn workload(&self) -> Workload
        ensures { result ≡ self.now.database.workload }
    {
        self.database.workload
    }

    /// What a register holds at first.
    pub fn initial(&self) -> Option<i64>
        ensures { result ≡ self.now.database.initial }
    {
        self.database.initial
    }

    /// The number of client threads, from 1 to 16. The last clause says that the plan can be run, as
    /// every plan can.
    pub fn clients(&self) -> u32
        ensures clients { result ≡ self.now.clients }
        ensures few { rule.HasClients self.now }
        ensures kept { IsKeptPlan self.now }
    {
        self.clients
    }

    /// How many calls the run makes at most.
    pub fn ops(&self) -> u32
        ensures ops { result ≡ self.now.ops }
        ensures few { rule.HasOps self.now }
    {
        self.ops
    }

    /// Where the calls come from.
    pub fn generator(&self) -> &Gen
        ensures generator { generator_of result.now ≡ self.now.generator }
        ensures suits { rule.HasGenerator self.now }
    {
        self.generator.as_gen()
    }

    /// The steps of the nemesis, and when each is due.
    pub fn schedule(&self) -> &Schedule
        ensures schedule { result.now ≡ self.now.schedule }
        ensures steps { rule.HasSteps self.now }
    {
        &self.schedule
    }

    /// After how many of its calls a client thread ticks, and 0 where none does.
    pub fn tick_every(&self) -> u32
        ensures { result ≡ self.now.tick_every }
    {
        self.tick_every
    }

    /// The rows of the log of a run on threads.
    pub fn rows(&self) -> u32
        ensures rows { result ≡ self.now.rows }
        ensures few { rule.HasRows self.now }
    {
        self.rows
    }

    /// The seed of the random numbers by which mixtures choose and messages are lost.
    pub fn seed(&self) -> u64
        ensures { result ≡ self.now.seed }
    {
        self.seed
    }
}

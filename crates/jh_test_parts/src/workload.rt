//! The workloads of tests of real databases. `specs/Workloads.antt` has the table.

ghost use Rattle.std.specs.Prelude.{◌≡◌, IfSome, IsNone};
ghost use Rattle.jh_test_parts.specs.Workloads.{test_checker, test_workload_name};
ghost use Rattle.jh_test_parts.specs.Workloads.{test_workload_named};

use jh_checkers::Checker;

/// The workload of a test of a real database: what its clients call, and which checker judges its
/// history.
#[derive(Clone, Copy, Debug, PartialEq, Eq)]
pub enum TestWorkload {
    Register,
    Set,
    Counter,
    Ids,
    ListAppend,
}

impl TestWorkload {
    /// The workload of this name, which is that of its checker. `None` where no test has it, as `bank`,
    /// whose histories are only checked.
    pub fn named(name: &str) -> Option<TestWorkload>
        ensures workload { result ≡ test_workload_named name.now }
        ensures named { IfSome result (λ workload. name.now ≡ test_workload_name workload) }
        ensures unknown { IsNone result → (workload : TestWorkload)
            → name.now ≡ test_workload_name workload → ⊥ }
    {
        match name {
            "register" => Some(TestWorkload::Register),
            "set" => Some(TestWorkload::Set),
            "counter" => Some(TestWorkload::Counter),
            "unique-ids" => Some(TestWorkload::Ids),
            "list-append" => Some(TestWorkload::ListAppend),
            _ => None,
        }
    }

    /// The checker that judges the history of a test of this workload.
    pub fn checker(self) -> Checker
        ensures { result ≡ test_checker self }
    {
        match self {
            TestWorkload::Register => Checker::Register,
            TestWorkload::Set => Checker::Set,
            TestWorkload::Counter => Checker::Counter,
            TestWorkload::Ids => Checker::Ids,
            TestWorkload::ListAppend => Checker::ListAppend,
        }
    }
}

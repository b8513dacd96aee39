//! The checkers, with the names of the workloads that they judge. `specs/Checkers.antt` has the
//! table.

ghost use Rattle.std.specs.Prelude.{◌≡◌, IfSome, IsNone};
ghost use Rattle.jh_checkers.specs.Checkers.{checker_name, checker_named, checker_of};

use jh_ops::Workload;

/// Which checker judges a history.
#[derive(Clone, Copy, Debug, PartialEq, Eq)]
pub enum Checker {
    Register,
    Set,
    Counter,
    Ids,
    ListAppend,
    TotalQueue,
    Queue,
    Bank,
    SetFull,
    Mutex,
    FifoQueue,
}

impl Checker {
    /// The checker of the workload of this name, as `--workload` has it.
    pub fn named(name: &str) -> Option<Checker>
        ensures checker { result ≡ checker_named name.now }
        ensures named { IfSome result (λ checker. name.now ≡ checker_name checker) }
        ensures unknown { IsNone result → (checker : Checker) → name.now ≡ checker_name checker
            → ⊥ }
    {
        match name {
            "register" => Some(Checker::Register),
            "set" => Some(Checker::Set),
            "counter" => Some(Checker::Counter),
            "unique-ids" => Some(Checker::Ids),
            "list-append" => Some(Checker::ListAppend),
            "total-queue" => Some(Checker::TotalQueue),
            "queue" => Some(Checker::Queue),
            "bank" => Some(Checker::Bank),
            "set-full" => Some(Checker::SetFull),
            "mutex" => Some(Checker::Mutex),
            "fifo-queue" => Some(Checker::FifoQueue),
            _ => None,
        }
    }

    /// The checker of a workload that simulated clusters run. They run these four alone.
    pub fn of(workload: Workload) -> Checker
        ensures { result ≡ checker_of workload }
    {
        match workload {
            Workload::Register => Checker::Register,
            Workload::Set => Checker::Set,
            Workload::Counter => Checker::Counter,
            Workload::Ids => Checker::Ids,
        }
    }
}

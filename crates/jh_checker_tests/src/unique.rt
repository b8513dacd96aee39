//! Registers whose values are written once each: what the judge names, and what the checker decides.

ghost use Rattle.std.specs.Prelude.{IfSome};
ghost use Rattle.jh_linear.specs.Order.{EndAfterInvoked};

use crate::rows::{Judge, first_wrong};
use jh_linear::{Object, RegOp, reg_ops};
use jh_ops::{Op, pair};
use jh_unique::{check_register, judge_unique};
use std::alloc::Global;
use std::io::Write;

/// The operations of a register in a history. None: memory was refused.
fn ops_in(alloc: Global, history: &[Op]) -> Option<Vec<RegOp>>
    ensures { IfSome result (λ ops. EndAfterInvoked ops.items) }
{
    let pairs = pair(alloc, history).ok()?;
    reg_ops(alloc, Object::Register, history, &pairs).ok()
}

/// What the judge says of a register that has 0 at first.
#[derive(Clone, Copy)]
struct ByJudge;

impl Judge for ByJudge {
    fn said_of(&self, alloc: Global, history: &[Op]) -> Option<Vec<u8>> {
        let ops = ops_in(alloc, history)?;
        let verdict = judge_unique(alloc, &ops, Some(0)).ok()?;
        let mut text = Vec::new(alloc);
        write!(&mut text, "{verdict:?}").ok()?;
        Some(text)
    }
}

/// What the checker says of a register that has 0 at first, within a budget.
#[derive(Clone, Copy)]
struct Within {
    budget: u64,
}

impl Judge for Within {
    fn said_of(&self, alloc: Global, history: &[Op]) -> Option<Vec<u8>> {
        let ops = ops_in(alloc, history)?;
        let verdict = check_register(alloc, &ops, Some(0), self.budget).ok()?;
        let mut text = Vec::new(alloc);
        write!(&mut text, "{verdict:?}").ok()?;
        Some(text)
    }
}

/// A chain of compare-and-sets behind a write that was only seen, with a read of nil within; two compare-and-sets from 0; a ring; a
/// value that nothing wrote; a read that ended before its write began; an old value that is read again; a value that is written
/// twice; the initial one written.
#[test]
fn each_answer_of_the_judge(rt: HostRuntime) {
    let rows = r#"
{:type :invoke, :process 0, :f :write, :value 1}
{:type :info, :process 0, :f :write, :value 1}
{:type :invoke, :process 1, :f :cas, :value [1 2]}
{:type :ok, :process 1, :f :cas, :value [1 2]}
{:type :invoke, :process 1, :f :read, :value nil}
{:type :ok, :process 1, :f :read, :value nil}
{:type :invoke, :process 1, :f :cas, :value [2 3]}
{:type :ok, :process 1, :f :cas, :value [2 3]}
→ Valid(Linearization { numbers: [0, 1, 2, 3] })
§
{:type :invoke, :process 0, :f :cas, :value [0 1]}
{:type :ok, :process 0, :f :cas, :value [0 1]}
{:type :invoke, :process 0, :f :cas, :value [0 2]}
{:type :ok, :process 0, :f :cas, :value [0 2]}
→ Invalid(FromOne(0, 1))
§
{:type :invoke, :process 0, :f :cas, :value [1 2]}
{:type :invoke, :process 1, :f :cas, :value [2 1]}
{:type :ok, :process 1, :f :cas, :value [2 1]}
{:type :ok, :process 0, :f :cas, :value [1 2]}
{:type :invoke, :process 0, :f :read, :value nil}
{:type :ok, :process 0, :f :read, :value 0}
→ Invalid(Nowhere(0))
§
{:type :invoke, :process 0, :f :read, :value nil}
{:type :ok, :process 0, :f :read, :value 7}
→ Invalid(Nowhere(0))
§
{:type :invoke, :process 0, :f :read, :value nil}
{:type :ok, :process 0, :f :read, :value 7}
{:type :invoke, :process 0, :f :write, :value 7}
{:type :ok, :process 0, :f :write, :value 7}
→ Invalid(Behind(1, 0))
§
{:type :invoke, :process 0, :f :write, :value 1}
{:type :ok, :process 0, :f :write, :value 1}
{:type :invoke, :process 0, :f :write, :value 2}
{:type :ok, :process 0, :f :write, :value 2}
{:type :invoke, :process 0, :f :read, :value nil}
{:type :ok, :process 0, :f :read, :value 1}
→ Invalid(Behind(2, 1))
§
{:type :invoke, :process 0, :f :write, :value 1}
{:type :ok, :process 0, :f :write, :value 1}
{:type :invoke, :process 0, :f :cas, :value [1 1]}
{:type :ok, :process 0, :f :cas, :value [1 1]}
→ Repeated(0, 1)
§
{:type :invoke, :process 0, :f :write, :value 1}
{:type :fail, :process 0, :f :write, :value 1}
{:type :invoke, :process 0, :f :write, :value 0}
{:type :info, :process 0, :f :write, :value 0}
→ WritesInitial(1)
"#;
    assert_eq!(rt; first_wrong(rt.alloc(), &ByJudge, rows), None);
}

/// Three clusters, of which two overlap in time with the third; the last one to end is the first one to stand. Each has one order.
#[test]
fn clusters_that_overlap(rt: HostRuntime) {
    let rows = r#"
{:type :invoke, :process 0, :f :write, :value 1}
{:type :invoke, :process 1, :f :write, :value 2}
{:type :ok, :process 1, :f :write, :value 2}
{:type :ok, :process 0, :f :write, :value 1}
{:type :invoke, :process 0, :f :read, :value nil}
{:type :ok, :process 0, :f :read, :value 2}
→ Valid(Linearization { numbers: [0, 1, 2] })
§
{:type :invoke, :process 0, :f :write, :value 1}
{:type :invoke, :process 1, :f :write, :value 2}
{:type :invoke, :process 2, :f :read, :value nil}
{:type :ok, :process 2, :f :read, :value 2}
{:type :invoke, :process 2, :f :read, :value nil}
{:type :ok, :process 2, :f :read, :value 1}
{:type :ok, :process 1, :f :write, :value 2}
{:type :ok, :process 0, :f :write, :value 1}
→ Valid(Linearization { numbers: [1, 2, 0, 3] })
§
{:type :invoke, :process 0, :f :write, :value 1}
{:type :invoke, :process 1, :f :write, :value 2}
{:type :invoke, :process 2, :f :read, :value nil}
{:type :ok, :process 2, :f :read, :value 2}
{:type :invoke, :process 2, :f :read, :value nil}
{:type :ok, :process 2, :f :read, :value 1}
{:type :invoke, :process 2, :f :read, :value nil}
{:type :ok, :process 2, :f :read, :value 0}
{:type :ok, :process 1, :f :write, :value 2}
{:type :ok, :process 0, :f :write, :value 1}
→ Invalid(Behind(4, 2))
"#;
    assert_eq!(rt; first_wrong(rt.alloc(), &ByJudge, rows), None);
}

/// An order; the first completion with which there is none, though later ones are wrong too; and the search, where a value is written
/// twice.
#[test]
fn the_checker_names_the_first_completion(rt: HostRuntime) {
    let rows = r#"
{:type :invoke, :process 0, :f :write, :value 1}
{:type :ok, :process 0, :f :write, :value 1}
→ Valid(Linearization { numbers: [0] })
§
{:type :invoke, :process 0, :f :write, :value 1}
{:type :ok, :process 0, :f :write, :value 1}
{:type :invoke, :process 0, :f :write, :value 2}
{:type :ok, :process 0, :f :write, :value 2}
{:type :invoke, :process 0, :f :read, :value nil}
{:type :ok, :process 0, :f :read, :value 1}
{:type :invoke, :process 0, :f :read, :value nil}
{:type :ok, :process 0, :f :read, :value 0}
→ Invalid(Stuck { end: 5, order: Linearization { numbers: [0, 1] }, value: Some(2) })
§
{:type :invoke, :process 0, :f :read, :value nil}
{:type :ok, :process 0, :f :read, :value 9}
→ Invalid(Stuck { end: 1, order: Linearization { numbers: [] }, value: Some(0) })
§
{:type :invoke, :process 0, :f :write, :value 1}
{:type :ok, :process 0, :f :write, :value 1}
{:type :invoke, :process 0, :f :write, :value 1}
{:type :ok, :process 0, :f :write, :value 1}
→ Valid(Linearization { numbers: [0, 1] })
"#;
    assert_eq!(rt; first_wrong(rt.alloc(), &Within { budget: 1 }, rows), None);
}

/// With a budget of 0 nothing is decided.
#[test]
fn no_budget(rt: HostRuntime) {
    let rows = r#"
{:type :invoke, :process 0, :f :write, :value 1}
{:type :ok, :process 0, :f :write, :value 1}
→ Unknown(Reached { steps: [] })
"#;
    assert_eq!(rt; first_wrong(rt.alloc(), &Within { budget: 0 }, rows), None);
}

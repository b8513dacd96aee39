//! Serial runs.
//!
//! The text of a row is settings, as `fixtures` has them. They come to the number of events in the journal of their run
//! and its history, an operation in a line; or to the refusal of their plan or run.

use crate::simnode::fixtures::plan_of;
use crate::simnode::rows::{TextKind, ask_all};
use jh_edn::write;
use jh_ops::{Op, value_of};
use jh_simnode::{Plan, PlanError, RunError, WorldError, run_serial};
use std::alloc::Global;
use std::fmt::Display;
use std::io::Write;
use std::test::Fail;

/// The message of an error.
pub(crate) fn message_of<E: Display>(alloc: Global, error: &E) -> Option<Vec<u8>> {
    let mut text = Vec::new(alloc);
    write!(&mut text, "{error}").ok()?;
    Some(text)
}

/// Writes an operation behind a line feed.
fn put_op(alloc: Global, text: &mut Vec<u8>, op: &Op) -> Option<()> {
    if !op.process.is_writable() {
        return None;
    }
    text.push(b'\n').ok()?;
    write(&value_of(alloc, op).ok()?, text).ok()
}

/// So many events, and a history.
fn history_text(alloc: Global, events: usize, history: &[Op]) -> Option<Vec<u8>> {
    let mut text = Vec::new(alloc);
    write!(&mut text, "{events} events").ok()?;
    for op in history {
        put_op(alloc, &mut text, op)?;
    }
    Some(text)
}

/// What the run of a plan comes to. None: memory was refused.
fn run_text(alloc: Global, plan: &Plan) -> Option<Vec<u8>> {
    match run_serial(alloc, plan) {
        Ok((world, history)) => history_text(alloc, world.journal().len(), &history),
        Err(RunError::OutOfMemory | RunError::World(WorldError::OutOfMemory)) => None,
        Err(error) => message_of(alloc, &error),
    }
}

/// What the run of settings comes to. None: memory was refused.
pub(crate) fn run_answer(alloc: Global, settings: &str) -> Option<Vec<u8>> {
    match plan_of(alloc, settings) {
        Ok(plan) => run_text(alloc, &plan),
        Err(error) => refusal(alloc, error),
    }
}

/// The message of a plan's refusal. None: memory was refused.
pub(crate) fn refusal(alloc: Global, error: PlanError) -> Option<Vec<u8>> {
    match error {
        PlanError::OutOfMemory => None,
        error => message_of(alloc, &error),
    }
}

const RUNS: &str = r#"
; a volatile kill
{:start {:nodes ["n1" "n2" "n3"]}, :store :quorum, :volatile true, :workload :register, :initial 0, :clients 1, :ops 2,
  :generator [:seq [:once [:write 5]] [:once :read]],
  :schedule [[0 [:begin 1 [:pause ["n3"]]]] [1 [:begin 2 [:kill ["n1" "n2"]]]] [1 [:withdraw 2]] [1 [:withdraw 1]]]}
→ 6 events
{:index 0, :type :info, :process :nemesis, :f :step, :value 0}
{:index 1, :type :info, :process :nemesis, :f :step, :value [0 0], :event 0}
{:index 2, :type :invoke, :process 0, :f :write, :value 5}
{:index 3, :type :ok, :process 0, :f :write, :value 5, :event 1}
{:index 4, :type :info, :process :nemesis, :f :step, :value 1}
{:index 5, :type :info, :process :nemesis, :f :step, :value [1 0], :event 2}
{:index 6, :type :info, :process :nemesis, :f :step, :value 2}
{:index 7, :type :info, :process :nemesis, :f :step, :value [2 0], :event 3}
{:index 8, :type :info, :process :nemesis, :f :step, :value 3}
{:index 9, :type :info, :process :nemesis, :f :step, :value [3 0], :event 4}
{:index 10, :type :invoke, :process 0, :f :read, :value nil}
{:index 11, :type :ok, :process 0, :f :read, :value 0, :event 5}
§ ; the last writer is the one whose clock is ahead
{:start {:nodes ["n1" "n2"], :clock [["n1" 1000]]}, :store :lww, :workload :register, :initial 0, :clients 2, :ops 3,
  :generator [:seq [:once [:write 1]] [:once [:write 2]] [:once :read]]}
→ 3 events
{:index 0, :type :invoke, :process 0, :f :write, :value 1}
{:index 1, :type :ok, :process 0, :f :write, :value 1, :event 0}
{:index 2, :type :invoke, :process 1, :f :write, :value 2}
{:index 3, :type :ok, :process 1, :f :write, :value 2, :event 1}
{:index 4, :type :invoke, :process 0, :f :read, :value nil}
{:index 5, :type :ok, :process 0, :f :read, :value 1, :event 2}
§ ; and without the offset the later one
{:start {:nodes ["n1" "n2"]}, :store :lww, :workload :register, :initial 0, :clients 2, :ops 3,
  :generator [:seq [:once [:write 1]] [:once [:write 2]] [:once :read]]}
→ 3 events
{:index 0, :type :invoke, :process 0, :f :write, :value 1}
{:index 1, :type :ok, :process 0, :f :write, :value 1, :event 0}
{:index 2, :type :invoke, :process 1, :f :write, :value 2}
{:index 3, :type :ok, :process 1, :f :write, :value 2, :event 1}
{:index 4, :type :invoke, :process 0, :f :read, :value nil}
{:index 5, :type :ok, :process 0, :f :read, :value 2, :event 2}
§ ; entries that are left when the calls end, and one that waits for another
{:start {:nodes ["n1" "n2"]}, :store :local, :workload :counter, :clients 2, :ops 3, :seed 7,
  :generator [:mix [:forever [:add 2]] [:forever :read]],
  :schedule [[1 [:undo]] [9 [:begin 4 [:cut [["n1" "n2"]]]]] [2 [:begin 4 [:kill []]]] [0 [:withdraw-all]]]}
→ 7 events
{:index 0, :type :invoke, :process 0, :f :read, :value nil}
{:index 1, :type :ok, :process 0, :f :read, :value 0, :event 0}
{:index 2, :type :info, :process :nemesis, :f :step, :value 0}
{:index 3, :type :info, :process :nemesis, :f :step, :value [0 6], :event 1}
{:index 4, :type :invoke, :process 1, :f :read, :value nil}
{:index 5, :type :ok, :process 1, :f :read, :value 0, :event 2}
{:index 6, :type :invoke, :process 0, :f :add, :value 2}
{:index 7, :type :ok, :process 0, :f :add, :value 2, :event 3}
{:index 8, :type :info, :process :nemesis, :f :step, :value 1}
{:index 9, :type :info, :process :nemesis, :f :step, :value [1 0], :event 4}
{:index 10, :type :info, :process :nemesis, :f :step, :value 2}
{:index 11, :type :info, :process :nemesis, :f :step, :value [2 1], :event 5}
{:index 12, :type :info, :process :nemesis, :f :step, :value 3}
{:index 13, :type :info, :process :nemesis, :f :step, :value [3 0], :event 6}
§ ; a tick after each call of a thread, over one way
{:start {:nodes ["n1" "n2"], :cut [["n1" "n2"]]}, :store :lww, :workload :ids, :clients 2, :ops 6, :tick-every 1,
  :generator [:forever :generate]}
→ 12 events
{:index 0, :type :invoke, :process 0, :f :generate, :value nil}
{:index 1, :type :ok, :process 0, :f :generate, :value 0, :event 0}
{:index 2, :type :invoke, :process 1, :f :generate, :value nil}
{:index 3, :type :ok, :process 1, :f :generate, :value 0, :event 2}
{:index 4, :type :invoke, :process 0, :f :generate, :value nil}
{:index 5, :type :ok, :process 0, :f :generate, :value 1, :event 4}
{:index 6, :type :invoke, :process 1, :f :generate, :value nil}
{:index 7, :type :ok, :process 1, :f :generate, :value 1, :event 6}
{:index 8, :type :invoke, :process 0, :f :generate, :value nil}
{:index 9, :type :ok, :process 0, :f :generate, :value 2, :event 8}
{:index 10, :type :invoke, :process 1, :f :generate, :value nil}
{:index 11, :type :ok, :process 1, :f :generate, :value 2, :event 10}
§ ; ticks under a cut that is withdrawn
{:start {:nodes ["n1" "n2" "n3"]}, :store :lww, :workload :register, :clients 3, :ops 9, :tick-every 1, :seed 3,
  :generator [:mix [:forever :read] [:seq [:once [:write 1]] [:once [:write 2]] [:once [:cas 2 3]] [:forever :read]]],
  :schedule [[0 [:begin 1 [:cut [["n1" "n2"] ["n2" "n1"] ["n1" "n3"] ["n3" "n1"]]]]] [4 [:withdraw 1]]]}
→ 20 events
{:index 0, :type :info, :process :nemesis, :f :step, :value 0}
{:index 1, :type :info, :process :nemesis, :f :step, :value [0 0], :event 0}
{:index 2, :type :invoke, :process 0, :f :write, :value 1}
{:index 3, :type :ok, :process 0, :f :write, :value 1, :event 1}
{:index 4, :type :invoke, :process 1, :f :read, :value nil}
{:index 5, :type :ok, :process 1, :f :read, :value nil, :event 3}
{:index 6, :type :invoke, :process 2, :f :read, :value nil}
{:index 7, :type :ok, :process 2, :f :read, :value nil, :event 5}
{:index 8, :type :invoke, :process 0, :f :write, :value 2}
{:index 9, :type :ok, :process 0, :f :write, :value 2, :event 7}
{:index 10, :type :info, :process :nemesis, :f :step, :value 1}
{:index 11, :type :info, :process :nemesis, :f :step, :value [1 0], :event 9}
{:index 12, :type :invoke, :process 1, :f :read, :value nil}
{:index 13, :type :ok, :process 1, :f :read, :value nil, :event 10}
{:index 14, :type :invoke, :process 2, :f :cas, :value [2 3]}
{:index 15, :type :ok, :process 2, :f :cas, :value [2 3], :event 12}
{:index 16, :type :invoke, :process 0, :f :read, :value nil}
{:index 17, :type :ok, :process 0, :f :read, :value 3, :event 14}
{:index 18, :type :invoke, :process 1, :f :read, :value nil}
{:index 19, :type :ok, :process 1, :f :read, :value 3, :event 16}
{:index 20, :type :invoke, :process 2, :f :read, :value nil}
{:index 21, :type :ok, :process 2, :f :read, :value 3, :event 18}
§ ; lost messages, and processes that crash
{:start {:nodes ["n1" "n2" "n3"], :loss [["n1" "n2" 10] ["n3" "n1" 8]]}, :store :quorum, :workload :set, :clients 2, :ops 8, :seed 12,
  :generator [:mix [:rising 1] [:forever :read]],
  :schedule [[2 [:begin 1 [:pause ["n2"]]]] [6 [:undo]]]}
→ 10 events
{:index 0, :type :invoke, :process 0, :f :add, :value 1}
{:index 1, :type :fail, :process 0, :f :add, :value 1, :event 0}
{:index 2, :type :invoke, :process 1, :f :add, :value 2}
{:index 3, :type :ok, :process 1, :f :add, :value 2, :event 1}
{:index 4, :type :info, :process :nemesis, :f :step, :value 0}
{:index 5, :type :info, :process :nemesis, :f :step, :value [0 0], :event 2}
{:index 6, :type :invoke, :process 0, :f :read, :value nil}
{:index 7, :type :ok, :process 0, :f :read, :value [2], :event 3}
{:index 8, :type :invoke, :process 1, :f :add, :value 3}
{:index 9, :type :info, :process 1, :f :add, :value 3, :event 4}
{:index 10, :type :invoke, :process 0, :f :read, :value nil}
{:index 11, :type :fail, :process 0, :f :read, :value nil, :event 5}
{:index 12, :type :invoke, :process 3, :f :add, :value 4}
{:index 13, :type :info, :process 3, :f :add, :value 4, :event 6}
{:index 14, :type :info, :process :nemesis, :f :step, :value 1}
{:index 15, :type :info, :process :nemesis, :f :step, :value [1 0], :event 7}
{:index 16, :type :invoke, :process 0, :f :read, :value nil}
{:index 17, :type :fail, :process 0, :f :read, :value nil, :event 8}
{:index 18, :type :invoke, :process 5, :f :add, :value 5}
{:index 19, :type :ok, :process 5, :f :add, :value 5, :event 9}
"#;

#[test]
fn runs_give_their_histories(rt: HostRuntime) -> Result<(), Fail> {
    ask_all(rt.alloc(), TextKind::Run, RUNS)
}

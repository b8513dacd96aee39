//! What the machine makes of a line. `specs/Lines.antt` has the rule.

ghost use Rattle.std.specs.Prelude.{◌≡◌, ◌<◌, ◌≤◌, ◌^◌, [], IfOk, OnOk, false};
ghost use Rattle.jh_ops.specs.Operation.{operation};
ghost use Rattle.jh_conversation.specs.Lines as rule;
ghost use Rattle.jh_test_parts.specs.LineMeanings.{line_meaning_by};
ghost use Rattle.jh_conversation.specs.Machine as machine;
ghost use Rattle.jh_test_parts.specs.Test.{thread_of_process};
ghost use Rattle.jh_conversation.specs.Sound.{IsSoundMachine};

use crate::callers::{BadLine, Caller, OpenStep};
use crate::machine::{ALL_STOPPED, MAIN_STOPPED, Machine};
use crate::phase::Phase;
use jh_edn::Value;
use jh_gen::{Ended, Thread};
use jh_ops::{Kind, Op, Process, Request};
use jh_test_parts::{
    Complaint, Datum, LineMeaning, Recorded, Test, fits_call, kept_pairs, line_meaning,
};
use jh_txn_histories::is_equal;
use std::alloc::{AllocError, Global};

/// The greatest time that a line can have, in nanoseconds.
const MAX_TIME_NS: u64 = i64::MAX as u64;

/// How many more processes have crashed.
fn more_crashes(kind: Kind) -> u64
    ensures crashes { result ≡ rule.more_crashes kind }
    ensures few { result ≤ 1 }
{
    match kind {
        Kind::Info => 1,
        Kind::Invoke | Kind::Ok | Kind::Fail => 0,
    }
}

/// How a call ends for the driver.
fn ended_as(kind: Kind) -> Ended
    ensures { result ≡ rule.ended_as kind }
{
    match kind {
        Kind::Ok => Ended::Ok,
        Kind::Fail => Ended::Fail,
        Kind::Invoke | Kind::Info => Ended::Info,
    }
}

/// Whether an operation ends the step that is open.
fn ends_step(alloc: Global, step: OpenStep, op: &Op) -> Result<bool, AllocError>
    requires { step.entry < 2 ^ 63 }
    ensures { IfOk result (λ yes. yes ≡ rule.ends_step step (operation op.now)) }
{
    if !op.kind.is(Kind::Info) || !op.f.is_keyword("step") {
        return Ok(false);
    }
    is_equal(alloc, &Value::Int(step.entry as i64), &op.value)
}

impl Machine {
    /// Keeps a line that is no reply, if it is the first one. Each such line stops all calls.
    fn refuse(&mut self, why: Complaint)
        ensures { self.new ≡ rule.refuse why self.old }
    {
        if self.bad.is_none() {
            self.bad = Some(BadLine {
                number: self.read,
                why,
            });
        }
        self.stops = self.stops.saturating_add(ALL_STOPPED).min(ALL_STOPPED);
    }

    /// Moves the clock on.
    fn at_time(&mut self, time: Option<u64>)
        ensures { self.new ≡ rule.at_time time self.old }
    {
        if let Some(time) = time {
            self.clock = self.clock.max(time).min(MAX_TIME_NS);
        }
    }

    /// Takes in a stop: in *main* it stops the calls of *main*, later all calls. A second one stops
    /// all calls in any phase.
    fn stop(&mut self)
        ensures { self.new ≡ rule.stop self.old }
    {
        let more = match self.phase {
            Phase::Main => MAIN_STOPPED,
            Phase::Heal | Phase::Rest | Phase::Final | Phase::Over => ALL_STOPPED,
        };
        self.stops = self.stops.saturating_add(more).min(ALL_STOPPED);
    }

    /// Ends a call of a thread, which made this request.
    fn finish(
        &mut self,
        alloc: Global,
        test: &Test,
        thread: u32,
        request: Request,
        op: Op,
    ) -> Result<(), AllocError>
        requires sound { IsSoundMachine test.now self.old }
        requires within { thread < test.now.clients }
        requires open { machine.has_no_call (machine.caller_of self.old thread).call ≡ false }
        requires silent { self.old.said ≡ [] }
        ensures { OnOk result (self.new ≡ rule.finish test.now thread request (operation op) self.old) }
    {
        let Op {
            kind,
            f: _,
            value,
            process: _,
            time: _,
            index: _,
            rest,
        } = op;
        let process = self.process_of(test, thread);
        let rest = kept_pairs(alloc, rest)?;
        match self.driver.complete(Thread::Client(thread), ended_as(kind)) {
            Ok(()) => {}
            Err(_) => unreachable!(),
        }
        let more = more_crashes(kind);
        let used_numbers = self.callers[thread as usize].used_numbers + more;
        self.answered += 1;
        self.crashed += more;
        self.callers[thread as usize] = Caller {
            used_numbers,
            call: None,
        };
        let value = Datum::of(value);
        self.hear(Recorded::Ended {
            time: self.clock,
            process,
            kind,
            request,
            value,
            rest,
        })
    }

    /// The request whose call an operation of a process ends, or why it ends none.
    fn ended_request(
        &self,
        alloc: Global,
        test: &Test,
        process: u64,
        op: &Op,
    ) -> Result<Result<Request, Complaint>, AllocError>
        requires { IsSoundMachine test.now self.now }
        ensures { IfOk result (λ ended. ended ≡ rule.ended_request test.now self.now process
            (operation op.now)
            (machine.caller_of self.now (thread_of_process test.now process)).call) }
    {
        let thread = test.thread_of(process);
        let Some(call) = &self.callers[thread as usize].call else {
            return Ok(Err(Complaint::NoCallOpen));
        };
        if self.process_of(test, thread) != process {
            return Ok(Err(Complaint::NoCallOpen));
        }
        if op.kind.is(Kind::Invoke) || !op.f.is_keyword(call.request.name()) {
            return Ok(Err(Complaint::OtherCall));
        }
        if !fits_call(alloc, test, call, op.kind, &op.value)? {
            return Ok(Err(Complaint::BadValue));
        }
        Ok(Ok(call.request))
    }

    /// Ends a call of a thread, or keeps why none is ended.
    fn take_completion_of_thread(
        &mut self,
        alloc: Global,
        test: &Test,
        thread: u32,
        ended: Result<Request, Complaint>,
        op: Op,
        time: Option<u64>,
    ) -> Result<(), AllocError>
        requires sound { IsSoundMachine test.now self.old }
        requires within { thread < test.now.clients }
        requires open { IfOk ended
            (λ _. machine.has_no_call (machine.caller_of self.old thread).call ≡ false) }
        requires silent { self.old.said ≡ [] }
        ensures { OnOk result (self.new
            ≡ rule.take_completion test.now thread (operation op) time self.old ended) }
    {
        match ended {
            Err(why) => {
                self.refuse(why);
                Ok(())
            }
            Ok(request) => {
                self.at_time(time);
                self.finish(alloc, test, thread, request, op)
            }
        }
    }

    /// Takes the completion of a call of a process.
    fn take_completion(
        &mut self,
        alloc: Global,
        test: &Test,
        process: u64,
        op: Op,
        time: Option<u64>,
    ) -> Result<(), AllocError>
        requires sound { IsSoundMachine test.now self.old }
        requires silent { self.old.said ≡ [] }
        ensures { OnOk result (self.new ≡ rule.take_completion test.now
            (thread_of_process test.now process) (operation op) time self.old
            (rule.ended_request test.now self.old process (operation op)
            (machine.caller_of self.old (thread_of_process test.now process)).call)) }
    {
        let ended = self.ended_request(alloc, test, process, &op)?;
        self.take_completion_of_thread(alloc, test, test.thread_of(process), ended, op, time)
    }

    /// Takes the end of a step.
    fn take_step_end(
        &mut self,
        alloc: Global,
        test: &Test,
        op: Op,
        time: Option<u64>,
    ) -> Result<(), AllocError>
        requires sound { IsSoundMachine test.now self.old }
        requires silent { self.old.said ≡ [] }
        ensures { OnOk result
            (self.new ≡ rule.take_step_end (operation op) time self.old self.old.step) }
    {
        let Some(step) = self.step else {
            self.refuse(Complaint::NoStepOpen);
            return Ok(());
        };
        if !ends_step(alloc, step, &op)? {
            self.refuse(Complaint::OtherStep);
            return Ok(());
        }
        self.at_time(time);
        self.step = None;
        let Op {
            kind: _,
            f: _,
            value: _,
            process: _,
            time: _,
            index: _,
            rest,
        } = op;
        let rest = kept_pairs(alloc, rest)?;
        self.hear(Recorded::StepEnded {
            time: self.clock,
            entry: step.entry,
            code: step.code,
            rest,
        })
    }

    /// Takes in what a line that was heard means.
    fn take_in(
        &mut self,
        alloc: Global,
        test: &Test,
        meaning: LineMeaning,
    ) -> Result<(), AllocError>
        requires sound { IsSoundMachine test.now self.old }
        requires silent { self.old.said ≡ [] }
        ensures { OnOk result (self.new ≡ rule.take_in test.now (line_meaning_by meaning) self.old) }
    {
        match meaning {
            LineMeaning::Nothing => Ok(()),
            LineMeaning::Clock(time) => {
                self.at_time(Some(time));
                Ok(())
            }
            LineMeaning::Stop => {
                self.stop();
                Ok(())
            }
            LineMeaning::Bad(why) => {
                self.refuse(why);
                Ok(())
            }
            LineMeaning::Op(op, time) => match op.process {
                Process::Nemesis => self.take_step_end(alloc, test, op, time),
                Process::Client(process) => self.take_completion(alloc, test, process, op, time),
            },
        }
    }

    /// Whether it says and hears nothing more.
    pub(crate) fn is_over(&self) -> bool
        ensures { result ≡ rule.is_test_over self.now }
    {
        match self.phase {
            Phase::Over => true,
            Phase::Main | Phase::Heal | Phase::Rest | Phase::Final => false,
        }
    }

    /// Counts a line that was read, to which nothing is said yet.
    ///
    /// Error: 2^64 - 1 lines were read before, which is told as out of memory.
    fn count_line(&mut self) -> Result<(), AllocError>
        ensures { OnOk result (self.new ≡ rule.count_line self.old) }
    {
        if self.read == u64::MAX {
            return Err(AllocError);
        }
        self.read += 1;
        self.said = 0;
        Ok(())
    }

    /// Takes a line, without its line feed, and says all that can then be said.
    pub(crate) fn take_line(
        &mut self,
        alloc: Global,
        test: &Test,
        line: &[u8],
    ) -> Result<(), AllocError>
        requires { IsSoundMachine test.now self.old }
        ensures { OnOk result (self.new ≡ rule.take_line test.now self.old line.now) }
    {
        // The answer is not used: this call's contract says that the test can be made.
        let _clients = test.clients();
        self.count_line()?;
        if self.is_over() {
            return Ok(());
        }
        let meaning = line_meaning(alloc, line)?;
        self.take_in(alloc, test, meaning)?;
        self.turn(alloc, test)
    }
}

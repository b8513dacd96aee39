//! A test as a conversation by lines, which `jh_lines` holds with an adapter. `specs/Laws.antt` says
//! what holds of it.
//!
//! `Machine` is here that of `machine.rt`: where a test stands. `jh_lines::Machine`, written so, is
//! the trait of what answers lines, which a conversation is.

ghost use Rattle.std.specs.Prelude.{◌≡◌, ◌++◌, IfOk, OnOk, true};
ghost use Rattle.jh_gen.specs.View.{generator_of};
ghost use Rattle.jh_conversation.specs.Conversations.{IsTestBegun};
ghost use Rattle.jh_conversation.specs.Laws.{IsDriverAtFirst, IsFinalDriver};
ghost use Rattle.jh_conversation.specs.Text.{recorded_lines, recorded_history};
ghost use Rattle.jh_ops.specs.Operation.{operations};
ghost use Rattle.jh_test_parts.specs.Test.{suits_workload};

use crate::callers::BadLine;
use crate::machine::Machine;
use jh_gen::{Driver, DriverError, Gen, Inner};
use jh_nemesis::Nemesis;
use jh_ops::Op;
use jh_test_parts::Test;
use std::alloc::{AllocError, Global};
use std::marker::Model;

/// A test and where it stands. Once memory was refused in the midst of a line it is used no more.
#[derive(Drop)]
pub struct Conversation {
    alloc: Global,
    test: Test,
    machine: Machine,
    has_failed: bool,
}

impl Model for Conversation {
    ghost use Rattle.jh_conversation.specs.Conversations.{ConversationValue};

    ghost Value = { ConversationValue };

    ghost use Rattle.std.specs.Coded.{codes};
    ghost use Rattle.jh_edn.specs.Code.{edn_coded};
    ghost use Rattle.jh_gen.specs.Code.{generator_coded};
    ghost use Rattle.jh_gen.specs.DriverState.{driver_coded};

    ghost coded = { Prim.hlevel (codes, edn_coded, generator_coded, driver_coded) };

    ghost view = { λ a. record { test = a.test; machine = a.machine } };

    ghost use Rattle.std.specs.Prelude.{◌≡◌, false};
    ghost use Rattle.jh_conversation.specs.Sound.{IsSoundMachine};

    ghost invariant = { λ a. a.has_failed ≡ false → IsSoundMachine a.test a.machine };
}

/// A driver of the calls of a generator, before its first call.
fn driver_at_first(alloc: Global, test: &Test, generator: &Gen) -> Result<Driver, AllocError>
    requires { suits_workload test.now.workload test.now.clients (generator_of generator.now) ≡ true }
    ensures { IfOk result (IsDriverAtFirst test.now (generator_of generator.now)) }
{
    let limited = Gen::Limit(test.ops(), Inner::of(alloc, generator.copy(alloc)?)?);
    let source = Gen::Clients(Inner::of(alloc, limited)?);
    match Driver::new(alloc, source, test.clients()) {
        Ok(driver) => Ok(driver),
        Err(DriverError::OutOfMemory) => Err(AllocError),
        Err(_) => unreachable!(),
    }
}

/// The driver of the calls of *main*.
fn first_driver(alloc: Global, test: &Test) -> Result<Driver, AllocError>
    ensures { IfOk result (IsDriverAtFirst test.now test.now.generator) }
{
    // The answer is not used: this call's contract says that the test can be made.
    let _clients = test.clients();
    driver_at_first(alloc, test, test.generator())
}

/// The driver of the calls of *final*, where there are some.
fn final_driver(alloc: Global, test: &Test) -> Result<Option<Driver>, AllocError>
    ensures { IfOk result (IsFinalDriver test.now test.now.final_calls) }
{
    // The answer is not used: this call's contract says that the test can be made.
    let _clients = test.clients();
    match test.final_calls() {
        None => Ok(None),
        Some(generator) => Ok(Some(driver_at_first(alloc, test, generator)?)),
    }
}

impl Conversation {
    /// Begins a test: says what is to be said before the first line is read.
    ///
    /// Error: memory was refused.
    pub fn begin(alloc: Global, test: Test) -> Result<Conversation, AllocError>
        ensures { IfOk result (IsTestBegun test) }
    {
        // The answer is not used: this call's contract says that the test can be made.
        let _clients = test.clients();
        let driver = first_driver(alloc, &test)?;
        let final_calls = final_driver(alloc, &test)?;
        let mut machine = Machine::at_first(alloc, &test, driver, final_calls)?;
        machine.turn(alloc, &test)?;
        Ok(Conversation {
            alloc,
            test,
            machine,
            has_failed: false,
        })
    }

    /// The first line that was no reply.
    pub fn bad(&self) -> Option<BadLine>
        ensures { result ≡ self.now.machine.bad }
    {
        self.machine.bad
    }

    /// The test that is conducted.
    pub fn test(&self) -> &Test
        ensures { result.now ≡ self.now.test }
    {
        &self.test
    }

    /// Adds a line for each record of the history, the oldest first.
    ///
    /// Error: memory was refused, now or for a line before.
    pub fn write_history(&self, out: &mut Vec<u8>) -> Result<(), AllocError>
        ensures { OnOk result (out.new.items
            ≡ out.old.items ++ recorded_lines self.now.test self.now.machine) }
    {
        if self.has_failed {
            return Err(AllocError);
        }
        self.machine.write_history(self.alloc, &self.test, out)
    }

    /// The history, with an operation for each record, the oldest first.
    ///
    /// Error: memory was refused, now or for a line before.
    pub fn history(&self) -> Result<Vec<Op>, AllocError>
        ensures { IfOk result (λ history. operations history.items
            ≡ recorded_history self.now.test self.now.machine) }
    {
        if self.has_failed {
            return Err(AllocError);
        }
        self.machine.history(self.alloc, &self.test)
    }

    /// The nemesis, with the faults that are active now.
    pub fn nemesis(&self) -> &Nemesis
        ensures { result.now.state ≡ self.now.machine.nemesis }
    {
        &self.machine.nemesis
    }
}

impl jh_lines::Machine for Conversation {
    ghost use Rattle.std.specs.Prelude.{[], if◌then◌else◌};
    ghost use Rattle.std.proofs.Common.{ap, ◌∙◌};
    ghost use Rattle.jh_conversation.specs.Conversations.{answer_to_line, conversation_after};
    ghost use Rattle.jh_conversation.specs.Conversations.{is_over as is_over_of, opening_of};
    ghost use Rattle.jh_conversation.specs.Lines.{is_test_over, count_line, take_line, take_in};
    ghost use Rattle.jh_test_parts.specs.LineMeanings.{line_meaning};
    ghost use Rattle.jh_conversation.specs.Text.{said_lines};
    ghost use Rattle.jh_conversation.specs.Turn.{turn};

    ghost opening = { opening_of };

    ghost after_line = { conversation_after };

    ghost answer_to = { answer_to_line };

    ghost has_finished = { is_over_of };

    ghost stays_over = { λ c line over. (
      ap (λ b. if b then [] else said_lines c.test (take_line c.test c.machine line)) over,
      ap (λ b. is_test_over (if b then count_line c.machine
          else turn c.test (take_in c.test (line_meaning line) (count_line c.machine)))) over ∙ over,
    ) };

    fn open(&self, out: &mut Vec<u8>) -> Result<(), AllocError> {
        if self.has_failed {
            return Err(AllocError);
        }
        self.machine.write_said(self.alloc, &self.test, out)
    }

    fn answer(&mut self, line: &[u8], out: &mut Vec<u8>) -> Result<(), AllocError> {
        if self.has_failed {
            return Err(AllocError);
        }
        // The answer is not used: this call's contract says that the test can be made.
        let _clients = self.test.clients();
        let was_over = self.machine.is_over();
        self.has_failed = true;
        self.machine.take_line(self.alloc, &self.test, line)?;
        self.has_failed = false;
        if was_over {
            return Ok(());
        }
        self.machine.write_said(self.alloc, &self.test, out)
    }

    fn is_over(&self) -> bool {
        self.machine.is_over()
    }
}

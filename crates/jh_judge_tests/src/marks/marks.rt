//! Histories, each with the marks that the definition gives of it. Each register has one order up
//! to where it is stuck.

use crate::checkers::rows::explained;
use crate::marks::rows::ask_all;
use jh_checkers::{Checker, Judging};
use std::test::Fail;

/// Places count from 0 in the order, whatever the order of invocations, each with what the register then
/// holds. A read that answers nil tells nothing of that. The nemesis has no number.
#[test]
fn marks_places(rt: HostRuntime) -> Result<(), Fail> {
    let rows = "
        0 :invoke :write 5; 0 :ok :write 5 => 0 placed 0 5
        0 :invoke :write 5; 1 :invoke :read; 0 :ok :write 5; 1 :ok :read 0 => 0 placed 1 5; 1 placed 0 0
        0 :invoke :read; 0 :ok :read; 1 :invoke :write -4; 1 :ok :write -4; 0 :invoke :read; 0 :ok :read \
        => 0 placed 0; 1 placed 1 -4; 2 placed 2 -4
        :nemesis :info :start 4; 0 :invoke :read; 0 :ok :read 0; :nemesis :info :stop; 1 :invoke :cas [0 3]; 1 :ok :cas [0 3] \
        => 0 placed 0 0; 1 placed 1 3
        0 :invoke :write 5; 0 :fail :write 5; 1 :invoke :read; 1 :ok :read 0 => 1 placed 0 0";
    ask_all(rt.alloc(), explained(Checker::Register), rows)
}

/// The stuck call is pending too, and is marked as stuck alone. What the reason names has no other
/// mark. What is pending has its place, where the order has it.
#[test]
fn marks_where_it_is_stuck(rt: HostRuntime) -> Result<(), Fail> {
    let rows = "
        0 :invoke :write 5; 1 :invoke :read; 1 :ok :read 5; 0 :fail :write 5 => 1 stuck
        0 :invoke :write 1; 0 :ok :write 1; 0 :invoke :read; 1 :invoke :read; 1 :ok :read 0; 0 :ok :read 1 \
        => 0 named; 1 pending; 2 stuck
        0 :invoke :write 1; 0 :ok :write 1; 0 :invoke :write 1; 0 :ok :write 1; 1 :invoke :read; 1 :ok :read 0 \
        => 0 placed 0 1; 1 placed 1 1; 2 stuck
        0 :invoke :write 5; 1 :invoke :read; 1 :ok :read 5; 1 :invoke :read; 1 :ok :read 7 => 0 pending 0 5; 1 placed 1 5; 2 stuck
        0 :invoke :cas [7 8]; 1 :invoke :cas [8 9]; 1 :fail :cas [8 9]; 2 :invoke :read; 2 :ok :read 1; 3 :invoke :read; \
        3 :ok :read 0; 0 :fail :cas [7 8] => 2 stuck";
    ask_all(rt.alloc(), explained(Checker::Register), rows)
}

/// A no that is not explained does not tell what is pending. Where the budget is used up nothing is
/// told.
#[test]
fn marks_what_is_known(rt: HostRuntime) -> Result<(), Fail> {
    let judging = Judging {
        explain: false,
        ..explained(Checker::Register)
    };
    let rows = "
        0 :invoke :write 5; 1 :invoke :read; 1 :ok :read 5; 1 :invoke :read; 1 :ok :read 7 => 0 placed 0 5; 1 placed 1 5; 2 stuck
        0 :invoke :write 5; 1 :invoke :read; 1 :ok :read 5; 0 :fail :write 5 => 1 stuck";
    ask_all(rt.alloc(), judging, rows)?;
    let judging = Judging {
        budget: 0,
        ..explained(Checker::Register)
    };
    ask_all(rt.alloc(), judging, "0 :invoke :write 5; 0 :ok :write 5 =>")
}

/// Values are one where their normal forms are. A completion that answers no invocation gives an id too.
#[test]
fn marks_ids(rt: HostRuntime) -> Result<(), Fail> {
    let rows = "
        0 :invoke :generate; 0 :ok :generate 7; 1 :invoke :generate; 1 :ok :generate 8 =>
        0 :invoke :generate; 0 :ok :generate 7; 1 :invoke :generate; 0 :invoke :generate; 1 :ok :generate 7; 0 :ok :generate 8 \
        => 0 repeated; 1 repeated
        0 :invoke :generate; 0 :ok :generate (1 2); 0 :invoke :generate; 0 :ok :generate 3; 0 :invoke :generate; \
        0 :ok :generate [1 2]; 1 :invoke :generate; 1 :fail :generate [1 2] => 0 repeated; 2 repeated
        0 :ok :generate 7; 0 :invoke :generate; 0 :ok :generate 7; :nemesis :ok :generate 7 => 0 repeated; 1 repeated
        0 :invoke :generate; 0 :ok :generate 7; 0 :ok :generate 7; 1 :ok :generate 8 => 0 repeated; 1 repeated";
    ask_all(rt.alloc(), explained(Checker::Ids), rows)
}

/// Bounds are told in the order of completions. A call is a read by what its invocation asks for.
#[test]
fn marks_reads_outside(rt: HostRuntime) -> Result<(), Fail> {
    let rows = "
        0 :invoke :add 5; 1 :invoke :read; 1 :ok :read 9; 0 :ok :add 5; 1 :invoke :read; 1 :ok :read 5 => 1 outside 0 5
        0 :invoke :read; 1 :invoke :read; 1 :ok :read 0; 0 :ok :read 3 => 0 outside 0 0
        0 :invoke :read; 1 :invoke :read; 1 :ok :read -1; 0 :ok :read 0 => 1 outside 0 0
        0 :invoke :read; 0 :ok :add 4 => 0 outside 0 0
        0 :invoke :add 1; 0 :ok :read 1; 1 :invoke :read; 1 :ok :read 5 => 1 outside 1 1
        0 :invoke :read; 0 :fail :read 7; 1 :invoke :read; 1 :info :read 7; 0 :invoke :read; 0 :ok :read 0 =>";
    ask_all(rt.alloc(), explained(Checker::Counter), rows)
}

/// The last read that happened tells what is lost, recovered and unexpected. Of a lost element those adds are marked that were
/// acknowledged before it, also by a completion alone, and those behind it where there are no others.
#[test]
fn marks_elements(rt: HostRuntime) -> Result<(), Fail> {
    let rows = "
        0 :invoke :add 1; 0 :ok :add 1; 1 :invoke :add 2; 1 :info :add 2; 2 :invoke :read; 2 :ok :read [2 3] \
        => 0 lost; 1 recovered; 2 unexpected
        0 :invoke :read; 0 :ok :read [9]; 0 :invoke :read; 0 :ok :read [8]; 0 :invoke :read; 0 :fail :read => 1 unexpected
        0 :invoke :add (1); 0 :info :add (1); 1 :invoke :read; 1 :ok :read #{[1]} => 0 recovered
        0 :invoke :add 1; 0 :ok :add 1; 1 :invoke :add 1; 1 :fail :add 1; 0 :invoke :read; 0 :ok :read () => 0 lost
        0 :invoke :add 1; 0 :ok :add 1; 0 :invoke :read; 0 :ok :read (); 0 :invoke :add 1; 0 :ok :add 1; 0 :invoke :add (2); \
        0 :ok :add (2); 0 :ok :add [2] => 0 lost; 3 lost; 4 lost
        1 :invoke :add 1; 0 :invoke :read; 0 :ok :read (); 1 :ok :add 1; 2 :ok :add 3; 2 :invoke :add 4; 2 :info :add 4 => 0 lost; 2 lost
        0 :invoke :add 1; 0 :ok :add 1 =>
        0 :invoke :add 1; 0 :ok :add 1; 0 :invoke :read; 0 :ok :read [1] =>";
    ask_all(rt.alloc(), explained(Checker::Set), rows)
}

/// Of a yes each transaction has its place in the order. Of a no the transaction of the bad read is marked, or each of the
/// cycle with its step.
#[test]
fn marks_transactions(rt: HostRuntime) -> Result<(), Fail> {
    let rows = "
        0 :invoke :txn [[:append 1 1]]; 0 :ok :txn [[:append 1 1]]; 1 :invoke :txn [[:r 1 nil]]; 1 :ok :txn [[:r 1 [1]]] \
        => 0 placed 0; 1 placed 1
        0 :invoke :txn [[:append 1 1]]; 0 :ok :txn [[:append 1 1]]; 1 :invoke :txn [[:r 1 nil]]; 1 :ok :txn [[:r 1 nil]] \
        => 0 rt 0; 1 rw 1
        0 :invoke :txn [[:append 1 1]]; 0 :fail :txn nil; 1 :invoke :txn [[:r 1 nil]]; 1 :ok :txn [[:r 1 [1]]] => 1 bad-read";
    ask_all(rt.alloc(), explained(Checker::ListAppend), rows)
}

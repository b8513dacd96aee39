//! Whether a history has enough operations to be called valid. `specs/Enough.antt` has the rule.

ghost use Rattle.std.specs.Prelude.{◌≡◌, IfOk, map};
ghost use Rattle.jh_ops.specs.Operation.{operation, operations};
ghost use Rattle.jh_cli.specs.Enough as rule;

use crate::check_command::CheckQuestion;
use jh_checkers::Checker;
use jh_ops::{Kind, Op};
use jh_reports::{DONE, Output, UNKNOWN};
use std::alloc::{AllocError, Global};

/// The functions of the workloads.
static REGISTER: [&str; 3] = ["read", "write", "cas"];

static ADDS: [&str; 2] = ["add", "read"];

static IDS: [&str; 1] = ["generate"];

static TRANSACTIONS: [&str; 1] = ["txn"];

static TOTAL_QUEUE: [&str; 3] = ["enqueue", "dequeue", "drain"];

static QUEUE: [&str; 2] = ["enqueue", "dequeue"];

// Transfers of a bank are not judged: they count among other functions.
static BANK: [&str; 1] = ["read"];

static MUTEX: [&str; 2] = ["acquire", "release"];

/// The names of the functions whose operations a checker judges.
pub fn functions_of(checker: Checker) -> &'static [&'static str]
    ensures { map (λ name. name.now) result.now ≡ rule.functions_of checker }
{
    match checker {
        Checker::Register => REGISTER.as_slice(),
        Checker::Set | Checker::Counter | Checker::SetFull => ADDS.as_slice(),
        Checker::Ids => IDS.as_slice(),
        Checker::ListAppend => TRANSACTIONS.as_slice(),
        Checker::TotalQueue => TOTAL_QUEUE.as_slice(),
        Checker::Queue | Checker::FifoQueue => QUEUE.as_slice(),
        Checker::Bank => BANK.as_slice(),
        Checker::Mutex => MUTEX.as_slice(),
    }
}

/// Whether a record is a client's, of this kind and of a function that the checker judges. The
/// names are those of `functions_of`, as the clause has it; they are compared one by one, without
/// a loop.
pub(crate) fn is_judged(checker: Checker, kind: Kind, op: &Op) -> bool
    ensures { result ≡ rule.is_judged checker kind (operation op.now) }
{
    match checker {
        Checker::Register => {
            op.is_asked(kind, "read") || op.is_asked(kind, "write") || op.is_asked(kind, "cas")
        }
        Checker::Set | Checker::Counter | Checker::SetFull => {
            op.is_asked(kind, "add") || op.is_asked(kind, "read")
        }
        Checker::Ids => op.is_asked(kind, "generate"),
        Checker::ListAppend => op.is_asked(kind, "txn"),
        Checker::TotalQueue => {
            op.is_asked(kind, "enqueue")
                || op.is_asked(kind, "dequeue")
                || op.is_asked(kind, "drain")
        }
        Checker::Queue | Checker::FifoQueue => {
            op.is_asked(kind, "enqueue") || op.is_asked(kind, "dequeue")
        }
        Checker::Bank => op.is_asked(kind, "read"),
        Checker::Mutex => op.is_asked(kind, "acquire") || op.is_asked(kind, "release"),
    }
}

/// How many operations that the checker judges ended `:ok`.
fn count_ok_operations(checker: Checker, history: &[Op]) -> usize
    ensures { result ≡ rule.count_ok_operations checker (operations history.now) }
{
    let mut done = 0;
    for op in history {
        if is_judged(checker, Kind::Ok, op) {
            done += 1;
        }
    }
    done
}

/// What is found, or that it stands on too few operations.
pub(crate) fn answer_where_enough(
    alloc: Global,
    history: &[Op],
    question: CheckQuestion<'_>,
    found: Output,
) -> Result<Output, AllocError>
    ensures { IfOk result (λ output. (output.status, output.text.items)
        ≡ rule.answer_where_enough question.entry.at_least
        (rule.count_ok_operations question.entry.judging.checker (operations history.now))
        found.status found.text.items) }
{
    let Some(wanted) = question.at_least else {
        return Ok(found);
    };
    let done = count_ok_operations(question.judging.checker, history);
    if found.status != DONE || done >= wanted {
        return Ok(found);
    }
    Ok(Output {
        status: UNKNOWN,
        text: few_line(alloc, done, wanted)?,
    })
}

/// The line where fewer operations were done than are wanted.
fn few_line(alloc: Global, done: usize, wanted: usize) -> Result<Vec<u8>, AllocError>
    ensures { IfOk result (λ line. line.items ≡ rule.few_line done wanted) }
{
    let line = format!(in alloc;
        "{{:valid? :unknown, :error \"{done} of at least {wanted} operations\"}}\n"
    )?;
    Ok(line.into_bytes())
}

//! The reads of a history, whatever the bank. `specs/Banks.antt` has the rule.

ghost use Rattle.std.specs.Prelude.{◌≡◌, codes, count_by, position};
ghost use Rattle.jh_ops.specs.Operation.{is_asked, operation, operations};
ghost use Rattle.jh_bank.specs.BankInside.{is_bad_read};
ghost use Rattle.jh_bank.specs.Banks as rule;

use crate::balances::shows_balances;
use jh_ops::{Kind, Op};

/// Whether the operation is a read that happened, and shows no balances.
fn is_bad(op: &Op) -> bool
    ensures { result ≡ is_bad_read (operation op.now) }
{
    op.is_asked(Kind::Ok, "read") && !shows_balances(&op.value)
}

/// The place of the first of the operations that is such a read, if there is one.
fn first_bad(history: &[Op]) -> Option<usize>
    ensures { result ≡ position (λ op. is_bad_read (operation op)) history.now }
{
    history.iter().position(|op| is_bad(op))
}

/// The place of the first read that happened and shows no balances, if there is one.
pub(crate) fn bad_read_place(history: &[Op]) -> Option<usize>
    ensures { result ≡ rule.bad_read_place (operations history.now) }
{
    first_bad(history)
}

/// How many reads happened.
pub(crate) fn count_reads(history: &[Op]) -> usize
    ensures { result
        ≡ count_by (λ op. is_asked Kind.Ok (codes "read") (operation op)) history.now }
{
    let mut count = 0;
    for op in history {
        if op.is_asked(Kind::Ok, "read") {
            count += 1;
        }
    }
    count
}

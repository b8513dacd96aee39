//! How the calls of a test ended. `specs/Calls.antt` has the rule.

ghost use Rattle.std.specs.Prelude.{◌≡◌};
ghost use Rattle.jh_ops.specs.Operation.{operations};
ghost use Rattle.jh_drive.specs.Calls as rule;
ghost use Rattle.jh_drive.specs.Calls.{call_counts};

use jh_ops::{Kind, Op};

/// How many calls a test made, and how many of them ended in each way. Those that never ended are in
/// the first number alone.
#[derive(Clone, Copy, Debug, PartialEq, Eq)]
pub struct CallCounts {
    pub given: usize,
    pub ok: usize,
    pub failed: usize,
    /// Of unknown outcome.
    pub unknown: usize,
}

/// Who is told how the calls of a test ended.
pub trait CallObserver {
    /// So they ended: told once, behind the conversation, before the history is judged.
    fn see_calls(&mut self, calls: CallCounts);
}

/// How many operations of clients are of this kind.
fn count_of_kind(kind: Kind, history: &[Op]) -> usize
    ensures { result ≡ rule.count_of_kind kind (operations history.now) }
{
    let mut count = 0;
    for op in history {
        if op.process.is_client() && kind.is(op.kind) {
            count += 1;
        }
    }
    count
}

/// How the calls of a history ended.
pub(crate) fn counts_of(history: &[Op]) -> CallCounts
    ensures { result ≡ call_counts (operations history.now) }
{
    CallCounts {
        given: count_of_kind(Kind::Invoke, history),
        ok: count_of_kind(Kind::Ok, history),
        failed: count_of_kind(Kind::Fail, history),
        unknown: count_of_kind(Kind::Info, history),
    }
}

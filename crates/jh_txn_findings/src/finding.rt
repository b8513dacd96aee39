//! What is found in transactions. `specs/Findings.antt` has the verdict and the names of bad reads.

ghost use Rattle.std.specs.Prelude.{◌≡◌};
ghost use Rattle.jh_txn_findings.specs.Findings as rule;

use jh_check::Verdict;
use jh_edn::Value;
use jh_ops::Op;
use jh_txn::BadRead;

/// Why one transaction comes before another one, with keys and elements as the history has them.
#[derive(Debug, Drop)]
pub enum FoundWhy {
    /// `:wr`: the second one read this element, which the first one appended.
    WriteRead { key: Value, element: Value },
    /// `:ww`: both appended to the key, the first one this element, and reads show that it came first.
    WriteWrite { key: Value, element: Value },
    /// `:fcw`: both appended to the key, the first one this element, and it read the key without an
    /// element of the second one.
    FirstCommitter { key: Value, element: Value },
    /// `:rw`: the first one read the key without this element, which the second one appended.
    ReadWrite { key: Value, element: Value },
    /// `:rt`: the first one was done before the second one was invoked.
    RealTime,
}

/// A step of a cycle: from the transaction at a place to that of the next step.
#[derive(Debug, Drop)]
pub struct FoundStep {
    pub place: usize,
    pub why: FoundWhy,
}

/// What is found in transactions. Places count the transactions from 0, in order of invocation.
#[derive(Debug, Drop)]
pub enum TxnFinding {
    /// An order explains them: these places, of a snapshot order each place twice.
    Valid {
        order: Vec<usize>,
    },
    /// No order does, for the read at this index of the transaction at this place.
    BadRead {
        place: usize,
        index: usize,
        kind: BadRead,
        /// What is shown beside it, where that is asked for.
        operations: Option<Vec<Op>>,
    },
    /// No order does, for a cycle.
    Cycle {
        steps: Vec<FoundStep>,
        /// What is shown beside it, where that is asked for.
        operations: Option<Vec<Op>>,
    },
    /// It is not known.
    Unknown,
}

impl TxnFinding {
    /// What the finding says of its history.
    pub fn verdict(&self) -> Verdict
        ensures { result ≡ rule.txn_finding_verdict self.now }
    {
        match self {
            TxnFinding::Valid { .. } => Verdict::True,
            TxnFinding::BadRead { .. } | TxnFinding::Cycle { .. } => Verdict::False,
            TxnFinding::Unknown => Verdict::Unknown,
        }
    }
}

/// The name of what is wrong with a read, as the line has it, without its colon.
pub(crate) fn anomaly_text(kind: BadRead) -> &'static str
    ensures { result.now ≡ rule.anomaly_text kind }
{
    match kind {
        BadRead::Internal => "internal",
        BadRead::DuplicateElements => "duplicate-elements",
        BadRead::GarbageRead => "garbage-read",
        BadRead::AbortedRead => "G1a",
        BadRead::IntermediateRead => "G1b",
        BadRead::OutOfOrder => "out-of-order",
    }
}

//! Which generators suit a run. `specs/Suits.antt` has the rule.

ghost use Rattle.std.specs.Prelude.{◌≡◌};
ghost use Rattle.jh_gen.specs.Generator.{row_of, share_list};
ghost use Rattle.jh_gen.specs.Suits as rule;
ghost use Rattle.jh_gen.specs.SuitsInside.{is_call_wanted};
ghost use Rattle.jh_gen.specs.View.{generator_of};

use crate::build::fits;
use crate::generator::{Gen, Gens, Shares};
use jh_ops::{Call, Request, Workload};

/// What the calls of a generator are to be.
#[derive(Clone, Copy)]
enum Wanted {
    /// Requests of a workload.
    Of(Workload),
    /// Transactions.
    Transactions,
    /// Anything but reads.
    NoRead,
}

/// Whether a call is a client's request of the workload, and of the counter no negative add.
fn is_call_for(workload: Workload, call: Call) -> bool
    ensures { result ≡ rule.is_call_for workload call }
{
    match (workload, call) {
        (Workload::Counter, Call::Client(Request::Add(amount))) => amount >= 0,
        (_, Call::Client(request)) => request.is_of(workload),
        (_, Call::Step(_)) => false,
    }
}

/// Whether a call is a client's transaction.
fn is_transaction(call: Call) -> bool
    ensures { result ≡ rule.is_transaction call }
{
    match call {
        Call::Client(Request::Txn) => true,
        _ => false,
    }
}

/// Whether a call is anything but a client's read.
fn is_no_read(call: Call) -> bool
    ensures { result ≡ rule.is_no_read call }
{
    match call {
        Call::Client(Request::Read) => false,
        _ => true,
    }
}

impl Wanted {
    /// Whether a call is one of these.
    fn has(self, call: Call) -> bool
        ensures { result ≡ is_call_wanted self call }
    {
        match self {
            Wanted::Of(workload) => is_call_for(workload, call),
            Wanted::Transactions => is_transaction(call),
            Wanted::NoRead => is_no_read(call),
        }
    }
}

impl Gen {
    /// Whether the generator suits a run of a workload with so many client threads: it has no part
    /// of the nemesis and no call of a step, the numbers of each reserve sum to at most `clients`,
    /// and each call is a request of the workload. Of the counter, no add is negative, and no rising
    /// begins below 0.
    pub fn suits(&self, workload: Workload, clients: u32) -> bool
        ensures { result ≡ rule.suits workload clients (generator_of self.now) }
    {
        fits(self, clients) && self.has_only(Wanted::Of(workload))
    }

    /// Whether the generator suits a test of transactions with so many client threads: it has no part
    /// of the nemesis and no call of a step, the numbers of each reserve sum to at most `clients`,
    /// and each call is `Txn`.
    pub fn suits_transactions(&self, clients: u32) -> bool
        ensures { result ≡ rule.suits_transactions clients (generator_of self.now) }
    {
        fits(self, clients) && self.has_only(Wanted::Transactions)
    }

    /// Whether no call of the generator is a read, and no part is the nemesis's. Of a generator that
    /// suits a run: whether nobody ever asks for a read.
    pub fn never_reads(&self) -> bool
        ensures { result ≡ rule.never_reads (generator_of self.now) }
    {
        self.has_only(Wanted::NoRead)
    }

    /// Whether each call of the generator is wanted, and no part is the nemesis's.
    #[cycle(only)]
    fn has_only(&self, wanted: Wanted) -> bool
        ensures { result ≡ rule.has_only (is_call_wanted wanted) (generator_of self.now) }
    {
        match self {
            Gen::Nil => true,
            Gen::Once(call) => wanted.has(*call),
            Gen::Rising(rise, first) => wanted.has(rise.call(*first)),
            Gen::Forever(call) => wanted.has(*call),
            Gen::Seq(members) => members.all_have_only(wanted),
            Gen::Limit(_, inner) => inner.boxed.has_only(wanted),
            Gen::Mix(members) => members.all_have_only(wanted),
            Gen::Phases(members) => members.all_have_only(wanted),
            Gen::Reserve(shares, inner) => {
                shares.all_have_only(wanted) && inner.boxed.has_only(wanted)
            }
            Gen::EachThread(inner) => inner.boxed.has_only(wanted),
            Gen::Clients(inner) => inner.boxed.has_only(wanted),
            Gen::NemesisOnly(_) => false,
        }
    }
}

impl Gens {
    /// Whether each of the generators has only calls that are wanted.
    #[cycle(only)]
    fn all_have_only(&self, wanted: Wanted) -> bool
        ensures { result ≡ rule.all_have_only (is_call_wanted wanted) (row_of self.now) }
    {
        for member in &self.items {
            if !member.has_only(wanted) {
                return false;
            }
        }
        true
    }
}

impl Shares {
    /// Whether the generator of each share has only calls that are wanted.
    #[cycle(only)]
    fn all_have_only(&self, wanted: Wanted) -> bool
        ensures { result ≡ rule.shares_have_only (is_call_wanted wanted) (share_list self.now) }
    {
        for (_, member) in &self.items {
            if !member.has_only(wanted) {
                return false;
            }
        }
        true
    }
}

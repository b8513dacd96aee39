//! What is left of a generator before its first call: all copies are made here, so that
//! taking a call needs no memory. `specs/State.antt` has the rule, `specs/Fits.antt` which
//! generators are taken.

ghost use Rattle.std.specs.Prelude.{◌≡◌, ◌+◌, ◌≤◌, ◌<◌, [], ◌∷◌, IfOk, filter, true, nat_le};
ghost use Rattle.jh_gen.specs.DriverState.{max_clients};
ghost use Rattle.jh_gen.specs.Fits as rule;
ghost use Rattle.jh_gen.specs.Generator.{row_of, share_list};
ghost use Rattle.jh_gen.specs.View.{generator_of};
ghost use Rattle.jh_gen.specs.Scope.{is_client_thread, is_nemesis_thread, is_share_thread, is_beyond};
ghost use Rattle.jh_gen.specs.Fits.{shares_sum, fits, all_fit, shares_fit};
ghost use Rattle.jh_gen.specs.State.{state_left, states_left, lots_of, lots_each, states_from};
ghost use Rattle.jh_gen.specs.State.{lots_from};
ghost use Rattle.jh_gen.specs.NodeView.{node_state, lot_of, lots_view};

use crate::generator::{Gen, Gens, Inner, Shares};
use crate::node::{Count, Lot, Lots, Member, Node, Row, Within};
use std::alloc::{AllocError, Global};

/// Whether each reserve's numbers sum to at most the number of client threads.
#[cycle(fits)]
pub(crate) fn fits(source: &Gen, clients: u32) -> bool
    ensures { result ≡ rule.fits clients (generator_of source.now) }
{
    match source {
        Gen::Nil => true,
        Gen::Once(_) => true,
        Gen::Rising(_, _) => true,
        Gen::Forever(_) => true,
        Gen::Seq(members) => members.all_fit(clients),
        Gen::Limit(_, inner) => fits(&inner.boxed, clients),
        Gen::Mix(members) => members.all_fit(clients),
        Gen::Phases(members) => members.all_fit(clients),
        Gen::Reserve(shares, inner) => {
            shares.is_at_most(clients) && shares.all_fit(clients) && fits(&inner.boxed, clients)
        }
        Gen::EachThread(inner) => fits(&inner.boxed, clients),
        Gen::Clients(inner) => fits(&inner.boxed, clients),
        Gen::NemesisOnly(inner) => fits(&inner.boxed, clients),
    }
}

impl Gens {
    /// Whether each of the generators fits so many client threads.
    #[cycle(fits)]
    fn all_fit(&self, clients: u32) -> bool
        ensures { result ≡ rule.all_fit clients (row_of self.now) }
    {
        for member in &self.items {
            if !fits(member, clients) {
                return false;
            }
        }
        true
    }
}

impl Shares {
    /// Whether the generator of each share fits so many client threads.
    #[cycle(fits)]
    fn all_fit(&self, clients: u32) -> bool
        ensures { result ≡ rule.shares_fit clients (share_list self.now) }
    {
        for (_, member) in &self.items {
            if !fits(member, clients) {
                return false;
            }
        }
        true
    }

    /// Whether the numbers of the shares sum to at most so many client threads.
    fn is_at_most(&self, clients: u32) -> bool
        ensures { result ≡ nat_le (shares_sum (share_list self.now)) clients }
    {
        let mut sum = 0;
        for (count, _) in &self.items {
            sum += u64::from(*count);
            if sum > u64::from(clients) {
                return false;
            }
        }
        true
    }
}

/// What is left of a generator for some threads, before its first call.
#[cycle(build)]
pub(crate) fn build(alloc: Global, source: &Gen, threads: &[usize]) -> Result<Node, AllocError>
    requires { fits max_clients (generator_of source.now) ≡ true }
    ensures { IfOk result
        (λ n. node_state n ≡ state_left (generator_of source.now) [] threads.now) }
{
    match source {
        Gen::Nil => Ok(Node::Gone),
        Gen::Once(call) => {
            if threads.is_empty() {
                Ok(Node::Gone)
            } else {
                Ok(Node::One(*call))
            }
        }
        Gen::Rising(rise, first) => {
            if threads.is_empty() {
                Ok(Node::Gone)
            } else {
                Ok(Node::Counting(Count {
                    rise: *rise,
                    next: *first,
                }))
            }
        }
        Gen::Forever(call) => {
            if threads.is_empty() {
                Ok(Node::Gone)
            } else {
                Ok(Node::Endless(*call))
            }
        }
        Gen::Seq(members) => Ok(Node::InTurn(Vec::new(alloc), build_row(alloc, members, threads)?)),
        Gen::Limit(limit, inner) => Ok(Node::Limited(*limit, build_within(alloc, inner, threads)?)),
        Gen::Mix(members) => Ok(Node::Mixed(build_row(alloc, members, threads)?)),
        Gen::Phases(members) => {
            let awaited = threads.to_vec(alloc)?;
            Ok(Node::InTurn(awaited, build_row(alloc, members, threads)?))
        }
        Gen::Reserve(shares, inner) => {
            let mut items = build_shares(alloc, shares, threads)?;
            let others = threads_beyond(alloc, threads, shares.sum())?;
            items.push(build_lot(alloc, inner, others)?)?;
            Ok(Node::Split(Lots { items }))
        }
        Gen::EachThread(inner) => Ok(Node::Split(build_copies(alloc, inner, threads)?)),
        Gen::Clients(inner) => Ok(Node::Split(build_part(
            alloc,
            inner,
            client_threads(alloc, threads)?,
        )?)),
        Gen::NemesisOnly(inner) => Ok(Node::Split(build_part(
            alloc,
            inner,
            nemesis_threads(alloc, threads)?,
        )?)),
    }
}

/// What is left of an inner generator for some threads, before its first call.
#[cycle(build)]
fn build_within(alloc: Global, inner: &Inner, threads: &[usize]) -> Result<Within, AllocError>
    requires { fits max_clients inner.now ≡ true }
    ensures { IfOk result (λ w. w ≡ state_left inner.now [] threads.now) }
{
    let node = build(alloc, &inner.boxed, threads)?;
    Ok(Within {
        boxed: Box::new(alloc, node)?,
    })
}

/// What is left of each member for some threads, before its first call.
#[cycle(build)]
fn build_row(alloc: Global, members: &Gens, threads: &[usize]) -> Result<Row, AllocError>
    requires { all_fit max_clients (row_of members.now) ≡ true }
    ensures { IfOk result (λ r. states_from r ≡ states_left (row_of members.now) 0 [] threads.now) }
{
    let mut row = Vec::new(alloc);
    for member in &members.items {
        let node = build(alloc, member, threads)?;
        row.push(Member {
            started: false,
            node,
        })?;
    }
    Ok(Row { members: row })
}

/// One generator for a part of the threads.
#[cycle(build)]
fn build_lot(alloc: Global, inner: &Inner, part: Vec<usize>) -> Result<Lot, AllocError>
    requires { fits max_clients inner.now ≡ true }
    ensures { IfOk result (λ l. lot_of l ≡ (part.items, state_left inner.now [] part.items)) }
{
    let node = build(alloc, &inner.boxed, part.as_slice())?;
    Ok(Lot {
        threads: part,
        node,
    })
}

/// The one lot of a generator that only a part of the threads reaches.
#[cycle(build)]
fn build_part(alloc: Global, inner: &Inner, part: Vec<usize>) -> Result<Lots, AllocError>
    requires { fits max_clients inner.now ≡ true }
    ensures { IfOk result (λ ls. ls ≡ (part.items, state_left inner.now [] part.items) ∷ []) }
{
    let mut items = Vec::new(alloc);
    items.push(build_lot(alloc, inner, part)?)?;
    Ok(Lots { items })
}

/// A copy for each thread.
#[cycle(build)]
fn build_copies(alloc: Global, inner: &Inner, threads: &[usize]) -> Result<Lots, AllocError>
    requires { fits max_clients inner.now ≡ true }
    ensures { IfOk result
        (λ ls. lots_from ls ≡ lots_each (λ x. state_left inner.now [] (x ∷ [])) threads.now) }
{
    let mut items = Vec::new(alloc);
    for thread in threads {
        let own = vec![in alloc; *thread]?;
        let node = build(alloc, &inner.boxed, own.as_slice())?;
        items.push(Lot { threads: own, node })?;
    }
    Ok(Lots { items })
}

/// The shares in order.
#[cycle(build)]
fn build_shares(alloc: Global, shares: &Shares, threads: &[usize]) -> Result<Vec<Lot>, AllocError>
    requires sum { shares_sum (share_list shares.now) ≤ max_clients }
    requires fit { shares_fit max_clients (share_list shares.now) ≡ true }
    ensures { IfOk result
        (λ v. lots_from (lots_view v.items) ≡ lots_of (share_list shares.now) 0 0 [] threads.now) }
{
    let mut items = Vec::new(alloc);
    let mut first = 0;
    for (count, member) in &shares.items {
        let own = threads_among(alloc, threads, first, *count as usize)?;
        let node = build(alloc, member, own.as_slice())?;
        items.push(Lot { threads: own, node })?;
        first += *count as usize;
    }
    Ok(items)
}

impl Shares {
    /// How many client threads have a share.
    fn sum(&self) -> usize
        requires { shares_sum (share_list self.now) ≤ max_clients }
        ensures { result ≡ shares_sum (share_list self.now) }
    {
        let mut sum = 0;
        for (count, _) in &self.items {
            sum += *count as usize;
        }
        sum
    }
}

/// The client threads among these.
fn client_threads(alloc: Global, threads: &[usize]) -> Result<Vec<usize>, AllocError>
    ensures { IfOk result (λ v. v.items ≡ filter is_client_thread threads.now) }
{
    threads.iter().copied().filter(|x| *x != 0).collect(alloc)
}

/// The nemesis, where it is among these.
fn nemesis_threads(alloc: Global, threads: &[usize]) -> Result<Vec<usize>, AllocError>
    ensures { IfOk result (λ v. v.items ≡ filter is_nemesis_thread threads.now) }
{
    threads.iter().copied().filter(|x| *x == 0).collect(alloc)
}

/// The `count` client threads from number `first` on, of those among these.
fn threads_among(
    alloc: Global,
    threads: &[usize],
    first: usize,
    count: usize,
) -> Result<Vec<usize>, AllocError>
    requires { first + count ≤ max_clients }
    ensures { IfOk result (λ v. v.items ≡ filter (is_share_thread first count) threads.now) }
{
    let last = first + count;
    threads
        .iter()
        .copied()
        .filter(|x| first < *x && *x <= last)
        .collect(alloc)
}

/// These without the first `count` client threads.
fn threads_beyond(alloc: Global, threads: &[usize], count: usize) -> Result<Vec<usize>, AllocError>
    ensures { IfOk result (λ v. v.items ≡ filter (is_beyond count) threads.now) }
{
    threads
        .iter()
        .copied()
        .filter(|x| *x == 0 || count < *x)
        .collect(alloc)
}

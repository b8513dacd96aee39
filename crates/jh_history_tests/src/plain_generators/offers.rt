//! What a generator offers to a thread, and when it is spent, as docs/generators.md has it, kind by
//! kind. Each question counts the calls of the whole run anew.
//!
//! `depth` is how many generators may still be inside one another; one that lies deeper is spent.

use crate::plain_generators::parts::{Part, Question, Scope};
use jh_gen::{Gen, Rise, Shares};
use jh_ops::{Call, Request};

/// Whether a generator is spent, as this part of the whole.
#[cycle(spent)]
pub(crate) fn is_spent(source: &Gen, part: Part, depth: u32) -> bool {
    if depth == 0 {
        return true;
    }
    let below = depth - 1;
    match source {
        Gen::Nil => true,
        Gen::Once(_) => part.scope.is_empty() || part.given() > 0,
        Gen::Rising(_, first) => part.scope.is_empty() || part.next(*first).is_none(),
        Gen::Forever(_) => part.scope.is_empty(),
        Gen::Seq(members) | Gen::Mix(members) | Gen::Phases(members) => {
            are_spent(members.as_slice(), part, below)
        }
        Gen::Limit(most, inner) => {
            part.given() >= *most as usize || is_spent(inner.as_gen(), part.member(0), below)
        }
        Gen::Reserve(shares, inner) => {
            are_shares_spent(shares.as_slice(), part, below)
                && is_spent(inner.as_gen(), others(shares, part), below)
        }
        Gen::EachThread(inner) => is_each_spent(inner.as_gen(), part, below),
        Gen::Clients(inner) => is_spent(inner.as_gen(), clients(part), below),
        Gen::NemesisOnly(inner) => is_spent(inner.as_gen(), nemesis(part), below),
    }
}

/// Whether all members of a part are spent.
#[cycle(spent)]
fn are_spent(members: &[Gen], part: Part, depth: u32) -> bool {
    for (place, member) in members.iter().enumerate() {
        if !is_spent(member, part.member(place), depth) {
            return false;
        }
    }
    true
}

/// Whether the generators of all shares are spent.
#[cycle(spent)]
fn are_shares_spent(shares: &[(u32, Gen)], part: Part, depth: u32) -> bool {
    let mut first = 1usize;
    for (place, (count, member)) in shares.iter().enumerate() {
        let behind = first.saturating_add(*count as usize);
        let share = part.member(place).asked_by(Scope::of(first, behind, false));
        if !is_spent(member, share, depth) {
            return false;
        }
        first = behind;
    }
    true
}

/// Whether the copy of each thread is spent.
#[cycle(spent)]
fn is_each_spent(inner: &Gen, part: Part, depth: u32) -> bool {
    for thread in 0..MAX_THREADS {
        if part.scope.contains(thread) && !is_spent(inner, copy_of(thread, part), depth) {
            return false;
        }
    }
    true
}

/// How many members are not spent.
fn open_count(members: &[Gen], part: Part, depth: u32) -> u64 {
    let mut count = 0u64;
    for (place, member) in members.iter().enumerate() {
        if !is_spent(member, part.member(place), depth) {
            count = count.saturating_add(1);
        }
    }
    count
}

/// A driver's nemesis and its clients.
const MAX_THREADS: usize = 17;

/// The inner generator of one for clients, which only client threads ask.
fn clients(part: Part) -> Part {
    part.member(0).asked_by(Scope::of(1, usize::MAX, false))
}

/// The inner generator of one for the nemesis, which only the nemesis asks.
fn nemesis(part: Part) -> Part {
    part.member(0).asked_by(Scope::of(1, 1, true))
}

/// The copy of an inner generator that only one thread asks.
fn copy_of(thread: usize, part: Part) -> Part {
    part.member(thread).asked_by(Scope::only(thread))
}

/// The default of a reserve, which all threads ask that have no share.
fn others<'a>(shares: &Shares, part: Part<'a>) -> Part<'a> {
    let shares = shares.as_slice();
    let mut first = 1usize;
    for (count, _) in shares {
        first = first.saturating_add(*count as usize);
    }
    part.member(shares.len())
        .asked_by(Scope::of(first, usize::MAX, true))
}

/// A call, and the path by which it comes.
pub(crate) type Offer = Option<(u64, Call)>;

/// What a generator, as this part of the whole, offers to the thread that asks.
#[cycle(offer)]
pub(crate) fn offer_of(source: &Gen, part: Part, question: Question, depth: u32) -> Offer {
    if depth == 0 || !part.scope.contains(question.asker) || is_spent(source, part, depth) {
        return None;
    }
    let below = depth - 1;
    match source {
        Gen::Nil => None,
        Gen::Once(call) | Gen::Forever(call) => Some((part.path, *call)),
        Gen::Rising(Rise::Adds, first) => {
            Some((part.path, Call::Client(Request::Add(part.next(*first)?))))
        }
        Gen::Rising(Rise::Writes, first) => {
            Some((part.path, Call::Client(Request::Write(part.next(*first)?))))
        }
        Gen::Seq(members) => {
            first_offer(
                members.as_slice(),
                part,
                Scope::of(1, 1, false),
                question,
                below,
            )
        }
        Gen::Phases(members) => {
            first_offer(members.as_slice(), part, part.scope, question, below)
        }
        Gen::Mix(members) => mixed_offer(members.as_slice(), part, question, below),
        Gen::Limit(_, inner) => offer_of(inner.as_gen(), part.member(0), question, below),
        Gen::Reserve(shares, inner) => {
            let rest = others(shares, part);
            if rest.scope.contains(question.asker) {
                return offer_of(inner.as_gen(), rest, question, below);
            }
            shared_offer(shares.as_slice(), part, question, below)
        }
        Gen::EachThread(inner) => {
            offer_of(
                inner.as_gen(),
                copy_of(question.asker, part),
                question,
                below,
            )
        }
        Gen::Clients(inner) => offer_of(inner.as_gen(), clients(part), question, below),
        Gen::NemesisOnly(inner) => offer_of(inner.as_gen(), nemesis(part), question, below),
    }
}

/// What the first member offers that is not spent; one that has given no call waits for the awaited
/// threads.
#[cycle(offer)]
fn first_offer(
    members: &[Gen],
    part: Part,
    awaited: Scope,
    question: Question,
    depth: u32,
) -> Offer {
    for (place, member) in members.iter().enumerate() {
        let inner = part.member(place);
        if !is_spent(member, inner, depth) {
            if inner.given() == 0 && awaited.is_any_busy(question.busy) {
                return None;
            }
            return offer_of(member, inner, question, depth);
        }
    }
    None
}

/// What the members offer that are not spent, from the one that the random number names and around:
/// the first that there is.
#[cycle(offer)]
fn mixed_offer(members: &[Gen], part: Part, question: Question, depth: u32) -> Offer {
    let from = question.draw.checked_rem(open_count(members, part, depth))?;
    let mut before = None;
    let mut open = 0u64;
    for (place, member) in members.iter().enumerate() {
        let inner = part.member(place);
        if !is_spent(member, inner, depth) {
            let offer = offer_of(member, inner, question, depth);
            if open >= from && offer.is_some() {
                return offer;
            }
            before = before.or(offer);
            open = open.saturating_add(1);
        }
    }
    before
}

/// What the member offers whose own the thread is.
#[cycle(offer)]
fn shared_offer(shares: &[(u32, Gen)], part: Part, question: Question, depth: u32) -> Offer {
    let mut first = 1usize;
    for (place, (count, member)) in shares.iter().enumerate() {
        let behind = first.saturating_add(*count as usize);
        let own = Scope::of(first, behind, false);
        if own.contains(question.asker) {
            return offer_of(member, part.member(place).asked_by(own), question, depth);
        }
        first = behind;
    }
    None
}

//! What a fault is to do to its links, with an amount that may be any integer. Whether the amount is
//! in its range is asked here and nowhere else. `specs/Amounts.antt` says which fault of links is
//! given; the ranges are those of faults as jh_tables defines them.

ghost use Rattle.std.specs.Prelude.{◌≡◌, ◌↔◌, IfSome, IsTrue, MatchOption};
ghost use Rattle.jh_env.specs.Amounts.{IsLinkAmount, link_fault_of};

use crate::faults::{MAX_FIXED_MS, MAX_LOSS, MAX_SLOWED_MS};
use jh_tables::LinkFault;

/// What a fault does to each of its links, as it is given: an amount is any integer until the fault
/// is made ([`crate::Fault::on_links`]), and one out of its range is refused there.
#[derive(Clone, Copy, Debug, PartialEq, Eq)]
pub enum GivenLinkFault {
    /// Nothing passes.
    Cut,
    /// Messages are later, by 1 to 60,000 milliseconds.
    Slow(i128),
    /// Messages are lost, at a level of 1 to 20 in 20.
    Loss(i128),
    /// The delay is this one, 0 to 60,000 milliseconds.
    Fix(i128),
}

/// Whether the amount is in its range.
fn is_link_amount(kind: LinkFault) -> bool
    ensures { IsTrue result ↔ IsLinkAmount kind }
{
    match kind {
        LinkFault::Cut => true,
        LinkFault::Slow(ms) => 0 < ms && ms <= MAX_SLOWED_MS,
        LinkFault::Loss(level) => 0 < level && level <= MAX_LOSS,
        LinkFault::Fix(ms) => ms <= MAX_FIXED_MS,
    }
}

/// What a fault does to its links, if its amount is in its range.
fn in_range(kind: LinkFault) -> Option<LinkFault>
    ensures { MatchOption result (IsLinkAmount kind → ⊥)
        (λ right. (right ≡ kind) × IsLinkAmount kind) }
{
    if is_link_amount(kind) {
        Some(kind)
    } else {
        None
    }
}

impl GivenLinkFault {
    /// What it does, if its amount is in its range.
    pub(crate) fn judged(self) -> Option<LinkFault>
        ensures judged { result ≡ link_fault_of self }
        ensures right { IfSome result IsLinkAmount }
    {
        match self {
            GivenLinkFault::Cut => Some(LinkFault::Cut),
            GivenLinkFault::Slow(ms) => in_range(LinkFault::Slow(u64::try_from(ms).ok()?)),
            GivenLinkFault::Loss(level) => in_range(LinkFault::Loss(u8::try_from(level).ok()?)),
            GivenLinkFault::Fix(ms) => in_range(LinkFault::Fix(u64::try_from(ms).ok()?)),
        }
    }
}

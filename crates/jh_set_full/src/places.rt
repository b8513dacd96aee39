//! Places, where there are such. `specs/SetFull.antt` has the rule.

ghost use Rattle.std.specs.Prelude.{◌≡◌};
ghost use Rattle.jh_set_full.specs.Inside as inside;
ghost use Rattle.jh_set_full.specs.SetFull as rule;

/// The later of two places.
pub(crate) fn later_of(a: Option<usize>, b: Option<usize>) -> Option<usize>
    ensures { result ≡ rule.later_of a b }
{
    match (a, b) {
        (None, b) => b,
        (a, None) => a,
        (Some(a), Some(b)) => Some(a.max(b)),
    }
}

/// The earlier of two places.
pub(crate) fn earlier_of(a: Option<usize>, b: Option<usize>) -> Option<usize>
    ensures { result ≡ rule.earlier_of a b }
{
    match (a, b) {
        (None, b) => b,
        (a, None) => a,
        (Some(a), Some(b)) => Some(a.min(b)),
    }
}

/// Whether the second is there, and the first is not there or is before it.
pub(crate) fn is_before(a: Option<usize>, b: Option<usize>) -> bool
    ensures { result ≡ rule.is_before a b }
{
    match (a, b) {
        (_, None) => false,
        (None, Some(_)) => true,
        (Some(a), Some(b)) => a < b,
    }
}

/// Whether both are there and are one.
pub(crate) fn same_place(a: Option<usize>, b: Option<usize>) -> bool
    ensures { result ≡ inside.same_place a b }
{
    match (a, b) {
        (Some(a), Some(b)) => a == b,
        _ => false,
    }
}

//! How operations ended, as classes and signs of their bars. `specs/Drawings.antt` has the rule.

ghost use Rattle.std.specs.Prelude.{◌≡◌, option_map};
ghost use Rattle.jh_ops.specs.Operation.{operation};
ghost use Rattle.jh_ops.specs.Pairing.{is_invoke};
ghost use Rattle.jh_timeline_pages.specs.Drawings as rule;

use jh_ops::{Kind, Op};

/// Whether a record is an invocation.
pub(crate) fn is_invocation(op: &Op) -> bool
    ensures { result ≡ is_invoke op.now.kind }
{
    matches!(op.kind, Kind::Invoke)
}

/// How an operation ended, if it did.
pub(crate) fn ending_of(completion: Option<&Op>) -> Option<Kind>
    ensures { result ≡ rule.ending_of (option_map (λ op. operation op.now) completion.entry) }
{
    match completion {
        Some(op) => Some(op.kind),
        None => None,
    }
}

/// The class of a bar in the style.
pub(crate) fn ending_class(ending: Option<Kind>) -> &'static str
    ensures { result.now ≡ rule.ending_class ending }
{
    match ending {
        Some(Kind::Ok) => "ok",
        Some(Kind::Fail) => "fail",
        Some(_) => "info",
        None => "open",
    }
}

/// The sign in a bar.
pub(crate) fn ending_sign(ending: Option<Kind>) -> &'static str
    ensures { result.now ≡ rule.ending_sign ending }
{
    match ending {
        Some(Kind::Ok) => "&#10003; ",
        Some(Kind::Fail) => "&#10007; ",
        Some(_) => "? ",
        None => "&#8230; ",
    }
}

/// The class of the bar of a completion that answers no invocation.
pub(crate) fn alone_class(kind: Kind) -> &'static str
    ensures { result.now ≡ rule.alone_class kind }
{
    match kind {
        Kind::Ok => "alone ok",
        Kind::Fail => "alone fail",
        _ => "alone info",
    }
}

/// The sign in the bar of a completion that answers no invocation.
pub(crate) fn alone_sign(kind: Kind) -> &'static str
    ensures { result.now ≡ rule.alone_sign kind }
{
    match kind {
        Kind::Ok => "&#8627; &#10003; ",
        Kind::Fail => "&#8627; &#10007; ",
        _ => "&#8627; ? ",
    }
}

/// Whether an operation that ended so may take effect at any later time.
pub(crate) fn may_happen_later(ending: Option<Kind>) -> bool
    ensures { result ≡ rule.may_happen_later ending }
{
    match ending {
        None | Some(Kind::Info) => true,
        _ => false,
    }
}

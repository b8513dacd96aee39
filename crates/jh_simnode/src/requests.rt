//! Kinds of requests. `specs/Requests.antt` has them.

ghost use Rattle.std.specs.Prelude.{◌≡◌};
ghost use Rattle.jh_simnode.specs.Requests as rule;

use jh_ops::Request;

/// Whether it only asks, so that a paused node surely did nothing.
pub(crate) fn only_asks(request: Request) -> bool
    ensures { result ≡ rule.only_asks request }
{
    matches!(request, Request::Read | Request::Generate)
}

/// Whether it is a read.
pub(crate) fn is_read_request(request: Request) -> bool
    ensures { result ≡ rule.is_read_request request }
{
    matches!(request, Request::Read)
}

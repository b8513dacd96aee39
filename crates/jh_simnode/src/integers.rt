//! Each number that a journal shows can stand in a text, since it is an `i64` or fits one. A
//! definition sees numbers without a bound, so this has to be shown of each. These functions read
//! each number and do nothing with it: they are there for their contracts.

ghost use Rattle.std.specs.Prelude.{All, FitsSigned};
ghost use Rattle.std.specs.Int.{w64};
ghost use Rattle.jh_ops.specs.Requests.{asked_content};
ghost use Rattle.jh_simnode.specs.Histories.{AreIntegers, HasIntegers, got_content};
ghost use Rattle.jh_simnode.specs.Histories.{replied_content};
ghost use Rattle.jh_simnode.specs.Running.{HasSmallProcess};

use crate::events::Event;
use crate::replicas::{Got, Reply};
use jh_ops::Request;

/// What a request asks with is made of integers of a text.
fn request_has_integers(request: Request)
    ensures { AreIntegers (asked_content request) }
{
    match request {
        Request::Read | Request::Generate | Request::Txn => {}
        Request::Write(_value) => {}
        Request::Cas(_old, _new) => {}
        Request::Add(_amount) => {}
    }
}

/// The numbers of a list are integers of a text.
fn numbers_are_integers(numbers: &[i64])
    ensures { All (FitsSigned w64) numbers.now }
{
    for number in numbers {
        let _number = *number;
    }
}

/// What a request is answered, where it was done, is made of integers of a text.
fn got_has_integers(request: Request, got: &Got)
    ensures { AreIntegers (got_content request got.now) }
{
    match got {
        Got::Nothing => request_has_integers(request),
        Got::One(None) => {}
        Got::One(Some(value)) => {
            let _value = *value;
        }
        Got::Many(numbers) => numbers_are_integers(numbers.as_slice()),
    }
}

/// What a request is answered by a reply is made of integers of a text.
fn reply_has_integers(request: Request, reply: &Reply)
    ensures { AreIntegers (replied_content request reply.now) }
{
    match reply {
        Reply::Ok(got) => got_has_integers(request, got),
        Reply::Fail | Reply::Info => request_has_integers(request),
    }
}

/// The numbers that an event shows are integers of a text.
fn event_has_integers(event: &Event)
    requires { HasSmallProcess event.now }
    ensures { HasIntegers event.now }
{
    match event {
        Event::Call {
            process: _,
            node: _,
            request,
            draw: _,
            reply,
        } => {
            request_has_integers(*request);
            reply_has_integers(*request, reply);
        }
        Event::Step { step: _, answer: _ } | Event::Tick => {}
    }
}

/// The numbers that the events of a journal show are integers of a text. Takes time linear in them.
pub(crate) fn events_have_integers(journal: &[Event])
    requires { All HasSmallProcess journal.now }
    ensures { All HasIntegers journal.now }
{
    for event in journal {
        event_has_integers(event);
    }
}

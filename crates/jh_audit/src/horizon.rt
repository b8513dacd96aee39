//! How far the operations of a history are known to name low events only. A search for an event
//! begins there, so that the audit of a long history looks at few operations again.
//! `specs/HorizonInside.antt` has the fact.

ghost use Rattle.std.specs.Prelude.{◌≡◌, ◌+◌, ◌<◌, ◌≤◌, length};
ghost use Rattle.jh_ops.specs.Operation.{operations};
ghost use Rattle.jh_audit.specs.HorizonInside.{IsBehind, NamesBelow};

use crate::forms::named_event_at;
use jh_ops::Op;

/// By how many operations a horizon moves on, once it is twice as many behind a place: so it stays
/// at least so many behind.
const DISTANCE: usize = 64;

/// A place of a history, and a number above all events that are named before it.
#[derive(Clone, Copy)]
pub(crate) struct Horizon {
    place: usize,
    bound: u64,
}

impl Horizon {
    /// The horizon at the start of a history.
    pub(crate) fn first(history: &[Op]) -> Horizon
        ensures behind { IsBehind (operations history.now) result }
        ensures bound { result.bound ≡ 0 }
    {
        // The contract alone speaks of the history.
        let _ = history;
        Horizon { place: 0, bound: 0 }
    }

    /// Where a search for events of a number and above begins: no operation before it names one.
    pub(crate) fn start(self, history: &[Op], number: u64) -> usize
        requires { IsBehind (operations history.now) self }
        ensures { NamesBelow (operations history.now) result number }
    {
        // The contract alone speaks of the history.
        let _ = history;
        if self.bound <= number { self.place } else { 0 }
    }

    /// The horizon one operation further on, above the event that it names.
    fn next(self, history: &[Op]) -> Horizon
        requires behind { IsBehind (operations history.now) self }
        requires more { self.place < length history.now }
        ensures behind { IsBehind (operations history.now) result }
        ensures place { result.place ≡ self.place + 1 }
    {
        let bound = match named_event_at(history, self.place) {
            Some(number) => self.bound.max(number + 1),
            None => self.bound,
        };
        Horizon {
            place: self.place + 1,
            bound,
        }
    }

    /// The horizon for a search among the operations before a place.
    pub(crate) fn before(self, history: &[Op], place: usize) -> Horizon
        requires behind { IsBehind (operations history.now) self }
        requires place { place ≤ length history.now }
        ensures { IsBehind (operations history.now) result }
    {
        let mut horizon = self;
        if place - horizon.place.min(place) < 2 * DISTANCE {
            return horizon;
        }
        for _ in 0..DISTANCE {
            if horizon.place < place {
                horizon = horizon.next(history);
            }
        }
        horizon
    }

    /// The horizon below a number: as far as the operations name lower events.
    pub(crate) fn below(self, history: &[Op], number: u64) -> Horizon
        requires behind { IsBehind (operations history.now) self }
        requires bound { self.bound ≤ number }
        ensures behind { IsBehind (operations history.now) result }
        ensures bound { result.bound ≡ number }
    {
        let mut place = self.place;
        while place < history.len()
            && named_event_at(history, place).is_none_or(|other| other < number)
        {
            place += 1;
        }
        Horizon {
            place,
            bound: number,
        }
    }
}

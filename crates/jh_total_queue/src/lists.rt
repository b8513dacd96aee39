//! How often a value went in and came out. `specs/CountsInside.antt` has the rule.

ghost use Rattle.std.specs.Prelude.{◌≡◌};
ghost use Rattle.jh_edn.specs.View.{view, views};
ghost use Rattle.jh_check.specs.Distinct.{Ascends, count_of};
ghost use Rattle.jh_total_queue.specs.CountsInside as inside;
ghost use Rattle.jh_total_queue.specs.CountsInside.{AreOrdered};

use jh_edn::Value;

/// What went in and what came out, in normal form and in normal order.
#[derive(Drop)]
pub(crate) struct Lists {
    /// What clients tried to put in.
    pub(crate) attempts: Vec<Value>,
    /// What is known to have been put in.
    pub(crate) enqueues: Vec<Value>,
    /// What is known to have been taken out.
    pub(crate) dequeues: Vec<Value>,
}

/// How often a value is in each of the lists.
#[derive(Clone, Copy)]
pub(crate) struct Times {
    pub(crate) attempted: usize,
    pub(crate) enqueued: usize,
    pub(crate) dequeued: usize,
}

/// A part of the result that says of values how often each is there.
#[derive(Clone, Copy)]
pub(crate) enum Part {
    Lost,
    Unexpected,
    Duplicated,
    Recovered,
}

/// How often the value is there, among values that ascend.
///
/// Takes O(log n) comparisons for n values.
fn count_in(values: &[Value], value: &Value) -> usize
    requires { Ascends (views values.now) }
    ensures { result ≡ count_of (views values.now) (view value.now) }
{
    let begin = values.partition_point(|other| other.compare(value).is_lt());
    let end = values.partition_point(|other| other.compare(value).is_le());
    end.saturating_sub(begin)
}

impl Lists {
    /// How often the value is in each of them.
    pub(crate) fn times_of(&self, value: &Value) -> Times
        requires { AreOrdered self.now }
        ensures { result ≡ inside.times_of self.now (view value.now) }
    {
        Times {
            attempted: count_in(&self.attempts, value),
            enqueued: count_in(&self.enqueues, value),
            dequeued: count_in(&self.dequeues, value),
        }
    }
}

impl Times {
    /// How often it came out, but no more often than clients tried to put it in.
    pub(crate) fn ok(self) -> usize
        ensures { result ≡ inside.ok_times self }
    {
        self.dequeued.min(self.attempted)
    }

    /// How often it came out, where nobody tried to put it in.
    fn unexpected(self) -> usize
        ensures { result ≡ inside.unexpected_times self }
    {
        if self.attempted == 0 {
            self.dequeued
        } else {
            0
        }
    }

    /// How often it is in a part of the result.
    pub(crate) fn in_part(self, part: Part) -> usize
        ensures { result ≡ inside.part_times part self }
    {
        match part {
            Part::Lost => self.enqueued.saturating_sub(self.dequeued),
            Part::Unexpected => self.unexpected(),
            Part::Duplicated => {
                let more = self.dequeued.saturating_sub(self.attempted);
                more.saturating_sub(self.unexpected())
            }
            Part::Recovered => self.ok().saturating_sub(self.enqueued),
        }
    }
}

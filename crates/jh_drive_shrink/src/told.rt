//! What is told of the part that is left. `specs/ToldInside.antt` has the rule.

ghost use Rattle.std.specs.Prelude.{◌≡◌, ◌≢◌, MatchBool};
ghost use Rattle.jh_drive_shrink.specs.ToldInside as rule;

use jh_reports::{INVALID, UNKNOWN};

/// What is known of the part of a schedule that is left.
#[derive(Clone, Copy, Debug, PartialEq, Eq)]
pub(crate) enum Told {
    /// It fails, and does not without any one of its entries.
    Minimal,
    /// It failed, or is the whole schedule where no trial might be held; all trials were held that
    /// might be.
    Budget,
    /// It did not fail: not this time, or not with the whole schedule.
    NotReproduced,
}

impl Told {
    /// Whether it does not fail.
    pub(crate) fn has_passed(self) -> bool
        ensures { MatchBool result (self ≡ Told.NotReproduced) (self ≢ Told.NotReproduced) }
    {
        matches!(self, Told::NotReproduced)
    }

    /// Its line.
    pub(crate) fn heading(self) -> &'static [u8]
        ensures { result.now ≡ rule.told_heading self }
    {
        match self {
            Told::Minimal => b":minimal\n",
            Told::Budget => b":budget\n",
            Told::NotReproduced => b":not-reproduced\n",
        }
    }

    /// The exit status behind the settings of the part.
    pub(crate) fn status(self) -> u8
        ensures { result ≡ rule.told_status self }
    {
        match self {
            Told::Minimal => INVALID,
            Told::Budget | Told::NotReproduced => UNKNOWN,
        }
    }

    /// What is known of it behind a trial whose verdict has this status.
    pub(crate) fn behind(self, status: u8) -> Told
        ensures { result ≡ rule.told_behind self status }
    {
        if status == INVALID {
            self
        } else {
            Told::NotReproduced
        }
    }
}

//! What is told on standard error while a command works. No clause says what a terminal is told, but for that of
//! `remedy_of`: where the exit status is not 2, no remedy is told.

ghost use Rattle.std.specs.Prelude.{◌≢◌, IsNone};

use crate::answers::CommandObserver;
use crate::commands::Command;
use jh_checkers::{Checker, Judging};
use jh_cli::{HistoryCounts, HistoryObserver};
use jh_drive::{CallCounts, CallObserver};
use jh_reports::UNKNOWN;
use jh_search::SearchObserver;
use jh_shrink::ShrinkObserver;
use std::cell::Cell;
use std::time::{Clock, Instant};

/// Tells on standard error what is done: what is read, how far the work is, in one line that is written over
/// and over, what a history holds, and how the calls of a test ended.
#[derive(Drop)]
pub(crate) struct Teller<'a, P> {
    rt: &'a P,
    terminals: Terminals,
    /// Whether the arguments ask to be told more.
    is_verbose: bool,
    /// What the command does, once that is known.
    work: Option<Work>,
    /// When its work began, where the clock was read.
    start: Option<Instant>,
    /// What the history holds that is judged, once it is read.
    counts: Option<HistoryCounts>,
    /// Whether a line stands there that is in the way of what is written.
    is_in_the_way: &'a Cell<bool>,
    /// Whether the input is kept, to say more of it.
    is_kept: &'a Cell<bool>,
}

/// What a command does, as far as that is told.
#[derive(Clone, Copy, Debug)]
pub(crate) enum Work {
    /// It reads an environment and steps.
    Env,
    /// It reads a history.
    History {
        /// The checker that judges it, if one does.
        checker: Option<Checker>,
        /// Whether a number of operations is wanted of it.
        has_least: bool,
        /// Whether keys that can't be read are left out.
        skips_unread: bool,
    },
    /// It runs a cluster.
    Run,
    /// It makes a schedule small.
    Shrink,
    /// It tries schedules.
    Search,
}

impl Work {
    /// What this command does.
    fn of(command: Command<'_>) -> Work {
        match command {
            Command::Env => Work::Env,
            Command::Check(question) => Work::History {
                checker: Some(question.judging.checker),
                has_least: question.at_least.is_some(),
                skips_unread: question.skips_unread,
            },
            Command::Run => Work::Run,
            Command::Shrink { .. } => Work::Shrink,
            Command::Search(_) => Work::Search,
            Command::Timeline(question) => Work::History {
                checker: checker_of(question.judging),
                has_least: false,
                skips_unread: question.skips_unread,
            },
            Command::Plot { skips_unread } => Work::History {
                checker: None,
                has_least: false,
                skips_unread,
            },
        }
    }

    /// What is read from standard input.
    fn input(self) -> &'static str {
        match self {
            Work::Env => "an environment and steps",
            Work::History { .. } => "a history",
            Work::Run | Work::Shrink | Work::Search => "settings",
        }
    }
}

/// The checker of a judgement, if there is one.
fn checker_of(judging: Option<Judging<'_>>) -> Option<Checker> {
    match judging {
        Some(judging) => Some(judging.checker),
        None => None,
    }
}

/// Which of the standard streams lead to somebody, and not to a pipe or a file.
#[derive(Clone, Copy, Debug)]
pub struct Terminals {
    /// Whether standard input is typed.
    pub input: bool,
    /// Whether standard error is read on a terminal.
    pub errors: bool,
}

/// Goes back to the start of the line, and empties it.
pub(crate) const EMPTY_LINE: &str = "\r\x1b[K";

impl<P: Eprint + Clock> CommandObserver for Teller<'_, P> {
    fn see_command(&mut self, command: Command<'_>) {
        let work = Work::of(command);
        if self.is_warned_of(work) {
            self.is_kept.set(true);
        }
        self.tell_input(work.input());
        self.work = Some(work);
        self.start = Instant::now(self.rt).ok();
        self.is_in_the_way.set(self.is_shown());
    }

    fn see_test(&mut self) {
        self.tell_input("replies");
    }
}

impl<P: Eprint> ShrinkObserver for Teller<'_, P> {
    fn see(&mut self, entries: usize, asked: u64) {
        if self.is_shown() {
            let _ = eprint!(self.rt; "{EMPTY_LINE}run {asked}, {entries} entries left");
        }
    }
}

impl<P: Eprint + Clock> SearchObserver for Teller<'_, P> {
    fn see_tried(&mut self, tried: u64, unknown: u64) {
        if self.is_shown() {
            let rate = rate_of(tried, self.elapsed_millis());
            let _ = eprint!(self.rt;
                "{EMPTY_LINE}{tried} candidates tried, {unknown} unknown, {rate} a second"
            );
        }
    }
}

impl<P: Eprint> CallObserver for Teller<'_, P> {
    fn see_calls(&mut self, calls: CallCounts) {
        if !self.is_heard() {
            return;
        }
        let CallCounts {
            given,
            ok,
            failed,
            unknown,
        } = calls;
        let _ = eprintln!(self.rt;
            "jeprun: calls: {given} made, {ok} ok, {failed} failed, {unknown} of unknown outcome"
        );
    }
}

impl<P> HistoryObserver for Teller<'_, P> {
    fn see_history(&mut self, counts: HistoryCounts) {
        self.counts = Some(counts);
    }
}

impl<P: Clock> Teller<'_, P> {
    /// The milliseconds since the work began, and 0 where they are not known.
    fn elapsed_millis(&self) -> u64 {
        match self.start {
            Some(start) => match start.elapsed(self.rt) {
                Ok(elapsed) => u64::try_from(elapsed.as_millis()).unwrap_or(u64::MAX),
                Err(_) => 0,
            },
            None => 0,
        }
    }
}

/// How many of so many there are in each second of so many milliseconds.
fn rate_of(count: u64, millis: u64) -> u64 {
    count.saturating_mul(1_000) / millis.max(1)
}

impl<'a, P> Teller<'a, P> {
    /// One that tells nothing yet.
    pub(crate) fn new(
        rt: &'a P,
        terminals: Terminals,
        is_verbose: bool,
        is_in_the_way: &'a Cell<bool>,
        is_kept: &'a Cell<bool>,
    ) -> Teller<'a, P> {
        Teller {
            rt,
            terminals,
            is_verbose,
            work: None,
            start: None,
            counts: None,
            is_in_the_way,
            is_kept,
        }
    }

    /// What the command does, once that is known.
    pub(crate) fn work(&self) -> Option<Work> {
        self.work
    }

    /// Whether somebody sits there, or asked to be told.
    fn is_heard(&self) -> bool {
        self.terminals.errors || self.is_verbose
    }

    /// Whether somebody is told what is warned of the settings that a command reads.
    fn is_warned_of(&self, work: Work) -> bool {
        self.is_heard() && matches!(work, Work::Run | Work::Search)
    }

    /// Whether somebody is told what is warned of the settings that were read.
    pub(crate) fn is_warned(&self) -> bool {
        match self.work {
            Some(work) => self.is_warned_of(work),
            None => false,
        }
    }

    /// Whether anybody is told how far the work is.
    fn is_shown(&self) -> bool {
        self.terminals.errors && matches!(self.work, Some(Work::Shrink) | Some(Work::Search))
    }
}

impl<P: Eprint> Teller<'_, P> {
    /// Says what is read, where that is typed.
    fn tell_input(&self, input: &str) {
        if self.terminals.input && self.terminals.errors {
            let _ = eprintln!(self.rt; "jeprun: reads {input} from standard input");
        }
    }

    /// Takes how far the work is off the terminal.
    pub(crate) fn end(&self) {
        if self.is_shown() {
            let _ = eprint!(self.rt; "{EMPTY_LINE}");
        }
    }

    /// Says what a history held that was judged.
    pub(crate) fn tell_history(&self) {
        let Some(HistoryCounts { judged, others }) = self.counts else {
            return;
        };
        if self.is_heard() {
            let _ = eprintln!(self.rt;
                "jeprun: operations: {judged} judged, {others} with other functions"
            );
        }
    }

    /// Says what may decide what a command left unknown.
    pub(crate) fn advise(&self, status: u8) {
        let Some(work) = self.work else {
            return;
        };
        if !self.is_heard() {
            return;
        }
        if let Some(remedy) = remedy_of(work, status) {
            let _ = eprintln!(self.rt; "jeprun: {remedy}");
        }
    }
}

/// What may decide what a command left unknown, or why it did.
fn remedy_of(work: Work, status: u8) -> Option<&'static str>
    ensures known { status ≢ 2 → IsNone result }
{
    if status != UNKNOWN {
        return None;
    }
    match work {
        Work::Run | Work::Search => {
            Some("unknown: of a register, a larger budget in the settings may decide")
        }
        Work::History {
            has_least: true,
            ..
        } => Some("unknown: the history has too few operations, or a larger --budget may decide"),
        Work::History {
            checker: Some(Checker::Register),
            ..
        } => Some("unknown: a larger --budget may decide, or a test that writes each value once"),
        Work::History {
            checker: Some(Checker::Mutex),
            ..
        } => Some("unknown: a larger --budget may decide"),
        Work::History {
            checker: Some(Checker::FifoQueue),
            ..
        } => Some("unknown: a value is enqueued twice, or a dequeue has no known outcome"),
        _ => None,
    }
}

//! Who asks, who may ask, and what a part of a generator knows of a run.

use std::cmp::{max, min};

/// Threads by number: the nemesis is thread 0, client n is thread n + 1.
#[derive(Clone, Copy)]
pub(crate) struct Scope {
    first: usize,
    behind: usize,
    has_nemesis: bool,
}

impl Scope {
    /// The clients from one thread to another, which is behind the last, and the nemesis, if it is
    /// wanted.
    pub(crate) fn of(first: usize, behind: usize, has_nemesis: bool) -> Scope {
        Scope {
            first,
            behind,
            has_nemesis,
        }
    }

    /// One thread alone.
    pub(crate) fn only(thread: usize) -> Scope {
        match thread {
            0 => Scope::of(1, 1, true),
            _ => Scope::of(thread, thread.saturating_add(1), false),
        }
    }

    /// The threads that another scope has too.
    fn within(self, other: Scope) -> Scope {
        Scope::of(
            max(self.first, other.first),
            min(self.behind, other.behind),
            self.has_nemesis && other.has_nemesis,
        )
    }

    /// Whether a thread is one of these.
    pub(crate) fn contains(self, thread: usize) -> bool {
        match thread {
            0 => self.has_nemesis,
            _ => self.first <= thread && thread < self.behind,
        }
    }

    /// Whether there is no thread.
    pub(crate) fn is_empty(self) -> bool {
        self.first >= self.behind && !self.has_nemesis
    }

    /// Whether one of the threads has an operation outstanding.
    pub(crate) fn is_any_busy(self, busy: &[bool]) -> bool {
        busy.iter()
            .enumerate()
            .any(|(thread, is_busy)| *is_busy && self.contains(thread))
    }
}

/// Who asks, with which random number, and who is busy, by thread.
#[derive(Clone, Copy)]
pub(crate) struct Question<'a> {
    pub(crate) asker: usize,
    pub(crate) draw: u64,
    pub(crate) busy: &'a [bool],
}

/// How deep a generator may be, so that its paths are told apart.
pub(crate) const MAX_DEEP: u32 = 8;

/// A part of a generator: its path, the paths of all calls of the run, and who asks it.
///
/// A path is a number. Each member on the way is one digit to the base 64, one more than its place,
/// the last one lowest.
#[derive(Clone, Copy)]
pub(crate) struct Part<'a> {
    pub(crate) path: u64,
    pub(crate) calls: &'a [u64],
    pub(crate) scope: Scope,
}

impl<'a> Part<'a> {
    /// The part that is the member of this one at a place.
    pub(crate) fn member(self, place: usize) -> Part<'a> {
        Part {
            path: self
                .path
                .wrapping_mul(64)
                .wrapping_add(place as u64)
                .wrapping_add(1),
            ..self
        }
    }

    /// The same part, asked only by threads of a scope.
    pub(crate) fn asked_by(self, scope: Scope) -> Part<'a> {
        Part {
            scope: self.scope.within(scope),
            ..self
        }
    }

    /// How many calls the part has given.
    pub(crate) fn given(self) -> usize {
        self.calls
            .iter()
            .filter(|call| is_below(**call, self.path))
            .count()
    }

    /// The next number of a rising that begins with this one.
    pub(crate) fn next(self, first: i64) -> Option<i64> {
        first.checked_add(i64::try_from(self.given()).ok()?)
    }
}

/// Whether one path is another, or goes on from it.
fn is_below(path: u64, other: u64) -> bool {
    let mut at = path;
    for _ in 0..MAX_DEEP {
        if at == other {
            return true;
        }
        at /= 64;
    }
    at == other
}

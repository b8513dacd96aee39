//! What a run on threads drew for its calls, and when it took its steps.

use jh_simnode::Event;
use std::alloc::Global;

/// Whether the calls of a journal were made with these draws.
pub(crate) fn has_draws(journal: &[Event], draws: &[u64]) -> bool {
    let mut wanted = draws.iter();
    for event in journal {
        if let Event::Call { draw, .. } = event
            && wanted.next() != Some(draw)
        {
            return false;
        }
    }
    wanted.next().is_none()
}

/// How many calls stand before each step. None: memory was refused.
pub(crate) fn calls_before_steps(alloc: Global, journal: &[Event]) -> Option<Vec<usize>> {
    let mut counts = Vec::new(alloc);
    let mut calls: usize = 0;
    for event in journal {
        match event {
            Event::Call { .. } => calls = calls.saturating_add(1),
            Event::Step { .. } => counts.push(calls).ok()?,
            Event::Tick => {}
        }
    }
    Some(counts)
}

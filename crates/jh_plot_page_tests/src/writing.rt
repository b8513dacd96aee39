//! A writer that fails.

use crate::narrow::Narrow;
use crate::plots::{Drawn, write_drawn};
use jh_plot_pages::PageError;
use std::alloc::Global;
use std::test::Fail;

/// More pieces than any page here has.
const ROOM: usize = 10_000;

/// What a page comes to where the writer takes so many pieces, and how many more it would take.
fn written_once(alloc: Global, left: usize) -> (Result<(), PageError>, usize) {
    let mut writer = Narrow { left };
    let written = write_drawn(alloc, Drawn::Full, &mut writer);
    (written, writer.left)
}

/// The same, asked once more where memory was refused.
fn written(alloc: Global, left: usize) -> (Result<(), PageError>, usize) {
    match written_once(alloc, left) {
        (Err(PageError::OutOfMemory), _) => written_once(alloc, left),
        written => written,
    }
}

#[test]
fn says_that_the_writer_failed(rt: HostRuntime) -> Result<(), Fail> {
    let (whole, rest) = written(rt.alloc(), ROOM);
    assert_eq!(rt; whole, Ok(()));
    let pieces = ROOM.saturating_sub(rest);
    for left in 0..pieces {
        let (found, _rest) = written(rt.alloc(), left);
        assert_eq!(rt; found, Err(PageError::Write), "at {left}");
    }
    Ok(())
}

//! How a conversation ends.

use std::io;

/// How a conversation ended.
#[derive(Clone, Copy)]
pub enum Ending {
    /// The machine listens no more, and all that it said was told.
    Over,
    /// The input ended first, and all that was said to it was told.
    InputEnded,
    /// The peer could not be heard, for this reason. All that was said before was told.
    ReadFailed(io::Error),
    /// The peer could not be told all of what was said last, for this reason.
    WriteFailed(io::Error),
    /// What was said last was not told, and the machine may have taken a part of the last lines.
    OutOfMemory,
    /// After 2^64 - 1 turns.
    TooManyTurns,
}

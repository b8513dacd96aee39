//! The phases of a test. `specs/Turn.antt` says when each is over.

/// The phase that a test is in: each comes once at most, in this order.
#[derive(Clone, Copy, Debug, PartialEq, Eq)]
pub enum Phase {
    /// Calls of the generator are made, and entries of the schedule are taken.
    Main,
    /// All faults are ended.
    Heal,
    /// Nothing is done until the time of recovery has passed.
    Rest,
    /// The final calls are made.
    Final,
    /// Nothing more is said or heard.
    Over,
}

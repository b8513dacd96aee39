//! The messages of errors.

use jh_simnode::{PlanError, RunError, TooLong, WorldError};

#[test]
fn errors_have_messages(rt: HostRuntime) {
    let message = format!(in rt.alloc();
        "{}, {}; {}, {}, {}, {}, {}",
        PlanError::OutOfMemory,
        TooLong,
        RunError::World(WorldError::UnknownNode),
        RunError::World(WorldError::TooManyEvents),
        RunError::World(WorldError::OutOfMemory),
        RunError::Stuck,
        RunError::OutOfMemory
    );
    let expected =
        "out of memory, too long; unknown node, too many events, out of memory, stuck, out of memory";
    // A refused growth leaves no text to compare.
    if let Ok(message) = message {
        assert_eq!(rt; message.as_str(), expected);
    }
}

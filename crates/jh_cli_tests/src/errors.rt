//! The status and the message of errors that no short input meets, and that out of memory has one name, wherever it came. A row
//! is a short name of the error, and its status and message.

use crate::rows::{Texts, first_wrong, push_error};
use jh_cli::CliError;
use jh_edn::EdnError;
use jh_env::EnvTextError;
use jh_search::SearchError;
use jh_settings::SettingsError;
use jh_simnode::{RunError, WorldError};
use jh_step_texts::StepTextError;
use std::alloc::{AllocError, Global};

/// The error of this name.
fn error_of(name: &str) -> Option<CliError> {
    match name {
        "too long" => Some(CliError::Input(EdnError::TooLong)),
        "amount" => Some(CliError::Element {
            number: 2,
            error: StepTextError::BadAmount,
        }),
        "events" => Some(CliError::from(RunError::World(WorldError::TooManyEvents))),
        "stuck" => Some(CliError::from(RunError::Stuck)),
        "full" => Some(CliError::HistoryFull),
        "mismatch" => Some(CliError::Mismatch),
        "thread" => Some(CliError::Thread),
        "thread of a search" => Some(CliError::from(SearchError::Thread)),
        "unwritable" => Some(CliError::Unwritable),
        "settings read" => Some(CliError::SettingsRead),
        "read" => Some(CliError::Read),
        "write" => Some(CliError::Write),
        "memory" => Some(CliError::OutOfMemory),
        _ => memory_of(name),
    }
}

/// Out of memory, where this says that it came.
fn memory_of(place: &str) -> Option<CliError> {
    match place {
        "memory of a text" => Some(CliError::from(EdnError::OutOfMemory)),
        "memory of an environment" => Some(CliError::from(EnvTextError::OutOfMemory)),
        "memory of settings" => Some(CliError::from(SettingsError::OutOfMemory)),
        "memory of a run" => Some(CliError::from(RunError::OutOfMemory)),
        "memory of a search" => Some(CliError::from(SearchError::OutOfMemory)),
        "memory of an allocation" => Some(CliError::from(AllocError)),
        _ => None,
    }
}

/// The status and the message of the error of this name; `None` also where memory was refused.
pub(crate) fn named_once(alloc: Global, name: &str) -> Option<Vec<u8>> {
    let mut text = Vec::new(alloc);
    push_error(&error_of(name)?, &mut text)?;
    Some(text)
}

#[test]
fn names_errors(rt: HostRuntime) {
    let rows = r#"too long → 3 input too long
§ amount → 3 element 2: bad amount
§ events → 4 too many events
§ stuck → 4 stuck
§ full → 4 history full
§ mismatch → 4 mismatch
§ thread → 4 thread failed
§ thread of a search → 4 thread failed
§ unwritable → 3 settings: generator too deep to be written again
§ settings read → 4 settings: read failed
§ read → 4 read failed
§ write → 4 write failed
§ memory → 4 out of memory
§ memory of a text → 4 out of memory
§ memory of an environment → 4 out of memory
§ memory of settings → 4 out of memory
§ memory of a run → 4 out of memory
§ memory of an allocation → 4 out of memory
"#;
    assert_eq!(rt; first_wrong(&rt, rt.alloc(), Texts::Errors, rows), None);
}

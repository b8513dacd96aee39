//! The text of an environment, as an EDN value: read and written.
//!
//! `specs/Text.antt` says which value spells which names and entries, `specs/TextErrors.antt` which
//! are refused, `specs/TextCells.antt` what entries make of the cells, and `specs/TextWritten.antt`
//! what is written. A key is added there, in `texts/entries.rt`, and among the keys that
//! `texts/reading.rt` knows.

ghost use Rattle.std.specs.Prelude.{◌≡◌, [], MatchResult, IfOk};
ghost use Rattle.jh_edn.specs.View.{view};
ghost use Rattle.jh_env.specs.Overlay.{StandsFor, work_of};
ghost use Rattle.jh_env.specs.TextCells.{SpellsEnv};
ghost use Rattle.jh_env.specs.TextErrors.{RefusesSpelledEnv};
ghost use Rattle.jh_env.specs.TextWritten.{edn_of_env};

mod entries;
mod laws;
mod reading;
mod setting;
mod writing;

use crate::environment::Env;
use crate::names::{Nodes, NodesError};
use crate::starting::{Start, StartError};
use jh_edn::{Pairs, Value};
pub use laws::environments_read_back;
use std::alloc::{AllocError, AllocFailed, Global};
use thiserror::Error;

/// Why a value is no text of an environment.
#[derive(Clone, Copy, Debug, PartialEq, Eq, Error)]
pub enum EnvTextError {
    #[error("not a map")]
    NotMap,
    #[error("unknown key")]
    UnknownKey,
    #[error("nodes missing")]
    MissingNodes,
    #[error("bad entry")]
    BadEntry,
    #[error("no nodes")]
    NoNodes,
    #[error("too many nodes")]
    TooManyNodes,
    #[error("bad name")]
    BadName,
    #[error("duplicate name")]
    DuplicateName,
    #[error("unknown node")]
    UnknownNode,
    #[error("self link")]
    SelfLink,
    #[error("bad amount")]
    BadAmount,
    #[error("repeated entry")]
    RepeatedEntry,
    #[error("out of memory")]
    OutOfMemory,
}

impl From<AllocError> for EnvTextError {
    ghost use Rattle.jh_env.specs.declared.texts.EnvTextError.TheVariants.{OutOfMemory};

    ghost from_gives = { λ _ e. e ≡ OutOfMemory };

    fn from(_error: AllocError) -> EnvTextError {
        EnvTextError::OutOfMemory
    }
}

impl<T: Drop> From<AllocFailed<T>> for EnvTextError {
    ghost use Rattle.jh_env.specs.declared.texts.EnvTextError.TheVariants.{OutOfMemory};

    ghost from_gives = { λ _ e. e ≡ OutOfMemory };

    fn from(_error: AllocFailed<T>) -> EnvTextError {
        EnvTextError::OutOfMemory
    }
}

impl From<NodesError> for EnvTextError {
    ghost use Rattle.jh_env.specs.TextInside.{nodes_error};

    ghost from_gives = { λ error e. e ≡ nodes_error error };

    fn from(error: NodesError) -> EnvTextError {
        match error {
            NodesError::NoNodes => EnvTextError::NoNodes,
            NodesError::TooManyNodes => EnvTextError::TooManyNodes,
            NodesError::BadName => EnvTextError::BadName,
            NodesError::DuplicateName => EnvTextError::DuplicateName,
            NodesError::OutOfMemory => EnvTextError::OutOfMemory,
        }
    }
}

impl From<StartError> for EnvTextError {
    ghost use Rattle.jh_env.specs.TextInside.{cell_error};

    ghost from_gives = { λ error e. e ≡ cell_error error };

    fn from(error: StartError) -> EnvTextError {
        match error {
            StartError::UnknownNode => EnvTextError::UnknownNode,
            StartError::SelfLink => EnvTextError::SelfLink,
            StartError::BadAmount => EnvTextError::BadAmount,
        }
    }
}

/// The environment that a value is the text of, at its start: nothing of it has been written since.
///
/// Errors, in this order: `NotMap`; `UnknownKey` for a key that is none of the six; `MissingNodes`;
/// `BadEntry` where what stands under a key does not have the key's shape; `NoNodes`,
/// `TooManyNodes`, `BadName`, `DuplicateName` as `Nodes::of` has them; then for the first entry in
/// error, in the order of the keys, `UnknownNode`, `SelfLink`, `BadAmount` or `RepeatedEntry`.
/// `OutOfMemory` where memory was refused before another error was found. A map that is read from a
/// text has no key twice; in one that a program made so, the first of them counts.
///
/// Takes time linear in the text: repeats are looked for among the accepted entries, of which 64
/// nodes have at most 12,224.
pub fn env_of_value(alloc: Global, value: &Value) -> Result<Env, EnvTextError>
    ensures { MatchResult result
        (λ env. StandsFor env [] × SpellsEnv (view value.now) env.names env.start
        × (work_of env ≡ 0))
        (RefusesSpelledEnv (view value.now)) }
{
    let (nodes, pairs) = reading::keys_of(value)?;
    let names = reading::names_of(alloc, nodes)?;
    let entries = reading::all_entries(alloc, pairs)?;
    let nodes = Nodes::of(alloc, &names)?;
    let mut start = Start::new(alloc, nodes)?;
    setting::set_all(&mut start, &entries)?;
    Ok(Env::start(alloc, start)?)
}

/// The text of an environment as it is now: all six keys in the order
/// `:nodes :cut :slow :loss :down :clock`. Under `:nodes` stand all names, and under the others only
/// links that are not calm, nodes that are down and clocks that are off: links by the place of their
/// source and then of their destination, nodes by place.
pub fn value_of_env(alloc: Global, env: &Env) -> Result<Value, AllocError>
    ensures { IfOk result (λ value. view value ≡ edn_of_env env.now) }
{
    Ok(Value::Map(Pairs::of(writing::pairs_of(alloc, env)?)))
}

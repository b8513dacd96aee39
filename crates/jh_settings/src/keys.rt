//! The keys of the settings. `specs/Keys.antt` has those of each command in their order, and says
//! which keys a document has.

ghost use Rattle.std.specs.Prelude.{◌≡◌, MatchOption};
ghost use Rattle.toml.specs.View.{table_view};
ghost use Rattle.jh_settings.specs.Keys as rule;
ghost use Rattle.jh_settings.specs.Keys.{HasKnownKeys, IsFirstUnknown, key_name};

use crate::table::value_under;
use std::fmt::{self, Display, Formatter, Write};
use toml::Table;

/// A key of the settings of a command.
#[derive(Clone, Copy, Debug, PartialEq, Eq)]
pub enum Key {
    Start,
    Store,
    Workload,
    Generator,
    Clients,
    Ops,
    TimeLimit,
    Rate,
    ThreadsPerKey,
    OpsPerKey,
    Recovery,
    Final,
    Mode,
    Volatile,
    Initial,
    TickEvery,
    Rows,
    Keys,
    MaxTxn,
    AppendsPerKey,
    Model,
    Seed,
    Budget,
    Schedule,
}

/// The keys of `run`, in their order.
static RUN_KEYS: [Key; 14] = [
    Key::Start,
    Key::Store,
    Key::Workload,
    Key::Generator,
    Key::Clients,
    Key::Ops,
    Key::Mode,
    Key::Volatile,
    Key::Initial,
    Key::TickEvery,
    Key::Rows,
    Key::Seed,
    Key::Budget,
    Key::Schedule,
];

/// Those without which there is no run, in their order.
static NEEDED_RUN_KEYS: [Key; 6] = [
    Key::Start,
    Key::Store,
    Key::Workload,
    Key::Generator,
    Key::Clients,
    Key::Ops,
];

/// The keys of `drive`, in their order.
static DRIVE_KEYS: [Key; 19] = [
    Key::Start,
    Key::Workload,
    Key::Generator,
    Key::Clients,
    Key::Ops,
    Key::TimeLimit,
    Key::Rate,
    Key::ThreadsPerKey,
    Key::OpsPerKey,
    Key::Recovery,
    Key::Final,
    Key::Initial,
    Key::Keys,
    Key::MaxTxn,
    Key::AppendsPerKey,
    Key::Model,
    Key::Seed,
    Key::Budget,
    Key::Schedule,
];

/// Those without which there is no test, in their order.
static NEEDED_DRIVE_KEYS: [Key; 5] = [
    Key::Start,
    Key::Workload,
    Key::Generator,
    Key::Clients,
    Key::Ops,
];

/// The keys of `run`, in the order in which their values are judged.
pub(crate) fn run_keys() -> &'static [Key]
    ensures { result.now ≡ rule.run_keys }
{
    RUN_KEYS.as_slice()
}

/// The keys that `run` needs, in the order in which they are missed.
pub(crate) fn needed_run_keys() -> &'static [Key]
    ensures { result.now ≡ rule.needed_run_keys }
{
    NEEDED_RUN_KEYS.as_slice()
}

/// The keys of `drive`, in the order in which their values are judged.
pub fn drive_keys() -> &'static [Key]
    ensures { result.now ≡ rule.drive_keys }
{
    DRIVE_KEYS.as_slice()
}

/// The keys that `drive` needs, in the order in which they are missed.
pub fn needed_drive_keys() -> &'static [Key]
    ensures { result.now ≡ rule.needed_drive_keys }
{
    NEEDED_DRIVE_KEYS.as_slice()
}

impl Key {
    /// The key, as a document has it.
    pub fn as_str(self) -> &'static str
        ensures { result.now ≡ key_name self }
    {
        match self {
            Key::Start => "start",
            Key::Store => "store",
            Key::Workload => "workload",
            Key::Generator => "generator",
            Key::Clients => "clients",
            Key::Ops => "ops",
            Key::TimeLimit => "time_limit",
            Key::Rate => "rate",
            Key::ThreadsPerKey => "threads_per_key",
            Key::OpsPerKey => "ops_per_key",
            Key::Recovery => "recovery",
            Key::Final => "final",
            Key::Mode => "mode",
            Key::Volatile => "volatile",
            Key::Initial => "initial",
            Key::TickEvery => "tick_every",
            Key::Rows => "rows",
            Key::Keys => "keys",
            Key::MaxTxn => "max_txn",
            Key::AppendsPerKey => "appends_per_key",
            Key::Model => "model",
            Key::Seed => "seed",
            Key::Budget => "budget",
            Key::Schedule => "schedule",
        }
    }
}

impl Display for Key {
    ghost use Rattle.std.specs.Prelude.{Some};
    ghost use Rattle.jh_settings.specs.Keys.{key_name};

    ghost output = { λ key. Some (key_name key) };

    fn fmt<W: Write>(&self, f: &mut Formatter<W>) -> fmt::Result {
        f.write_str(self.as_str())
    }
}

/// Whether one of these keys has this name.
#[tactic(auto, unfolding(crate::specs::Keys::is_key_name))]
fn is_known(keys: &[Key], name: &str) -> bool
    ensures { result ≡ rule.is_key_name keys.now name.now }
{
    keys.iter().any(|key| name == key.as_str())
}

/// The first key of a table, in byte order, that is none of these.
pub(crate) fn first_unknown<'a>(table: &'a Table, keys: &[Key]) -> Option<&'a str>
    ensures { MatchOption result
        (HasKnownKeys keys.now (table_view table.now))
        (λ name. IsFirstUnknown keys.now (table_view table.now) name.now) }
{
    for key in table.keys() {
        if !is_known(keys, key.as_str()) {
            return Some(key.as_str());
        }
    }
    None
}

/// Whether nothing stands under a key.
pub fn is_missing(table: &Table, key: Key) -> bool
    ensures { result ≡ rule.is_missing (table_view table.now) key }
{
    value_under(table, key).is_none()
}

/// The first of these keys that does not stand in the table.
pub(crate) fn first_missing(table: &Table, needed: &[Key]) -> Option<Key>
    ensures { result ≡ rule.first_missing needed.now (table_view table.now) }
{
    for key in needed {
        if is_missing(table, *key) {
            return Some(*key);
        }
    }
    None
}

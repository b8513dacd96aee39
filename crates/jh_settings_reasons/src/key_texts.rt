//! What each key takes, in the words of docs/settings.md and docs/drive.md. `specs/Takes.antt` has the
//! same texts, and a new key is a new line of both.

ghost use Rattle.std.specs.Prelude.{◌≡◌, option_map};
ghost use Rattle.jh_settings_reasons.specs.Takes as rule;

use jh_settings::Key;

/// Whose settings are refused.
#[derive(Clone, Copy, Debug, PartialEq, Eq)]
pub enum SettingsKind {
    /// Settings of a run: of `run`, `shrink` and `search`.
    Run,
    /// Settings of a test of a real database: of `drive`.
    Test,
}

/// The keys that settings may have, in their order.
pub(crate) fn known_keys_text(kind: SettingsKind) -> &'static str
    ensures { result.now ≡ rule.known_keys_text kind }
{
    match kind {
        SettingsKind::Run => {
            "keys: start, store, workload, generator, clients, ops, mode, volatile, initial, \
            tick_every, rows, seed, budget, schedule"
        }
        SettingsKind::Test => {
            "keys: start, workload, generator, clients, ops, time_limit, rate, threads_per_key, \
            ops_per_key, recovery, final, initial, keys, max_txn, appends_per_key, model, seed, \
            budget, schedule"
        }
    }
}

/// What `workload` takes.
fn workload_text(kind: SettingsKind) -> &'static str
    ensures { result.now ≡ rule.workload_text kind }
{
    match kind {
        SettingsKind::Run => "workload: \"register\", \"counter\", \"set\" or \"unique-ids\"",
        SettingsKind::Test => {
            "workload: \"register\", \"counter\", \"set\", \"unique-ids\" or \"list-append\""
        }
    }
}

/// What `ops` takes.
fn ops_text(kind: SettingsKind) -> &'static str
    ensures { result.now ≡ rule.ops_text kind }
{
    match kind {
        SettingsKind::Run => "ops: 1 to 10,000; of a set 1 to 1,000",
        SettingsKind::Test => "ops: 1 to 1,000,000",
    }
}

/// What a key takes that only settings of a test have.
fn test_key_text(key: Key) -> Option<&'static str>
    ensures { option_map (λ text. text.now) result ≡ rule.test_key_text key }
{
    match key {
        Key::TimeLimit => Some("time_limit: milliseconds, 1 to 86,400,000"),
        Key::Rate => Some("rate: calls a second, 1 to 1,000,000"),
        Key::ThreadsPerKey => Some(
            "threads_per_key: 1 to 16, and it divides clients; with ops_per_key, not with list-append",
        ),
        Key::OpsPerKey => {
            Some("ops_per_key: 1 to 1,000,000; with threads_per_key, not with list-append")
        }
        Key::Recovery => Some("recovery: milliseconds, 0 to 3,600,000"),
        Key::Final => Some("final: a text of EDN, a generator; not where keys are independent"),
        Key::Keys => Some("keys: 1 to 1,000, and only with list-append"),
        Key::MaxTxn => Some("max_txn: 1 to 100, and only with list-append"),
        Key::AppendsPerKey => Some("appends_per_key: 1 to 10,000, and only with list-append"),
        Key::Model => Some(
            "model: \"strict-serializable\", \"serializable\", \"strong-snapshot-isolation\" or \
            \"snapshot-isolation\", and only with list-append",
        ),
        _ => None,
    }
}

/// What a key takes, where it takes the same in settings of both kinds.
fn shared_text(key: Key) -> Option<&'static str>
    ensures { option_map (λ text. text.now) result ≡ rule.shared_text key }
{
    match key {
        Key::Start => Some("start: a text of EDN, an environment"),
        Key::Store => Some("store: \"quorum\", \"lww\" or \"local\""),
        Key::Generator => Some("generator: a text of EDN, a generator"),
        Key::Clients => Some("clients: 1 to 16"),
        Key::Mode => Some("mode: \"threads\" or \"serial\""),
        Key::Volatile => Some("volatile: true or false"),
        Key::Initial => Some("initial: an integer of 64 bits, and only of a register"),
        Key::TickEvery => Some("tick_every: 0 to 10,000; 0 for never"),
        Key::Rows => Some("rows: 1 to 65,536"),
        Key::Seed => Some("seed: 0 to 9,223,372,036,854,775,807"),
        Key::Budget => Some("budget: 0 to 10,000,000"),
        Key::Schedule => Some("schedule: an array of texts of EDN, at most 1,024"),
        _ => None,
    }
}

/// What a key takes.
pub(crate) fn key_takes(kind: SettingsKind, key: Key) -> &'static str
    ensures { result.now ≡ rule.key_takes kind key }
{
    match key {
        Key::Workload => workload_text(kind),
        Key::Ops => ops_text(kind),
        _ => match shared_text(key) {
            Some(text) => text,
            None => test_key_text(key).unwrap_or(""),
        },
    }
}

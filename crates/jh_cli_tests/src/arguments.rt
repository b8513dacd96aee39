//! Arguments, and what they ask for: the command, or the status of their refusal with all that it says, in a line of its own.

use crate::rows::{Texts, first_wrong};
use jh_arguments::{
    CallCounts, CallObserver, Command, CommandObserver, HistoryCounts, HistoryObserver, Streams,
    answer, command_of, parse, status_of_refusal,
};
use jh_search::SearchObserver;
use jh_shrink::ShrinkObserver;
use std::alloc::Global;
use std::fs::Files;
use std::io::Write;
use std::sync::Wait;
use std::thread::Threads;

/// What these arguments ask for, with no accounts; `None` where memory was refused, and where no command is found in them.
pub(crate) fn asked_once(alloc: Global, arguments: &str) -> Option<Vec<u8>> {
    let mut text = Vec::new(alloc);
    let arguments: Vec<&str> = arguments.split(' ').collect(alloc).ok()?;
    match parse(alloc, arguments.as_slice()) {
        Ok(matches) => write!(&mut text, "{:?}\n", command_of(&matches, None)?).ok()?,
        Err(refusal) => {
            let status = status_of_refusal(&refusal).ok()?;
            write!(&mut text, "{status}\n{refusal}").ok()?;
        }
    }
    Some(text)
}

#[test]
fn asks_for_commands(rt: HostRuntime) {
    let rows = r#"jeprun env → Env
§ jeprun run → Run
§ jeprun check --workload set → Check(CheckQuestion { judging: Judging { checker: Set, initial: None, budget: 100000, explain: false, model: None, accounts: None, total: None, negative_balances: false, linearizable: false, locked: false }, independent: false, threads: 1, at_least: None, skips_unread: false })
§ jeprun check --workload=unique-ids --budget 0 → Check(CheckQuestion { judging: Judging { checker: Ids, initial: None, budget: 0, explain: false, model: None, accounts: None, total: None, negative_balances: false, linearizable: false, locked: false }, independent: false, threads: 1, at_least: None, skips_unread: false })
§ jeprun check --workload register --initial=-5 → Check(CheckQuestion { judging: Judging { checker: Register, initial: Some(-5), budget: 100000, explain: false, model: None, accounts: None, total: None, negative_balances: false, linearizable: false, locked: false }, independent: false, threads: 1, at_least: None, skips_unread: false })
§ jeprun check --workload set --independent → Check(CheckQuestion { judging: Judging { checker: Set, initial: None, budget: 100000, explain: false, model: None, accounts: None, total: None, negative_balances: false, linearizable: false, locked: false }, independent: true, threads: 1, at_least: None, skips_unread: false })
§ jeprun check --independent --threads 16 --workload counter → Check(CheckQuestion { judging: Judging { checker: Counter, initial: None, budget: 100000, explain: false, model: None, accounts: None, total: None, negative_balances: false, linearizable: false, locked: false }, independent: true, threads: 16, at_least: None, skips_unread: false })
§ jeprun check --explain --workload register → Check(CheckQuestion { judging: Judging { checker: Register, initial: None, budget: 100000, explain: true, model: None, accounts: None, total: None, negative_balances: false, linearizable: false, locked: false }, independent: false, threads: 1, at_least: None, skips_unread: false })
§ jeprun check --workload list-append --model snapshot-isolation → Check(CheckQuestion { judging: Judging { checker: ListAppend, initial: None, budget: 100000, explain: false, model: Some(SnapshotIsolation), accounts: None, total: None, negative_balances: false, linearizable: false, locked: false }, independent: false, threads: 1, at_least: None, skips_unread: false })
§ jeprun check --workload list-append --model strict-serializable → Check(CheckQuestion { judging: Judging { checker: ListAppend, initial: None, budget: 100000, explain: false, model: Some(StrictSerializable), accounts: None, total: None, negative_balances: false, linearizable: false, locked: false }, independent: false, threads: 1, at_least: None, skips_unread: false })
§ jeprun check --workload set --budget 10000000 → Check(CheckQuestion { judging: Judging { checker: Set, initial: None, budget: 10000000, explain: false, model: None, accounts: None, total: None, negative_balances: false, linearizable: false, locked: false }, independent: false, threads: 1, at_least: None, skips_unread: false })
§ jeprun check --workload set --at-least 18446744073709551615 → Check(CheckQuestion { judging: Judging { checker: Set, initial: None, budget: 100000, explain: false, model: None, accounts: None, total: None, negative_balances: false, linearizable: false, locked: false }, independent: false, threads: 1, at_least: Some(18446744073709551615), skips_unread: false })
§ jeprun check --workload total-queue → Check(CheckQuestion { judging: Judging { checker: TotalQueue, initial: None, budget: 100000, explain: false, model: None, accounts: None, total: None, negative_balances: false, linearizable: false, locked: false }, independent: false, threads: 1, at_least: None, skips_unread: false })
§ jeprun check --workload bank --total=-5 → Check(CheckQuestion { judging: Judging { checker: Bank, initial: None, budget: 100000, explain: false, model: None, accounts: None, total: Some(-5), negative_balances: false, linearizable: false, locked: false }, independent: false, threads: 1, at_least: None, skips_unread: false })
§ jeprun check --workload bank --total 9223372036854775807 --negative-balances → Check(CheckQuestion { judging: Judging { checker: Bank, initial: None, budget: 100000, explain: false, model: None, accounts: None, total: Some(9223372036854775807), negative_balances: true, linearizable: false, locked: false }, independent: false, threads: 1, at_least: None, skips_unread: false })
§ jeprun check --workload set-full --linearizable → Check(CheckQuestion { judging: Judging { checker: SetFull, initial: None, budget: 100000, explain: false, model: None, accounts: None, total: None, negative_balances: false, linearizable: true, locked: false }, independent: false, threads: 1, at_least: None, skips_unread: false })
§ jeprun check --workload mutex --locked → Check(CheckQuestion { judging: Judging { checker: Mutex, initial: None, budget: 100000, explain: false, model: None, accounts: None, total: None, negative_balances: false, linearizable: false, locked: true }, independent: false, threads: 1, at_least: None, skips_unread: false })
§ jeprun plot → Plot { skips_unread: false }
§ jeprun plot --skip-unread --verbose → Plot { skips_unread: true }
§ jeprun check --workload set --skip-unread → Check(CheckQuestion { judging: Judging { checker: Set, initial: None, budget: 100000, explain: false, model: None, accounts: None, total: None, negative_balances: false, linearizable: false, locked: false }, independent: false, threads: 1, at_least: None, skips_unread: true })
§ jeprun shrink → Shrink { runs: 10000 }
§ jeprun shrink --budget 10000000 → Shrink { runs: 10000000 }
§ jeprun search → Search(SearchQuestion { from: 0, runs: 10000, faults: 8, palette: Some(Palette { cut: true, slow: true, loss: true, fix: true, pause: true, kill: true, bump: true }), threads: None, show: None })
§ jeprun search --runs 5 --faults 256 --palette kill,cut --from 7 --threads 16 → Search(SearchQuestion { from: 7, runs: 5, faults: 256, palette: Some(Palette { cut: true, slow: false, loss: false, fix: false, pause: false, kill: true, bump: false }), threads: Some(16), show: None })
§ jeprun search --show 9223372036854775807 --palette cut → Search(SearchQuestion { from: 0, runs: 10000, faults: 8, palette: Some(Palette { cut: true, slow: false, loss: false, fix: false, pause: false, kill: false, bump: false }), threads: None, show: Some(Show { number: 9223372036854775807, milliseconds: None }) })
§ jeprun search --show 0 --palette kill --ms 86400000 → Search(SearchQuestion { from: 0, runs: 10000, faults: 8, palette: Some(Palette { cut: false, slow: false, loss: false, fix: false, pause: false, kill: true, bump: false }), threads: None, show: Some(Show { number: 0, milliseconds: Some(86400000) }) })
§ jeprun search --ms 5 --palette x → Search(SearchQuestion { from: 0, runs: 10000, faults: 8, palette: None, threads: None, show: None })
§ jeprun search --palette cut,,bump → Search(SearchQuestion { from: 0, runs: 10000, faults: 8, palette: None, threads: None, show: None })
§ jeprun timeline → Timeline(TimelineQuestion { judging: None, independent: false, choice: Choice { from: None, to: None }, skips_unread: false })
§ jeprun timeline --workload register --initial 0 --budget 5 --from 7 --to 18446744073709551615 → Timeline(TimelineQuestion { judging: Some(Judging { checker: Register, initial: Some(0), budget: 5, explain: true, model: None, accounts: None, total: None, negative_balances: false, linearizable: false, locked: false }), independent: false, choice: Choice { from: Some(7), to: Some(18446744073709551615) }, skips_unread: false })
§ jeprun timeline --workload set → Timeline(TimelineQuestion { judging: Some(Judging { checker: Set, initial: None, budget: 100000, explain: true, model: None, accounts: None, total: None, negative_balances: false, linearizable: false, locked: false }), independent: false, choice: Choice { from: None, to: None }, skips_unread: false })
§ jeprun timeline --workload list-append --model serializable → Timeline(TimelineQuestion { judging: Some(Judging { checker: ListAppend, initial: None, budget: 100000, explain: true, model: Some(Serializable), accounts: None, total: None, negative_balances: false, linearizable: false, locked: false }), independent: false, choice: Choice { from: None, to: None }, skips_unread: false })
§ jeprun timeline --workload register --independent → Timeline(TimelineQuestion { judging: Some(Judging { checker: Register, initial: None, budget: 100000, explain: true, model: None, accounts: None, total: None, negative_balances: false, linearizable: false, locked: false }), independent: true, choice: Choice { from: None, to: None }, skips_unread: false })
§ jeprun timeline --initial 3 → Timeline(TimelineQuestion { judging: None, independent: false, choice: Choice { from: None, to: None }, skips_unread: false })
§ jeprun timeline --workload queue --total 3 --locked → Timeline(TimelineQuestion { judging: Some(Judging { checker: Queue, initial: None, budget: 100000, explain: true, model: None, accounts: None, total: Some(3), negative_balances: false, linearizable: false, locked: true }), independent: false, choice: Choice { from: None, to: None }, skips_unread: false })
§ jeprun timeline --from -1 → 3
error: unexpected argument '-1' found

Usage: jeprun timeline [OPTIONS]

For more information, try '--help'.
§ jeprun check --workload set --at-least 18446744073709551616 → 3
error: invalid value '18446744073709551616' for '--at-least <N>': number too large to fit in target type

For more information, try '--help'.
§ jeprun timeline --to 18446744073709551616 → 3
error: invalid value '18446744073709551616' for '--to <INDEX>': number too large to fit in target type

For more information, try '--help'.
§ jeprun → 3
A test harness for databases, over a simulated cluster under faults

Usage: jeprun <COMMAND>

Commands:
  env       Applies fault steps to an environment, both read from standard input as EDN
  check     Judges a history of operations, read from standard input as EDN
  run       Runs a simulated cluster by settings, read from standard input as TOML, and judges its history
  shrink    Makes the schedule of a failing run small, whose settings are read from standard input as TOML
  search    Tries random schedules for a run that fails, whose settings are read from standard input as TOML
  timeline  Writes a page that shows a history, which is read from standard input as EDN
  drive     Conducts a test of a real database, whose settings are read from a file as TOML, by lines
  plot      Writes a page that plots latencies and rates of a history, which is read from standard input as EDN
  help      Print this message or the help of the given subcommand(s)

Options:
  -h, --help     Print help
  -V, --version  Print version

Exit status: 0 valid or done, 1 not valid, 2 unknown, 3 refused arguments or input,
4 where memory ran out, a read or a write failed, or a run was not completed

Examples:
  jeprun env < examples/two-cuts.edn
  jeprun run < examples/run/quorum-register.toml
§ jeprun check → 3
error: the following required arguments were not provided:
  --workload <NAME>

Usage: jeprun check --workload <NAME>

For more information, try '--help'.
§ jeprun check --workload lock → 3
error: invalid value 'lock' for '--workload <NAME>'
  [possible values: register, set, counter, unique-ids, list-append, total-queue, queue, bank, set-full, mutex, fifo-queue]

For more information, try '--help'.
§ jeprun check --workload list-append --model causal → 3
error: invalid value 'causal' for '--model <MODEL>'
  [possible values: strict-serializable, serializable, strong-snapshot-isolation, snapshot-isolation]

For more information, try '--help'.
§ jeprun check --workload set --budget 10000001 → 3
error: invalid value '10000001' for '--budget <N>': 10000001 is not in 0..=10000000

For more information, try '--help'.
§ jeprun search --drive → 3
error: a value is required for '--drive <FILE>' but none was supplied

For more information, try '--help'.
§ jeprun check --workload set --initial x → 3
error: invalid value 'x' for '--initial <N>': invalid digit found in string

For more information, try '--help'.
§ jeprun check --workload set --initial 9223372036854775808 → 3
error: invalid value '9223372036854775808' for '--initial <N>': number too large to fit in target type

For more information, try '--help'.
§ jeprun check --workload bank --total x → 3
error: invalid value 'x' for '--total <N>': invalid digit found in string

For more information, try '--help'.
§ jeprun check --workload mutex --locked=1 → 3
error: unexpected value '1' for '--locked' found; no more were expected

Usage: jeprun check --workload <NAME> --locked

For more information, try '--help'.
§ jeprun shrink --budget x → 3
error: invalid value 'x' for '--budget <N>': invalid digit found in string

For more information, try '--help'.
§ jeprun check --workload set --threads x → 3
error: invalid value 'x' for '--threads <N>': invalid digit found in string

For more information, try '--help'.
§ jeprun check --workload set --threads 0 → 3
error: invalid value '0' for '--threads <N>': 0 is not in 1..=16

For more information, try '--help'.
§ jeprun check --workload set --threads 17 → 3
error: invalid value '17' for '--threads <N>': 17 is not in 1..=16

For more information, try '--help'.
§ jeprun check --workload set --independent=1 → 3
error: unexpected value '1' for '--independent' found; no more were expected

Usage: jeprun check --workload <NAME> --independent

For more information, try '--help'.
§ jeprun check --workload set --explain=no → 3
error: unexpected value 'no' for '--explain' found; no more were expected

Usage: jeprun check --workload <NAME> --explain

For more information, try '--help'.
§ jeprun shrink --budget 10000001 → 3
error: invalid value '10000001' for '--budget <N>': 10000001 is not in 0..=10000000

For more information, try '--help'.
§ jeprun search --runs 0 → 3
error: invalid value '0' for '--runs <N>': 0 is not in 1..=9223372036854775807

For more information, try '--help'.
§ jeprun search --faults 257 → 3
error: invalid value '257' for '--faults <N>': 257 is not in 0..=256

For more information, try '--help'.
§ jeprun search --show 1 --ms 0 → 3
error: invalid value '0' for '--ms <N>': 0 is not in 1..=86400000

For more information, try '--help'.
§ jeprun bogus → 3
error: unrecognized subcommand 'bogus'

Usage: jeprun <COMMAND>

For more information, try '--help'.
§ jeprun run extra → 3
error: unexpected argument 'extra' found

Usage: jeprun run [OPTIONS]

For more information, try '--help'.
§ jeprun shrink extra → 3
error: unexpected argument 'extra' found

Usage: jeprun shrink [OPTIONS]

For more information, try '--help'.
§ jeprun check --workload set extra → 3
error: unexpected argument 'extra' found

Usage: jeprun check [OPTIONS] --workload <NAME>

For more information, try '--help'.
§ jeprun env extra → 3
error: unexpected argument 'extra' found

Usage: jeprun env [OPTIONS]

For more information, try '--help'.
§ jeprun help → 0
A test harness for databases, over a simulated cluster under faults

Usage: jeprun <COMMAND>

Commands:
  env       Applies fault steps to an environment, both read from standard input as EDN
  check     Judges a history of operations, read from standard input as EDN
  run       Runs a simulated cluster by settings, read from standard input as TOML, and judges its history
  shrink    Makes the schedule of a failing run small, whose settings are read from standard input as TOML
  search    Tries random schedules for a run that fails, whose settings are read from standard input as TOML
  timeline  Writes a page that shows a history, which is read from standard input as EDN
  drive     Conducts a test of a real database, whose settings are read from a file as TOML, by lines
  plot      Writes a page that plots latencies and rates of a history, which is read from standard input as EDN
  help      Print this message or the help of the given subcommand(s)

Options:
  -h, --help     Print help
  -V, --version  Print version

Exit status: 0 valid or done, 1 not valid, 2 unknown, 3 refused arguments or input,
4 where memory ran out, a read or a write failed, or a run was not completed

Examples:
  jeprun env < examples/two-cuts.edn
  jeprun run < examples/run/quorum-register.toml
§ jeprun timeline --help → 0
Writes a page that shows a history, which is read from standard input as EDN

Usage: jeprun timeline [OPTIONS]

Options:
      --workload <NAME>    What the database was to be [possible values: register, set, counter, unique-ids, list-append, total-queue, queue, bank, set-full, mutex, fifo-queue]
      --initial <N>        The register's first value, as --initial=-5; nil where it is left out
      --model <MODEL>      What transactions were to keep; strict-serializable where it is left out [possible values: strict-serializable, serializable, strong-snapshot-isolation, snapshot-isolation]
      --accounts <VALUES>  The accounts of a bank, as '[0 1 2]'
      --total <N>          The sum of all balances of a bank
      --negative-balances  Balances of a bank may be below 0
      --linearizable       Stale reads make a set-full not valid
      --locked             A mutex is held at first
      --budget <N>         How many configurations the judge of a register or a mutex may reach [default: 100000]
      --independent        Shows each key by itself; values are tuples of a key and a value
      --from <INDEX>       The first record that is shown, from 0
      --to <INDEX>         The record behind the last one that is shown
      --settings <FILE>    The settings of the run that is shown, to name its steps
      --skip-unread        Leaves out keys with floats and other tokens that can't be read, where no checker reads them
      --verbose            Says on standard error where and why an input is refused
  -h, --help               Print help

It writes an HTML page: each operation as a bar, each fault as a shade, and with --workload what
the checker finds, on top and as marks. It reads what run and drive print as well; --settings
names the file of settings that run was given, so that the page says its steps in words. Of more
than 2,000 records it shows 1,000, around the first mark, unless --from or --to choose others.
With --independent each key has a section of its own, those of keys that are not valid first.

Exit status: 0 valid or not judged, 1 not valid, 2 unknown, 3 refused arguments or input,
4 where memory ran out, or a read or a write failed

Examples:
  jeprun timeline --workload register < examples/check/register-stale.edn > stale.html
  jeprun run < examples/run/quorum-register.toml > run.edn
  jeprun timeline --workload register --initial 0 --settings examples/run/quorum-register.toml < run.edn > run.html
§ jeprun plot --help → 0
Writes a page that plots latencies and rates of a history, which is read from standard input as EDN

Usage: jeprun plot [OPTIONS]

Options:
      --skip-unread  Leaves out keys with floats and other tokens that can't be read, where no checker reads them
      --verbose      Says on standard error where and why an input is refused
  -h, --help         Print help

It writes an HTML page: for each function the latency of each call over time, percentiles of the
latencies, and how many calls a second ended in each way; and when which fault was active. Each
record needs its :time, in nanoseconds, as Jepsen and drive write it. It reads what drive prints
as well.

Exit status: 0 done, 3 refused arguments or input, 4 where memory ran out, or a read or a
write failed

Examples:
  jeprun plot < examples/real/etcd-serializable/history.edn > etcd.html
  jeprun plot < examples/real/redis-set/history.edn > redis.html
§ jeprun run --help → 0
Runs a simulated cluster by settings, read from standard input as TOML, and judges its history

Usage: jeprun run [OPTIONS]

Options:
      --verbose  Says on standard error where and why an input is refused
  -h, --help     Print help

It writes the history, the ids of the faults that are active at the end, the environment,
and the verdict.

Exit status: 0 valid, 1 not valid, 2 unknown, 3 refused arguments or settings, 4 where
memory ran out, a read or a write failed, or the run was not completed

Examples:
  jeprun run < examples/run/quorum-register.toml
  jeprun run < examples/run/threads-set.toml
§ jeprun shrink --help → 0
Makes the schedule of a failing run small, whose settings are read from standard input as TOML

Usage: jeprun shrink [OPTIONS]

Options:
      --budget <N>    How many runs may be made [default: 10000]
      --drive <FILE>  The settings of a test as drive has them, to try tests by lines
      --verbose       Says on standard error where and why an input is refused
  -h, --help          Print help

It writes :minimal, :budget or :not-failing, and then the entries that are left.

With --drive the schedule is that of a test of a database of yours, whose settings are in FILE. The
test is tried with fewer and fewer entries, as search --drive tries tests, and once more with those
that are left. Behind this last one it writes its report, :minimal, :budget, or :not-reproduced
where it did not fail again, and the settings of it; or :not-reproduced alone, where the test did
not fail with its whole schedule.

Exit status: 0 not failing, 1 minimal, 2 the budget was used up, or the last test did not fail
again, 3 refused arguments, settings or reply, 4 where the replies ended early, memory ran out, a
read or a write failed, or a run was not completed

Examples:
  jeprun shrink < examples/shrink/twenty-entries.toml
  jeprun shrink --budget 20 < examples/shrink/twenty-entries.toml
  jeprun shrink --drive examples/drive/register.toml < examples/shrink/register.edn
§ jeprun search --help → 0
Tries random schedules for a run that fails, whose settings are read from standard input as TOML

Usage: jeprun search [OPTIONS]

Options:
      --runs <N>         How many candidates are tried [default: 10000]
      --faults <N>       How many random faults each has [default: 8]
      --palette <KINDS>  Of which kinds the faults are, with commas between [default: cut,slow,loss,fix,pause,kill,bump]
      --from <N>         The number of the first candidate [default: 0]
      --threads <N>      How many threads try candidates; as many as there are processors where it is left out
      --show <N>         Writes the schedule of this candidate, and runs none
      --ms <N>           With --show: spreads the schedule over so many milliseconds, for drive
      --drive <FILE>     The settings of a test as drive has them, to try tests by lines
      --verbose          Says on standard error where and why an input is refused
  -h, --help             Print help

Each candidate is a run of the settings with another seed, and with random faults of KINDS
among the entries of its schedule: cut, slow, loss, fix, pause, kill and bump. It writes the
settings of the first that is not valid, which run and shrink read, or a comment that there is
none. The answer does not depend on the number of threads. With --show it runs nothing, and
writes the schedule of one candidate, which settings of run take, and with --ms those of drive.

With --drive it tries tests of a database of yours, whose settings are in FILE, as drive conducts
them, one after another: before each it writes the line {:type :test, :number I, :seed S}, and the
adapter sets its database back to the beginning and answers :ready. Behind the last one it writes
:none, or the report of the first that is not valid, the line :found, and its settings. There
--threads, --show and --ms mean nothing.

Exit status: 0 none found, 1 found, 2 none found and some unknown, 3 refused arguments,
settings or reply, 4 where the replies ended early, memory ran out, a read or a write failed, or a
thread could not be had

Examples:
  jeprun search < examples/search/quorum-volatile.toml > found.toml
  jeprun search --runs 200 --faults 12 --palette cut,kill < examples/search/quorum-volatile.toml
  jeprun search --show 7 --ms 60000 < examples/search/quorum-volatile.toml
  jeprun search --drive examples/drive/register.toml --runs 2 --faults 0 < examples/search/register.edn
§ jeprun check --help → 0
Judges a history of operations, read from standard input as EDN

Usage: jeprun check [OPTIONS] --workload <NAME>

Options:
      --workload <NAME>    What the database was to be [possible values: register, set, counter, unique-ids, list-append, total-queue, queue, bank, set-full, mutex, fifo-queue]
      --initial <N>        The register's first value, as --initial=-5; nil where it is left out
      --model <MODEL>      What transactions were to keep; strict-serializable where it is left out [possible values: strict-serializable, serializable, strong-snapshot-isolation, snapshot-isolation]
      --accounts <VALUES>  The accounts of a bank, as '[0 1 2]'
      --total <N>          The sum of all balances of a bank
      --negative-balances  Balances of a bank may be below 0
      --linearizable       Stale reads make a set-full not valid
      --locked             A mutex is held at first
      --budget <N>         How many configurations the judge of a register or a mutex may reach [default: 100000]
      --explain            Says why a register, a mutex, list-append or a fifo-queue is not valid
      --independent        Judges each key by itself; values are tuples of a key and a value
      --threads <N>        How many threads judge keys [default: 1]
      --at-least <N>       A history with fewer calls that ended :ok is not called valid
      --skip-unread        Leaves out keys with floats and other tokens that can't be read, where no checker reads them
      --verbose            Says on standard error where and why an input is refused
  -h, --help               Print help

It writes the verdict, and what it stands on. Of a register or a mutex that is not valid,
--explain adds the completion at which it is stuck, an order of what is before that, the value
that this order leads to, the numbers of the operations that are pending there, and, where each
value of a register is written once, the reason with the operations that show it; of list-append
and fifo-queue, the operations that the line names. Other workloads say themselves what is wrong.
A bank needs --accounts and --total, and with --negative-balances accounts may be overdrawn; stale
reads of a set-full are allowed without --linearizable; a mutex is free at first without --locked.
An empty history is valid: --at-least N answers that it is not known whether one is, where fewer
than N calls of the workload's functions ended :ok.

Exit status: 0 valid, 1 not valid, 2 unknown, 3 refused arguments or input, 4 where
memory ran out, a read or a write failed, or a thread could not be had

Examples:
  jeprun check --workload register --explain < examples/check/register-stale.edn
  jeprun check --workload list-append --model serializable < examples/postgresql/repeatable-read.edn
  jeprun check --workload register --independent < examples/check/register-keys.edn
  jeprun check --workload bank --accounts '[0 1 2 3 4]' --total 100 < examples/checkers/bank-serializable.edn
  jeprun check --workload set --at-least 1000 < examples/check/set.edn
§ jeprun --help → 0
A test harness for databases, over a simulated cluster under faults

Usage: jeprun <COMMAND>

Commands:
  env       Applies fault steps to an environment, both read from standard input as EDN
  check     Judges a history of operations, read from standard input as EDN
  run       Runs a simulated cluster by settings, read from standard input as TOML, and judges its history
  shrink    Makes the schedule of a failing run small, whose settings are read from standard input as TOML
  search    Tries random schedules for a run that fails, whose settings are read from standard input as TOML
  timeline  Writes a page that shows a history, which is read from standard input as EDN
  drive     Conducts a test of a real database, whose settings are read from a file as TOML, by lines
  plot      Writes a page that plots latencies and rates of a history, which is read from standard input as EDN
  help      Print this message or the help of the given subcommand(s)

Options:
  -h, --help     Print help
  -V, --version  Print version

Exit status: 0 valid or done, 1 not valid, 2 unknown, 3 refused arguments or input,
4 where memory ran out, a read or a write failed, or a run was not completed

Examples:
  jeprun env < examples/two-cuts.edn
  jeprun run < examples/run/quorum-register.toml
§ jeprun env --help → 0
Applies fault steps to an environment, both read from standard input as EDN

Usage: jeprun env [OPTIONS]

Options:
      --verbose  Says on standard error where and why an input is refused
  -h, --help     Print help

It writes the answer to each step, the ids of the active faults, and the environment.

Exit status: 0 done, 3 refused arguments or input, 4 where memory ran out, or a read
or a write failed

Examples:
  jeprun env < examples/two-cuts.edn
  jeprun env < examples/undo-and-redo.edn
§ jeprun --version → 0
jeprun 0.1.0
"#;
    assert_eq!(rt; first_wrong(&rt, rt.alloc(), Texts::Arguments, rows), None);
}

/// Who knows whether the command `env` is run.
#[derive(Drop)]
pub(crate) struct Seen {
    pub(crate) is_env: bool,
}

impl CommandObserver for Seen {
    fn see_command(&mut self, command: Command<'_>) {
        self.is_env = matches!(command, Command::Env);
    }

    fn see_test(&mut self) {}
}

impl ShrinkObserver for Seen {
    fn see(&mut self, _entries: usize, _asked: u64) {}
}

impl SearchObserver for Seen {
    fn see_tried(&mut self, _tried: u64, _unknown: u64) {}
}

impl HistoryObserver for Seen {
    fn see_history(&mut self, _counts: HistoryCounts) {}
}

impl CallObserver for Seen {
    fn see_calls(&mut self, _calls: CallCounts) {}
}

/// The status of what the arguments ask for with this input, all that is written, and whether `env` was run.
fn answered_once<T>(rt: &T, arguments: &[&str], input: &str) -> Option<(u8, Vec<u8>, bool)>
where
    T: Files + Alloc<A = Global> + Threads + Wait + Sync,
{
    let mut streams = Streams {
        reader: input.as_bytes(),
        writer: Vec::new(rt.alloc()),
    };
    let mut seen = Seen { is_env: false };
    let status = answer(rt, arguments, &mut streams, &mut seen).ok()?;
    Some((status, streams.writer, seen.is_env))
}

#[test]
fn answers_from_the_arguments_to_the_output(rt: HostRuntime) {
    let arguments = ["jeprun", "env"];
    let input = "{:nodes [\"n1\"]}";
    let wanted =
        b":active []\n{:nodes [\"n1\"], :cut [], :slow [], :loss [], :down [], :clock []}\n";
    let answer = answered_once(&rt, arguments.as_slice(), input).or_else(|| answered_once(
        &rt,
        arguments.as_slice(),
        input,
    ));
    assert!(rt;
        answer.is_some_and(|(status, output, is_env)| {
            status == 0 && output.as_slice() == wanted.as_slice() && is_env
        })
    );
}

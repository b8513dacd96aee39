//! What stands at the end of help: what a command writes, its exit statuses, and two examples that
//! work as typed at the top of a clone.

/// The version that `--version` prints.
pub(crate) const VERSION: &str = "0.1.0";

pub(crate) const JEPRUN: &str = "\
Exit status: 0 valid or done, 1 not valid, 2 unknown, 3 refused arguments or input,
4 where memory ran out, a read or a write failed, or a run was not completed

Examples:
  jeprun env < examples/two-cuts.edn
  jeprun run < examples/run/quorum-register.toml";

pub(crate) const ENV: &str = "\
It writes the answer to each step, the ids of the active faults, and the environment.

Exit status: 0 done, 3 refused arguments or input, 4 where memory ran out, or a read
or a write failed

Examples:
  jeprun env < examples/two-cuts.edn
  jeprun env < examples/undo-and-redo.edn";

pub(crate) const CHECK: &str = "\
It writes the verdict, and what it stands on. Of a register or a mutex that is not valid,
--explain adds the completion at which it is stuck, an order of what is before that, the value
that this order leads to, the numbers of the operations that are pending there, and, where each
value of a register is written once, the reason with the operations that show it; of list-append
and fifo-queue, the operations that the line names. Other workloads say themselves what is wrong.
A bank needs --accounts and --total, and with --negative-balances accounts may be overdrawn; stale
reads of a set-full are allowed without --linearizable; a mutex is free at first without --locked.
An empty history is valid: --at-least N answers that it is not known whether one is, where fewer
than N calls of the workload's functions ended :ok.

Exit status: 0 valid, 1 not valid, 2 unknown, 3 refused arguments or input, 4 where
memory ran out, a read or a write failed, or a thread could not be had

Examples:
  jeprun check --workload register --explain < examples/check/register-stale.edn
  jeprun check --workload list-append --model serializable < examples/postgresql/repeatable-read.edn
  jeprun check --workload register --independent < examples/check/register-keys.edn
  jeprun check --workload bank --accounts '[0 1 2 3 4]' --total 100 < examples/checkers/bank-serializable.edn
  jeprun check --workload set --at-least 1000 < examples/check/set.edn";

pub(crate) const RUN: &str = "\
It writes the history, the ids of the faults that are active at the end, the environment,
and the verdict.

Exit status: 0 valid, 1 not valid, 2 unknown, 3 refused arguments or settings, 4 where
memory ran out, a read or a write failed, or the run was not completed

Examples:
  jeprun run < examples/run/quorum-register.toml
  jeprun run < examples/run/threads-set.toml";

pub(crate) const SHRINK: &str = "\
It writes :minimal, :budget or :not-failing, and then the entries that are left.

With --drive the schedule is that of a test of a database of yours, whose settings are in FILE. The
test is tried with fewer and fewer entries, as search --drive tries tests, and once more with those
that are left. Behind this last one it writes its report, :minimal, :budget, or :not-reproduced
where it did not fail again, and the settings of it; or :not-reproduced alone, where the test did
not fail with its whole schedule.

Exit status: 0 not failing, 1 minimal, 2 the budget was used up, or the last test did not fail
again, 3 refused arguments, settings or reply, 4 where the replies ended early, memory ran out, a
read or a write failed, or a run was not completed

Examples:
  jeprun shrink < examples/shrink/twenty-entries.toml
  jeprun shrink --budget 20 < examples/shrink/twenty-entries.toml
  jeprun shrink --drive examples/drive/register.toml < examples/shrink/register.edn";

pub(crate) const SEARCH: &str = "\
Each candidate is a run of the settings with another seed, and with random faults of KINDS
among the entries of its schedule: cut, slow, loss, fix, pause, kill and bump. It writes the
settings of the first that is not valid, which run and shrink read, or a comment that there is
none. The answer does not depend on the number of threads. With --show it runs nothing, and
writes the schedule of one candidate, which settings of run take, and with --ms those of drive.

With --drive it tries tests of a database of yours, whose settings are in FILE, as drive conducts
them, one after another: before each it writes the line {:type :test, :number I, :seed S}, and the
adapter sets its database back to the beginning and answers :ready. Behind the last one it writes
:none, or the report of the first that is not valid, the line :found, and its settings. There
--threads, --show and --ms mean nothing.

Exit status: 0 none found, 1 found, 2 none found and some unknown, 3 refused arguments,
settings or reply, 4 where the replies ended early, memory ran out, a read or a write failed, or a
thread could not be had

Examples:
  jeprun search < examples/search/quorum-volatile.toml > found.toml
  jeprun search --runs 200 --faults 12 --palette cut,kill < examples/search/quorum-volatile.toml
  jeprun search --show 7 --ms 60000 < examples/search/quorum-volatile.toml
  jeprun search --drive examples/drive/register.toml --runs 2 --faults 0 < examples/search/register.edn";

pub(crate) const TIMELINE: &str = "\
It writes an HTML page: each operation as a bar, each fault as a shade, and with --workload what
the checker finds, on top and as marks. It reads what run and drive print as well; --settings
names the file of settings that run was given, so that the page says its steps in words. Of more
than 2,000 records it shows 1,000, around the first mark, unless --from or --to choose others.
With --independent each key has a section of its own, those of keys that are not valid first.

Exit status: 0 valid or not judged, 1 not valid, 2 unknown, 3 refused arguments or input,
4 where memory ran out, or a read or a write failed

Examples:
  jeprun timeline --workload register < examples/check/register-stale.edn > stale.html
  jeprun run < examples/run/quorum-register.toml > run.edn
  jeprun timeline --workload register --initial 0 --settings examples/run/quorum-register.toml < run.edn > run.html";

pub(crate) const DRIVE: &str = "\
It writes a line for each call that is to be made and for each step of the nemesis, with the
links and nodes that it changes, and reads a line for each that was done; an adapter of yours
stands between it and the database. Behind the last one it writes :end, and then what run writes:
the history, the ids of the active faults, the environment, and the verdict. A test whose replies
were kept is played again by giving them to it once more.

Exit status: 0 valid, 1 not valid, 2 unknown, 3 refused arguments, settings or reply, 4 where
the replies ended early, memory ran out, or a read or a write failed

Examples:
  jeprun drive examples/drive/register.toml < examples/drive/register.edn
  jeprun drive examples/drive/set.toml < examples/drive/set.edn";

pub(crate) const PLOT: &str = "\
It writes an HTML page: for each function the latency of each call over time, percentiles of the
latencies, and how many calls a second ended in each way; and when which fault was active. Each
record needs its :time, in nanoseconds, as Jepsen and drive write it. It reads what drive prints
as well.

Exit status: 0 done, 3 refused arguments or input, 4 where memory ran out, or a read or a
write failed

Examples:
  jeprun plot < examples/real/etcd-serializable/history.edn > etcd.html
  jeprun plot < examples/real/redis-set/history.edn > redis.html";

//! Schedules made small by rows: all that is written to some replies, and how it ends.

use jh_drive::DriveError;
use jh_drive_search::search_settings_of;
use jh_drive_shrink::shrink_drive;
use jh_lines::ByLines;
use jh_shrink::ShrinkObserver;
use std::alloc::Global;
use std::io::Write;

/// Two nodes and a register; a write and a read by one client; and the first node cut off from the second one behind
/// the first answered call.
const SETTINGS: &str = "\
    start = '{:nodes [\"n1\" \"n2\"]}'\n\
    workload = \"register\"\n\
    initial = 0\n\
    clients = 1\n\
    ops = 2\n\
    generator = '[:seq [:once [:write 5]] [:once :read]]'\n\
    schedule = ['[1 [:begin 1 [:cut [[\"n1\" \"n2\"]]]]]']\n";

/// Nobody is told how far the work is.
#[derive(Drop)]
struct Nobody;

impl ShrinkObserver for Nobody {
    fn see(&mut self, _entries: usize, _asked: u64) {}
}

/// What was written, and behind it the message and the status. None: memory was refused.
fn with_end(mut text: Vec<u8>, ended: Result<u8, DriveError>) -> Option<Vec<u8>> {
    match ended {
        Ok(status) => writeln!(text, "status {status}").ok()?,
        // What is written goes to memory too.
        Err(DriveError::OutOfMemory | DriveError::Write) => return None,
        Err(error) => writeln!(text, "jeprun: {error}\nstatus {}", error.status()).ok()?,
    }
    Some(text)
}

/// All that is written to these replies, where so many trials may be held. None: memory was refused.
fn shrunk_once(alloc: Global, runs: u64, replies: &[u8]) -> Option<Vec<u8>> {
    let Ok(settings) = search_settings_of(alloc, SETTINGS.as_bytes()) else {
        return None;
    };
    let mut lines = ByLines::new(alloc, replies);
    let mut text = Vec::new(alloc);
    let ended = shrink_drive(alloc, settings, runs, &mut lines, &mut text, &mut Nobody);
    with_end(text, ended)
}

/// Whether exactly this is written; made once more where memory was refused.
fn says(alloc: Global, runs: u64, replies: &str, expected: &str) -> bool {
    let replies = replies.as_bytes();
    let text = shrunk_once(alloc, runs, replies).or_else(|| shrunk_once(alloc, runs, replies));
    text.is_some_and(|text| text.as_slice() == expected.as_bytes())
}

/// The rows that are not written as they should be.
fn wrong_rows(alloc: Global, runs: u64, rows: &str) -> usize {
    rows.split('\x1e')
        .filter(|row| match row.split_once('\x1f') {
            Some((replies, expected)) => !says(alloc, runs, replies, expected),
            None => true,
        })
        .count()
}

/// The read is of the value from before the write as long as the entry is there.
#[test]
fn leaves_the_entry_that_matters(rt: HostRuntime) {
    let minimal = "\
        :ready\n\
        {:type :ok, :process 0, :f :write, :value 5, :time 7}\n\
        {:type :info, :process :nemesis, :f :step, :value 0}\n\
        {:type :ok, :process 0, :f :read, :value 0}\n\
        {:type :info, :process :nemesis, :f :step, :value 1}\n\
        :ready\n\
        {:type :ok, :process 0, :f :write, :value 5, :time 7}\n\
        {:type :ok, :process 0, :f :read, :value 5}\n\
        :ready\n\
        {:type :ok, :process 0, :f :write, :value 5, :time 7}\n\
        {:type :info, :process :nemesis, :f :step, :value 0}\n\
        {:type :ok, :process 0, :f :read, :value 0}\n\
        {:type :info, :process :nemesis, :f :step, :value 1}\n\
        \x1f\
        {:type :test, :number 0, :seed 0}\n\
        {:index 0, :time 0, :type :invoke, :process 0, :f :write, :value 5, :node \"n1\"}\n\
        {:index 2, :time 7, :type :info, :process :nemesis, :f :step, :value 0, :step [:begin 1 [:cut [[\"n1\" \"n2\"]]]], :links [[\"n1\" \"n2\" {:cut true, :delay 0, :loss 0}]], :nodes []}\n\
        {:index 3, :time 7, :type :invoke, :process 0, :f :read, :value nil, :node \"n1\"}\n\
        {:index 6, :time 7, :type :info, :process :nemesis, :f :step, :value 1, :step [:withdraw-all], :links [[\"n1\" \"n2\" {:cut false, :delay 0, :loss 0}]], :nodes []}\n\
        :end\n\
        {:type :test, :number 1, :seed 0}\n\
        {:index 0, :time 0, :type :invoke, :process 0, :f :write, :value 5, :node \"n1\"}\n\
        {:index 2, :time 7, :type :invoke, :process 0, :f :read, :value nil, :node \"n1\"}\n\
        :end\n\
        {:type :test, :number 2, :seed 0}\n\
        {:index 0, :time 0, :type :invoke, :process 0, :f :write, :value 5, :node \"n1\"}\n\
        {:index 2, :time 7, :type :info, :process :nemesis, :f :step, :value 0, :step [:begin 1 [:cut [[\"n1\" \"n2\"]]]], :links [[\"n1\" \"n2\" {:cut true, :delay 0, :loss 0}]], :nodes []}\n\
        {:index 3, :time 7, :type :invoke, :process 0, :f :read, :value nil, :node \"n1\"}\n\
        {:index 6, :time 7, :type :info, :process :nemesis, :f :step, :value 1, :step [:withdraw-all], :links [[\"n1\" \"n2\" {:cut false, :delay 0, :loss 0}]], :nodes []}\n\
        :end\n\
        {:index 0, :time 0, :type :invoke, :process 0, :f :write, :value 5, :node \"n1\"}\n\
        {:index 1, :time 7, :type :ok, :process 0, :f :write, :value 5}\n\
        {:index 2, :time 7, :type :info, :process :nemesis, :f :step, :value 0, :step [:begin 1 [:cut [[\"n1\" \"n2\"]]]], :links [[\"n1\" \"n2\" {:cut true, :delay 0, :loss 0}]], :nodes []}\n\
        {:index 3, :time 7, :type :invoke, :process 0, :f :read, :value nil, :node \"n1\"}\n\
        {:index 4, :time 7, :type :info, :process :nemesis, :f :step, :value [0 0]}\n\
        {:index 5, :time 7, :type :ok, :process 0, :f :read, :value 0}\n\
        {:index 6, :time 7, :type :info, :process :nemesis, :f :step, :value 1, :step [:withdraw-all], :links [[\"n1\" \"n2\" {:cut false, :delay 0, :loss 0}]], :nodes []}\n\
        {:index 7, :time 7, :type :info, :process :nemesis, :f :step, :value [1 0]}\n\
        :active []\n\
        {:nodes [\"n1\" \"n2\"], :cut [], :slow [], :loss [], :down [], :clock []}\n\
        {:valid? false}\n\
        :minimal\n\
        clients = 1\n\
        generator = \"[:seq [:once [:write 5]] [:once :read]]\"\n\
        initial = 0\n\
        ops = 2\n\
        schedule = ['[1 [:begin 1 [:cut [[\"n1\" \"n2\"]]]]]']\n\
        seed = 0\n\
        start = '{:nodes [\"n1\" \"n2\"]}'\n\
        workload = \"register\"\n\
        status 1\n\
    ";
    assert_eq!(rt; wrong_rows(rt.alloc(), 9, minimal), 0);
}

/// One trial may be held, and it fails; so does the last one, or it does not.
#[test]
fn tells_what_the_last_trial_showed(rt: HostRuntime) {
    let budget = "\
        :ready\n\
        {:type :ok, :process 0, :f :write, :value 5, :time 7}\n\
        {:type :info, :process :nemesis, :f :step, :value 0}\n\
        {:type :ok, :process 0, :f :read, :value 0}\n\
        {:type :info, :process :nemesis, :f :step, :value 1}\n\
        :ready\n\
        {:type :ok, :process 0, :f :write, :value 5, :time 7}\n\
        {:type :info, :process :nemesis, :f :step, :value 0}\n\
        {:type :ok, :process 0, :f :read, :value 0}\n\
        {:type :info, :process :nemesis, :f :step, :value 1}\n\
        \x1f\
        {:type :test, :number 0, :seed 0}\n\
        {:index 0, :time 0, :type :invoke, :process 0, :f :write, :value 5, :node \"n1\"}\n\
        {:index 2, :time 7, :type :info, :process :nemesis, :f :step, :value 0, :step [:begin 1 [:cut [[\"n1\" \"n2\"]]]], :links [[\"n1\" \"n2\" {:cut true, :delay 0, :loss 0}]], :nodes []}\n\
        {:index 3, :time 7, :type :invoke, :process 0, :f :read, :value nil, :node \"n1\"}\n\
        {:index 6, :time 7, :type :info, :process :nemesis, :f :step, :value 1, :step [:withdraw-all], :links [[\"n1\" \"n2\" {:cut false, :delay 0, :loss 0}]], :nodes []}\n\
        :end\n\
        {:type :test, :number 1, :seed 0}\n\
        {:index 0, :time 0, :type :invoke, :process 0, :f :write, :value 5, :node \"n1\"}\n\
        {:index 2, :time 7, :type :info, :process :nemesis, :f :step, :value 0, :step [:begin 1 [:cut [[\"n1\" \"n2\"]]]], :links [[\"n1\" \"n2\" {:cut true, :delay 0, :loss 0}]], :nodes []}\n\
        {:index 3, :time 7, :type :invoke, :process 0, :f :read, :value nil, :node \"n1\"}\n\
        {:index 6, :time 7, :type :info, :process :nemesis, :f :step, :value 1, :step [:withdraw-all], :links [[\"n1\" \"n2\" {:cut false, :delay 0, :loss 0}]], :nodes []}\n\
        :end\n\
        {:index 0, :time 0, :type :invoke, :process 0, :f :write, :value 5, :node \"n1\"}\n\
        {:index 1, :time 7, :type :ok, :process 0, :f :write, :value 5}\n\
        {:index 2, :time 7, :type :info, :process :nemesis, :f :step, :value 0, :step [:begin 1 [:cut [[\"n1\" \"n2\"]]]], :links [[\"n1\" \"n2\" {:cut true, :delay 0, :loss 0}]], :nodes []}\n\
        {:index 3, :time 7, :type :invoke, :process 0, :f :read, :value nil, :node \"n1\"}\n\
        {:index 4, :time 7, :type :info, :process :nemesis, :f :step, :value [0 0]}\n\
        {:index 5, :time 7, :type :ok, :process 0, :f :read, :value 0}\n\
        {:index 6, :time 7, :type :info, :process :nemesis, :f :step, :value 1, :step [:withdraw-all], :links [[\"n1\" \"n2\" {:cut false, :delay 0, :loss 0}]], :nodes []}\n\
        {:index 7, :time 7, :type :info, :process :nemesis, :f :step, :value [1 0]}\n\
        :active []\n\
        {:nodes [\"n1\" \"n2\"], :cut [], :slow [], :loss [], :down [], :clock []}\n\
        {:valid? false}\n\
        :budget\n\
        clients = 1\n\
        generator = \"[:seq [:once [:write 5]] [:once :read]]\"\n\
        initial = 0\n\
        ops = 2\n\
        schedule = ['[1 [:begin 1 [:cut [[\"n1\" \"n2\"]]]]]']\n\
        seed = 0\n\
        start = '{:nodes [\"n1\" \"n2\"]}'\n\
        workload = \"register\"\n\
        status 2\n\
    ";
    assert_eq!(rt; wrong_rows(rt.alloc(), 1, budget), 0);
    let passed = "\
        :ready\n\
        {:type :ok, :process 0, :f :write, :value 5, :time 7}\n\
        {:type :info, :process :nemesis, :f :step, :value 0}\n\
        {:type :ok, :process 0, :f :read, :value 0}\n\
        {:type :info, :process :nemesis, :f :step, :value 1}\n\
        :ready\n\
        {:type :ok, :process 0, :f :write, :value 5, :time 7}\n\
        {:type :info, :process :nemesis, :f :step, :value 0}\n\
        {:type :ok, :process 0, :f :read, :value 5}\n\
        {:type :info, :process :nemesis, :f :step, :value 1}\n\
        \x1f\
        {:type :test, :number 0, :seed 0}\n\
        {:index 0, :time 0, :type :invoke, :process 0, :f :write, :value 5, :node \"n1\"}\n\
        {:index 2, :time 7, :type :info, :process :nemesis, :f :step, :value 0, :step [:begin 1 [:cut [[\"n1\" \"n2\"]]]], :links [[\"n1\" \"n2\" {:cut true, :delay 0, :loss 0}]], :nodes []}\n\
        {:index 3, :time 7, :type :invoke, :process 0, :f :read, :value nil, :node \"n1\"}\n\
        {:index 6, :time 7, :type :info, :process :nemesis, :f :step, :value 1, :step [:withdraw-all], :links [[\"n1\" \"n2\" {:cut false, :delay 0, :loss 0}]], :nodes []}\n\
        :end\n\
        {:type :test, :number 1, :seed 0}\n\
        {:index 0, :time 0, :type :invoke, :process 0, :f :write, :value 5, :node \"n1\"}\n\
        {:index 2, :time 7, :type :info, :process :nemesis, :f :step, :value 0, :step [:begin 1 [:cut [[\"n1\" \"n2\"]]]], :links [[\"n1\" \"n2\" {:cut true, :delay 0, :loss 0}]], :nodes []}\n\
        {:index 3, :time 7, :type :invoke, :process 0, :f :read, :value nil, :node \"n1\"}\n\
        {:index 6, :time 7, :type :info, :process :nemesis, :f :step, :value 1, :step [:withdraw-all], :links [[\"n1\" \"n2\" {:cut false, :delay 0, :loss 0}]], :nodes []}\n\
        :end\n\
        {:index 0, :time 0, :type :invoke, :process 0, :f :write, :value 5, :node \"n1\"}\n\
        {:index 1, :time 7, :type :ok, :process 0, :f :write, :value 5}\n\
        {:index 2, :time 7, :type :info, :process :nemesis, :f :step, :value 0, :step [:begin 1 [:cut [[\"n1\" \"n2\"]]]], :links [[\"n1\" \"n2\" {:cut true, :delay 0, :loss 0}]], :nodes []}\n\
        {:index 3, :time 7, :type :invoke, :process 0, :f :read, :value nil, :node \"n1\"}\n\
        {:index 4, :time 7, :type :info, :process :nemesis, :f :step, :value [0 0]}\n\
        {:index 5, :time 7, :type :ok, :process 0, :f :read, :value 5}\n\
        {:index 6, :time 7, :type :info, :process :nemesis, :f :step, :value 1, :step [:withdraw-all], :links [[\"n1\" \"n2\" {:cut false, :delay 0, :loss 0}]], :nodes []}\n\
        {:index 7, :time 7, :type :info, :process :nemesis, :f :step, :value [1 0]}\n\
        :active []\n\
        {:nodes [\"n1\" \"n2\"], :cut [], :slow [], :loss [], :down [], :clock []}\n\
        {:valid? true, :order [0 1]}\n\
        :not-reproduced\n\
        clients = 1\n\
        generator = \"[:seq [:once [:write 5]] [:once :read]]\"\n\
        initial = 0\n\
        ops = 2\n\
        schedule = ['[1 [:begin 1 [:cut [[\"n1\" \"n2\"]]]]]']\n\
        seed = 0\n\
        start = '{:nodes [\"n1\" \"n2\"]}'\n\
        workload = \"register\"\n\
        status 2\n\
    ";
    assert_eq!(rt; wrong_rows(rt.alloc(), 1, passed), 0);
}

/// The test does not fail; and no trial may be held, and the adapter answers the last one by something else.
#[test]
fn tells_what_is_not_reproduced(rt: HostRuntime) {
    let passed = "\
        :ready\n\
        {:type :ok, :process 0, :f :write, :value 5, :time 7}\n\
        {:type :info, :process :nemesis, :f :step, :value 0}\n\
        {:type :ok, :process 0, :f :read, :value 5}\n\
        {:type :info, :process :nemesis, :f :step, :value 1}\n\
        \x1f\
        {:type :test, :number 0, :seed 0}\n\
        {:index 0, :time 0, :type :invoke, :process 0, :f :write, :value 5, :node \"n1\"}\n\
        {:index 2, :time 7, :type :info, :process :nemesis, :f :step, :value 0, :step [:begin 1 [:cut [[\"n1\" \"n2\"]]]], :links [[\"n1\" \"n2\" {:cut true, :delay 0, :loss 0}]], :nodes []}\n\
        {:index 3, :time 7, :type :invoke, :process 0, :f :read, :value nil, :node \"n1\"}\n\
        {:index 6, :time 7, :type :info, :process :nemesis, :f :step, :value 1, :step [:withdraw-all], :links [[\"n1\" \"n2\" {:cut false, :delay 0, :loss 0}]], :nodes []}\n\
        :end\n\
        :not-reproduced\n\
        status 0\n\
    ";
    assert_eq!(rt; wrong_rows(rt.alloc(), 1, passed), 0);
    let bad = "\
        {:type :ok}\n\
        \x1f\
        {:type :test, :number 0, :seed 0}\n\
        jeprun: reply 1: f missing\n\
        status 3\n\
    ";
    assert_eq!(rt; wrong_rows(rt.alloc(), 0, bad), 0);
}

//! Tests by rows: all that is written to some replies, and how it ends.

use crate::drive::once::{driven, ends, says};

/// Two nodes and a register; a write and a read by one client; and the first node cut off from the second one behind
/// the first answered call.
const SETTINGS: &str = "\
    start = '{:nodes [\"n1\" \"n2\"]}'\n\
    workload = \"register\"\n\
    generator = '[:seq [:once [:write 5]] [:once :read]]'\n\
    clients = 1\n\
    ops = 2\n\
    initial = 0\n\
    schedule = ['[1 [:begin 1 [:cut [[\"n1\" \"n2\"]]]]]']\n";

/// A row is replies, and all that is written, with the message and the status.
#[test]
fn begins_and_ends_faults(rt: HostRuntime) {
    let rows = "\
        \x1f\
        {:index 0, :time 0, :type :invoke, :process 0, :f :write, :value 5, :node \"n1\"}\n\
        :end\n\
        {:index 0, :time 0, :type :invoke, :process 0, :f :write, :value 5, :node \"n1\"}\n\
        :active []\n\
        {:nodes [\"n1\" \"n2\"], :cut [], :slow [], :loss [], :down [], :clock []}\n\
        {:valid? true, :order []}\n\
        jeprun: replies ended\n\
        status 4\n\
        \x1e{:type :ok, :process 0, :f :write, :value 5, :time 7}\n\
        \x1f\
        {:index 0, :time 0, :type :invoke, :process 0, :f :write, :value 5, :node \"n1\"}\n\
        {:index 2, :time 7, :type :info, :process :nemesis, :f :step, :value 0, :step [:begin 1 [:cut [[\"n1\" \"n2\"]]]], :links [[\"n1\" \"n2\" {:cut true, :delay 0, :loss 0}]], :nodes []}\n\
        {:index 3, :time 7, :type :invoke, :process 0, :f :read, :value nil, :node \"n1\"}\n\
        :end\n\
        {:index 0, :time 0, :type :invoke, :process 0, :f :write, :value 5, :node \"n1\"}\n\
        {:index 1, :time 7, :type :ok, :process 0, :f :write, :value 5}\n\
        {:index 2, :time 7, :type :info, :process :nemesis, :f :step, :value 0, :step [:begin 1 [:cut [[\"n1\" \"n2\"]]]], :links [[\"n1\" \"n2\" {:cut true, :delay 0, :loss 0}]], :nodes []}\n\
        {:index 3, :time 7, :type :invoke, :process 0, :f :read, :value nil, :node \"n1\"}\n\
        :active [1]\n\
        {:nodes [\"n1\" \"n2\"], :cut [[\"n1\" \"n2\"]], :slow [], :loss [], :down [], :clock []}\n\
        {:valid? true, :order [0]}\n\
        jeprun: replies ended\n\
        status 4\n\
        \x1e{:type :ok, :process 0, :f :write, :value 5, :time 7}\n\
        {:type :info, :process :nemesis, :f :step, :value 0}\n\
        {:type :ok, :process 0, :f :read, :value 5, :error [:x]}\n\
        {:type :info, :process :nemesis, :f :step, :value 1}\n\
        \x1f\
        {:index 0, :time 0, :type :invoke, :process 0, :f :write, :value 5, :node \"n1\"}\n\
        {:index 2, :time 7, :type :info, :process :nemesis, :f :step, :value 0, :step [:begin 1 [:cut [[\"n1\" \"n2\"]]]], :links [[\"n1\" \"n2\" {:cut true, :delay 0, :loss 0}]], :nodes []}\n\
        {:index 3, :time 7, :type :invoke, :process 0, :f :read, :value nil, :node \"n1\"}\n\
        {:index 6, :time 7, :type :info, :process :nemesis, :f :step, :value 1, :step [:withdraw-all], :links [[\"n1\" \"n2\" {:cut false, :delay 0, :loss 0}]], :nodes []}\n\
        :end\n\
        {:index 0, :time 0, :type :invoke, :process 0, :f :write, :value 5, :node \"n1\"}\n\
        {:index 1, :time 7, :type :ok, :process 0, :f :write, :value 5}\n\
        {:index 2, :time 7, :type :info, :process :nemesis, :f :step, :value 0, :step [:begin 1 [:cut [[\"n1\" \"n2\"]]]], :links [[\"n1\" \"n2\" {:cut true, :delay 0, :loss 0}]], :nodes []}\n\
        {:index 3, :time 7, :type :invoke, :process 0, :f :read, :value nil, :node \"n1\"}\n\
        {:index 4, :time 7, :type :info, :process :nemesis, :f :step, :value [0 0]}\n\
        {:index 5, :time 7, :type :ok, :process 0, :f :read, :value 5, :error [:x]}\n\
        {:index 6, :time 7, :type :info, :process :nemesis, :f :step, :value 1, :step [:withdraw-all], :links [[\"n1\" \"n2\" {:cut false, :delay 0, :loss 0}]], :nodes []}\n\
        {:index 7, :time 7, :type :info, :process :nemesis, :f :step, :value [1 0]}\n\
        :active []\n\
        {:nodes [\"n1\" \"n2\"], :cut [], :slow [], :loss [], :down [], :clock []}\n\
        {:valid? true, :order [0 1]}\n\
        status 0\n\
        \x1e{:type :ok, :process 3, :f :read, :value 5}\n\
        {:type :ok, :process 0, :f :write, :value 5}\n\
        \x1f\
        {:index 0, :time 0, :type :invoke, :process 0, :f :write, :value 5, :node \"n1\"}\n\
        :end\n\
        {:index 0, :time 0, :type :invoke, :process 0, :f :write, :value 5, :node \"n1\"}\n\
        {:index 1, :time 0, :type :ok, :process 0, :f :write, :value 5}\n\
        :active []\n\
        {:nodes [\"n1\" \"n2\"], :cut [], :slow [], :loss [], :down [], :clock []}\n\
        {:valid? true, :order [0]}\n\
        jeprun: reply 1: no call of this process is open\n\
        status 3\n\
        \x1e:stop\n\
        {:type :ok, :process 0, :f :write, :value 5}\x1f\
        {:index 0, :time 0, :type :invoke, :process 0, :f :write, :value 5, :node \"n1\"}\n\
        :end\n\
        {:index 0, :time 0, :type :invoke, :process 0, :f :write, :value 5, :node \"n1\"}\n\
        {:index 1, :time 0, :type :ok, :process 0, :f :write, :value 5}\n\
        :active []\n\
        {:nodes [\"n1\" \"n2\"], :cut [], :slow [], :loss [], :down [], :clock []}\n\
        {:valid? true, :order [0]}\n\
        status 0\n";
    for row in rows.split('\x1e') {
        let (replies, expected) = row.split_once('\x1f').unwrap_or(("", ""));
        assert!(rt; says(rt.alloc(), SETTINGS, replies, expected), "{row}");
    }
}

/// A row is settings, replies, and all that is written.
#[test]
fn gives_calls_in_time(rt: HostRuntime) {
    let rows = "\
        start = '{:nodes [\"a\"]}'\n\
        workload = \"register\"\n\
        generator = '[:forever :read]'\n\
        clients = 1\n\
        ops = 9\n\
        time_limit = 1\n\
        rate = 1000000\n\
        \x1f\
        2000\n\
        {:type :ok, :process 0, :f :read, :value nil}\n\
        1000000\n\
        {:type :fail, :process 0, :f :read, :value nil}\x1f\
        {:index 0, :time 0, :type :invoke, :process 0, :f :read, :value nil, :node \"a\"}\n\
        {:index 2, :time 2000, :type :invoke, :process 0, :f :read, :value nil, :node \"a\"}\n\
        :end\n\
        {:index 0, :time 0, :type :invoke, :process 0, :f :read, :value nil, :node \"a\"}\n\
        {:index 1, :time 2000, :type :ok, :process 0, :f :read, :value nil}\n\
        {:index 2, :time 2000, :type :invoke, :process 0, :f :read, :value nil, :node \"a\"}\n\
        {:index 3, :time 1000000, :type :fail, :process 0, :f :read, :value nil}\n\
        :active []\n\
        {:nodes [\"a\"], :cut [], :slow [], :loss [], :down [], :clock []}\n\
        {:valid? true, :order [0]}\n\
        status 0\n\
        \x1estart = '{:nodes [\"a\"]}'\n\
        workload = \"register\"\n\
        generator = '[:once [:write 1]]'\n\
        final = '[:once :read]'\n\
        clients = 1\n\
        ops = 1\n\
        recovery = 1\n\
        \x1f\
        {:type :info, :process 0, :f :write, :value 1}\n\
        999999\n\
        1000000\n\
        {:type :ok, :process 1, :f :read, :value 2}\x1f\
        {:index 0, :time 0, :type :invoke, :process 0, :f :write, :value 1, :node \"a\"}\n\
        {:index 2, :time 1000000, :type :invoke, :process 1, :f :read, :value nil, :node \"a\"}\n\
        :end\n\
        {:index 0, :time 0, :type :invoke, :process 0, :f :write, :value 1, :node \"a\"}\n\
        {:index 1, :time 0, :type :info, :process 0, :f :write, :value 1}\n\
        {:index 2, :time 1000000, :type :invoke, :process 1, :f :read, :value nil, :node \"a\"}\n\
        {:index 3, :time 1000000, :type :ok, :process 1, :f :read, :value 2}\n\
        :active []\n\
        {:nodes [\"a\"], :cut [], :slow [], :loss [], :down [], :clock []}\n\
        {:valid? false}\n\
        status 1\n\
        \x1estart = '{:nodes [\"a\"]}'\n\
        workload = \"set\"\n\
        generator = '[:limit 3 [:rising 1]]'\n\
        clients = 2\n\
        ops = 9\n\
        threads_per_key = 1\n\
        ops_per_key = 1\n\
        \x1f\
        {:type :ok, :process 1, :f :add, :value [1 2]}\n\
        {:type :ok, :process 0, :f :add, :value [0 1]}\n\
        {:type :fail, :process 1, :f :add, :value [3 3]}\x1f\
        {:index 0, :time 0, :type :invoke, :process 0, :f :add, :value [0 1], :node \"a\"}\n\
        {:index 1, :time 0, :type :invoke, :process 1, :f :add, :value [1 2], :node \"a\"}\n\
        {:index 3, :time 0, :type :invoke, :process 1, :f :add, :value [3 3], :node \"a\"}\n\
        :end\n\
        {:index 0, :time 0, :type :invoke, :process 0, :f :add, :value [0 1], :node \"a\"}\n\
        {:index 1, :time 0, :type :invoke, :process 1, :f :add, :value [1 2], :node \"a\"}\n\
        {:index 2, :time 0, :type :ok, :process 1, :f :add, :value [1 2]}\n\
        {:index 3, :time 0, :type :invoke, :process 1, :f :add, :value [3 3], :node \"a\"}\n\
        {:index 4, :time 0, :type :ok, :process 0, :f :add, :value [0 1]}\n\
        {:index 5, :time 0, :type :fail, :process 1, :f :add, :value [3 3]}\n\
        :active []\n\
        {:nodes [\"a\"], :cut [], :slow [], :loss [], :down [], :clock []}\n\
        {:valid? :unknown, :keys [[0 {:valid? :unknown, :error \"Set was never read\"}] [1 {:valid? :unknown, :error \"Set was never read\"}] [3 {:valid? :unknown, :error \"Set was never read\"}]]}\n\
        status 2\n\
        \x1estart = '{:nodes [\"a\"]}'\n\
        workload = \"unique-ids\"\n\
        generator = '[:forever :generate]'\n\
        clients = 1\n\
        ops = 2\n\
        \x1f\
        {:type :ok, :process 0, :f :generate, :value \"x\"}\n\
        {:type :ok, :process 0, :f :generate, :value \"x\"}\x1f\
        {:index 0, :time 0, :type :invoke, :process 0, :f :generate, :value nil, :node \"a\"}\n\
        {:index 2, :time 0, :type :invoke, :process 0, :f :generate, :value nil, :node \"a\"}\n\
        :end\n\
        {:index 0, :time 0, :type :invoke, :process 0, :f :generate, :value nil, :node \"a\"}\n\
        {:index 1, :time 0, :type :ok, :process 0, :f :generate, :value \"x\"}\n\
        {:index 2, :time 0, :type :invoke, :process 0, :f :generate, :value nil, :node \"a\"}\n\
        {:index 3, :time 0, :type :ok, :process 0, :f :generate, :value \"x\"}\n\
        :active []\n\
        {:nodes [\"a\"], :cut [], :slow [], :loss [], :down [], :clock []}\n\
        {:valid? false, :attempted 2, :acknowledged 2, :duplicated [[\"x\" 2]]}\n\
        status 1\n\
        \x1estart = '{:nodes [\"a\"]}'\n\
        workload = \"list-append\"\n\
        generator = '[:forever :txn]'\n\
        clients = 1\n\
        ops = 3\n\
        keys = 1\n\
        max_txn = 2\n\
        appends_per_key = 2\n\
        seed = 5\n\
        \x1f\
        {:type :ok, :process 0, :f :txn, :value ((:append 0 1) [:r 0 (1)])}\n\
        {:type :ok, :process 0, :f :txn, :value [[:append 0 2] [:append 1 1]]}\n\
        {:type :info, :process 0, :f :txn, :value [[:append 1 2]]}\x1f\
        {:index 0, :time 0, :type :invoke, :process 0, :f :txn, :value [[:append 0 1] [:r 0 nil]], :node \"a\"}\n\
        {:index 2, :time 0, :type :invoke, :process 0, :f :txn, :value [[:append 0 2] [:append 1 1]], :node \"a\"}\n\
        {:index 4, :time 0, :type :invoke, :process 0, :f :txn, :value [[:append 1 2]], :node \"a\"}\n\
        :end\n\
        {:index 0, :time 0, :type :invoke, :process 0, :f :txn, :value [[:append 0 1] [:r 0 nil]], :node \"a\"}\n\
        {:index 1, :time 0, :type :ok, :process 0, :f :txn, :value ((:append 0 1) [:r 0 (1)])}\n\
        {:index 2, :time 0, :type :invoke, :process 0, :f :txn, :value [[:append 0 2] [:append 1 1]], :node \"a\"}\n\
        {:index 3, :time 0, :type :ok, :process 0, :f :txn, :value [[:append 0 2] [:append 1 1]]}\n\
        {:index 4, :time 0, :type :invoke, :process 0, :f :txn, :value [[:append 1 2]], :node \"a\"}\n\
        {:index 5, :time 0, :type :info, :process 0, :f :txn, :value [[:append 1 2]]}\n\
        :active []\n\
        {:nodes [\"a\"], :cut [], :slow [], :loss [], :down [], :clock []}\n\
        {:valid? true, :order [0 1]}\n\
        status 0\n";
    for row in rows.split('\x1e') {
        let (settings, rest) = row.split_once('\x1f').unwrap_or(("", ""));
        let (replies, expected) = rest.split_once('\x1f').unwrap_or(("", ""));
        assert!(rt; says(rt.alloc(), settings, replies, expected), "{row}");
    }
}

/// A row is replies, and the message of the first that is none.
#[test]
fn tells_the_first_line_that_is_no_reply(rt: HostRuntime) {
    let rows = "\
        [1\x1freply 1: unexpected end\
        \x1e1 2\x1freply 1: more than one element\
        \x1e-1\x1freply 1: bad time\
        \x1e:go\x1freply 1: not a map\
        \x1e{:type :ok}\x1freply 1: f missing\
        \x1e; a remark\n\n{:type :ok, :process 0, :f :write, :value 5, :time :noon}\x1freply 3: bad time\
        \x1e{:type :info, :process :nemesis, :f :step, :value 0}\x1freply 1: no step is open\
        \x1e{:type :ok, :process 0, :f :read, :value 5}\n1 2\x1freply 1: not the answer of the call that is open\
        \x1e{:type :invoke, :process 0, :f :write, :value 5}\x1freply 1: not the answer of the call that is open\
        \x1e{:type :ok, :process 0, :f :write, :value 6}\x1freply 1: bad value\
        \x1e{:type :ok, :process 0, :f :write, :value 5}\n{:type :info, :process :nemesis, :f :step, :value 1}\x1f\
        reply 2: not the answer of the step that is open";
    for row in rows.split('\x1e') {
        let (replies, message) = row.split_once('\x1f').unwrap_or(("", ""));
        let Ok(expected) = format!(in rt.alloc(); "jeprun: {message}\nstatus 3\n") else {
            return;
        };
        assert!(rt;
            ends(rt.alloc(), SETTINGS, replies, expected.as_str()),
            "{row}"
        );
    }
}

/// A row is settings, and all that is written.
#[test]
fn settings_are_refused(rt: HostRuntime) {
    let rows = "\
        start\x1fjeprun: settings: not TOML\nstatus 3\n\
        \x1estart = '{:nodes [\"a\"]}'\x1fjeprun: settings: workload: missing\nstatus 3\n";
    for row in rows.split('\x1e') {
        let (settings, expected) = row.split_once('\x1f').unwrap_or(("", ""));
        assert!(rt; says(rt.alloc(), settings, "1\n", expected), "{row}");
    }
}

#[test]
fn bytes_need_not_be_a_text(rt: HostRuntime) {
    let expected = "jeprun: reply 1: not UTF-8\nstatus 3\n";
    let ended = driven(rt.alloc(), SETTINGS, b"\xff".as_slice());
    assert!(rt; ended.is_some_and(|text| text.ends_with(expected.as_bytes())));
}

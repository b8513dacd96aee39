//! What an observer is told of the calls of a test.

use jh_drive::{CallCounts, CallObserver, drive};
use jh_lines::Streams;
use std::alloc::Global;

/// Four calls of two clients.
const SETTINGS: &str = "\
    start = '{:nodes [\"a\"]}'\n\
    workload = \"unique-ids\"\n\
    generator = '[:limit 4 [:forever :generate]]'\n\
    clients = 2\n\
    ops = 4\n";

/// One call is done, one fails, of one nobody knows, and one never ends.
const REPLIES: &str = "\
    {:type :ok, :process 0, :f :generate, :value 7}\n\
    {:type :fail, :process 1, :f :generate, :value nil}\n\
    {:type :info, :process 0, :f :generate, :value nil}\n";

/// Keeps what it is told.
#[derive(Drop)]
struct Keeper {
    calls: Option<CallCounts>,
}

impl CallObserver for Keeper {
    fn see_calls(&mut self, calls: CallCounts) {
        self.calls = Some(calls);
    }
}

/// What is told of the calls. None: memory was refused.
fn told_once(alloc: Global) -> Option<CallCounts> {
    let mut streams = Streams {
        reader: REPLIES.as_bytes(),
        writer: Vec::new(alloc),
    };
    let mut keeper = Keeper { calls: None };
    let _ = drive(alloc, SETTINGS.as_bytes(), &mut streams, &mut keeper);
    keeper.calls
}

#[test]
fn tells_how_calls_ended(rt: HostRuntime) {
    let expected = CallCounts {
        given: 4,
        ok: 1,
        failed: 1,
        unknown: 1,
    };
    let told = told_once(rt.alloc()).or_else(|| told_once(rt.alloc()));
    assert_eq!(rt; told, Some(expected));
}

//! Streams that fail.

use crate::drive::once::{Nobody, driven_once};
use jh_drive::{DriveError, drive};
use jh_lines::Streams;
use std::alloc::Global;
use std::io::{self, Read, Write};

/// One node, and one call that waits for its answer.
const SETTINGS: &str = "\
    start = '{:nodes [\"a\"]}'\n\
    workload = \"unique-ids\"\n\
    generator = '[:once :generate]'\n\
    clients = 1\n\
    ops = 1\n";

/// A reader that fails at once.
#[derive(Drop)]
struct Broken;

impl Read for Broken {
    fn read(&mut self, _buffer: &mut [u8]) -> io::Result<usize> {
        Err(io::Error::other("broken"))
    }
}

/// The report is written where nothing more can be read.
#[test]
fn a_failing_reader_ends_the_test(rt: HostRuntime) {
    let expected = "\
        {:index 0, :time 0, :type :invoke, :process 0, :f :generate, :value nil, :node \"a\"}\n\
        :end\n\
        {:index 0, :time 0, :type :invoke, :process 0, :f :generate, :value nil, :node \"a\"}\n\
        :active []\n\
        {:nodes [\"a\"], :cut [], :slow [], :loss [], :down [], :clock []}\n\
        {:valid? true, :attempted 1, :acknowledged 0, :duplicated []}\n\
        jeprun: read failed\nstatus 4\n";
    let text = driven_once(rt.alloc(), SETTINGS, Broken).or_else(|| driven_once(
        rt.alloc(),
        SETTINGS,
        Broken,
    ));
    assert!(rt; text.is_some_and(|text| text.as_slice() == expected.as_bytes()));
}

/// A writer that fails at once.
#[derive(Drop)]
struct Full;

impl Write for Full {
    fn write(&mut self, _buffer: &[u8]) -> io::Result<usize> {
        Err(io::Error::other("full"))
    }

    fn flush(&mut self) -> io::Result<()> {
        Ok(())
    }
}

/// Whether a failed write ended the test. None: memory was refused.
fn fails_once(alloc: Global) -> Option<bool> {
    let mut streams = Streams {
        reader: b"".as_slice(),
        writer: Full,
    };
    match drive(alloc, SETTINGS.as_bytes(), &mut streams, &mut Nobody) {
        Err(DriveError::OutOfMemory) => None,
        ended => Some(matches!(ended, Err(DriveError::Write))),
    }
}

#[test]
fn a_failing_writer_ends_the_test(rt: HostRuntime) {
    let failed = fails_once(rt.alloc()).or_else(|| fails_once(rt.alloc()));
    assert!(rt; failed == Some(true));
}

//! The messages of errors, each on a line of one text, and a writer's failure.

use jh_edn::{EdnError, Value, write};
use std::alloc::{AllocError, Global};
use std::io::{self, ErrorKind, Write};
use std::test::Fail;

/// A writer that takes nothing.
#[derive(Drop)]
struct Closed;

impl Write for Closed {
    fn write(&mut self, _: &[u8]) -> io::Result<usize> {
        Err(io::Error::from(ErrorKind::BrokenPipe))
    }

    fn flush(&mut self) -> io::Result<()> {
        Ok(())
    }
}

/// Each error once, with a line of its own where it has one.
const ERRORS: [EdnError; 13] = [
    EdnError::UnexpectedEnd(1),
    EdnError::BadToken(2),
    EdnError::FloatUnsupported(3),
    EdnError::IntegerRange(4),
    EdnError::BadEscape(5),
    EdnError::OddMap(6),
    EdnError::DuplicateKey(7),
    EdnError::TooDeep(u64::MAX),
    EdnError::Utf8,
    EdnError::TooLong,
    EdnError::Read,
    EdnError::Write,
    EdnError::OutOfMemory,
];

/// The message of each error, each ended by a line's end.
fn all_messages(alloc: Global) -> Result<String, AllocError> {
    let mut lines = String::new(alloc);
    for error in ERRORS {
        lines.push_str(format!(in alloc; "{error}\n")?.as_str())?;
    }
    Ok(lines)
}

#[test]
fn says_what_failed(rt: HostRuntime) -> Result<(), Fail> {
    let lines = match all_messages(rt.alloc()) {
        Err(_) => all_messages(rt.alloc())?,
        Ok(lines) => lines,
    };
    let expected = "\
        line 1: unexpected end\n\
        line 2: bad token\n\
        line 3: float unsupported\n\
        line 4: integer out of range\n\
        line 5: bad escape\n\
        line 6: odd map\n\
        line 7: duplicate key\n\
        line 18446744073709551615: too deep\n\
        not UTF-8\n\
        input too long\n\
        read failed\n\
        write failed\n\
        out of memory\n";
    assert_eq!(rt; lines.as_str(), expected);
    Ok(())
}

#[test]
fn fails_with_its_writer(rt: HostRuntime) {
    assert_eq!(rt; write(&Value::Int(1), &mut Closed), Err(EdnError::Write));
}

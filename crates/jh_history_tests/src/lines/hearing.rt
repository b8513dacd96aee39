//! Lines that are cut out of pieces, and the laws.

use crate::lines::quoter::Quoter;
use jh_lines::{Hearing, cuts_lines, hears_no_more, tells_first};
use std::alloc::{AllocError, Global};

/// What the machine says to the lines in the pieces of a text, and to its end. An error: memory was refused.
fn said_once(alloc: Global, text: &str) -> Result<Vec<u8>, AllocError> {
    let mut hearing = Hearing::new(alloc);
    let mut machine = Quoter { is_over: false };
    let mut out = Vec::new(alloc);
    for piece in text.split('|') {
        hearing.hear(piece.as_bytes(), &mut machine, &mut out)?;
    }
    hearing.hear_end(&mut machine, &mut out)?;
    Ok(out)
}

/// A row is pieces, each but the first behind a `|`, `\x1f` and what is said.
#[test]
fn cuts_where_a_line_ends(rt: HostRuntime) {
    let rows = "\
        \x1f\
        \x1ea\x1f[a]\n\
        \x1ea|b||\nc\n|\x1f[ab]\n[c]\n\
        \x1e\n\n|a\x1f[]\n[]\n[a]\n\
        \x1e\r\n\n\r\x1f[\r]\n[]\n[\r]\n";
    for row in rows.split('\x1e') {
        let (text, expected) = row.split_once('\x1f').unwrap_or(("", ""));
        let said = said_once(rt.alloc(), text).or_else(|_| said_once(rt.alloc(), text));
        let holds = said.is_ok_and(|out| out.as_slice() == expected.as_bytes());
        assert!(rt; holds, "{row}");
    }
}

#[test]
fn laws_can_be_called() {
    cuts_lines();
    tells_first();
    hears_no_more::<Quoter>();
}

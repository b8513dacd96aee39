//! The one line of what is found of several keys. `specs/Lines.antt` has the rule.

ghost use Rattle.std.specs.Prelude.{◌≡◌, IfErr, IfOk, OnOk};
ghost use Rattle.std.specs.Io.KnownBytes.{Appends};
ghost use Rattle.jh_independent.specs.Lines as rule;
ghost use Rattle.jh_independent.specs.Lines.{keys_line};

use crate::serial::KeyFinding;
use jh_check::{Verdict, merge, write_verdict};
use jh_checkers::write_finding;
use jh_edn::{EdnError, Element, put, write, write_part};
use std::alloc::{AllocError, Global};
use std::io::Write;

impl Element for KeyFinding {
    ghost value = { rule.key_value };

    fn write_to<W: Write>(&self, writer: &mut W) -> Result<(), EdnError> {
        put(b"[", writer)?;
        write(&self.key, writer)?;
        put(b" ", writer)?;
        write_finding(&self.finding, writer)?;
        put(b"]", writer)
    }
}

/// The verdict on all keys together: false over unknown over true, and of none true.
///
/// Errors: out of memory.
pub fn verdict_of_all(alloc: Global, found: &[KeyFinding]) -> Result<Verdict, AllocError>
    ensures { IfOk result (λ verdict. verdict ≡ rule.verdict_of_all found.now) }
{
    let mut verdicts = Vec::with_capacity(alloc, found.len())?;
    for one in found {
        verdicts.push(one.finding.verdict())?;
    }
    Ok(merge(&verdicts))
}

/// Writes the one line of all keys, without a line feed: `{:valid? V, :keys [[key RESULT] ..]}`.
/// The verdict is that of `verdict_of_all`.
///
/// Takes no memory. The writer may have taken a part of the line where it failed.
///
/// Errors: `Write` where the writer failed, and no other.
pub fn write_findings<W: Write>(
    verdict: Verdict,
    found: &[KeyFinding],
    writer: &mut W,
) -> Result<(), EdnError>
    requires { verdict ≡ rule.verdict_of_all found.now }
    ensures bytes { OnOk result
        (Appends (W.contents writer.old) (W.contents writer.new) (keys_line found.now)) }
    ensures error { IfErr result (λ e. e ≡ EdnError.Write) }
{
    write_verdict(verdict, writer)?;
    write_part("keys", found, writer)?;
    put(b"}", writer)
}

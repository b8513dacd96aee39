//! The steps of a cycle, as they stand in the line. `specs/Lines.antt` has the rule.

ghost use Rattle.std.specs.Prelude.{◌≡◌, IfErr, OnOk};
ghost use Rattle.std.specs.Io.KnownBytes.{Appends};
ghost use Rattle.jh_edn.specs.View.{view};
ghost use Rattle.jh_txn_findings.specs.Lines.{named_values, why_values};
ghost use Rattle.jh_txn_findings.specs.TextInside.{values_text};

use crate::finding::{FoundStep, FoundWhy};
use jh_edn::{EdnError, Element, Value, put, write};
use std::io::Write;

/// Writes the name of a dependency, with its key and its element.
fn write_named<W: Write>(
    name: &str,
    key: &Value,
    element: &Value,
    writer: &mut W,
) -> Result<(), EdnError>
    ensures bytes { OnOk result (Appends (W.contents writer.old) (W.contents writer.new)
        (values_text (named_values name.now (view key.now) (view element.now)))) }
    ensures error { IfErr result (λ e. e ≡ EdnError.Write) }
{
    write!(writer, " :{name} ").map_err(|_| EdnError::Write)?;
    write(key, writer)?;
    put(b" ", writer)?;
    write(element, writer)
}

/// Writes why a step is one, behind its place.
fn write_why<W: Write>(why: &FoundWhy, writer: &mut W) -> Result<(), EdnError>
    ensures bytes { OnOk result (Appends (W.contents writer.old) (W.contents writer.new)
        (values_text (why_values why.now))) }
    ensures error { IfErr result (λ e. e ≡ EdnError.Write) }
{
    match why {
        FoundWhy::WriteRead { key, element } => write_named("wr", key, element, writer),
        FoundWhy::WriteWrite { key, element } => write_named("ww", key, element, writer),
        FoundWhy::FirstCommitter { key, element } => write_named("fcw", key, element, writer),
        FoundWhy::ReadWrite { key, element } => write_named("rw", key, element, writer),
        FoundWhy::RealTime => put(b" :rt", writer),
    }
}

impl Element for FoundStep {
    ghost use Rattle.jh_txn_findings.specs.Lines.{step_value};

    ghost value = { step_value };

    fn write_to<W: Write>(&self, writer: &mut W) -> Result<(), EdnError> {
        write!(writer, "[{}", self.place).map_err(|_| EdnError::Write)?;
        write_why(&self.why, writer)?;
        put(b"]", writer)
    }
}

//! The one line of the result. `specs/Lines.antt` has the rule.

ghost use Rattle.std.specs.Prelude.{◌≡◌, IfErr, OnOk};
ghost use Rattle.std.specs.Io.KnownBytes.{Appends};
ghost use Rattle.jh_edn.specs.Print.{print};
ghost use Rattle.jh_total_queue.specs.Lines.{total_queue_value};

use crate::total_queue::TotalQueueResult;
use jh_check::{write_count, write_tally, write_verdict};
use jh_edn::{EdnError, put};
use std::io::Write;

/// Writes the one line of the result for a queue, without a line feed:
/// `{:valid? V, :attempted N, :acknowledged N, :ok N, :lost {value times, ..}, :unexpected {..},
/// :duplicated {..}, :recovered {..}}`.
///
/// Takes no memory. The writer may have taken a part of the line where it failed.
///
/// Errors: `Write` where the writer failed, and no other.
pub fn write_total_queue<W: Write>(
    judged: &TotalQueueResult,
    writer: &mut W,
) -> Result<(), EdnError>
    ensures bytes { OnOk result
        (Appends (W.contents writer.old) (W.contents writer.new)
        (print (total_queue_value judged.now))) }
    ensures error { IfErr result (λ e. e ≡ EdnError.Write) }
{
    write_verdict(judged.verdict, writer)?;
    write_count("attempted", judged.attempted, writer)?;
    write_count("acknowledged", judged.acknowledged, writer)?;
    write_count("ok", judged.ok, writer)?;
    write_tally("lost", &judged.lost, writer)?;
    write_tally("unexpected", &judged.unexpected, writer)?;
    write_tally("duplicated", &judged.duplicated, writer)?;
    write_tally("recovered", &judged.recovered, writer)?;
    put(b"}", writer)
}

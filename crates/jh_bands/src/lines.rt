//! The lines of a history. `specs/Lines.antt` says what they are.

ghost use Rattle.std.specs.Prelude.{◌≡◌, IfOk, map};
ghost use Rattle.jh_edn.specs.View.{views};
ghost use Rattle.jh_ops.specs.Operation.{operations};
ghost use Rattle.jh_bands.specs.Lines.{lines_in, view_line};

use crate::band::Line;
use crate::labels::line_label;
use crate::step::asked_in;
use jh_edn::Value;
use jh_ops::Op;
use std::alloc::{AllocError, Global};

/// The lines of a history: one for each record of the nemesis, in order.
///
/// A record that asks for a step that is known has the step in words as its label, as
/// `begin 1: cut n1 n2`, `withdraw 1`, `withdraw all`, `undo` or `redo`. Which steps are known
/// `bands_of` says. A record that answers the step for which the nemesis's last record asked, with
/// its place, has the same words, and behind them `: done`, or `: refused, code 6` where the code
/// isn't 0. Any other record has its function with its value, as `start-partition :majority`.
///
/// Takes time in the order of the texts of the records and of the labels.
///
/// Errors: where memory runs out.
pub fn lines_of(alloc: Global, steps: &[Value], history: &[Op]) -> Result<Vec<Line>, AllocError>
    ensures lines { IfOk result (λ lines. map view_line lines.items
        ≡ lines_in (views steps.now) (operations history.now)) }
{
    let mut waiting = None;
    let mut lines = Vec::new(alloc);
    for (index, op) in history.iter().enumerate() {
        if op.process.is_client() {
            continue;
        }
        let label = line_label(alloc, steps, waiting, op)?;
        lines.push(Line { index, label })?;
        waiting = asked_in(steps, op);
    }
    Ok(lines)
}

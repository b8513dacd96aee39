//! What a section shows of the nemesis: the faults and the records of a window.
//! `specs/Sections.antt` has the rule.

ghost use Rattle.std.specs.Prelude.{◌≡◌, IfOk, map};
ghost use Rattle.jh_bands.specs.Bands.{view_band};
ghost use Rattle.jh_bands.specs.Lines.{view_line};
ghost use Rattle.jh_edn.specs.View.{views};
ghost use Rattle.jh_ops.specs.Operation.{operations};
ghost use Rattle.jh_timeline_sections.specs.Sections as rule;

use jh_bands::{Band, Line, bands_of, lines_of};
use jh_edn::Value;
use jh_ops::Op;
use jh_timeline::Window;
use std::alloc::{AllocError, Global};

/// Whether a fault is active in a window.
fn is_active_in(window: Window, band: &Band) -> bool
    ensures { result ≡ rule.is_active_in window (view_band band.now) }
{
    band.from < window.to
        && match band.to {
            Some(to) => window.from < to,
            None => true,
        }
}

/// The bands of a history that are active in a window.
pub(crate) fn bands_shown(
    alloc: Global,
    window: Window,
    steps: &[Value],
    history: &[Op],
) -> Result<Vec<Band>, AllocError>
    ensures { IfOk result (λ bands. map view_band bands.items
        ≡ rule.bands_shown window (views steps.now) (operations history.now)) }
{
    let mut bands = bands_of(alloc, steps, history)?;
    bands.retain(|band| is_active_in(window, band));
    Ok(bands)
}

/// Whether the record of a line is in a window.
fn is_line_in(window: Window, line: &Line) -> bool
    ensures { result ≡ rule.is_line_in window (view_line line.now) }
{
    window.from <= line.index && line.index < window.to
}

/// The lines of a history that are in a window.
pub(crate) fn lines_shown(
    alloc: Global,
    window: Window,
    steps: &[Value],
    history: &[Op],
) -> Result<Vec<Line>, AllocError>
    ensures { IfOk result (λ lines. map view_line lines.items
        ≡ rule.lines_shown window (views steps.now) (operations history.now)) }
{
    let mut lines = lines_of(alloc, steps, history)?;
    lines.retain(|line| is_line_in(window, line));
    Ok(lines)
}

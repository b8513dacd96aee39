//! The section of a history in a page. `specs/Sections.antt` has the rule.

ghost use Rattle.std.specs.Prelude.{◌≡◌, IfOk, map};
ghost use Rattle.std.specs.Option.{option_copied};
ghost use Rattle.jh_edn.specs.View.{views};
ghost use Rattle.jh_ops.specs.Operation.{operations};
ghost use Rattle.jh_timeline_sections.specs.Sections as rule;
ghost use Rattle.jh_timeline_sections.specs.Sections.{IsSectionOf};
ghost use Rattle.jh_timeline_sections.specs.Windows.{focus_of, window_of};

use crate::nemesis::{bands_shown, lines_shown};
use crate::window::{Choice, around, chosen, focus_of, is_open};
use jh_checkers::Finding;
use jh_edn::Value;
use jh_ops::Op;
use jh_timeline::{Bar, Call, Mark, Window, calls_of, picture_in};
use jh_timeline_marks::{marks_of, operation_numbers};
use jh_timeline_pages::Section;
use std::alloc::{AllocError, Global};

/// The marks at calls of what is found, and none where nothing was judged.
fn marks_in(
    alloc: Global,
    history: &[Op],
    found: Option<&Finding>,
    calls: &[Call],
) -> Result<Vec<Mark>, AllocError>
    ensures { IfOk result (λ marks.
        marks.items ≡ rule.marks_in (operations history.now) (option_copied found.entry) calls.now) }
{
    match found {
        Some(found) => marks_of(alloc, history, found, calls),
        None => Ok(Vec::new(alloc)),
    }
}

/// The calls of bars.
fn calls_of_bars(alloc: Global, bars: &[Bar]) -> Result<Vec<Call>, AllocError>
    ensures { IfOk result (λ calls. calls.items ≡ map (λ bar. bar.call) bars.now) }
{
    bars.iter().map(|bar| bar.call).collect(alloc)
}

/// The records that are shown of so many, where these marks stand at the calls of the history.
fn window_in(choice: Choice, total: usize, calls: &[Call], marks: &[Mark]) -> Window
    ensures { result ≡ window_of choice total (focus_of calls.now marks.now) }
{
    if is_open(choice, total) {
        around(focus_of(calls, marks), total)
    } else {
        chosen(choice, total)
    }
}

/// The section of a history, with what was found in it. The records that are chosen are shown.
/// Where none are chosen, all are, up to 2,000; of more, 1,000 around the end of the first call with a
/// mark that points at something (`jh_timeline_pages::first_pointer`: neither a place in an order nor
/// that it is pending); where there is no such mark, the first 1,000.
///
/// The steps are those of the schedule of what recorded the history, and none where they are not
/// known: `jh_bands` says which records of the nemesis need them.
///
/// Takes O(n log n) for n records of which few are of the nemesis, and for those what `bands_of` and
/// `lines_of` take.
///
/// Errors: out of memory.
pub fn section_of(
    alloc: Global,
    heading: Vec<u8>,
    history: Vec<Op>,
    steps: &[Value],
    found: Option<&Finding>,
    choice: Choice,
) -> Result<Section, AllocError>
    ensures section { IfOk result (IsSectionOf heading.items (operations history.items)
        (views steps.now) (option_copied found.entry) choice) }
    ensures kept { IfOk result (λ section. section.history ≡ history) }
{
    let calls = calls_of(alloc, &history)?;
    let all_marks = marks_in(alloc, &history, found, &calls)?;
    let window = window_in(choice, history.len(), &calls, &all_marks);
    let picture = picture_in(alloc, window, &history, &all_marks)?;
    let bands = bands_shown(alloc, window, steps, &history)?;
    let lines = lines_shown(alloc, window, steps, &history)?;
    let drawn = calls_of_bars(alloc, &picture.bars)?;
    let numbers = operation_numbers(alloc, &history, &drawn)?;
    let marks = marks_in(alloc, &history, found, &drawn)?;
    Ok(Section {
        heading,
        history,
        window,
        picture,
        bands,
        lines,
        numbers,
        marks,
    })
}

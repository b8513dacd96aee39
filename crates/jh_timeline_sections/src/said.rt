//! The verdict that a text says. `specs/SaidVerdicts.antt` has the rule.

ghost use Rattle.std.specs.Prelude.{◌≡◌, ◌≤◌, length};
ghost use Rattle.jh_timeline_sections.specs.SaidVerdicts as rule;

use jh_check::Verdict;

/// The verdict that a text begins with, if it does.
fn begun_verdict(text: &[u8]) -> Option<Verdict>
    ensures { result ≡ rule.begun_verdict text.now }
{
    if text.starts_with(b"{:valid? true") {
        Some(Verdict::True)
    } else if text.starts_with(b"{:valid? false") {
        Some(Verdict::False)
    } else if text.starts_with(b"{:valid? :unknown") {
        Some(Verdict::Unknown)
    } else {
        None
    }
}

/// Whether a line begins at a place.
fn begins_line(text: &[u8], at: usize) -> bool
    requires { at ≤ length text.now }
    ensures { result ≡ rule.begins_line text.now at }
{
    at == 0 || text[at - 1] == b'\n'
}

/// The verdict of the line that begins at a place, if one does.
fn said_at(text: &[u8], at: usize) -> Option<Verdict>
    requires { at ≤ length text.now }
    ensures { result ≡ rule.said_at text.now at }
{
    if begins_line(text, at) {
        begun_verdict(&text[at..])
    } else {
        None
    }
}

/// The verdict that a text says, as `run` and `drive` print it behind a history: that of the last
/// line that begins with `{:valid? ` and `true`, `false` or `:unknown`. None: no line does.
pub fn said_verdict(text: &[u8]) -> Option<Verdict>
    ensures { result ≡ rule.said_verdict text.now }
{
    let mut said = None;
    for at in 0..text.len() {
        said = said_at(text, at).or(said);
    }
    said
}

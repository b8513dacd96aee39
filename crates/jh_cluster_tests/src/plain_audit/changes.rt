//! Changes of a history that look random: a line is left out, repeated, exchanged with another,
//! or says something else.

use crate::plain_audit::lines::Line;
use jh_test_kit::Random;

static KINDS: [&str; 4] = ["invoke", "ok", "fail", "info"];

static PROCESSES: [&str; 4] = ["0", "1", "2", ":nemesis"];

static WORDS: [&str; 7] = ["read", "write", "cas", "add", "generate", "step", "frob"];

static VALUES: [&str; 11] = [
    "nil", "0", "5", "-1", "[0 1]", "[0 0]", "[1 0]", "[0 7]", "[0 8]", "[]", "[0 1 2]",
];

/// A random number below this length.
fn place_in(random: &mut Random, len: usize) -> usize {
    random.below(len as u64) as usize
}

/// One of some texts.
fn one_of(random: &mut Random, choices: &'static [&'static str]) -> &'static str {
    let place = place_in(random, choices.len());
    choices.get(place).copied().unwrap_or("")
}

/// A line that says something else.
fn changed<'a>(random: &mut Random, line: Line<'a>) -> Line<'a> {
    let mut line = line;
    match random.below(6) {
        0 => line.kind = one_of(random, &KINDS),
        1 => line.process = one_of(random, &PROCESSES),
        2 => line.f = one_of(random, &WORDS),
        3 => line.value = one_of(random, &VALUES),
        4 => line.event = None,
        _ => line.event = Some(place_in(random, 12)),
    }
    line
}

/// Gives each line its place, mostly.
fn renumber(random: &mut Random, lines: &mut [Line<'_>]) {
    if random.below(16) == 0 {
        return;
    }
    for (place, line) in lines.iter_mut().enumerate() {
        line.index = place;
    }
}

/// Changes a history in one thing. Memory may be refused to a line that is repeated.
pub fn change<'a>(random: &mut Random, lines: &mut Vec<Line<'a>>) -> Option<()> {
    let place = place_in(random, lines.len());
    let other = place_in(random, lines.len());
    let line = *lines.get(place)?;
    match random.below(5) {
        0 => {
            lines.remove(place);
        }
        1 => lines.push(line).ok()?,
        2 if place < lines.len() && other < lines.len() => lines.swap(place, other),
        _ => {
            let line = changed(random, line);
            if let Some(old) = lines.get_mut(place) {
                *old = line;
            }
        }
    }
    renumber(random, lines);
    Some(())
}

//! Whether a line is one of a run: a client asks or is answered, an entry of the schedule begins or
//! has ended.

use crate::plain_audit::lines::Line;

/// Whether a text is a whole number that fits 64 bits.
fn is_number(text: &str) -> bool {
    text.parse::<i64>().is_ok()
}

/// What stands between brackets.
fn inside(text: &str) -> Option<&str> {
    text.strip_prefix('[')?.strip_suffix(']')
}

/// The two texts between brackets.
pub(crate) fn pair_in(text: &str) -> Option<(&str, &str)> {
    inside(text)?.split_once(' ')
}

/// Whether a text is two numbers between brackets.
fn is_pair(text: &str) -> bool {
    match pair_in(text) {
        Some((one, other)) => is_number(one) && is_number(other),
        None => false,
    }
}

/// Whether a text is numbers between brackets, or brackets alone.
fn is_vector(text: &str) -> bool {
    match inside(text) {
        Some("") => true,
        Some(numbers) => numbers.split(' ').all(is_number),
        None => false,
    }
}

/// Whether a client asks for this with this value.
fn is_asked(f: &str, value: &str) -> bool {
    match f {
        "read" | "generate" => value == "nil",
        "write" | "add" => is_number(value),
        "cas" => is_pair(value),
        _ => false,
    }
}

/// Whether this value is what a client gets that asked for this.
fn is_got(f: &str, value: &str) -> bool {
    match f {
        "read" => value == "nil" || is_number(value) || is_vector(value),
        "generate" => value == "nil" || is_number(value),
        _ => is_asked(f, value),
    }
}

/// Whether a line says that a client asks or is answered.
fn is_of_client(line: &Line<'_>) -> bool {
    let is_named = line.event.is_some();
    match line.kind {
        "invoke" => !is_named && is_asked(line.f, line.value),
        "ok" => is_named && is_got(line.f, line.value),
        "fail" | "info" => is_named && is_asked(line.f, line.value),
        _ => false,
    }
}

/// Whether a text is a number that is not negative.
fn is_natural(text: &str) -> bool {
    text.parse::<i64>().is_ok_and(|number| number >= 0)
}

/// Whether an entry of the schedule has ended with this value.
fn is_ended(value: &str) -> bool {
    match pair_in(value) {
        Some((entry, code)) => {
            is_natural(entry) && code.parse::<i64>().is_ok_and(|code| (0..8).contains(&code))
        }
        None => false,
    }
}

/// Whether a line says that an entry of the schedule begins or has ended.
fn is_of_nemesis(line: &Line<'_>) -> bool {
    let says = match line.event {
        Some(_) => is_ended(line.value),
        None => is_natural(line.value),
    };
    says && line.kind == "info" && line.f == "step"
}

/// Whether a line at a place is one of a run.
pub(crate) fn has_form(line: &Line<'_>, place: usize) -> bool {
    line.index == place
        && if line.is_nemesis() {
            is_of_nemesis(line)
        } else {
            is_of_client(line)
        }
}

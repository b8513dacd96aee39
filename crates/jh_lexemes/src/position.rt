//! At which line and column a place of a text is.
//!
//! `position_behind` of `specs/Positions.antt` says it.

ghost use Rattle.std.specs.Prelude.{◌≡◌, ◌≤◌, ◌<◌, ◌+◌, ◌^◌, ◌==◌, length, take};
ghost use Rattle.std.specs.List.{count_by};
ghost use Rattle.jh_lexemes.specs.Positions as positions;

/// A line and a column, both from 1.
#[derive(Clone, Copy, Debug, PartialEq, Eq)]
pub struct Position {
    /// One more than the line feeds before the place.
    pub line: u64,
    /// One more than the characters between the start of the line and the place.
    pub column: u64,
}

/// The position behind one byte more.
fn next(position: Position, b: u8) -> Position
    requires line { position.line < 2 ^ 63 }
    requires column { position.column < 2 ^ 63 }
    ensures { result ≡ positions.after_byte position b }
{
    if b == b'\n' {
        return Position {
            line: position.line + 1,
            column: 1,
        };
    }
    if (128..192).contains(&b) {
        return position;
    }
    Position {
        column: position.column + 1,
        ..position
    }
}

/// The position behind these first bytes of a text.
fn position_behind(before: &[u8]) -> Position
    ensures { result ≡ positions.position_behind before.now }
{
    let mut position = Position { line: 1, column: 1 };
    for b in before {
        position = next(position, *b);
    }
    position
}

/// The line and the column of a place, in bytes from the start of the text; of a place behind its
/// end, those of the end.
///
/// Takes time in proportion to what stands before the place.
pub fn position_of(text: &str, place: usize) -> Position
    ensures position { result ≡ positions.position_behind (take place text.now) }
    ensures line { result.line ≡ 1 + count_by (λ c. c == 10) (take place text.now) }
{
    let place = place.min(text.len());
    position_behind(&text.as_bytes()[..place])
}

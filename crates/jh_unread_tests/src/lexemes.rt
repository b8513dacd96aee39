//! Rows of texts with their lexemes, what is open at their ends, and lines and columns.
//!
//! Each test passes, too, where one allocation is refused: what answers so is asked again.

use jh_lexemes::{Position, lexeme_at, open_brackets, position_of};
use std::alloc::Global;
use std::io::Write;

/// The lexemes of a text: of each its kind and how many bytes it takes. None: memory was refused, or
/// a place behind one is none of a character's.
fn lexemes_of(alloc: Global, text: &str) -> Option<Vec<u8>> {
    let mut found = Vec::new(alloc);
    let mut at = 0;
    for _turn in 0..text.len() {
        if !text.is_char_boundary(at) {
            return None;
        }
        let Some((lexeme, end)) = lexeme_at(text, at) else {
            return Some(found);
        };
        write!(found, "{lexeme:?} {}; ", end - at).ok()?;
        at = end;
    }
    Some(found)
}

#[test]
fn texts_have_lexemes(rt: HostRuntime) {
    let alloc = rt.alloc();
    let rows = [
        ("", ""),
        (" ,\t\n", "White 4; "),
        ("; a \"b\n;", "Comment 6; White 1; Comment 1; "),
        ("\"a\\\"b\"c", "Text 6; Token 1; "),
        ("\"\\t\\r\\n\\\\\\b\\f\"", "Text 14; "),
        ("\"a\\qb\" 1", "BadText 6; White 1; Token 1; "),
        ("\"a", "OpenText 2; "),
        ("\"a\\\"", "OpenText 4; "),
        ("\"\\q", "OpenText 3; "),
        (
            "\\a\\space \\",
            "Character 2; Character 6; White 1; Character 1; ",
        ),
        (
            "\\(\\\\\\\"\\;a",
            "Character 2; Character 2; Character 2; Character 3; ",
        ),
        (
            "\\é\\éa \\ b",
            "Character 3; Character 4; White 1; Character 3; ",
        ),
        ("#_1#_#_ a", "Discard 2; Token 5; White 1; Token 1; "),
        (
            "#_ #_[]",
            "Discard 2; White 1; Discard 2; Open(Square) 1; Close(Square) 1; ",
        ),
        ("#a/b.c{", "Tag 6; Open(Curly) 1; "),
        ("#{1}", "OpenSet 2; Token 1; Close(Curly) 1; "),
        (
            "(){}[]",
            "Open(Round) 1; Close(Round) 1; Open(Curly) 1; Close(Curly) 1; Open(Square) 1; Close(Square) 1; ",
        ),
        (
            "##NaN #nil #1a #",
            "Token 5; White 1; Token 4; White 1; Token 3; White 1; Token 1; ",
        ),
        (
            "#\"a\"#(b)",
            "Token 1; Text 3; Token 1; Open(Round) 1; Token 1; Close(Round) 1; ",
        ),
        (
            ":a 1/2 @ é#b'",
            "Token 2; White 1; Token 3; White 1; Token 1; White 1; Token 5; ",
        ),
    ];
    for (text, wanted) in rows {
        let found = lexemes_of(alloc, text).or_else(|| lexemes_of(alloc, text));
        assert!(rt; found.is_some_and(|found| found.as_slice() == wanted.as_bytes()));
    }
}

/// The places of what is open. None: memory was refused.
fn open_in(alloc: Global, text: &str) -> Option<Vec<u8>> {
    let mut written = Vec::new(alloc);
    for place in open_brackets(alloc, text).ok()? {
        write!(written, "{place} ").ok()?;
    }
    Some(written)
}

#[test]
fn brackets_are_open(rt: HostRuntime) {
    let alloc = rt.alloc();
    let rows = [
        ("", ""),
        ("[1 (2 {3", "0 3 6 "),
        ("[(]", "0 "),
        (")] (", "3 "),
        ("{:a #{\"x\" \\] ; ]", "0 4 "),
        ("[\"a]", "0 1 "),
        ("[\"a\\q\"", "0 "),
        ("[\"é\" (", "0 6 "),
    ];
    for (text, wanted) in rows {
        let found = open_in(alloc, text).or_else(|| open_in(alloc, text));
        assert!(rt; found.is_some_and(|found| found.as_slice() == wanted.as_bytes()));
    }
}

#[test]
fn places_have_positions(rt: HostRuntime) {
    let rows = [
        ("", 0, 1, 1),
        ("abc", 0, 1, 1),
        ("abc", 2, 1, 3),
        ("abc", 3, 1, 4),
        ("abc", 9, 1, 4),
        ("a\nbc", 1, 1, 2),
        ("a\nbc", 2, 2, 1),
        ("a\n\nbc", 4, 3, 2),
        ("é€x", 2, 1, 2),
        ("é€x", 5, 1, 3),
        ("é€x", 6, 1, 4),
        ("\r\n\u{1f600}\n", 6, 2, 2),
        ("\r\n\u{1f600}\n", 7, 3, 1),
    ];
    for (text, place, line, column) in rows {
        assert_eq!(rt; position_of(text, place), Position { line, column });
    }
}

//! Texts by themselves, and a writer that fails.

use crate::narrow::Narrow;
use crate::pages::rows::{asked, write_asked};
use jh_timeline_pages::{LANE_WIDTH, PageError, ROW_HEIGHT, escaped_text_is_inert, write_escaped};
use std::alloc::Global;
use std::test::Fail;

/// A row for a page with all that a page can have.
const ALL: &str = "{:valid? false}\n& below\n#\n0 0\n# key 1\n0 4; 0 outside -1 2; 1 pending 7\n\
    {:type :invoke, :process 0, :f :read, :value nil}\n\
    {:type :info, :process :nemesis, :f :start, :value (\"&\" 1)}\n\
    {:type :ok, :process 0, :f :read, :value 5}\n\
    {:type :invoke, :process 3, :f :add, :value [1 2]}";

/// What a page comes to where the writer takes so many bytes; asked once more where memory was
/// refused.
fn written(alloc: Global, left: usize) -> Result<(), PageError> {
    match write_asked(alloc, ALL, &mut Narrow { left }) {
        Err(PageError::OutOfMemory) => write_asked(alloc, ALL, &mut Narrow { left }),
        written => written,
    }
}

#[test]
fn says_that_the_writer_failed(rt: HostRuntime) -> Result<(), Fail> {
    let length = asked(rt.alloc(), ALL).ok_or("no page")?.len();
    for left in 0..length {
        let found = written(rt.alloc(), left);
        assert_eq!(rt; found, Err(PageError::Write), "at {left}");
    }
    assert_eq!(rt; written(rt.alloc(), length), Ok(()));
    Ok(())
}

/// A text as it stands in a page. None: memory was refused.
fn escaped(alloc: Global, text: &str) -> Option<Vec<u8>> {
    let mut escaped = Vec::new(alloc);
    write_escaped(text, &mut escaped).ok()?;
    Some(escaped)
}

/// Texts, each with what a page has in its place.
const ESCAPED: [(&str, &str); 5] = [
    ("", ""),
    (
        "<a href='b'>&amp;\"",
        "&lt;a href=&#39;b&#39;&gt;&amp;amp;&quot;",
    ),
    (
        "\0\t\n\r\u{1f} \u{7e}\u{7f}\u{9f}\u{a0}",
        "\\u{0}\\u{9}\n\\u{d}\\u{1f} ~\\u{7f}\\u{9f}\u{a0}",
    ),
    (
        "\u{e9}\u{fffd}\u{fffe}\u{ffff}\u{1d11e}",
        "\u{e9}\u{fffd}\\u{fffe}\\u{ffff}\u{1d11e}",
    ),
    (
        "\u{200a}\u{200b}\u{200f}\u{2010}\u{2029}\u{202a}\u{202e}\u{202f}\u{2065}\u{2066}\u{2069}\u{206a}\u{feff}",
        "\u{200a}\\u{200b}\\u{200f}\u{2010}\u{2029}\\u{202a}\\u{202e}\u{202f}\u{2065}\\u{2066}\\u{2069}\u{206a}\\u{feff}",
    ),
];

#[test]
fn escapes_texts(rt: HostRuntime) -> Result<(), Fail> {
    for (text, expected) in ESCAPED {
        let found = match escaped(rt.alloc(), text) {
            None => escaped(rt.alloc(), text),
            found => found,
        };
        let found = found.ok_or("no text")?;
        assert_eq!(rt; found.as_slice(), expected.as_bytes());
    }
    escaped_text_is_inert();
    Ok(())
}

/// Whether an error has this message; asked once more where memory was refused.
fn is_given(alloc: Global, error: PageError, expected: &str) -> bool {
    let given = match error.to_string(alloc) {
        Err(_) => error.to_string(alloc).ok(),
        Ok(given) => Some(given),
    };
    given.is_some_and(|given| given.as_str() == expected)
}

#[test]
fn says_why_there_is_no_page(rt: HostRuntime) {
    assert!(rt; is_given(rt.alloc(), PageError::Write, "write failed"));
    assert!(rt; is_given(rt.alloc(), PageError::OutOfMemory, "out of memory"));
    assert_eq!(rt; (LANE_WIDTH, ROW_HEIGHT), (240, 16));
}

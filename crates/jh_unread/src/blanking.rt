//! Blanks in place of what can't be read.
//!
//! `specs/Blanks.antt` says it.

ghost use Rattle.std.specs.Prelude.{◌≡◌, map, length};
ghost use Rattle.jh_unread.specs.Blanks as blanks;

/// Makes all bytes blank but for line feeds.
fn blank(bytes: &mut [u8])
    ensures { bytes.new ≡ map blanks.blank bytes.old }
{
    for b in bytes.iter_mut() {
        if *b != b'\n' {
            *b = b' ';
        }
    }
}

/// Makes all bytes blank that stand behind so many, but for line feeds.
pub(crate) fn blank_behind(out: &mut Vec<u8>, start: usize)
    ensures items { out.new.items ≡ blanks.blank_behind start out.old.items }
    ensures length { length out.new.items ≡ length out.old.items }
{
    if start < out.len() {
        blank(&mut out[start..]);
    }
}

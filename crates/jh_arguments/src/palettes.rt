//! The kinds of faults that an option of `search` names. `specs/Palettes.antt` has the rule. A new kind
//! is a line here and there, and a name in these texts: the default of `--palette` in `line.rt` and in
//! `specs/Line.antt`, the help of `search` in `help.rt`, and the messages of `BadPalette` in
//! `jh_cli` and `jh_drive`, each in `src/error.rt` and in `specs/` (`Status.antt`,
//! `DriveErrors.antt`).

ghost use Rattle.std.specs.Prelude.{◌≡◌};
ghost use Rattle.jh_arguments.specs.Palettes as rule;

use jh_random_faults::Palette;
use jh_step_texts::FaultKind;

/// Whether a kind has this name.
fn is_kind_name(name: &str) -> bool
    ensures { result ≡ rule.is_kind_name name.now }
{
    FaultKind::named(name).is_some()
}

/// Whether a text names kinds, and nothing else.
fn names_kinds(text: &str) -> bool
    ensures { result ≡ rule.names_kinds text.now }
{
    text.split(',').all(|name| is_kind_name(name))
}

/// Whether a text names this kind.
fn names_kind(text: &str, kind: &str) -> bool
    ensures { result ≡ rule.names_kind text.now kind.now }
{
    text.split(',').any(|name| name == kind)
}

/// The palette that a text names: names of kinds, in any order, with commas between and nothing
/// else. None where one is no name of a kind.
pub fn palette_named(text: &str) -> Option<Palette>
    ensures { result ≡ rule.palette_named text.now }
{
    if !names_kinds(text) {
        return None;
    }
    Some(Palette {
        cut: names_kind(text, "cut"),
        slow: names_kind(text, "slow"),
        loss: names_kind(text, "loss"),
        fix: names_kind(text, "fix"),
        pause: names_kind(text, "pause"),
        kill: names_kind(text, "kill"),
        bump: names_kind(text, "bump"),
    })
}

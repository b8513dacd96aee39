//! Settings behind a comment. `specs/Comments.antt` says what may stand in one.

ghost use Rattle.std.specs.Prelude.{◌≡◌, ◌≤◌, IfOk, List, ℕ, string_bytes};
ghost use Rattle.jh_settings.specs.Limits.{max_budget};
ghost use Rattle.jh_settings.specs.Settings.{AreSettingsOf};
ghost use Rattle.jh_settings.specs.declared.choices.Mode.{Mode};
ghost use Rattle.jh_settings_texts.specs.Comments.{IsComment, behind_comment};
ghost use Rattle.jh_settings_texts.specs.SettingsWritten.{CanBeWritten, plan_in_order};

use crate::settings::settings_to_text;
use jh_simnode::Plan;
use std::alloc::{AllocError, Global};

/// What `settings_to_text` writes, behind a line that is a comment: `#`, these characters and a line
/// feed. It is read back as the same plan.
///
/// Takes time and memory in proportion to the text.
///
/// Errors: out of memory.
pub fn settings_behind(
    alloc: Global,
    comment: &str,
    plan: &Plan,
    budget: u64,
) -> Result<String, AllocError>
    requires can { CanBeWritten plan.now }
    requires few { budget ≤ max_budget }
    requires comment { IsComment comment.now }
    ensures behind { IfOk result (λ text. (document : List ℕ)
        × (string_bytes text ≡ behind_comment comment.now document)) }
    ensures read_back { IfOk result
        (λ text. AreSettingsOf (string_bytes text) (plan_in_order plan.now) Mode.Serial budget) }
{
    let settings = settings_to_text(alloc, plan, budget)?;
    format!(in alloc; "#{comment}\n{settings}")
}

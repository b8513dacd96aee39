//! What a page says where its input has another verdict. `specs/Notices.antt` has the rule.

ghost use Rattle.std.specs.Prelude.{◌≡◌, IfOk};
ghost use Rattle.jh_cli.specs.Notices as rule;

use jh_check::Verdict;
use jh_checkers::Judging;
use jh_reports::status_of;
use std::alloc::{AllocError, Global};

/// A verdict as the line of a checker has it.
fn written_verdict(verdict: Verdict) -> &'static str
    ensures { result.now ≡ rule.written_verdict verdict }
{
    match verdict {
        Verdict::True => "true",
        Verdict::False => "false",
        Verdict::Unknown => ":unknown",
    }
}

/// That the input says this verdict, and the page another one.
fn differing_text(alloc: Global, said: Verdict) -> Result<Vec<u8>, AllocError>
    ensures { IfOk result (λ text. text.items ≡ rule.differing_text said) }
{
    let word = written_verdict(said);
    let text = format!(in alloc;
        "The input says {{:valid? {word}}}, and this page judged it otherwise: \
         were --initial, --model and --workload those of the run?"
    )?;
    Ok(text.into_bytes())
}

/// What a page says that has this exit status, where its input says a verdict. Empty: nothing.
pub(crate) fn notice_of(
    alloc: Global,
    judging: Option<Judging<'_>>,
    status: u8,
    said: Option<Verdict>,
) -> Result<Vec<u8>, AllocError>
    ensures { IfOk result (λ text. text.items ≡ rule.notice_of judging.entry status said) }
{
    match (judging, said) {
        (Some(_), Some(said)) if status_of(said) != status => differing_text(alloc, said),
        _ => Ok(Vec::new(alloc)),
    }
}

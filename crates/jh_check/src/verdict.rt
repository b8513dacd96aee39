//! What a checker says of a history, and of several together. `specs/Verdicts.antt` has the rule.

ghost use Rattle.std.specs.Prelude.{◌≡◌};
ghost use Rattle.std.specs.List.{list_any};
ghost use Rattle.jh_check.specs.Verdicts as rule;
ghost use Rattle.jh_check.specs.Verdicts.{is_false, is_unknown, merged_verdict};

/// What a checker says of a history (`:valid?`).
#[derive(Clone, Copy, Debug, PartialEq, Eq)]
pub enum Verdict {
    /// Nothing speaks against it.
    True,
    /// The checker has no answer: the history lacks what it needs, or its budget was used up.
    Unknown,
    /// It shows that the database is wrong.
    False,
}

/// Whether nothing speaks against it, for a checker that always has an answer.
pub(crate) fn verdict_of(valid: bool) -> Verdict
    ensures { result ≡ rule.verdict_of valid }
{
    if valid { Verdict::True } else { Verdict::False }
}

/// Whether one of them is `False`.
fn has_false(verdicts: &[Verdict]) -> bool
    ensures { result ≡ list_any is_false verdicts.now }
{
    verdicts
        .iter()
        .any(|verdict| matches!(verdict, Verdict::False))
}

/// Whether one of them is `Unknown`.
fn has_unknown(verdicts: &[Verdict]) -> bool
    ensures { result ≡ list_any is_unknown verdicts.now }
{
    verdicts
        .iter()
        .any(|verdict| matches!(verdict, Verdict::Unknown))
}

/// The verdict on several together, as Jepsen merges them: `False` where there is one, else
/// `Unknown` where there is one, else `True`, also where there are none.
///
/// Takes no memory, and one pass or two, O(n).
pub fn merge(verdicts: &[Verdict]) -> Verdict
    ensures { result ≡ merged_verdict verdicts.now }
{
    if has_false(verdicts) {
        Verdict::False
    } else if has_unknown(verdicts) {
        Verdict::Unknown
    } else {
        Verdict::True
    }
}

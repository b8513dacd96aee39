//! What checkers find, by the equality of EDN.

ghost use Rattle.std.specs.Prelude.{◌≡◌, ◌↔◌, ℕ, List, Contains, IsSomeAnd, Some};
ghost use Rattle.jh_edn.specs.Edn.{Edn};
ghost use Rattle.jh_ops.specs.Operation.{Operation};
ghost use Rattle.jh_check.specs.IdsResults.{ids_result};
ghost use Rattle.jh_check.specs.SetResults.{elements_read, set_result};
ghost use Rattle.jh_check.specs.declared.verdict.Verdict.TheVariants.{True};
ghost use Rattle.jh_laws.specs.EqualResults.{CanPrintEach, IsRepeated, IsSetFound, IsWholeSet};
ghost use Rattle.jh_laws.specs.EqualResults.{LastReadShows, AreUnequal, ids_given};
ghost use Rattle.jh_laws.specs.HistoryLines.{IsTextOfHistory};

use jh_check::same_values_are_equal;
use jh_edn::{normal_laws, print_laws};

/// Unique ids are judged by the ids that were given, as they stand in the history and equal as EDN
/// says, where these can be printed. The verdict is true exactly where no two of them are equal. An
/// id is reported as duplicated, with a number, exactly where it is the normal form of one that was
/// given so many times, more than once.
pub fn ids_are_judged_by_equality()
    ensures verdict { (history : List Operation) → CanPrintEach (ids_given history)
        → (((ids_result history).verdict ≡ True) ↔ AreUnequal (ids_given history)) }
    ensures duplicated { (history : List Operation) (id : Edn) (times : ℕ)
        → CanPrintEach (ids_given history)
        → (Contains (ids_result history).duplicated (id, times)
        ↔ IsRepeated (ids_given history) id times) }
{
    same_values_are_equal();
    normal_laws()
}

/// A set is judged by the elements that were added and those that the last read shows, as they
/// stand in the history and equal as EDN says, where these can be printed. The verdict is true
/// exactly where each element that is known to have been added is equal to one that was read, and
/// each that was read to one that was attempted. What is recorded as `ok`, `unexpected`, `lost` and
/// `recovered` are the normal forms of those elements of which that holds.
pub fn sets_are_judged_by_equality()
    ensures verdict { (history : List Operation) (read : List Edn) → LastReadShows history read
        → (((set_result history).verdict ≡ True) ↔ IsWholeSet history read) }
    ensures found { (history : List Operation) (read : List Edn) → LastReadShows history read
        → IsSomeAnd (set_result history).found (IsSetFound history read) }
{
    same_values_are_equal();
    normal_laws()
}

/// Of a history that was read of bytes the two laws above speak: the ids that were given can be
/// printed, and so can the elements that were added and those that the last read shows.
pub fn read_histories_are_judged_by_equality()
    ensures ids { (bytes : List ℕ) (history : List Operation) → IsTextOfHistory bytes history
        → CanPrintEach (ids_given history) }
    ensures sets { (bytes : List ℕ) (history : List Operation) (read : List Edn)
        → IsTextOfHistory bytes history → elements_read history ≡ Some read
        → LastReadShows history read }
{
    print_laws()
}

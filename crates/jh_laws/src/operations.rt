//! Operations and histories, written and read as bytes.

ghost use Rattle.std.specs.Prelude.{◌≡◌, ℕ, List, [], All, Ok, map};
ghost use Rattle.jh_edn.specs.Edn.{Edn, members_of};
ghost use Rattle.jh_edn.specs.Equality.{KeysDiffer};
ghost use Rattle.jh_edn.specs.Printable.{IsPrintable};
ghost use Rattle.jh_edn.specs.Spelling.{depth_limit};
ghost use Rattle.jh_ops.specs.Operation.{Operation};
ghost use Rattle.jh_ops.specs.OperationText.{parsed_op};
ghost use Rattle.jh_ops.specs.OperationWritten.{pairs_written, value_written};
ghost use Rattle.jh_ops.specs.HistoryWritten.{history_lines};
ghost use Rattle.jh_laws.specs.HistoryLines.{CanPrint, IsTextOfHistory};
ghost use Rattle.jh_laws.specs.Lines.{ReadsBack};

use crate::lines::lines_read_back;
use jh_edn::{print_laws, spelled_once};
use jh_ops::operations_read_back;

/// Where an operation can be printed, the value that is written of it can be printed. The lines of a history
/// of such operations spell their values and nothing else. The operation of a value that can be
/// printed, as each value that was read can, can be printed. An operation without other keys has no key
/// twice, and is parsed from the value that is written of it.
pub fn operation_lines_read_back()
    ensures printable { (op : Operation) → CanPrint op
        → IsPrintable depth_limit (value_written op) }
    ensures lines { (history : List Operation) → All CanPrint history
        → ReadsBack (map value_written history) (history_lines history) }
    ensures parsed { (value : Edn) (op : Operation) → IsPrintable depth_limit value
        → parsed_op value ≡ Ok op → CanPrint op }
    ensures bare { (op : Operation) → op.rest ≡ []
        → KeysDiffer (members_of (pairs_written op)) × (parsed_op (value_written op) ≡ Ok op) }
{
    lines_read_back()
}

/// A history that was read of bytes is read again of its lines. So is a history of operations that
/// can be printed and have no other keys, as those that a program makes. And bytes are a text of
/// one history at most.
pub fn histories_read_back()
    ensures again { (bytes : List ℕ) (history : List Operation) → IsTextOfHistory bytes history
        → IsTextOfHistory (history_lines history) history }
    ensures made { (history : List Operation) → All (λ op. CanPrint op × (op.rest ≡ [])) history
        → IsTextOfHistory (history_lines history) history }
    ensures one { (bytes : List ℕ) (history others : List Operation) → IsTextOfHistory bytes history
        → IsTextOfHistory bytes others → others ≡ history }
{
    print_laws();
    spelled_once();
    operations_read_back();
    operation_lines_read_back()
}

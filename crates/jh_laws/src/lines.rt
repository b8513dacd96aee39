//! Values, each printed on a line.

ghost use Rattle.std.specs.Prelude.{List, All};
ghost use Rattle.jh_edn.specs.Edn.{Edn};
ghost use Rattle.jh_edn.specs.Printable.{IsPrintable};
ghost use Rattle.jh_edn.specs.Spelling.{depth_limit};
ghost use Rattle.jh_laws.specs.Lines.{lines_of, ReadsBack};

use jh_edn::spelled_once;

/// Values that can be printed, each printed on a line, are what these lines spell, and nothing else
/// is.
pub fn lines_read_back()
    ensures { (values : List Edn) → All (IsPrintable depth_limit) values
        → ReadsBack values (lines_of values) }
{
    spelled_once()
}

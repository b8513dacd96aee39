//! A law of the definitions, the clause of a function that does nothing but name laws of values.

ghost use Rattle.std.specs.Prelude.{IsTrue};
ghost use Rattle.jh_edn.specs.Edn.{Edn};
ghost use Rattle.jh_edn.specs.Equality.{Equals};
ghost use Rattle.jh_edn.specs.Normal.{normal};
ghost use Rattle.jh_edn.specs.Printable.{IsPrintable};
ghost use Rattle.jh_edn.specs.Spelling.{depth_limit};
ghost use Rattle.jh_check.specs.Distinct.{is_same};

use jh_edn::{equality_laws, normal_laws, order_laws};

/// Values that a checker takes for one, by their normal forms, are equal as EDN says; and those
/// that are equal and can be printed, as all values that were read, are taken for one.
pub fn same_values_are_equal()
    ensures equal { (x y : Edn) → IsTrue (is_same (normal x) (normal y)) → Equals x y }
    ensures same { (x y : Edn) → IsPrintable depth_limit x → IsPrintable depth_limit y → Equals x y
        → IsTrue (is_same (normal x) (normal y)) }
{
    equality_laws();
    normal_laws();
    order_laws()
}

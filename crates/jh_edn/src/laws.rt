//! Laws of the definitions, each the clause of a function that does nothing.

ghost use Rattle.std.specs.Prelude.{◌≡◌, ◌↔◌, ℕ, List, [], ◌∷◌, All, IsTrue, Ok};
ghost use Rattle.jh_edn.specs.Edn.{Edn};
ghost use Rattle.jh_edn.specs.Equality.{Equals};
ghost use Rattle.jh_edn.specs.Fingerprint.{fingerprint};
ghost use Rattle.jh_edn.specs.Lines.{values_in};
ghost use Rattle.jh_edn.specs.Normal.{normal, is_normal};
ghost use Rattle.std.specs.Cmp.{IsTotalOrder};
ghost use Rattle.std.specs.declared.cmp.Ordering.TheVariants.{Equal};
ghost use Rattle.jh_edn.specs.Order.{edn_cmp};
ghost use Rattle.jh_edn.specs.Print.{print};
ghost use Rattle.jh_edn.specs.Printable.{IsPrintable};
ghost use Rattle.jh_edn.specs.Spelling.{depth_limit, SpellsAll};

/// A text spells at most one list of values.
pub fn spelled_once()
    ensures { (text : List ℕ) (xs ys : List Edn) → SpellsAll xs text → SpellsAll ys text → xs ≡ ys }
{}

/// Reading a text gives the values that it spells, and an error exactly where it spells none.
pub fn values_are_spelled()
    ensures { (text : List ℕ) (values : List Edn)
        → (values_in text ≡ Ok values) ↔ SpellsAll values text }
{}

/// Equality of values is an equivalence, and equal values have one fingerprint.
pub fn equality_laws()
    ensures reflexive { (x : Edn) → Equals x x }
    ensures symmetric { (x y : Edn) → Equals x y → Equals y x }
    ensures transitive { (x y z : Edn) → Equals x y → Equals y z → Equals x z }
    ensures numbered { (x y : Edn) → Equals x y → fingerprint x ≡ fingerprint y }
{}

/// Every value has a normal form, equal ones that can be printed have one, and what is in normal
/// form is printed so that it is read back.
pub fn normal_laws()
    ensures keeps { (x : Edn) → Equals x (normal x) }
    ensures normal { (x : Edn) → IsPrintable depth_limit x → IsTrue (is_normal (normal x)) }
    ensures printable { (x : Edn) → IsTrue (is_normal x) → IsPrintable depth_limit x }
    ensures one { (x y : Edn) → IsPrintable depth_limit x → IsPrintable depth_limit y → Equals x y
        → normal x ≡ normal y }
{}

/// The order of values is total, values that rank equal are equal, and of values in normal form
/// only one ranks equal to itself.
pub fn order_laws()
    ensures total { IsTotalOrder edn_cmp }
    ensures tied { (x y : Edn) → edn_cmp x y ≡ Equal → Equals x y }
    ensures exact { (x y : Edn) → IsTrue (is_normal x) → IsTrue (is_normal y) → edn_cmp x y ≡ Equal
        → x ≡ y }
{}

/// What is printed of a value that can be printed spells that value and no other, and what a text
/// spells can be printed.
pub fn print_laws()
    ensures spells { (x : Edn) → IsPrintable depth_limit x → SpellsAll (x ∷ []) (print x) }
    ensures alone { (x : Edn) (ys : List Edn) → IsPrintable depth_limit x → SpellsAll ys (print x)
        → ys ≡ x ∷ [] }
    ensures spelled { (text : List ℕ) (xs : List Edn) → SpellsAll xs text
        → All (IsPrintable depth_limit) xs }
{}

//! What numbers tell apart. Each law is the clause of a function that does nothing.

ghost use Rattle.std.specs.Prelude.{◌≡◌, ℕ, List, IsTrue};
ghost use Rattle.std.specs.List.{IsDistinct};
ghost use Rattle.jh_edn.specs.Edn.{Edn};
ghost use Rattle.jh_numbers.specs.Numbers.{HasNumber, is_same_owned, with_value};

/// Values that are one have one number, values with one number are one, and a number stays whatever comes behind.
pub fn number_laws()
    ensures told { (values : List (ℕ × Edn)) (one other : ℕ × Edn) (number : ℕ)
        → HasNumber values one number → HasNumber values other number
        → IsTrue (is_same_owned one other) }
    ensures alike { (values : List (ℕ × Edn)) (one other : ℕ × Edn) (first second : ℕ)
        → IsDistinct is_same_owned values → HasNumber values one first → HasNumber values other second
        → IsTrue (is_same_owned one other) → first ≡ second }
    ensures stays { (values : List (ℕ × Edn)) (one other : ℕ × Edn) (number : ℕ)
        → HasNumber values one number → HasNumber (with_value values other) one number }
{}

//! What stands under a keyword among the pairs of a map.

ghost use Rattle.std.specs.Prelude.{◌≡◌, find, option_copied, option_map};
ghost use Rattle.jh_edn.specs.Edn as edn;
ghost use Rattle.jh_edn.specs.Edn.{is_keyword};
ghost use Rattle.jh_edn.specs.View.{view, view_pairs};

use crate::value::Value;

/// The first pair whose key is the keyword of this name, if there is one.
fn find_pair<'a>(name: &str, pairs: &'a [(Value, Value)]) -> Option<&'a (Value, Value)>
    ensures { option_copied result ≡ find (λ pair. is_keyword name.now (view pair.0)) pairs.now }
{
    pairs.iter().find(|pair| pair.0.is_keyword(name))
}

/// The value under the keyword of this name, without its colon: that of the first pair whose key is
/// the keyword, if there is one. Looks at the pairs one by one, in their order.
pub fn value_under<'a>(name: &str, pairs: &'a [(Value, Value)]) -> Option<&'a Value>
    ensures { option_map (λ value. view value.now) result
        ≡ edn.value_under name.now (view_pairs pairs.now) }
{
    let pair = find_pair(name, pairs)?;
    Some(&pair.1)
}

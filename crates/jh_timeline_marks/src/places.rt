//! Where numbers stand in a list.

ghost use Rattle.std.specs.Prelude.{◌≡◌, ℕ, IfOk, option_and_then};
ghost use Rattle.std.specs.BTreeMap.{get};
ghost use Rattle.std.specs.Ordering.{nat_cmp};
ghost use Rattle.jh_timeline_marks.specs.Marked.{place_among};

use std::alloc::{AllocError, Global};
use std::collections::BTreeMap;

/// The place of a number, if it has one.
pub(crate) fn place_of(places: &BTreeMap<usize, usize>, number: usize) -> Option<usize>
    ensures { result ≡ get nat_cmp places.now number }
{
    places.get(&number).copied()
}

/// The place in a second list of what has its number in a first one, if it has one.
pub(crate) fn place_through(
    numbers: &BTreeMap<usize, usize>,
    places: &BTreeMap<usize, usize>,
    index: usize,
) -> Option<usize>
    ensures { result ≡ option_and_then (get nat_cmp places.now) (get nat_cmp numbers.now index) }
{
    let number = place_of(numbers, index)?;
    place_of(places, number)
}

/// The first place of each number.
pub(crate) fn places_of(
    alloc: Global,
    numbers: &[usize],
) -> Result<BTreeMap<usize, usize>, AllocError>
    ensures { IfOk result
        (λ places. (number : ℕ) → get nat_cmp places number ≡ place_among numbers.now number) }
{
    let mut places = BTreeMap::new(alloc);
    let mut place = numbers.len();
    while place > 0 {
        place -= 1;
        places.insert(numbers[place], place)?;
    }
    Ok(places)
}

//! Keys, sorted.

ghost use Rattle.std.specs.Prelude.{◌≡◌, ◌<◌, ℕ, IfOk, length, slice_index_or};
ghost use Rattle.jh_fifo.specs.Sorted.{AreSortedKeys};

use std::alloc::{AllocError, Global};

/// The keys with their indexes, the least first.
pub(crate) fn sorted(alloc: Global, keys: &[u128]) -> Result<Vec<(u128, usize)>, AllocError>
    ensures { IfOk result (λ entries. AreSortedKeys keys.now entries.items) }
{
    let mut entries = Vec::new(alloc);
    for index in 0..keys.len() {
        entries.push((keys[index], index))?;
    }
    entries.sort()?;
    Ok(entries)
}

/// The index of a key, by where it stands.
pub(crate) fn index_at(entries: &[(u128, usize)], number: usize) -> usize
    requires { number < length entries.now }
    ensures { result ≡ (slice_index_or entries.now number (0, 0)).1 }
{
    entries[number].1
}

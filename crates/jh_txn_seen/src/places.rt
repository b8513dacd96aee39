//! Who appends an element, by the table of writers.

ghost use Rattle.std.specs.Prelude.{◌≡◌};
ghost use Rattle.jh_txn_seen.specs.Places.{writer_place};

use jh_txn_writers::Writer;

/// The place of the transaction that appends an element to a key, if there is one. Takes constant
/// time.
pub fn writer_of(writers: &[Option<Writer>], key: usize, element: usize) -> Option<usize>
    ensures { result ≡ writer_place writers.now key element }
{
    match writers.get(element) {
        Some(Some(writer)) if writer.key == key => Some(writer.place),
        _ => None,
    }
}

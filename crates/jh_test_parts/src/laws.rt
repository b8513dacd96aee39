//! That the limits of the code are those of the definitions. `specs/Limits.antt` has the numbers.

ghost use Rattle.std.specs.Prelude.{◌≡◌};
ghost use Rattle.jh_test_parts.specs.Limits.{max_key_appends, max_test_entries};
ghost use Rattle.jh_test_parts.specs.Limits.{max_transaction_keys, max_transaction_ops};

use crate::parts::{MAX_KEY_APPENDS, MAX_TRANSACTION_KEYS, MAX_TRANSACTION_OPS};
use crate::test::MAX_TEST_ENTRIES;

/// The limits that code can name are the numbers of the definitions.
pub fn limits()
    ensures entries { MAX_TEST_ENTRIES ≡ max_test_entries }
    ensures keys { MAX_TRANSACTION_KEYS ≡ max_transaction_keys }
    ensures ops { MAX_TRANSACTION_OPS ≡ max_transaction_ops }
    ensures appends { MAX_KEY_APPENDS ≡ max_key_appends }
{}

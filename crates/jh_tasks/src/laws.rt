//! That the limit of the code is that of the definitions, `specs/Threads.antt`.

ghost use Rattle.std.specs.Prelude.{◌≡◌};
ghost use Rattle.jh_tasks.specs.Threads.{max_threads};

use crate::tasks::MAX_THREADS;

/// The limit that code can name is the number of the definitions.
pub fn limits()
    ensures threads { MAX_THREADS ≡ max_threads }
{}

//! The least candidate that fails. `specs/Search.antt` says what is found.

ghost use Rattle.std.specs.Prelude.{◌<◌, ◌+◌, ◌^◌, IfOk};
ghost use Rattle.jh_search.specs.Search.{IsSearched};

use crate::options::Options;
use crate::verdicts::verdict_at;
use jh_check::Verdict;
use jh_simnode::Plan;
use std::alloc::{AllocError, Global};

/// What a search finds.
#[derive(Clone, Copy, Debug, PartialEq, Eq)]
pub struct Searched {
    /// The number of the least candidate that fails, where one does.
    pub failing: Option<u64>,
    /// Of how many candidates below it the verdict is unknown; where none fails, of how many in
    /// all.
    pub unknown: u64,
}

/// Tries candidates one after another, up to the first that fails.
///
/// Takes the time of each run and of its judge, and memory for one at a time.
///
/// Error: memory was refused.
pub fn search_serial(alloc: Global, plan: &Plan, options: &Options) -> Result<Searched, AllocError>
    requires { options.now.from + options.now.runs < 2 ^ 64 }
    ensures { IfOk result (IsSearched plan.now options.now) }
{
    let mut unknown = 0;
    for index in 0..options.runs {
        let number = options.from + index;
        match verdict_at(alloc, plan, options, number)? {
            Verdict::False => {
                return Ok(Searched {
                    failing: Some(number),
                    unknown,
                });
            }
            Verdict::True => {}
            Verdict::Unknown => unknown += 1,
        }
    }
    Ok(Searched {
        failing: None,
        unknown,
    })
}

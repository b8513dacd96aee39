//! What a search takes. `specs/Candidates.antt` and `specs/Search.antt` say what its fields
//! mean.

use jh_random_faults::Palette;

/// What a search takes beside a plan: which candidates are made and tried, and by which budget each is
/// judged. On how many threads they are tried is no option, for the answer is the same. What a
/// command line asks is `jh_cli::SearchQuestion`: its kinds may be unknown, where a name is none of
/// a kind, and it may ask to show one candidate.
#[derive(Clone, Copy, Debug, PartialEq, Eq)]
pub struct Options {
    /// The number of the first candidate.
    pub from: u64,
    /// How many candidates are tried at most.
    pub runs: u64,
    /// How many random faults each has among the entries of the plan, where there is room for them.
    pub faults: u32,
    /// Of which kinds these are.
    pub palette: Palette,
    /// How many configurations the judge of a register may reach for each.
    pub budget: u64,
}

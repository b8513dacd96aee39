//! Which candidates are tried. `specs/DriveSearch.antt` says what the fields mean.

use jh_random_faults::Palette;

/// Which candidates of a test are made and tried. How each is judged stands in the settings of the test.
#[derive(Clone, Copy, Debug, PartialEq, Eq)]
pub struct TrialOptions {
    /// The number of the first candidate.
    pub from: u64,
    /// How many candidates are tried at most.
    pub runs: u64,
    /// How many random faults each has among the entries of the test, where there is room for them.
    pub faults: u32,
    /// Of which kinds these are.
    pub palette: Palette,
}

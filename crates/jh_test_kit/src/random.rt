//! Numbers that look random, by the generator that runs use, where a row of 2^31 is too short.

use rand_core::utils::NextWord;
use rand_pcg::Lcg128Xsl64;

/// A row of random numbers.
#[derive(Drop)]
pub struct Random {
    numbers: Lcg128Xsl64,
}

impl Random {
    /// The row of a seed.
    pub fn new(seed: u64) -> Random {
        Random {
            numbers: Lcg128Xsl64::new(u128::from(seed), 0),
        }
    }

    /// A number below a bound, and 0 where there is none.
    pub fn below(&mut self, bound: u64) -> u64 {
        self.numbers.next_word().checked_rem(bound).unwrap_or(0)
    }

    /// Whether a number below four is below this one: never at 0, always at 4.
    pub fn is_within(&mut self, of_four: u64) -> bool {
        self.below(4) < of_four
    }

    /// A number from the least to the most, often one of these two.
    pub fn amount(&mut self, least: u64, most: u64) -> u64 {
        let width = most.saturating_sub(least).saturating_add(1);
        match self.below(4) {
            0 => least,
            1 => most,
            _ => least.saturating_add(self.below(width)),
        }
    }

    /// A number other than 0, at most so far from it, either way.
    pub fn offset(&mut self, most: u64) -> i64 {
        let amount = i64::try_from(self.amount(1, most)).unwrap_or(1);
        match self.below(2) {
            0 => amount,
            _ => 0i64.saturating_sub(amount),
        }
    }
}

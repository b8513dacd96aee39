//! The random numbers of a candidate. `specs/Draws.antt` says which each fault has.

ghost use Rattle.std.specs.Prelude.{◌≡◌, ◌+◌, ◌<◌, ◌^◌, ℕ};
ghost use Rattle.jh_random_faults.specs.Draws as rule;
ghost use Rattle.jh_random_faults.specs.Draws.{draw_from, numbers_after, random_number};

use rand_core::utils::NextWord;
use rand_pcg::Lcg128Xsl64;

/// The stream of the random numbers of a candidate; a serial run has stream 0.
const CANDIDATE_STREAM: u128 = 1;

/// The random numbers that one fault is made of, any of 64 bits, and what each chooses.
#[derive(Clone, Copy, Debug)]
pub struct Draw {
    /// Which kind of those that are drawn.
    pub kind: u64,
    /// How many nodes, or which links.
    pub shape: u64,
    /// Which nodes: the seed of their shuffle.
    pub order: u64,
    /// By how much: of a delay, a loss, or a clock that is moved.
    pub amount: u64,
    /// When it begins.
    pub begin: u64,
    /// Whether it is never withdrawn.
    pub stay: u64,
    /// How long it lasts otherwise.
    pub length: u64,
}

/// The seed of the candidate of a number, from 0, of what has the given seed: raised by the number.
/// Behind 2^63 - 1, the greatest seed that settings may have, comes 0.
pub fn candidate_seed(seed: u64, number: u64) -> u64
    ensures seed { result ≡ rule.candidate_seed seed number }
    ensures small { result < 2 ^ 63 }
{
    let raised = u128::from(seed) + u128::from(number);
    (raised % (1 << 63)) as u64
}

/// The random numbers of a candidate with this seed, before the first.
pub fn numbers_of(seed: u64) -> Lcg128Xsl64
    ensures { result ≡ numbers_after seed 0 }
{
    Lcg128Xsl64::new(u128::from(seed), CANDIDATE_STREAM)
}

/// The next random number, any of 64 bits.
pub fn next_number(numbers: &mut Lcg128Xsl64) -> u64
    ensures { (seed n : ℕ) → numbers.old ≡ numbers_after seed n
        → (result ≡ random_number seed n) × (numbers.new ≡ numbers_after seed (n + 1)) }
{
    numbers.next_word()
}

/// The random numbers of the next fault: the next seven.
pub fn next_draw(numbers: &mut Lcg128Xsl64) -> Draw
    ensures { (seed n : ℕ) → numbers.old ≡ numbers_after seed n
        → (result ≡ draw_from seed n) × (numbers.new ≡ numbers_after seed (n + 7)) }
{
    Draw {
        kind: next_number(numbers),
        shape: next_number(numbers),
        order: next_number(numbers),
        amount: next_number(numbers),
        begin: next_number(numbers),
        stay: next_number(numbers),
        length: next_number(numbers),
    }
}

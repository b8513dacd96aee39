//! Numbers that look random, by a linear congruence, for programs that are as plain as can be.

ghost use Rattle.std.specs.Prelude.{◌<◌};

/// A row of numbers that looks random.
#[derive(Clone, Copy)]
pub struct Dice {
    state: u64,
}

impl Dice {
    /// The row that begins with a seed.
    pub fn new(seed: u64) -> Dice {
        Dice { state: seed }
    }

    /// A number below a bound. The multiplier is that of Knuth's MMIX; the upper bits are taken, since the
    /// lower ones repeat soon.
    pub fn below(&mut self, bound: u64) -> u64
        requires { 0 < bound }
        ensures { result < bound }
    {
        self.state = self
            .state
            .wrapping_mul(6_364_136_223_846_793_005)
            .wrapping_add(1_442_695_040_888_963_407);
        (self.state >> 33) % bound
    }

    /// One of these texts, which have a bar between two.
    pub fn one_of(&mut self, texts: &'static str, bar: &'static str) -> &'static str {
        let count = texts.split(bar).count() as u64;
        let place = self.below(count.max(1)) as usize;
        texts.split(bar).nth(place).unwrap_or("")
    }
}

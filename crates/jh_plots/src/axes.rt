//! Pixels of axes, and round numbers. `specs/Axes.antt` has the rule.

ghost use Rattle.std.specs.Prelude.{◌≡◌, ◌<◌, ◌≤◌, ◌^◌, find, nat_le};
ghost use Rattle.jh_plots.specs.Axes as rule;
ghost use Rattle.jh_plots.specs.Axes.{pixel_of};

/// 1, 2 and 5 times each power of ten below 10^19.
pub(crate) static ROUND_NUMBERS: [u64; 57] = [
    1,
    2,
    5,
    10,
    20,
    50,
    100,
    200,
    500,
    1_000,
    2_000,
    5_000,
    10_000,
    20_000,
    50_000,
    100_000,
    200_000,
    500_000,
    1_000_000,
    2_000_000,
    5_000_000,
    10_000_000,
    20_000_000,
    50_000_000,
    100_000_000,
    200_000_000,
    500_000_000,
    1_000_000_000,
    2_000_000_000,
    5_000_000_000,
    10_000_000_000,
    20_000_000_000,
    50_000_000_000,
    100_000_000_000,
    200_000_000_000,
    500_000_000_000,
    1_000_000_000_000,
    2_000_000_000_000,
    5_000_000_000_000,
    10_000_000_000_000,
    20_000_000_000_000,
    50_000_000_000_000,
    100_000_000_000_000,
    200_000_000_000_000,
    500_000_000_000_000,
    1_000_000_000_000_000,
    2_000_000_000_000_000,
    5_000_000_000_000_000,
    10_000_000_000_000_000,
    20_000_000_000_000_000,
    50_000_000_000_000_000,
    100_000_000_000_000_000,
    200_000_000_000_000_000,
    500_000_000_000_000_000,
    1_000_000_000_000_000_000,
    2_000_000_000_000_000_000,
    5_000_000_000_000_000_000,
];

/// The pixel of a part, where the whole has the last one.
pub(crate) fn pixel(last: u16, part: u128, whole: u128) -> u16
    requires some { 0 < whole }
    requires within { part ≤ whole }
    requires fits { part < 2 ^ 112 }
    ensures pixel { result ≡ pixel_of last part whole }
    ensures within { result ≤ last }
{
    (part * u128::from(last) / whole) as u16
}

/// The first of these that is not below a number.
fn first_from(rounds: &[u64], number: u64) -> Option<u64>
    ensures { result ≡ find (λ round. nat_le number round) rounds.now }
{
    for round in rounds {
        if number <= *round {
            return Some(*round);
        }
    }
    None
}

/// The first round number that is not below a number, and 10^19 above the last of them.
pub(crate) fn round_up(number: u64) -> u64
    ensures value { result ≡ rule.round_up number }
    ensures some { 0 < result }
{
    match first_from(&ROUND_NUMBERS, number) {
        Some(round) => round,
        None => 10_000_000_000_000_000_000,
    }
}

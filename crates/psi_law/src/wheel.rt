//! The law of one word.

ghost use Rattle.std.specs.Prelude.{ℕ, ◌<◌, ◌^◌};
ghost use Rattle.psi_past.specs.SeedWord.{seed_word};
ghost use Rattle.psi_law.specs.Wheel.{word_count, IsExact};

use crate::kept::wheels_have_rates;
use psi_rate::Wheel;

/// How many of the 2^32 words choose which event: of an event with the rate r, r times 2^32 divided by the wheel's
/// modulus; and of none, as many as the modulus is above the sum of the rates, times 2^32 divided by the modulus (`exact`).
/// The words of seeds and streams are among them (`drawn`).
pub fn law_of_wheel(wheel: &Wheel)
    ensures exact { IsExact wheel.now }
    ensures drawn { (seed stream place : ℕ) → place < 2 ^ 36 → seed_word seed stream place < word_count }
{
    wheels_have_rates(wheel);
}

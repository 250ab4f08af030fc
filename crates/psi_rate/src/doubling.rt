//! The doubling of horizons.

ghost use Rattle.std.specs.Prelude.{◌≡◌, ℕ, ◌+◌, ◌<◌, ◌≤◌, ◌^◌, Option, Some};
ghost use Rattle.psi_rate.specs.Doubling.{HasNone, IsFirst, IsLasting, TellsFirst};
ghost use Rattle.psi_rate.specs.Outcomes.{outcome_of};

use psi_state::{Outcome, State};

/// What has an answer at each horizon, or none there: the one state with which a run ends, say, if it ends with one.
///
/// It stands for something that no call changes, and the answers are those of what it stands for.
pub trait Answers {
    /// What an answer is.
    type Answer: Copy;

    // What it may stand for.
    ghost Standing: { Type 0 };

    // What it stands for.
    ghost standing: { Self → Standing };

    // The answer at each horizon, if there is one.
    ghost answer_at: { Standing → ℕ → Option Self.Answer };

    // The horizons that may be asked for.
    ghost Allows: { Standing → ℕ → Type 0 };

    // What holds after a call, if there is more to say.
    ghost IsAsked: { Self → Type 0 } = { λ _. Unit {0} };

    /// The answer at a horizon, in steps before time zero, if there is one.
    fn answer(&mut self, horizon: u32) -> Option<Self::Answer>
        requires { Allows (standing self.old) horizon }
        ensures value { result ≡ answer_at (standing self.old) horizon }
        ensures same { standing self.new ≡ standing self.old }
        ensures asked { IsAsked self.new };
}

/// Returns the first answer among those at the horizons 1, 2, 4, .., 2 to the power `limit`, with its horizon; nothing
/// exactly where none of these has one. The horizons are doubled as those of coupling from the past (Propp and Wilson
/// 1996). `limit` is at most 22.
///
/// What it stands for is the same afterwards. The call allocates only what the answers allocate.
pub fn first_answer<R: Answers>(run: &mut R, limit: u8) -> Option<(u32, R::Answer)>
    requires most { limit ≤ 22 }
    requires allowed { (exponent : ℕ) → exponent ≤ limit → R.Allows (R.standing run.old) (2 ^ exponent) }
    ensures first { TellsFirst (R.answer_at (R.standing run.old)) limit result }
    ensures same { R.standing run.new ≡ R.standing run.old }
    ensures asked { R.IsAsked run.new }
{
    first_upwards(run, 0, limit)
}

/// Returns the same first answer, of answers that last: where a horizon has one, each later horizon has the same one.
///
/// The horizon 2 to the power `guess` is asked for first, or the greatest where that is above it: then the greater ones
/// where it has no answer, and the smaller ones where it has one, until one has none. So any guess gives the same, and
/// one that is near takes fewer answers.
pub fn first_answer_near<R: Answers>(run: &mut R, limit: u8, guess: u8) -> Option<(u32, R::Answer)>
    requires most { limit ≤ 22 }
    requires allowed { (exponent : ℕ) → exponent ≤ limit → R.Allows (R.standing run.old) (2 ^ exponent) }
    requires lasting { IsLasting (R.answer_at (R.standing run.old)) }
    ensures first { TellsFirst (R.answer_at (R.standing run.old)) limit result }
    ensures same { R.standing run.new ≡ R.standing run.old }
    ensures asked { R.IsAsked run.new }
{
    let begin = guess.min(limit);
    match run.answer(1 << begin) {
        Some(answer) => Some(first_downwards(run, begin, answer)),
        None => first_upwards(run, begin + 1, limit),
    }
}

// The first answer, where none of the horizons below 2 to the power `from` has one: the greater ones are asked for one
// after the other.
fn first_upwards<R: Answers>(run: &mut R, from: u8, limit: u8) -> Option<(u32, R::Answer)>
    requires most { limit ≤ 22 }
    requires from { from ≤ limit + 1 }
    requires allowed { (exponent : ℕ) → exponent ≤ limit → R.Allows (R.standing run.old) (2 ^ exponent) }
    requires earlier { HasNone (R.answer_at (R.standing run.old)) from }
    requires asked { limit < from → R.IsAsked run.old }
    ensures first { TellsFirst (R.answer_at (R.standing run.old)) limit result }
    ensures same { R.standing run.new ≡ R.standing run.old }
    ensures asked { R.IsAsked run.new }
{
    for exponent in from..limit + 1 {
        let horizon = 1 << exponent;
        if let Some(answer) = run.answer(horizon) {
            return Some((horizon, answer));
        }
    }
    None
}

// The first answer, where that of 2 to the power `from` is this one and answers last: the smaller horizons are asked for
// until one has none.
fn first_downwards<R: Answers>(run: &mut R, from: u8, answer: R::Answer) -> (u32, R::Answer)
    requires most { from ≤ 22 }
    requires allowed { (exponent : ℕ) → exponent ≤ from → R.Allows (R.standing run.old) (2 ^ exponent) }
    requires lasting { IsLasting (R.answer_at (R.standing run.old)) }
    requires answer { R.answer_at (R.standing run.old) (2 ^ from) ≡ Some answer }
    requires asked { R.IsAsked run.old }
    ensures first { IsFirst (R.answer_at (R.standing run.old)) from result.0 result.1 }
    ensures same { R.standing run.new ≡ R.standing run.old }
    ensures asked { R.IsAsked run.new }
{
    let mut least = from;
    while least > 0 {
        let smaller = least - 1;
        match run.answer(1 << smaller) {
            Some(_) => least = smaller,
            None => return (1 << least, answer),
        }
    }
    (1 << least, answer)
}

/// Returns the first answer of runs that answer the state with which they end, as an outcome.
pub fn outcome_of(limit: u8, found: Option<(u32, State)>) -> Outcome
    ensures { result ≡ outcome_of limit found }
{
    match found {
        Some((horizon, state)) => Outcome::Met { horizon, state },
        None => Outcome::NotMet { limit },
    }
}

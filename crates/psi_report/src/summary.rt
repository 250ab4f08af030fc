//! What values come to: their sum, the least and the greatest.

ghost use Rattle.std.specs.Prelude.{◌≡◌, ℕ, ◌+◌, ◌*◌, ◌^◌, ◌≤◌, [], ◌∷◌, length, replicate, IfOk};
ghost use Rattle.std.specs.Int.RustNames.{unsigned_abs};
ghost use Rattle.psi_report.specs.Totals.{summary_of};
ghost use Rattle.psi_report.specs.Joined.{paired, joined_summary, with_value, with_customers, AreSmall};

use psi_state::State;
use std::alloc::{AllocError, Global};

/// The sum, the least and the greatest of values; zeros where there are none.
#[derive(Clone, Copy, Debug)]
pub(crate) struct Summary {
    /// Their sum.
    pub(crate) sum: i128,
    /// The least of them.
    pub(crate) least: i64,
    /// The greatest of them.
    pub(crate) greatest: i64,
}

impl Summary {
    /// What one value comes to.
    #[tactic(auto, using(crate::proofs::SummaryLemmas::summary_of_one))]
    pub(crate) fn of(value: i64) -> Summary
        ensures value { result ≡ summary_of (value ∷ []) }
        ensures small { unsigned_abs result.sum ≤ 2 ^ 63 }
    {
        Summary {
            sum: value as i128,
            least: value,
            greatest: value,
        }
    }

    /// What `count` values and `others` more come to together, from what each part comes to.
    pub(crate) fn joined(&self, count: u32, other: &Summary, others: u32) -> Summary
        requires own { unsigned_abs self.now.sum ≤ 2 ^ 96 }
        requires other { unsigned_abs other.now.sum ≤ 2 ^ 96 }
        ensures { result ≡ joined_summary count others self.now other.now }
    {
        if count == 0 {
            return *other;
        }
        if others == 0 {
            return *self;
        }
        Summary {
            sum: self.sum + other.sum,
            least: self.least.min(other.least),
            greatest: self.greatest.max(other.greatest),
        }
    }

    /// What `count` values and one more come to together.
    pub(crate) fn with_value(&self, count: u32, value: i64) -> Summary
        requires { unsigned_abs self.now.sum ≤ 2 ^ 96 }
        ensures value { result ≡ with_value count self.now value }
        ensures small { (n : ℕ) → unsigned_abs self.now.sum ≤ n * 2 ^ 63 → unsigned_abs result.sum ≤ (n + 1) * 2 ^ 63 }
    {
        self.joined(count, &Summary::of(value), 1)
    }
}

/// As many summaries of no values.
#[tactic(auto, unfolding(crate::specs::Quantities::sum_of))]
pub(crate) fn of_none(alloc: Global, count: u8) -> Result<Vec<Summary>, AllocError>
    ensures { IfOk result (λ summaries. summaries.items ≡ replicate count (summary_of [])) }
{
    let none = Summary {
        sum: 0,
        least: 0,
        greatest: 0,
    };
    vec![in alloc; none; count as usize]
}

/// Joins other summaries to these, each to the one at its place. Each of these is of `count` values, and each
/// of the others of `others`.
#[tactic(auto, using(crate::proofs::PairLemmas::paired_none, crate::proofs::PairLemmas::paired_all, crate::proofs::PairLemmas::length_paired))]
pub(crate) fn join_all(own: &mut Vec<Summary>, count: u32, other: &Vec<Summary>, others: u32)
    requires as_many { length own.old.items ≡ length other.now.items }
    requires own { AreSmall (2 ^ 32) own.old.items }
    requires other { AreSmall (2 ^ 32) other.now.items }
    ensures { own.new.items ≡ paired (joined_summary count others) own.old.items other.now.items }
{
    for place in 0..own.len() {
        own[place] = own[place].joined(count, &other[place], others);
    }
}

/// Adds the number of customers in each queue of a state to the queue's summary. Each summary is of `count`
/// values.
#[tactic(auto, using(crate::proofs::PairLemmas::paired_none, crate::proofs::PairLemmas::paired_all, crate::proofs::PairLemmas::length_paired))]
pub(crate) fn add_customers(queues: &mut Vec<Summary>, count: u32, state: &State)
    requires as_many { length queues.old.items ≡ length state.now }
    requires fit { AreSmall (2 ^ 32) queues.old.items }
    ensures values { queues.new.items ≡ paired (with_customers count) queues.old.items state.now }
    ensures small { (n : ℕ) → AreSmall n queues.old.items → AreSmall (n + 1) queues.new.items }
{
    for queue in 0..state.len() {
        let customers = state.get(queue);
        queues[queue as usize] = queues[queue as usize].with_value(count, customers as i64);
    }
}

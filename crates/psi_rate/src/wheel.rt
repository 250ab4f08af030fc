//! The wheel: the event of a word.

ghost use Rattle.std.specs.Prelude.{◌≡◌, ℕ, ◌+◌, ◌%◌, ◌<◌, ◌≤◌, length, take, slice_index, IfOk, IfErr, OnOk, EachIndex};
ghost use Rattle.psi_rate.specs.Numbers.{numbers_below};
ghost use Rattle.psi_rate.specs.Rates.{AreRates, HasNumber, IsLeastPower, event_of, least_power, total};

use crate::event_table::EventTable;
use psi_state::MOST_TOTAL;
use std::alloc::{AllocError, Global};
use std::marker::Model;

/// Why rates make no wheel.
#[derive(Clone, Copy, PartialEq, Eq, Debug)]
pub enum RateRefusal {
    /// There is no rate.
    NoEvents,
    /// The running total of the rates passes 16,777,216 at this place, and at none before.
    TotalTooLarge {
        /// The place, counted from 0.
        at: u16,
    },
    /// An allocation for the wheel failed.
    OutOfMemory,
}

impl From<AllocError> for RateRefusal {
    ghost use Rattle.psi_rate.specs.declared.wheel.RateRefusal.TheVariants.{OutOfMemory};

    ghost from_gives = { λ _ refusal. refusal ≡ OutOfMemory };

    fn from(_error: AllocError) -> RateRefusal {
        RateRefusal::OutOfMemory
    }
}

/// The rates of a network's events, dealt out over the numbers below a power of two.
///
/// Event 0 has the first `rate_0` numbers, event 1 the next `rate_1`, and so on; the numbers that are
/// left are idle. It is seen as the list of the rates.
#[derive(Drop, Debug)]
pub struct Wheel {
    rates: Vec<u32>,
    totals: Vec<u32>,
    sum: u32,
    modulus: u32,
    table: EventTable,
}

impl Model for Wheel {
    ghost use Rattle.std.specs.Prelude.{ℕ, List, ◌≡◌};
    ghost use Rattle.psi_rate.specs.Inner.TotalsKept.{IsDial};
    ghost use Rattle.psi_rate.specs.Inner.EventTableKept.{IsEventTable};

    ghost Value = { List ℕ };

    ghost view = { λ wheel. wheel.rates.items };

    ghost invariant = { λ wheel. IsDial wheel.rates.items wheel.totals.items wheel.sum wheel.modulus × IsEventTable wheel.totals.items wheel.modulus wheel.table.entries.items wheel.table.last wheel.table.shift wheel.table.exact };
}

impl Wheel {
    ghost use Rattle.psi_rate.specs.Refusal.{IsRateRefusal};

    /// Returns the wheel of these rates: 1 to 1,024 rates, each from 1 to 1,048,576, with a total of at most
    /// 16,777,216.
    ///
    /// The refusals are `NoEvents` where there is no rate, `TotalTooLarge` where the total is too large,
    /// and `OutOfMemory`.
    pub fn new(alloc: Global, rates: &[u32]) -> Result<Wheel, RateRefusal>
        requires few { length rates.now ≤ 1024 }
        requires least { EachIndex rates.now (λ i. 1 ≤ slice_index rates.now i) }
        requires most { EachIndex rates.now (λ i. slice_index rates.now i ≤ 1048576) }
        ensures rates { IfOk result (λ wheel. wheel ≡ rates.now) }
        ensures accepted { OnOk result (AreRates rates.now) }
        ensures refused { IfErr result (λ refusal. IsRateRefusal refusal rates.now) }
    {
        if rates.is_empty() {
            return Err(RateRefusal::NoEvents);
        }
        let mut totals = Vec::with_capacity(alloc, rates.len())?;
        let mut sum = 0;
        for (at, rate) in rates.iter().enumerate() {
            sum += *rate;
            if sum > MOST_TOTAL {
                return Err(RateRefusal::TotalTooLarge { at: at as u16 });
            }
            totals.push_reserved(sum);
        }
        let modulus = sum.next_power_of_two();
        Ok(Wheel {
            rates: Vec::from_slice(alloc, rates)?,
            table: EventTable::new(alloc, &totals, modulus)?,
            totals,
            sum,
            modulus,
        })
    }

    /// Returns the event of a word: its number among the events, or the count of the events where the word is
    /// idle.
    #[inline]
    pub fn pick(&self, word: u32) -> u16
        ensures event { result ≡ event_of self.now word }
        ensures number { HasNumber self.now (word % least_power (total self.now)) result }
    {
        self.table.event(&self.totals, self.modulus, word)
    }

    /// Puts the numbers of the events of these words, without those of idle, to the front of a list that is no shorter,
    /// in their order, and returns how many they are.
    pub fn pick_all(&self, words: &[u32], numbers: &mut [u16]) -> usize
        requires { length words.now ≤ length numbers.old }
        ensures numbers { take result numbers.new ≡ numbers_below self.now (slice_index words.now) (length words.now) }
        ensures few { result ≤ length words.now }
        ensures same_length { length numbers.new ≡ length numbers.old }
    {
        let idle = self.events();
        let mut count = 0;
        for place in 0..words.len() {
            let number = self.pick(words[place]);
            // Written in any case, and given up where it is idle: a branch would often be foreseen wrongly.
            numbers[count] = number;
            count += (number < idle) as usize;
        }
        count
    }

    /// Returns how many numbers there are, the idle ones included: the least power of two that isn't below the total
    /// rate.
    pub fn modulus(&self) -> u32
        ensures value { result ≡ least_power (total self.now) }
        ensures least { IsLeastPower (total self.now) result }
    {
        self.modulus
    }

    /// Returns the count of the numbers that no event has.
    pub fn idle(&self) -> u32
        ensures { result + total self.now ≡ least_power (total self.now) }
    {
        self.modulus - self.sum
    }

    /// Returns the number of events, 1 to 1,024.
    pub fn events(&self) -> u16
        ensures count { result ≡ length self.now }
        ensures valid { AreRates self.now }
    {
        self.rates.len() as u16
    }
}

//! States of one length, in one vector of numbers.

ghost use Rattle.std.specs.Prelude.{◌≡◌, ◌↔◌, ◌∷◌, [], IsTrue, MatchOption, OnErr, ◌++◌, ◌+◌, ◌*◌, ◌<◌, ◌≤◌, length, take, drop, Some, OnOk};
ghost use Rattle.std.specs.Ordering.{is_lt, nat_cmp};
ghost use Rattle.std.specs.Cmp.Lexicographic.{slice_cmp};
ghost use Rattle.std.specs.List.{slice_get};
ghost use Rattle.psi_state.specs.State.{IsBelow};
ghost use Rattle.psi_log_format.specs.Rows.{States, rows};

use crate::room::make_room;
use crate::row_list::Rows;
use psi_state::State;
use std::alloc::{AllocError, Global};
use std::marker::Model;

/// A list of states, all with the same number of queues, 1 to 32; it is seen as the number of queues and the states. It
/// takes two bytes for each queue of each state, and keeps no memory for a state by itself.
#[derive(Drop)]
pub struct StateList {
    queues: u8,
    count: usize,
    numbers: Vec<u16>,
}

impl Model for StateList {
    ghost use Rattle.std.specs.Prelude.{◌≡◌, ◌*◌, ◌≤◌, length};
    ghost use Rattle.psi_log_format.specs.Rows.{States, rows};

    ghost Value = { States };

    ghost view = { λ s. record { queues = s.queues; states = rows s.count s.queues s.numbers.items } };

    ghost invariant = { λ s. (1 ≤ s.queues) × (s.queues ≤ 32) × (length s.numbers.items ≡ s.count * s.queues) };
}

// Puts the numbers of a state after others.
fn push_numbers(numbers: &mut Vec<u16>, x: &State) -> Result<(), AllocError>
    ensures pushed { OnOk result (numbers.new.items ≡ numbers.old.items ++ x.now) }
    ensures kept { OnErr result (numbers.new.items ≡ numbers.old.items) }
{
    let queues = x.len();
    make_room(numbers, queues as usize)?;
    for queue in 0..queues {
        numbers.push_reserved(x.get(queue));
    }
    Ok(())
}

// Puts numbers after others.
#[inline]
fn push_all(numbers: &mut Vec<u16>, row: &[u16]) -> Result<(), AllocError>
    ensures pushed { OnOk result (numbers.new.items ≡ numbers.old.items ++ row.now) }
    ensures kept { OnErr result (numbers.new.items ≡ numbers.old.items) }
{
    make_room(numbers, row.len())?;
    numbers.extend_from_slice(row)
}

impl StateList {
    /// Makes the empty list, for states of `queues` queues, 1 to 32. It does not allocate yet.
    pub fn new(alloc: Global, queues: u8) -> StateList
        requires some { 1 ≤ queues }
        requires few { queues ≤ 32 }
        ensures { result ≡ record { queues = queues; states = [] } }
    {
        StateList {
            queues,
            count: 0,
            numbers: Vec::new(alloc),
        }
    }

    /// Returns the number of states. It takes the same time whatever that number is.
    #[tactic(auto, using(crate::proofs::RowsLemmas::length_rows))]
    pub fn len(&self) -> usize
        ensures { result ≡ length self.now.states }
    {
        self.count
    }

    /// Takes all states out of the list. Its memory stays, for those that are put into it next.
    pub fn clear(&mut self)
        ensures { self.new ≡ record { queues = self.old.queues; states = [] } }
    {
        self.count = 0;
        self.numbers.clear();
    }

    /// Appends a state of the list's number of queues. The vector grows where it has no room left, so
    /// that a state takes time for its queues alone, over many states.
    ///
    /// # Errors
    ///
    /// `AllocError` if an allocation fails; no clause says when that is; the list is then as it was.
    #[tactic(auto, using(crate::proofs::RowsLemmas::rows_push))]
    pub fn push(&mut self, x: &State) -> Result<(), AllocError>
        requires { length x.now ≡ self.old.queues }
        ensures queues { self.new.queues ≡ self.old.queues }
        ensures states { OnOk result (self.new.states ≡ self.old.states ++ x.now ∷ []) }
        ensures kept { OnErr result (self.new.states ≡ self.old.states) }
    {
        push_numbers(&mut self.numbers, x)?;
        self.count += 1;
        Ok(())
    }

    /// Appends a state as [`StateList::push`] does, by its numbers.
    ///
    /// # Errors
    ///
    /// `AllocError` if an allocation fails; no clause says when that is; the list is then as it was.
    #[inline]
    #[tactic(auto, using(crate::proofs::RowsLemmas::rows_push))]
    pub fn push_row(&mut self, row: &[u16]) -> Result<(), AllocError>
        requires { length row.now ≡ self.old.queues }
        ensures queues { self.new.queues ≡ self.old.queues }
        ensures states { OnOk result (self.new.states ≡ self.old.states ++ row.now ∷ []) }
        ensures kept { OnErr result (self.new.states ≡ self.old.states) }
    {
        push_all(&mut self.numbers, row)?;
        self.count += 1;
        Ok(())
    }

    /// Appends `count` states as [`StateList::push`] does, by their numbers, which stand one after
    /// another. It is quicker than to put each there by itself.
    ///
    /// # Errors
    ///
    /// `AllocError` if an allocation fails; no clause says when that is; the list is then as it was.
    #[inline(never)]
    pub fn push_rows(&mut self, count: usize, numbers: &[u16]) -> Result<(), AllocError>
        requires { length numbers.now ≡ count * self.old.queues }
        ensures queues { self.new.queues ≡ self.old.queues }
        ensures states { OnOk result (self.new.states ≡ self.old.states ++ rows count self.old.queues numbers.now) }
        ensures kept { OnErr result (self.new.states ≡ self.old.states) }
    {
        push_all(&mut self.numbers, numbers)?;
        self.count += count;
        Ok(())
    }

    /// Appends states of as many queues as [`StateList::push`] does.
    ///
    /// # Errors
    ///
    /// `AllocError` if an allocation fails; no clause says when that is; the list is then as it was.
    pub fn push_states(&mut self, states: &Rows<'_>) -> Result<(), AllocError>
        requires { states.now.queues ≡ self.old.queues }
        ensures queues { self.new.queues ≡ self.old.queues }
        ensures states { OnOk result (self.new.states ≡ self.old.states ++ states.now.states) }
        ensures kept { OnErr result (self.new.states ≡ self.old.states) }
    {
        self.push_rows(states.len(), states.numbers())
    }

    /// All states, borrowed.
    #[inline]
    pub fn all(&self) -> Rows<'_>
        ensures { result ≡ self.entry.now }
    {
        Rows::new(self.queues, self.count, self.numbers.as_slice())
    }

    /// Returns the state at a place, counted from 0. It takes time for the state's queues, wherever it stands.
    pub fn get(&self, place: usize) -> State
        requires { place < length self.now.states }
        ensures { slice_get self.now.states place ≡ Some result }
    {
        self.all().get(place)
    }

    /// Returns whether the state at a place, counted from 0, is lexicographically below the next one: below it in the
    /// first queue in which the two differ. Neither is copied.
    #[inline]
    pub fn is_below_next(&self, place: usize) -> bool
        requires { place + 1 < length self.now.states }
        ensures { MatchOption (slice_get self.now.states place) ⊥ (λ x. MatchOption (slice_get self.now.states (place + 1)) ⊥ (λ y. result ≡ is_lt (slice_cmp nat_cmp x y))) }
    {
        self.all().is_below_next(place)
    }

    /// Returns whether the state at a place, counted from 0, is componentwise at most another: it has as many queues,
    /// and in each at most as many customers. It isn't copied.
    pub fn leq(&self, place: usize, most: &State) -> bool
        requires { place < length self.now.states }
        ensures { MatchOption (slice_get self.now.states place) ⊥ (λ x. IsTrue result ↔ IsBelow x most.now) }
    {
        self.all().leq(place, most)
    }
}

//! States one after another, borrowed from the vector of their numbers.

ghost use Rattle.std.specs.Prelude.{◌≡◌, ◌↔◌, IsTrue, MatchOption, ◌+◌, ◌*◌, ◌<◌, ◌≤◌, ℕ, nat_le, length, take, drop, slice_index, Some};
ghost use Rattle.std.specs.Ordering.{is_lt, nat_cmp};
ghost use Rattle.std.specs.Cmp.Lexicographic.{slice_cmp};
ghost use Rattle.std.specs.List.{slice_get, list_all};
ghost use Rattle.psi_state.specs.State.{IsBelow};
ghost use Rattle.psi_log_format.specs.Rows.{rows};

use psi_state::State;
use std::marker::Model;

/// States, all with the same number of queues, 1 to 32, that stand one after another in a list of states, borrowed from
/// it. They are seen as the number of queues and the states.
#[derive(Drop)]
pub struct Rows<'l> {
    queues: u8,
    count: usize,
    numbers: &'l [u16],
}

impl<'l> Model for Rows<'l> {
    ghost use Rattle.std.specs.Prelude.{◌≡◌, ◌*◌, ◌≤◌, length};
    ghost use Rattle.psi_log_format.specs.Rows.{States, rows};

    ghost Value = { States };

    ghost view = { λ s. record { queues = s.queues; states = rows s.count s.queues s.numbers.now } };

    ghost invariant = { λ s. (1 ≤ s.queues) × (s.queues ≤ 32) × (length s.numbers.now ≡ s.count * s.queues) };
}

// Whether the numbers of a state are each at most those of another. All of them are looked at, so that the compiler
// compares several at once.
#[inline]
fn is_below(row: &[u16], most: &State) -> bool
    ensures { IsTrue result ↔ IsBelow row.now most.now }
{
    if row.len() != most.len() as usize {
        return false;
    }
    let mut above = 0;
    for queue in 0..most.len() {
        above |= row[queue as usize].saturating_sub(most.get(queue));
    }
    above == 0
}

// The greatest of numbers, 0 where there is none. The compiler looks at several of them at once.
#[inline]
fn greatest_of(numbers: &[u16]) -> u16
    ensures { (most : ℕ) → nat_le result most ≡ list_all (λ n. nat_le n most) numbers.now }
{
    let mut greatest = 0;
    for number in numbers {
        greatest = greatest.max(*number);
    }
    greatest
}

// Whether the numbers of a state are lexicographically below those of another with as many queues.
#[inline]
fn is_less(row: &[u16], next: &[u16]) -> bool
    requires { length row.now ≡ length next.now }
    ensures { result ≡ is_lt (slice_cmp nat_cmp row.now next.now) }
{
    for queue in 0..row.len() {
        if row[queue] != next[queue] {
            return row[queue] < next[queue];
        }
    }
    false
}

// Puts the numbers of a row in the place of a state's.
#[inline]
fn put_all(row: &[u16], x: &mut State)
    requires { length row.now ≡ length x.old }
    ensures { x.new ≡ row.now }
{
    for queue in 0..x.len() {
        x.set(queue, row[queue as usize]);
    }
}

// The state of these numbers.
#[inline]
fn state_of(row: &[u16], queues: u8) -> State
    requires some { 1 ≤ queues }
    requires few { queues ≤ 32 }
    requires count { length row.now ≡ queues }
    ensures { result ≡ row.now }
{
    let mut x = State::zero(queues);
    put_all(row, &mut x);
    x
}

// Whether these are four to eight queues: the first four numbers of a row are then read and compared at once, and the
// others one by one.
#[inline]
fn are_few(queues: u8) -> bool
    ensures least { IsTrue result → 4 ≤ queues }
    ensures most { IsTrue result → queues ≤ 8 }
{
    4 <= queues && queues <= 8
}

// Four numbers side by side.
#[inline]
fn side_by_side(first: u16, second: u16, third: u16, fourth: u16) -> u64
    ensures { result ≡ first + 65536 * second + 4294967296 * (third + 65536 * fourth) }
{
    let low = first as u64 + 65_536 * second as u64;
    let high = third as u64 + 65_536 * fourth as u64;
    low + 4_294_967_296 * high
}

// Whether the first four numbers of a row are a state's own.
#[inline]
fn begins_as(row: &[u16], x: &State) -> bool
    requires row { 4 ≤ length row.now }
    requires state { 4 ≤ length x.now }
    ensures { IsTrue result ↔ ((i : ℕ) → i < 4 → slice_index row.now i ≡ slice_index x.now i) }
{
    let own = side_by_side(row[0], row[1], row[2], row[3]);
    own == side_by_side(x.get(0), x.get(1), x.get(2), x.get(3))
}

// Whether the numbers of a row from queue 4 on are a state's own.
#[inline]
fn ends_as(row: &[u16], x: &State, queues: u8) -> bool
    requires row { length row.now ≡ queues }
    requires state { length x.now ≡ queues }
    ensures { IsTrue result ↔ ((i : ℕ) → 4 ≤ i → i < queues → slice_index row.now i ≡ slice_index x.now i) }
{
    for queue in 4..queues {
        if row[queue as usize] != x.get(queue) {
            return false;
        }
    }
    true
}

// Whether the numbers of a row of these queues, four or more, are a state's own.
#[inline]
fn is_few(row: &[u16], x: &State, queues: u8) -> bool
    requires least { 4 ≤ queues }
    requires row { length row.now ≡ queues }
    requires state { length x.now ≡ queues }
    ensures { IsTrue result ↔ (row.now ≡ x.now) }
{
    begins_as(row, x) && ends_as(row, x, queues)
}

// Puts the first four numbers of a row on a state.
#[inline]
fn put_four(row: &[u16], x: &mut State)
    requires least { 4 ≤ length row.now }
    requires count { length row.now ≡ length x.old }
    ensures front { take 4 x.new ≡ take 4 row.now }
    ensures count { length x.new ≡ length row.now }
{
    // All are read before the first is put, so that the compiler takes them at once.
    let (first, second, third, fourth) = (row[0], row[1], row[2], row[3]);
    x.set(0, first);
    x.set(1, second);
    x.set(2, third);
    x.set(3, fourth);
}

// Puts the number of a queue on a state that has those of the queues before it, where there is such a queue.
#[inline]
fn put_next(row: &[u16], queue: u8, x: &mut State)
    requires front { take queue x.old ≡ take queue row.now }
    requires count { length x.old ≡ length row.now }
    ensures front { take (queue + 1) x.new ≡ take (queue + 1) row.now }
    ensures count { length x.new ≡ length row.now }
{
    if (queue as usize) < row.len() {
        x.set(queue, row[queue as usize]);
    }
}

// Puts the numbers of a row of four to eight queues in the place of a state's.
#[inline]
fn put_few(row: &[u16], x: &mut State)
    requires least { 4 ≤ length row.now }
    requires most { length row.now ≤ 8 }
    requires count { length row.now ≡ length x.old }
    ensures { x.new ≡ row.now }
{
    put_four(row, x);
    put_next(row, 4, x);
    put_next(row, 5, x);
    put_next(row, 6, x);
    put_next(row, 7, x);
}

impl<'l> Rows<'l> {
    // `count` states, whose numbers these are.
    pub(crate) fn new(queues: u8, count: usize, numbers: &'l [u16]) -> Rows<'l>
        requires some { 1 ≤ queues }
        requires few { queues ≤ 32 }
        requires length { length numbers.now ≡ count * queues }
        ensures { result ≡ record { queues = queues; states = rows count queues numbers.entry.now } }
    {
        Rows {
            queues,
            count,
            numbers,
        }
    }

    // The numbers of all states.
    #[tactic(auto, using(crate::proofs::RowsLemmas::length_rows))]
    pub(crate) fn numbers(&self) -> &'l [u16]
        ensures count { length result.now ≡ length self.now.states * self.now.queues }
        ensures states { rows (length self.now.states) self.now.queues result.now ≡ self.now.states }
    {
        self.numbers
    }

    /// Returns the number of states.
    #[inline]
    #[tactic(auto, using(crate::proofs::RowsLemmas::length_rows))]
    pub fn len(&self) -> usize
        ensures { result ≡ length self.now.states }
    {
        self.count
    }

    /// Returns the same states, by a second borrow of their numbers.
    #[inline]
    pub fn again(&self) -> Rows<'l>
        ensures { result ≡ self.now }
    {
        Rows {
            queues: self.queues,
            count: self.count,
            numbers: self.numbers,
        }
    }

    /// Returns `count` of the states, from the place `first` on; places are counted from 0.
    #[tactic(auto, using(crate::proofs::RowsLemmas::length_rows, crate::proofs::RowsLemmas::rows_part, crate::proofs::RowsLemmas::rows_until))]
    pub fn part(&self, first: usize, count: usize) -> Rows<'l>
        requires { first + count ≤ length self.now.states }
        ensures { result ≡ record { queues = self.now.queues; states = take count (drop first self.now.states) } }
    {
        let queues = self.queues as usize;
        let start = first * queues;
        Rows {
            queues: self.queues,
            count,
            numbers: &self.numbers[start..start + count * queues],
        }
    }

    /// Returns the state at a place, counted from 0. It takes time for the state's queues, wherever it stands.
    #[inline]
    pub fn get(&self, place: usize) -> State
        requires { place < length self.now.states }
        ensures { slice_get self.now.states place ≡ Some result }
    {
        state_of(self.row(place), self.queues)
    }

    /// Returns the numbers of the state at a place, counted from 0, one for each queue. Nothing is copied.
    #[inline]
    #[tactic(auto, using(crate::proofs::RowsLemmas::length_rows, crate::proofs::RowsLemmas::rows_get, crate::proofs::RowsLemmas::rows_room))]
    pub fn row(&self, place: usize) -> &'l [u16]
        requires { place < length self.now.states }
        ensures state { slice_get self.now.states place ≡ Some result.now }
        ensures count { length result.now ≡ self.now.queues }
    {
        let first = place * self.queues as usize;
        &self.numbers[first..first + self.queues as usize]
    }

    /// Returns whether the state at a place, counted from 0, is lexicographically below the next one: below it in the
    /// first queue in which the two differ. Neither is copied.
    #[inline]
    pub fn is_below_next(&self, place: usize) -> bool
        requires { place + 1 < length self.now.states }
        ensures { MatchOption (slice_get self.now.states place) ⊥ (λ x. MatchOption (slice_get self.now.states (place + 1)) ⊥ (λ y. result ≡ is_lt (slice_cmp nat_cmp x y))) }
    {
        // Called for its clause: the number of states fits its type.
        let _count = self.len();
        is_less(self.row(place), self.row(place + 1))
    }

    /// Returns whether the state at a place, counted from 0, is componentwise at most another: it has as many queues,
    /// and in each at most as many customers. It isn't copied.
    #[inline]
    pub fn leq(&self, place: usize, most: &State) -> bool
        requires { place < length self.now.states }
        ensures { MatchOption (slice_get self.now.states place) ⊥ (λ x. IsTrue result ↔ IsBelow x most.now) }
    {
        is_below(self.row(place), most)
    }

    /// Returns whether no queue holds more customers than `most` in any of the states.
    #[tactic(auto, using(crate::proofs::RowsLemmas::all_rows))]
    pub fn are_at_most(&self, most: u16) -> bool
        ensures { result ≡ list_all (list_all (λ n. nat_le n most)) self.now.states }
    {
        greatest_of(self.numbers) <= most
    }

    /// Returns whether these are as many states of as many queues as others, each the same as the other at its place.
    pub fn are_same(&self, other: &Rows<'_>) -> bool
        ensures { IsTrue result ↔ (self.now ≡ other.now) }
    {
        if self.queues != other.queues {
            return false;
        }
        if self.count != other.count {
            return false;
        }
        self.numbers == other.numbers
    }

    /// Returns whether a state is the one at a place, counted from 0. It isn't copied.
    #[inline]
    pub fn is_at(&self, place: usize, x: &State) -> bool
        requires { place < length self.now.states }
        ensures { MatchOption (slice_get self.now.states place) ⊥ (λ y. IsTrue result ↔ (y ≡ x.now)) }
    {
        x.is_row(self.row(place))
    }

    /// As [`is_at`](Rows::is_at), of a state that is known to have as many queues: where these are four to eight, the
    /// first four numbers are compared at once.
    #[inline]
    pub fn is_there(&self, place: usize, x: &State) -> bool
        requires place { place < length self.now.states }
        requires queues { MatchOption (slice_get self.now.states place) ⊥ (λ y. length y ≡ length x.now) }
        ensures { MatchOption (slice_get self.now.states place) ⊥ (λ y. IsTrue result ↔ (y ≡ x.now)) }
    {
        let row = self.row(place);
        if are_few(self.queues) {
            return is_few(row, x, self.queues);
        }
        x.is_row(row)
    }

    /// Replaces another state by the one at a place, counted from 0.
    #[inline]
    pub fn get_onto(&self, place: usize, x: &mut State)
        requires { place < length self.now.states }
        ensures { slice_get self.now.states place ≡ Some x.new }
    {
        let row = self.row(place);
        if x.len() != self.queues {
            *x = State::zero(self.queues);
        }
        if are_few(self.queues) {
            put_few(row, x);
        } else {
            put_all(row, x);
        }
    }
}

//! The numbers of the events of a run, kept from run to run without those that are idle.

ghost use Rattle.std.specs.Prelude.{◌≡◌, ◌+◌, ◌-◌, ◌/◌, ◌<◌, ◌≤◌, ◌++◌, ℕ, List, length, take, vec_capacity, IfOk};
ghost use Rattle.psi_rate.specs.Numbers.{numbers_below};
ghost use Rattle.psi_rate.specs.Keeping.{KeepsNumbers, Reaches, mark};

use crate::Wheel;
use linked_list_allocator::LocalHeap;
use psi_past::Past;
use std::alloc::{AllocError, Global};

// How far apart the greater places are up to which the numbers are counted.
const STRETCH: u32 = 1024;

// How many places are drawn at once.
const WINDOW: u32 = 256;

/// The numbers of the events of the places from 0 on, as far as they reach, without those that are idle. They are
/// kept from run to run, so that each word is picked once: a run over them is the run over all places.
///
/// Only `reserve` allocates: the lists stand on heaps of their own, which have room for them and no more.
#[derive(Drop)]
pub struct EventNumbers {
    list: Vec<u16, LocalHeap>,
    // How many of them there are before each mark that they reach.
    counts: Vec<u32, LocalHeap>,
    // How many places they are of.
    reached: u32,
}

impl EventNumbers {
    /// Reserves space for the numbers of `most` places, of 2 bytes each, and 4 bytes more for each 1,024th place and
    /// for some before these; none is kept yet.
    ///
    /// Returns `AllocError` if an allocation fails; no clause says when that is.
    pub fn reserve(alloc: Global, most: u32) -> Result<EventNumbers, AllocError>
        ensures { IfOk result (λ numbers. (rates : List ℕ) (words : ℕ → ℕ) → KeepsNumbers rates words most numbers) }
    {
        let places = most as usize;
        let marks = (most / STRETCH + 5) as usize;
        let list = Vec::with_capacity(LocalHeap::new(alloc, 2 * places)?, places)?;
        let mut counts = Vec::with_capacity(LocalHeap::new(alloc, 4 * marks)?, marks)?;
        counts.push_reserved(0);
        Ok(EventNumbers {
            list,
            counts,
            reached: 0,
        })
    }

    /// Forgets all of them, so that they may be those of other words. The room stays.
    pub fn clear(&mut self)
        ensures { (rates : List ℕ) (words before : ℕ → ℕ) (most : ℕ) → KeepsNumbers rates before most self.old → KeepsNumbers rates words most self.new }
    {
        self.list.clear();
        self.counts.truncate(1);
        self.reached = 0;
    }

    /// Keeps the numbers of all places below the horizon, for which there is room, and draws and picks those that are
    /// not kept yet.
    pub fn extend_to<P: Past>(&mut self, wheel: &Wheel, past: &mut P, horizon: u32)
        requires kept { KeepsNumbers wheel.now (P.words past.old) horizon self.old }
        ensures kept { (most : ℕ) → KeepsNumbers wheel.now (P.words past.old) most self.old → KeepsNumbers wheel.now (P.words past.old) most self.new }
        ensures reached { Reaches self.new horizon }
        ensures words { P.words past.new ≡ P.words past.old }
    {
        for number in marks_up_to(self.reached)..marks_up_to(horizon) {
            let end = mark(number);
            keep_places(wheel, past, &mut self.list, self.reached, end);
            self.counts.push_reserved(self.list.len() as u32);
            self.reached = end;
        }
        if self.reached < horizon {
            keep_places(wheel, past, &mut self.list, self.reached, horizon);
            self.reached = horizon;
        }
    }

    /// Returns the numbers of the places below a horizon that they reach, from place 0 on. Where they reach further,
    /// and it is neither a power of two from 64 on nor a multiple of 1,024, the words of less than 1,024 places are
    /// drawn again to see how many numbers these are.
    pub fn below<P: Past>(&self, wheel: &Wheel, past: &mut P, horizon: u32) -> &[u16]
        requires kept { KeepsNumbers wheel.now (P.words past.old) horizon self.now }
        requires reached { Reaches self.now horizon }
        ensures numbers { result.now ≡ numbers_below wheel.now (P.words past.old) horizon }
        ensures words { P.words past.new ≡ P.words past.old }
    {
        if horizon == self.reached {
            return self.list.as_slice();
        }
        let last = marks_up_to(horizon) - 1;
        let before = self.counts[last as usize] as usize;
        let count = count_places(wheel, past, before, mark(last), horizon);
        &self.list.as_slice()[..count]
    }
}

// The mark of this number, from 0 on: the places up to which the numbers are counted are 0, the powers of two from 64 to
// 512, and the multiples of 1,024.
fn mark(number: u32) -> u32
    requires { number ≤ 4194307 }
    ensures { result ≡ mark number }
{
    match number {
        0 => 0,
        1 => 64,
        2 => 128,
        3 => 256,
        4 => 512,
        _ => (number - 4) * STRETCH,
    }
}

// How many marks there are up to this place, with it.
fn marks_up_to(place: u32) -> u32
    ensures some { 1 ≤ result }
    ensures last { mark (result - 1) ≤ place }
    ensures next { place < mark result }
    ensures few { result ≤ place / 1024 + 5 }
{
    match place {
        0..64 => 1,
        64..128 => 2,
        128..256 => 3,
        256..512 => 4,
        _ => place / STRETCH + 5,
    }
}

// Keeps the numbers of the places from `reached` to `end` too.
fn keep_places<P: Past>(
    wheel: &Wheel,
    past: &mut P,
    list: &mut Vec<u16, LocalHeap>,
    reached: u32,
    end: u32,
)
    requires longer { reached ≤ end }
    requires room { end ≤ vec_capacity list.old }
    requires kept { list.old.items ≡ numbers_below wheel.now (P.words past.old) reached }
    ensures kept { list.new.items ≡ numbers_below wheel.now (P.words past.old) end }
    ensures capacity { vec_capacity list.old ≤ vec_capacity list.new }
    ensures few { length list.new.items ≤ end }
    ensures words { P.words past.new ≡ P.words past.old }
{
    let mut place = reached;
    // Made once for all windows of a call, which are of at most 1,024 places: to make both arrays writes 1.5 KiB.
    let mut words = [0; WINDOW as usize];
    let mut numbers = [0; WINDOW as usize];
    while place < end {
        let next = place + (end - place).min(WINDOW);
        keep_window(wheel, past, list, &mut words, &mut numbers, place, next);
        place = next;
    }
}

// How many numbers there are before `end`, where `before` are before `first`.
fn count_places<P: Past>(wheel: &Wheel, past: &mut P, before: usize, first: u32, end: u32) -> usize
    requires longer { first ≤ end }
    requires before { before ≡ length (numbers_below wheel.now (P.words past.old) first) }
    ensures count { result ≡ length (numbers_below wheel.now (P.words past.old) end) }
    ensures words { P.words past.new ≡ P.words past.old }
{
    let mut count = before;
    let mut place = first;
    let mut words = [0; WINDOW as usize];
    let mut numbers = [0; WINDOW as usize];
    while place < end {
        let next = place + (end - place).min(WINDOW);
        count += pick_window(wheel, past, &mut words, &mut numbers, place, next);
        place = next;
    }
    count
}

// Keeps the numbers of the places of a window too. What stands in the two arrays doesn't matter.
fn keep_window<P: Past>(
    wheel: &Wheel,
    past: &mut P,
    list: &mut Vec<u16, LocalHeap>,
    words: &mut [u32; 256],
    numbers: &mut [u16; 256],
    first: u32,
    end: u32,
)
    requires longer { first ≤ end }
    requires window { end ≤ first + 256 }
    requires room { end ≤ vec_capacity list.old }
    requires kept { list.old.items ≡ numbers_below wheel.now (P.words past.old) first }
    ensures kept { list.new.items ≡ numbers_below wheel.now (P.words past.old) end }
    ensures capacity { vec_capacity list.old ≤ vec_capacity list.new }
    ensures words { P.words past.new ≡ P.words past.old }
{
    let count = pick_window(wheel, past, words, numbers, first, end);
    // There is room for them.
    let _kept = list.extend_from_slice(&numbers[..count]);
}

// Puts the numbers of the places of a window to the front of the list, and returns how many they are.
fn pick_window<P: Past>(
    wheel: &Wheel,
    past: &mut P,
    words: &mut [u32; 256],
    numbers: &mut [u16; 256],
    first: u32,
    end: u32,
) -> usize
    requires longer { first ≤ end }
    requires window { end ≤ first + 256 }
    ensures few { result ≤ end - first }
    ensures numbers { numbers_below wheel.now (P.words past.old) first ++ take result numbers.new ≡ numbers_below wheel.now (P.words past.old) end }
    ensures words { P.words past.new ≡ P.words past.old }
{
    let drawn = &mut words[..(end - first) as usize];
    past.fill(first, drawn);
    wheel.pick_all(drawn, numbers)
}

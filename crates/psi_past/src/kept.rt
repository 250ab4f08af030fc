//! The words of a past that were drawn, kept for longer horizons.

ghost use Rattle.std.specs.Prelude.{◌≡◌, ◌<◌, ◌≤◌, max, length, vec_capacity, IfOk, IsOk};
ghost use Rattle.psi_past.specs.Filled.{AreWordsFrom};

use crate::OutOfMemory;
use crate::past::Past;
use std::alloc::Global;
use std::marker::Model;

#[cfg(test)]
mod tests;

/// A past, and the random words that were drawn from it, from place 0 on.
///
/// A run of a longer horizon meets the words of the shorter ones again and draws only those that it lacks (Propp and
/// Wilson 1996). All memory is allocated by `reserve`, 4 bytes for each place. No other call allocates.
///
/// It is seen as the past, the number of words that are kept, and the number of words that there is room for.
#[derive(Drop)]
pub struct Kept<P: Past + Drop> {
    past: P,
    words: Vec<u32>,
}

impl<P: Past + Drop> Model for Kept<P> {
    ghost use Rattle.std.specs.Prelude.{length, vec_capacity};
    ghost use Rattle.psi_past.specs.Keeping.{Keeping};
    ghost use Rattle.psi_past.specs.Filled.{AreWordsFrom};

    ghost Value = { Keeping P };

    // The room is the list's capacity, which no call changes after `reserve`.
    ghost view = { λ k. record {
      past = k.past;
      count = length k.words.items;
      most = vec_capacity k.words;
    } };

    ghost invariant = { λ k. AreWordsFrom (P.words k.past) 0 k.words.items };
}

impl<P: Past + Drop> Kept<P> {
    /// Allocates room for `most` words of a past. No word is drawn.
    ///
    /// Returns `OutOfMemory` if the allocation fails; the past is dropped then. No clause says when that is, except
    /// that room for no word at all is always given.
    pub fn reserve(alloc: Global, past: P, most: u32) -> Result<Kept<P>, OutOfMemory>
        ensures kept { IfOk result (λ kept. kept ≡ record { past = past; count = 0; most = most }) }
        ensures no_room_needed { most ≡ 0 → IsOk result }
    {
        let words = Vec::with_capacity(alloc, most as usize)?;
        Ok(Kept { past, words })
    }

    /// Keeps the words of all places below `n`, which is at most the number that there is room for. It draws those that
    /// are not kept yet, each once and in the order of their places.
    pub fn extend_to(&mut self, n: u32)
        requires { n ≤ self.old.most }
        ensures { self.new ≡ record { past = self.old.past; count = max self.old.count n; most = self.old.most } }
    {
        draw(&mut self.past, &mut self.words, n);
    }

    /// Returns the word at a place, which is below the number of words that are kept.
    pub fn at(&self, place: u32) -> u32
        requires { place < self.now.count }
        ensures { result ≡ P.words self.now.past place }
    {
        self.words[place as usize]
    }

    /// Takes another past, of which no word is kept yet. The room stays.
    pub fn replace(&mut self, past: P)
        ensures { self.new ≡ record { past = past; count = 0; most = self.old.most } }
    {
        self.words.clear();
        self.past = past;
    }
}

// Draws the words of the places from the list's length on, up to n words in all.
fn draw<P: Past>(past: &mut P, words: &mut Vec<u32>, n: u32)
    requires room { n ≤ vec_capacity words.old }
    requires drawn { AreWordsFrom (P.words past.old) 0 words.old.items }
    ensures same { past.new ≡ past.old }
    ensures drawn { AreWordsFrom (P.words past.new) 0 words.new.items }
    ensures count { length words.new.items ≡ max (length words.old.items) n }
    ensures capacity { vec_capacity words.new ≡ vec_capacity words.old }
{
    for place in words.len()..n as usize {
        words.push_reserved(past.word(place as u32));
    }
}

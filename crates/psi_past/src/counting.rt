//! A past that counts, for the tests.

use crate::past::Past;
use std::marker::Model;

// A past whose words are their places. It counts the words drawn from it, and sees whether their places came in order
// from 0.
#[derive(Drop)]
pub(crate) struct CountingPast {
    pub(crate) drawn: u32,
    pub(crate) in_order: bool,
}

impl Model for CountingPast {
    ghost Value = { Unit {0} };

    ghost view = { λ _. tt };
}

impl CountingPast {
    // A past from which no word was drawn yet.
    pub(crate) fn new() -> CountingPast {
        CountingPast {
            drawn: 0,
            in_order: true,
        }
    }
}

impl Past for CountingPast {
    ghost words = { λ _ place. place };

    fn word(&mut self, place: u32) -> u32 {
        self.in_order = self.in_order && place == self.drawn;
        self.drawn = self.drawn.wrapping_add(1);
        place
    }
}

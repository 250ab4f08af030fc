//! The past of a list of words.

ghost use Rattle.std.specs.Prelude.{◌≡◌};

use crate::past::Past;
use std::marker::Model;

/// The words of a list, and 0 at each place past its end.
#[derive(Drop)]
pub struct ListPast {
    words: Vec<u32>,
}

impl Model for ListPast {
    ghost use Rattle.std.specs.Prelude.{ℕ, List};

    ghost Value = { List ℕ };

    ghost view = { λ p. p.words.items };
}

impl ListPast {
    /// Returns the past whose word at each place is that of the list, and 0 past the list's end.
    pub fn new(words: Vec<u32>) -> ListPast
        ensures { result ≡ words.items }
    {
        ListPast { words }
    }
}

impl Past for ListPast {
    ghost use Rattle.std.specs.Prelude.{slice_index};

    ghost words = { λ p place. slice_index p place };

    fn word(&mut self, place: u32) -> u32 {
        self.words.get(place as usize).copied().unwrap_or(0)
    }
}

//! A past that is read backwards.

ghost use Rattle.std.specs.Prelude.{◌≡◌};

use crate::past::Past;
use std::marker::Model;

#[cfg(test)]
mod tests;

// How many words a window has.
const WINDOW: u32 = 256;

/// Another past, whose words are drawn 256 at a time, and looked up while the places that are asked
/// for stand among these: for one that is read backwards, word by word, where
/// [`SeedPast`](crate::SeedPast) is cheap only forwards.
///
/// It is seen as the other past, and its words are the same.
#[derive(Drop)]
pub struct Windowed<P: Past + Drop> {
    past: P,
    words: [u32; 256],
    // The number of the window whose words stand in `words`, counted from place 0 on.
    number: Option<u32>,
}

impl<P: Past + Drop> Model for Windowed<P> {
    ghost use Rattle.std.specs.Prelude.{◌*◌, IfSome};
    ghost use Rattle.psi_past.specs.Filled.{AreWordsFrom};

    ghost Value = { P };

    ghost view = { λ w. w.past };

    ghost invariant = { λ w. IfSome w.number (λ n. AreWordsFrom (P.words w.past) (256 * n) w.words) };
}

impl<P: Past + Drop> Windowed<P> {
    /// Returns a past, of which no word is drawn yet.
    pub fn new(past: P) -> Windowed<P>
        ensures { result ≡ past }
    {
        Windowed {
            past,
            words: [0; WINDOW as usize],
            number: None,
        }
    }

    /// Takes another past, of which no word is drawn yet.
    pub fn replace(&mut self, past: P)
        ensures { self.new ≡ past }
    {
        self.past = past;
        self.number = None;
    }
}

impl<P: Past + Drop> Past for Windowed<P> {
    ghost words = { λ w place. P.words w place };

    #[inline]
    fn word(&mut self, place: u32) -> u32 {
        let number = place / WINDOW;
        if self.number != Some(number) {
            self.past.fill(number * WINDOW, &mut self.words);
            self.number = Some(number);
        }
        self.words[(place % WINDOW) as usize]
    }

    fn fill(&mut self, place: u32, out: &mut [u32]) {
        self.past.fill(place, out);
    }
}

//! The contract of a past.

ghost use Rattle.std.specs.Prelude.{◌≡◌, ◌+◌, ◌^◌, ◌≤◌, ℕ, length};
ghost use Rattle.psi_past.specs.Filled.{AreWordsFrom};

/// One random word for each place, fixed once and for all.
///
/// A run may read a place as often as it likes and in any order, and always meets the same word.
pub trait Past {
    // The word of each place.
    ghost words: { Self → ℕ → ℕ };

    /// The word at a place. Reading changes nothing of what the past is seen as.
    fn word(&mut self, place: u32) -> u32
        ensures value { result ≡ words self.old place }
        ensures same { self.new ≡ self.old };

    /// Fills a slice with the words of as many places as it has, from this one on. The last of them
    /// is at most 2^32 - 1. Reading changes nothing of what the past is seen as.
    fn fill(&mut self, place: u32, out: &mut [u32])
        requires places { place + length out.old ≤ 2 ^ 32 }
        ensures count { length out.new ≡ length out.old }
        ensures filled { AreWordsFrom (words self.old) place out.new }
        ensures same { self.new ≡ self.old }
    {
        for i in 0..out.len() {
            out[i] = self.word(place + i as u32);
        }
    }
}

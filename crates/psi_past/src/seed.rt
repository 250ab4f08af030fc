//! The past of a seed and a stream.

ghost use Rattle.std.specs.Prelude.{◌≡◌, ◌<◌, ◌^◌};

use crate::drawing::draw;
use crate::past::Past;
use rand_chacha::ChaCha20Rng;
use rand_core::SeedableRng;
use rand_core::utils::NextWord;
use std::marker::Model;

#[cfg(test)]
mod tests;

/// The words of a seed and a stream: the key stream of ChaCha20 (RFC 8439).
///
/// The word at place p is word p mod 16 of the block that the RFC's block function gives for the
/// block counter p div 16, a key of 32 bytes (the seed in 8 bytes, the low one first, and 24 zero
/// bytes) and a nonce of 12 bytes (4 zero bytes, and the stream's number in 8 bytes, the low one
/// first). Words read at one place after the other are the cheapest.
#[derive(Drop)]
pub struct SeedPast {
    generator: ChaCha20Rng,
    seed: u64,
    stream: u64,
    // The place of the generator's next word.
    next: u64,
}

impl Model for SeedPast {
    ghost use Rattle.std.specs.Prelude.{◌≡◌, ◌<◌, ◌^◌};
    ghost use Rattle.rand_chacha.specs.ChaCha.{key_of};
    ghost use Rattle.psi_past.specs.Seeded.{Seeded};
    ghost use Rattle.psi_past.specs.SeedWord.{key_bytes};

    ghost Value = { Seeded };

    ghost view = { λ p. record { seed = p.seed; stream = p.stream } };

    // The generator has the seed's key and the stream, and stands at `next`.
    ghost invariant = { λ p.
        (p.generator ≡ record { key = key_of (key_bytes p.seed); stream = p.stream; word_pos = p.next })
        × (p.stream < 2 ^ 64) };
}

impl SeedPast {
    /// Returns the past of a seed and a stream's number, each any number of 64 bits.
    pub fn new(seed: u64, stream: u64) -> SeedPast
        ensures { result ≡ record { seed = seed; stream = stream } }
    {
        let mut key = [0; 32];
        key[..8].copy_from_slice(&seed.to_le_bytes());
        let mut generator = ChaCha20Rng::from_seed(key);
        generator.set_stream(stream);
        SeedPast {
            generator,
            seed,
            stream,
            next: 0,
        }
    }
}

impl Past for SeedPast {
    ghost use Rattle.psi_past.specs.SeedWord.{seed_word};

    ghost words = { λ p place. seed_word p.seed p.stream place };

    #[inline]
    fn word(&mut self, place: u32) -> u32 {
        let place = u64::from(place);
        stand_at(&mut self.generator, self.next, place);
        self.next = place + 1;
        self.generator.next_word()
    }

    fn fill(&mut self, place: u32, out: &mut [u32]) {
        let first = u64::from(place);
        stand_at(&mut self.generator, self.next, first);
        self.next = first + out.len() as u64;
        draw(&mut self.generator, place, out);
    }
}

// Lets a generator whose next word is that at the place `next` stand at a place.
#[inline]
fn stand_at(generator: &mut ChaCha20Rng, next: u64, place: u64)
    requires next { generator.old.word_pos ≡ next }
    requires near { place < 2 ^ 36 }
    ensures { generator.new ≡ record { key = generator.old.key; stream = generator.old.stream; word_pos = place } }
{
    if next != place {
        generator.set_word_pos(u128::from(place));
    }
}

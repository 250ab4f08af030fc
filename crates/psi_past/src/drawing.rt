//! The words of a generator, many at a time.

ghost use Rattle.std.specs.Prelude.{◌≡◌, ◌+◌, ◌*◌, ◌<◌, ◌^◌, ◌≤◌, ℕ, length, slice_index};
ghost use Rattle.psi_past.specs.Drawn.{Draws};

use rand_chacha::ChaCha20Rng;
use rand_core::utils::NextWord;

// How many words the generator makes at once.
const BLOCK: usize = 64;

// Draws the next words into the slice, as many as it has places. The generator stands at this
// place.
pub(crate) fn draw(generator: &mut ChaCha20Rng, place: u32, out: &mut [u32])
    requires place { generator.old.word_pos ≡ place }
    requires places { place + length out.old ≤ 2 ^ 32 }
    ensures { Draws (length out.old) 0 generator.old generator.new out.old out.new }
{
    let mut blocks = 0;
    if place as usize % BLOCK == 0 {
        blocks = out.len() / BLOCK;
        draw_blocks(generator, place as usize / BLOCK, out, blocks);
    }
    for at in blocks * BLOCK..out.len() {
        draw_one(generator, out, at);
    }
}

// Draws `blocks` blocks, the first of which has the number `first`.
fn draw_blocks(generator: &mut ChaCha20Rng, first: usize, out: &mut [u32], blocks: usize)
    requires place { generator.old.word_pos ≡ 64 * first }
    requires few { first < 2 ^ 32 }
    requires fits { 64 * blocks ≤ length out.old }
    requires places { 64 * first + length out.old ≤ 2 ^ 32 }
    ensures { Draws (64 * blocks) 0 generator.old generator.new out.old out.new }
{
    for block in 0..blocks {
        // It stands there already. But as the place is set to a block's first, the compiler
        // knows that nothing is left of the block before, and doesn't ask so at each word.
        generator.set_word_pos((BLOCK * (first + block)) as u128);
        draw_block(generator, out, BLOCK * block);
    }
}

// Draws the next 64 words into the slice, from the place `at` on. They are drawn into an array of its
// own: a write to the slice might change the generator, for all that the compiler knows, so that it
// would ask after each word which one is next.
#[inline(always)]
fn draw_block(generator: &mut ChaCha20Rng, out: &mut [u32], at: usize)
    requires fits { at + 64 ≤ length out.old }
    requires near { generator.old.word_pos + 64 ≤ 2 ^ 36 }
    ensures { Draws 64 at generator.old generator.new out.old out.new }
{
    let mut words = [0; BLOCK];
    draw_eight(generator, &mut words, 0);
    draw_eight(generator, &mut words, 8);
    draw_eight(generator, &mut words, 16);
    draw_eight(generator, &mut words, 24);
    draw_eight(generator, &mut words, 32);
    draw_eight(generator, &mut words, 40);
    draw_eight(generator, &mut words, 48);
    draw_eight(generator, &mut words, 56);
    put_block(out, at, &words);
}

// Puts a block of words into the slice, from the place `at` on.
#[inline(always)]
fn put_block(out: &mut [u32], at: usize, words: &[u32; 64])
    requires fits { at + 64 ≤ length out.old }
    ensures same_length { length out.new ≡ length out.old }
    ensures kept { (i : ℕ) → i < at → slice_index out.new i ≡ slice_index out.old i }
    ensures put { (i : ℕ) → i < 64 → slice_index out.new (at + i) ≡ slice_index words.now i }
{
    out[at..at + BLOCK].copy_from_slice(words);
}

// Draws the next eight words.
#[inline(always)]
fn draw_eight(generator: &mut ChaCha20Rng, out: &mut [u32], at: usize)
    requires fits { at + 8 ≤ length out.old }
    requires near { generator.old.word_pos + 8 ≤ 2 ^ 36 }
    ensures { Draws 8 at generator.old generator.new out.old out.new }
{
    draw_one(generator, out, at);
    draw_one(generator, out, at + 1);
    draw_one(generator, out, at + 2);
    draw_one(generator, out, at + 3);
    draw_one(generator, out, at + 4);
    draw_one(generator, out, at + 5);
    draw_one(generator, out, at + 6);
    draw_one(generator, out, at + 7);
}

// Draws the next word.
#[inline(always)]
fn draw_one(generator: &mut ChaCha20Rng, out: &mut [u32], at: usize)
    requires fits { at < length out.old }
    requires near { generator.old.word_pos < 2 ^ 36 }
    ensures { Draws 1 at generator.old generator.new out.old out.new }
{
    out[at] = generator.next_word();
}

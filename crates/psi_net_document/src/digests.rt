//! Numbers by which most texts are distinguished at once.

ghost use Rattle.std.specs.Prelude.{◌+◌, ◌<◌, ◌≤◌, length};

use indexmap::IndexSet;
use psi_net_model::Name;

// The fingerprints of at most 32 names, by their places; after the last one stands 0.
pub(crate) fn fingerprints(names: &IndexSet<Name>) -> [u64; 32] {
    let mut all = [0; 32];
    for (place, name) in names.as_slice().iter().take(32).enumerate() {
        all[place] = fingerprint(name.bytes());
    }
    all
}

// For each slot the number of a name whose fingerprint has it, and 0 where there is none.
pub(crate) fn slots_of(fingerprints: &[u64; 32]) -> [u8; 256] {
    let mut slots = [0; 256];
    for number in 0..32 {
        slots[slot(fingerprints[number as usize])] = number;
    }
    slots
}

// The slot of a fingerprint, from 0 to 255: the first eight bits of its product with a fixed odd number
// (Fibonacci hashing, Knuth 1973).
pub(crate) fn slot(fingerprint: u64) -> usize
    ensures { result < 256 }
{
    (fingerprint.wrapping_mul(0x9E37_79B9_7F4A_7C15) >> 56) as usize
}

// A number made of a text's first eight bytes and its last eight; of all its bytes where it has no eight.
pub(crate) fn fingerprint(text: &[u8]) -> u64 {
    if text.len() < 8 {
        let mut all = 0;
        for byte in text {
            all = all << 8 | *byte as u64;
        }
        return all;
    }
    eight(text, 0) ^ eight(text, text.len() - 8).rotate_left(13)
}

// The eight bytes from a place on, as a number.
fn eight(text: &[u8], first: usize) -> u64
    requires { first + 8 ≤ length text.now }
{
    u64::from_le_bytes([
        text[first],
        text[first + 1],
        text[first + 2],
        text[first + 3],
        text[first + 4],
        text[first + 5],
        text[first + 6],
        text[first + 7],
    ])
}

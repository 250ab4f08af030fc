//! Words of seeds against RFC 8439 and an independent program.

use super::*;

// RFC 8439, A.1, test vector 1: the block of the zero key and the zero nonce at block counter 0.
const FIRST_BLOCK: [u32; 16] = [
    0xade0b876, 0x903df1a0, 0xe56a5d40, 0x28bd8653, 0xb819d2bd, 0x1aed8da0, 0xccef36a8, 0xc70d778b,
    0x7c5941da, 0x8d485751, 0x3fe02477, 0x374ad8b8, 0xf4b8436a, 0x1ca11815, 0x69b687c3, 0x8665eeb2,
];

#[test]
fn first_block_of_the_zero_seed(rt: HostRuntime) {
    let mut past = SeedPast::new(0, 0);
    for (place, expected) in FIRST_BLOCK.iter().enumerate() {
        assert_eq!(rt; past.word(place as u32), *expected, "at place {place}");
    }
}

// The expected words were computed by an independent program from RFC 8439, and agree with those
// that OpenSSL's ChaCha20 gives for the same key, counter and nonce.
#[test]
fn words_of_a_seed_and_a_stream(rt: HostRuntime) {
    let mut past = SeedPast::new(0x0706_0504_0302_0100, 0x8000_0001_0000_0002);
    for (place, expected) in [
        (0u32, 0xe5fca4b0u32),
        (1, 0xdc526a6b),
        (15, 0xf3bd94a6),
        (16, 0xe751d2e1),
        (17, 0x63e23b5a),
        (63, 0x9f5958d3),
        (64, 0x8eba538d),
        (1_000_003, 0x51c95c2f),
        (0x8000_0000, 0x7793428e),
        (0xffff_fffe, 0xb94f82d6),
        (0xffff_ffff, 0x7a147e60),
        (0, 0xe5fca4b0),
    ] {
        assert_eq!(rt; past.word(place), expected, "at place {place}");
    }
}

//! The numbers that fields are.

ghost use Rattle.std.specs.Prelude.{◌≡◌, ◌<◌, ◌^◌, IfSome};
ghost use Rattle.psi_report_reader.specs.Numbers.{with_digit, magnitude, integer_of, count_in};

// Numbers less than this one may have one more digit.
const LIMIT: u128 = 1_000_000_000_000_000_000_000_000_000_000_000_000;

// The number with one digit more.
#[tactic(auto, unfolding(crate::specs::Numbers::with_digit))]
fn with_digit(value: u128, byte: u8) -> Option<u128>
    ensures value { result ≡ with_digit value byte }
    ensures small { IfSome result (λ n. n < 10 ^ 37) }
{
    if byte.is_ascii_digit() && value < LIMIT {
        return Some(value * 10 + (byte - b'0') as u128);
    }
    None
}

// The number that digits are, less than 10^37.
#[tactic(auto, using(crate::proofs::NumberLemmas::digits_end))]
fn magnitude(word: &[u8]) -> Option<u128>
    ensures value { result ≡ magnitude word.now }
    ensures small { IfSome result (λ n. n < 10 ^ 37) }
{
    let mut value: u128 = 0;
    for byte in word {
        match with_digit(value, *byte) {
            Some(next) => value = next,
            None => return None,
        }
    }
    Some(value)
}

/// The integer that digits are, after a minus sign or none: its magnitude is less than 10^37.
pub(crate) fn integer_of(word: &[u8]) -> Option<i128>
    ensures { result ≡ integer_of word.now }
{
    match word {
        [] => None,
        [b'-', digits @ ..] => match magnitude(digits) {
            Some(n) => Some(-(n as i128)),
            None => None,
        },
        _ => match magnitude(word) {
            Some(n) => Some(n as i128),
            None => None,
        },
    }
}

/// The number of 64 bits that digits are.
#[tactic(auto, unfolding(crate::specs::Numbers::count_in))]
pub(crate) fn count_in(word: &[u8]) -> Option<u64>
    ensures { result ≡ count_in word.now }
{
    match magnitude(word) {
        Some(n) if n <= u64::MAX as u128 => Some(n as u64),
        _ => None,
    }
}

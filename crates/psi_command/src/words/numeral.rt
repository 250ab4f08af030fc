//! Numbers as words.

ghost use Rattle.std.specs.Prelude.{◌≡◌, ◌≤◌, Option, IfSome};
ghost use Rattle.std.specs.List.{list_all};
ghost use Rattle.psi_command.specs.Words.{is_digit, is_numeral, greatest_number, number_up_to};

// Whether all bytes are digits.
fn are_digits(word: &[u8]) -> bool
    ensures { result ≡ list_all is_digit word.now }
{
    word.iter().all(|byte| byte.is_ascii_digit())
}

// Whether the bytes are one digit or more, the first of several not being 0.
#[tactic(auto, using(crate::proofs::NumeralsLemmas::numeral_empty, crate::proofs::NumeralsLemmas::numeral_zero, crate::proofs::NumeralsLemmas::numeral_one, crate::proofs::NumeralsLemmas::numeral_more))]
fn is_numeral(word: &[u8]) -> bool
    ensures { result ≡ is_numeral word.now }
{
    if word.is_empty() {
        return false;
    }
    if word.len() > 1 && word[0] == b'0' {
        return false;
    }
    are_digits(word)
}

/// The number of at most `most` that a word is, if it is one. (The reading of numbers in std takes a plus sign and
/// zeros in front, which are none here.)
#[tactic(auto, using(crate::proofs::NumeralsLemmas::number_unread))]
pub(crate) fn number(word: &str, most: u64) -> Option<u64>
    ensures number { result ≡ number_up_to most word.now }
    ensures bound { IfSome result (λ n. n ≤ most) }
{
    let number = greatest_read(word)?;
    if number <= most { Some(number) } else { None }
}

// The number of 64 bits that a word is, if it is one.
#[tactic(auto, using(crate::proofs::NumeralsLemmas::number_parsed, crate::proofs::NumeralsLemmas::number_none))]
fn greatest_read(word: &str) -> Option<u64>
    ensures { result ≡ number_up_to greatest_number word.now }
{
    if is_numeral(word.as_bytes()) {
        word.parse::<u64>().ok()
    } else {
        None
    }
}

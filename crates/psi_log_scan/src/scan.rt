//! Bytes, numbers and states that stand in a text at a place. Where one isn't found, nothing is said of the text:
//! its line is then read word by word.

ghost use Rattle.std.specs.Prelude.{◌≡◌, ℕ, ◌∷◌, [], ◌+◌, ◌<◌, ◌≤◌, length, take, decimal, IsTrue, IfSome};
ghost use Rattle.psi_log_format.specs.Text.{numbers_text};
ghost use Rattle.psi_log_scan.specs.Scanned.{Stands, with_comma, with_commas};

/// Returns whether a byte stands at a place.
#[inline]
#[tactic(auto, using(crate::proofs::ScanLemmas::byte_stands))]
pub fn has_byte(text: &[u8], at: usize, byte: u8) -> bool
    ensures within { IsTrue result → at < length text.now }
    ensures there { IsTrue result → Stands text.now at (at + 1) (byte ∷ []) }
{
    at < text.len() && text[at] == byte
}

/// Returns whether a word stands at a place.
pub fn has_word(text: &[u8], at: usize, word: &[u8]) -> bool
    ensures within { IsTrue result → at + length word.now ≤ length text.now }
    ensures there { IsTrue result → Stands text.now at (at + length word.now) word.now }
{
    if at > text.len() || text.len() - at < word.len() {
        return false;
    }
    let part = &text[at..at + word.len()];
    part == word
}

/// The digit that a byte is.
#[inline]
pub(crate) fn digit_of(byte: u8) -> Option<u32>
    ensures small { IfSome result (λ digit. digit ≤ 9) }
    ensures value { IfSome result (λ digit. 48 + digit ≡ byte) }
{
    if byte.is_ascii_digit() {
        return Some((byte - b'0') as u32);
    }
    None
}

// The digit at a place.
#[inline]
#[tactic(auto, using(crate::proofs::ScanLemmas::digit_stands))]
fn digit_at(text: &[u8], at: usize) -> Option<u32>
    ensures within { IfSome result (λ digit. at < length text.now) }
    ensures small { IfSome result (λ digit. digit ≤ 9) }
    ensures there { IfSome result (λ digit. Stands text.now at (at + 1) ((48 + digit) ∷ [])) }
{
    if at < text.len() {
        let byte = text[at];
        if byte.is_ascii_digit() {
            return Some((byte - b'0') as u32);
        }
    }
    None
}

/// The number of at most seven digits that stands at a place, and the place after it.
#[inline]
pub(crate) fn number_at(text: &[u8], at: usize) -> Option<(u32, usize)>
    ensures within { IfSome result (λ read. read.1 ≤ length text.now) }
    ensures there { IfSome result (λ read. Stands text.now at read.1 (decimal read.0)) }
{
    let mut value = digit_at(text, at)?;
    let mut end = at + 1;
    for _ in 0..6 {
        let Some(digit) = digit_at(text, end) else {
            return Some((value, end));
        };
        if value == 0 || value > 999_999 {
            return None;
        }
        value = 10 * value + digit;
        end += 1;
    }
    Some((value, end))
}

// The number of 16 bits that stands at a place, and the place after it.
#[inline(never)]
fn any_small_at(text: &[u8], at: usize) -> Option<(u16, usize)>
    ensures within { IfSome result (λ read. read.1 ≤ length text.now) }
    ensures there { IfSome result (λ read. Stands text.now at read.1 (decimal read.0)) }
{
    let (number, end) = number_at(text, at)?;
    if number > 65_535 {
        return None;
    }
    Some((number as u16, end))
}

/// The number of 16 bits that stands at a place, and the place after it; at once where it has one or two digits.
#[inline]
#[tactic(auto, using(crate::proofs::ScanLemmas::digit_first, crate::proofs::ScanLemmas::two_digits))]
pub(crate) fn small_at(text: &[u8], at: usize) -> Option<(u16, usize)>
    ensures within { IfSome result (λ read. read.1 ≤ length text.now) }
    ensures there { IfSome result (λ read. Stands text.now at read.1 (decimal read.0)) }
{
    let first = digit_at(text, at)?;
    let next = at + 1;
    let Some(second) = digit_at(text, next) else {
        return Some((first as u16, next));
    };
    if first >= 1 && digit_at(text, next + 1).is_none() {
        let number = 10 * first + second;
        return Some((number as u16, next + 1));
    }
    any_small_at(text, at)
}

// The number of 16 bits that stands at a place with a comma after it, and the place after the comma.
#[inline(never)]
fn any_with_comma(text: &[u8], at: usize) -> Option<(u16, usize)>
    ensures within { IfSome result (λ read. read.1 ≤ length text.now) }
    ensures there { IfSome result (λ read. Stands text.now at read.1 (with_comma read.0)) }
{
    let (number, end) = any_small_at(text, at)?;
    if !has_byte(text, end, b',') {
        return None;
    }
    Some((number, end + 1))
}

/// The number of 16 bits that stands at a place with a comma after it, and the place after the comma; at once where it
/// has one or two digits. At `last`, and before it, two bytes more stand after a place.
#[inline]
pub(crate) fn small_with_comma(text: &[u8], at: usize, last: usize) -> Option<(u16, usize)>
    requires { last + 2 < length text.now }
    ensures within { IfSome result (λ read. read.1 ≤ length text.now) }
    ensures there { IfSome result (λ read. Stands text.now at read.1 (with_comma read.0)) }
{
    if at > last {
        return any_with_comma(text, at);
    }
    let first = digit_of(text[at])?;
    if text[at + 1] == b',' {
        return Some((first as u16, at + 2));
    }
    let second = digit_of(text[at + 1])?;
    if first >= 1 && text[at + 2] == b',' {
        let number = 10 * first + second;
        return Some((number as u16, at + 3));
    }
    any_with_comma(text, at)
}

/// Reads the numbers of a row that stand at a place, joined by commas, and returns the place after them. Where nothing
/// is given, nothing is said of the row.
#[inline(never)]
pub(crate) fn read_row(text: &[u8], at: usize, row: &mut [u16]) -> Option<usize>
    requires some { 1 ≤ length row.old }
    requires within { at ≤ length text.now }
    ensures count { length row.new ≡ length row.old }
    ensures within { IfSome result (λ end. end ≤ length text.now) }
    ensures there { IfSome result (λ end. Stands text.now at end (numbers_text row.new)) }
{
    if text.len() < 3 {
        return None;
    }
    let last = text.len() - 3;
    let most = row.len() - 1;
    let mut end = at;
    for queue in 0..most {
        let Some((number, next)) = small_with_comma(text, end, last) else {
            return None;
        };
        row[queue] = number;
        end = next;
    }
    let (number, end) = small_at(text, end)?;
    row[most] = number;
    Some(end)
}

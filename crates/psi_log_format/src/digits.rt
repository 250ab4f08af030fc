//! The texts of numbers: of small ones from a table that is made once, of others digit by digit.

ghost use Rattle.std.specs.Prelude.{◌≡◌, ◌∷◌, ◌+◌, ◌<◌, ◌≤◌, length, decimal, IfOk};
ghost use Rattle.psi_log_format.specs.Room.{Puts};
ghost use Rattle.psi_log_format.specs.Inner.TableKept.{IsDigits, AreDigits};

use crate::put::put;
use itoa::{Buffer, write_digits};
use std::alloc::{AllocError, Global};

// The numbers below this one are in the table.
const COUNT: u32 = 1_000;

/// A comma and the decimal digits of a number of at most three digits, in the front of four bytes, and how many
/// bytes these are.
#[derive(Clone, Copy, Debug)]
pub(crate) struct Digits {
    bytes: [u8; 4],
    len: u32,
}

/// The table of the numbers below 1,000.
pub(crate) fn small_numbers(alloc: Global) -> Result<Vec<Digits>, AllocError>
    ensures { IfOk result (λ table. AreDigits table.items) }
{
    let mut table = Vec::with_capacity(alloc, COUNT as usize)?;
    for n in 0..COUNT {
        table.push_reserved(digits_of(n));
    }
    Ok(table)
}

// The digits of a number.
fn digits_of(n: u32) -> Digits
    requires { n < 1000 }
    ensures { IsDigits n result }
{
    let mut buffer = Buffer::new();
    let text = buffer.format(n).as_bytes();
    let mut bytes = [b','; 4];
    let end = put(&mut bytes, 1, text);
    Digits {
        bytes,
        len: end as u32,
    }
}

/// Puts a comma and the decimal digits of a number. Of one of the table four bytes are written, however many it has.
#[inline]
pub(crate) fn put_next(out: &mut [u8], at: usize, table: &[Digits], n: u16) -> usize
    requires room { at + 6 ≤ length out.old }
    requires table { AreDigits table.now }
    ensures text { Puts out.old out.new at result (44 ∷ decimal n) }
    ensures short { result ≤ at + 6 }
{
    if (n as usize) >= table.len() {
        return put_long(out, at, n);
    }
    let digits = table[n as usize];
    let _end = put(out, at, &digits.bytes);
    at + digits.len as usize
}

// Puts a comma and the decimal digits of a number that isn't in the table.
#[inline(never)]
fn put_long(out: &mut [u8], at: usize, n: u16) -> usize
    requires room { at + 6 ≤ length out.old }
    ensures text { Puts out.old out.new at result (44 ∷ decimal n) }
    ensures short { result ≤ at + 6 }
{
    let mut digits = Buffer::new();
    let comma = put(out, at, b",");
    put(out, comma, digits.format(n).as_bytes())
}

/// Puts a space and the decimal digits of a number.
#[inline]
pub(crate) fn put_first(out: &mut [u8], at: usize, table: &[Digits], n: u16) -> usize
    requires room { at + 6 ≤ length out.old }
    requires table { AreDigits table.now }
    ensures text { Puts out.old out.new at result (32 ∷ decimal n) }
    ensures short { result ≤ at + 6 }
{
    let end = put_next(out, at, table, n);
    out[at] = b' ';
    end
}

/// Puts the decimal digits of a number.
pub(crate) fn put_number(out: &mut [u8], at: usize, n: u32) -> usize
    requires { at + 10 ≤ length out.old }
    ensures text { Puts out.old out.new at result (decimal n) }
    ensures short { result ≤ at + 10 }
{
    let end = at + count_digits(n);
    let _start = write_digits(n as u64, out, end);
    end
}

// How many decimal digits a number has.
#[tactic(auto, using(itoa::proofs::Decimal::length_four))]
fn count_digits(n: u32) -> usize
    ensures count { result ≡ length (decimal n) }
    ensures few { result ≤ 10 }
{
    if n < 10_000 {
        return count_few_digits(n);
    }
    if n < 100_000_000 {
        return 4 + count_few_digits(n / 10_000);
    }
    8 + count_few_digits(n / 100_000_000)
}

// How many decimal digits a number below 10,000 has.
#[tactic(auto, using(itoa::proofs::Decimal::length_one, itoa::proofs::Decimal::length_two, itoa::proofs::Decimal::length_pair))]
fn count_few_digits(n: u32) -> usize
    requires { n < 10000 }
    ensures count { result ≡ length (decimal n) }
    ensures few { result ≤ 4 }
    ensures fewer { n < 100 → result ≤ 2 }
{
    if n < 10 {
        return 1;
    }
    if n < 100 {
        return 2;
    }
    if n < 1_000 {
        return 3;
    }
    4
}

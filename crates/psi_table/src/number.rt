//! Numbers in decimal digits, without a buffer of their own.

ghost use Rattle.std.specs.Prelude.{◌≡◌, ◌+◌, ◌/◌, ◌%◌, ◌^◌, ◌<◌, ◌≤◌, [], ◌∷◌, ◌++◌, length, replicate, vec_len, vec_capacity};
ghost use Rattle.std.specs.Fmt.{decimal, signed_decimal};

use itoa::Buffer;

/// Appends a piece that there is room for.
fn put(line: &mut Vec<u8>, piece: &[u8])
    requires { vec_len line.old + length piece.now ≤ vec_capacity line.old }
    ensures text { line.new.items ≡ line.old.items ++ piece.now }
    ensures count { vec_len line.new ≡ vec_len line.old + length piece.now }
    ensures room { vec_capacity line.old ≤ vec_capacity line.new }
{
    line.extend_from_slice(piece).unwrap();
}

// Appends two digits.
fn put_pair(line: &mut Vec<u8>, n: u64)
    requires small { n < 100 }
    requires room { vec_len line.old + 2 ≤ vec_capacity line.old }
    ensures text { line.new.items ≡ line.old.items ++ (48 + n / 10) ∷ (48 + n % 10) ∷ [] }
    ensures count { vec_len line.new ≡ vec_len line.old + 2 }
    ensures room { vec_capacity line.old ≤ vec_capacity line.new }
{
    line.push_reserved(b'0' + (n / 10) as u8);
    line.push_reserved(b'0' + (n % 10) as u8);
}

// Appends a number of one digit or two.
#[tactic(auto, using(crate::proofs::NumberLemmas::decimal_one, crate::proofs::NumberLemmas::decimal_two))]
fn put_short(line: &mut Vec<u8>, n: u64)
    requires small { n < 100 }
    requires room { vec_len line.old + 2 ≤ vec_capacity line.old }
    ensures text { line.new.items ≡ line.old.items ++ decimal n }
    ensures count { vec_len line.new ≤ vec_len line.old + 2 }
    ensures room { vec_capacity line.old ≤ vec_capacity line.new }
{
    if n < 10 {
        line.push_reserved(b'0' + n as u8);
        return;
    }
    put_pair(line, n);
}

// Appends a number of at most four digits.
fn put_four(line: &mut Vec<u8>, n: u64)
    requires small { n < 10000 }
    requires room { vec_len line.old + 4 ≤ vec_capacity line.old }
    ensures text { line.new.items ≡ line.old.items ++ decimal n }
    ensures count { vec_len line.new ≤ vec_len line.old + 4 }
    ensures room { vec_capacity line.old ≤ vec_capacity line.new }
{
    if n < 100 {
        put_short(line, n);
        return;
    }
    put_short(line, n / 100);
    put_pair(line, n % 100);
}

// Appends a number of five to eight digits.
fn put_eight(line: &mut Vec<u8>, n: u64)
    requires some { 10000 ≤ n }
    requires small { n < 100000000 }
    requires room { vec_len line.old + 8 ≤ vec_capacity line.old }
    ensures text { line.new.items ≡ line.old.items ++ decimal n }
    ensures count { vec_len line.new ≤ vec_len line.old + 8 }
    ensures room { vec_capacity line.old ≤ vec_capacity line.new }
{
    put_four(line, n / 10_000);
    put_pair(line, n / 100 % 100);
    put_pair(line, n % 100);
}

/// Appends a number. Most have few digits, and then no buffer is filled.
pub(crate) fn put_number(line: &mut Vec<u8>, n: u64)
    requires { vec_len line.old + 20 ≤ vec_capacity line.old }
    ensures text { line.new.items ≡ line.old.items ++ decimal n }
    ensures count { vec_len line.new ≤ vec_len line.old + 20 }
    ensures room { vec_capacity line.old ≤ vec_capacity line.new }
{
    if n < 10_000 {
        put_four(line, n);
        return;
    }
    if n < 100_000_000 {
        put_eight(line, n);
        return;
    }
    let mut digits = Buffer::new();
    put(line, digits.format(n).as_bytes());
}

// Appends an integer.
fn put_integer(line: &mut Vec<u8>, value: i64)
    requires { vec_len line.old + 21 ≤ vec_capacity line.old }
    ensures text { line.new.items ≡ line.old.items ++ signed_decimal value }
    ensures count { vec_len line.new ≤ vec_len line.old + 21 }
    ensures room { vec_capacity line.old ≤ vec_capacity line.new }
{
    if value >= 0 {
        put_number(line, value.unsigned_abs());
        return;
    }
    line.push_reserved(b'-');
    put_number(line, value.unsigned_abs());
}

/// Appends a comma and a number.
pub(crate) fn put_counted(line: &mut Vec<u8>, n: u64)
    requires { vec_len line.old + 21 ≤ vec_capacity line.old }
    ensures text { line.new.items ≡ line.old.items ++ 44 ∷ decimal n }
    ensures small { n < 2 ^ 64 }
    ensures count { vec_len line.new ≤ vec_len line.old + 21 }
    ensures room { vec_capacity line.old ≤ vec_capacity line.new }
{
    line.push_reserved(b',');
    put_number(line, n);
}

/// Appends a comma and an integer.
pub(crate) fn put_value(line: &mut Vec<u8>, value: i64)
    requires { vec_len line.old + 22 ≤ vec_capacity line.old }
    ensures text { line.new.items ≡ line.old.items ++ 44 ∷ signed_decimal value }
    ensures count { vec_len line.new ≤ vec_len line.old + 22 }
    ensures room { vec_capacity line.old ≤ vec_capacity line.new }
{
    line.push_reserved(b',');
    put_integer(line, value);
}

/// Appends a comma and an integer of 128 bits.
pub(crate) fn put_sum(line: &mut Vec<u8>, sum: i128)
    requires { vec_len line.old + 41 ≤ vec_capacity line.old }
    ensures text { line.new.items ≡ line.old.items ++ 44 ∷ signed_decimal sum }
    ensures count { vec_len line.new ≤ vec_len line.old + 41 }
    ensures room { vec_capacity line.old ≤ vec_capacity line.new }
{
    let mut digits = Buffer::new();
    line.push_reserved(b',');
    put(line, digits.format(sum).as_bytes());
}

/// Appends empty fields, a comma before each.
pub(crate) fn put_empty(line: &mut Vec<u8>, fields: u16)
    requires { vec_len line.old + fields ≤ vec_capacity line.old }
    ensures text { line.new.items ≡ line.old.items ++ replicate fields 44 }
    ensures count { vec_len line.new ≡ vec_len line.old + fields }
    ensures room { vec_capacity line.old ≤ vec_capacity line.new }
{
    for _field in 0..fields {
        line.push_reserved(b',');
    }
}

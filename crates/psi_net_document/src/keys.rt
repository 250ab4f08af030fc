//! The values of keys: integers, strings, arrays and tables.

ghost use Rattle.std.specs.Prelude.{◌≡◌, ◌≤◌, ◌<◌, ◌^◌, ◌++◌, pos, length, map, Some, None, IfOk, IfErr};
ghost use Rattle.std.specs.Int.RustNames.{unsigned_abs};
ghost use Rattle.std.specs.List.{list_any};
ghost use Rattle.std.specs.Str.{bytes_eq};
ghost use Rattle.toml.specs.Data.{get_member};
ghost use Rattle.toml.specs.View.{view, table_view};
ghost use Rattle.psi_net_document.specs.Refusal.{Gives, at_key};
ghost use Rattle.psi_net_document.specs.declared.refusals.NetCause.TheVariants.{MissingKey};
ghost use Rattle.psi_net_document.specs.Values.{seen, no_unknown, required, optional, number_in, integer_in, text_in, array_in, elements_in, counted_in, table_in};

use crate::read;
use crate::refusals::{NetCause, NetRefusal, Place};
use toml::{Table, Value};

/// What a reading gives, or the return of its refusal. (The operator `?` is not proved at an error that
/// holds a `Name`.)
#[macro_export]
macro_rules! read {
    ($reading:expr) => {
        match $reading {
            Ok(value) => value,
            Err(error) => return Err(error),
        }
    };
}

/// Reads the value at a key of a table, where it has the key.
pub fn find<'t>(table: &'t Table, key: &str) -> Option<&'t Value>
    ensures { seen result ≡ get_member key.now (table_view table.now) }
{
    table.get(key)
}

// Whether the key is one of these.
fn is_among(keys: &[&str], key: &str) -> bool
    ensures { result ≡ list_any (λ other. bytes_eq key.now other.now) keys.now }
{
    keys.iter().any(|other| key == *other)
}

// Whether the key is one of these two lists.
#[tactic(auto, using(crate::proofs::UnknownKeysLemmas::known_either))]
fn is_known(common: &[&str], own: &[&str], key: &str) -> bool
    ensures { result ≡ list_any (bytes_eq key.now) (map (λ k. k.now) common.now ++ map (λ k. k.now) own.now) }
{
    is_among(common, key) || is_among(own, key)
}

/// The table has no other keys than those of these two lists.
///
/// # Errors
///
/// `UnknownKey` at the first other key in byte order.
#[tactic(auto, using(crate::proofs::UnknownKeysLemmas::keys_of_table), unfolding(crate::specs::Values::no_unknown))]
pub fn no_unknown(
    place: Place,
    common: &[&str],
    own: &[&str],
    table: &Table,
) -> Result<(), NetRefusal>
    ensures { Gives (λ _. tt) result (no_unknown place (map (λ k. k.now) common.now ++ map (λ k. k.now) own.now) (table_view table.now)) }
{
    for key in table.keys() {
        let key = key.as_str();
        if !is_known(common, own, key) {
            return Err(NetCause::UnknownKey.at_key(place, key));
        }
    }
    Ok(())
}

/// Reads the value of a required key, of what [`find`] found.
///
/// # Errors
///
/// `MissingKey` at the key where nothing was found.
pub fn present<'t>(
    place: Place,
    key: &str,
    found: Option<&'t Value>,
) -> Result<&'t Value, NetRefusal>
    ensures value { IfOk result (λ value. seen found.entry ≡ Some (view value.now)) }
    ensures missing { IfErr result (λ refusal. (seen found.entry ≡ None) × (refusal ≡ at_key MissingKey place key.now)) }
{
    match found {
        Some(value) => Ok(value),
        None => Err(NetCause::MissingKey.at_key(place, key)),
    }
}

/// Reads an integer from `lo` to `hi`.
///
/// # Errors
///
/// At the key, `WrongType` where the value is no integer, and `OutOfRange` where it isn't between them.
#[tactic(auto, unfolding(crate::specs::Values::number_in))]
pub fn number_in(
    place: Place,
    key: &str,
    lo: u32,
    hi: u32,
    value: &Value,
) -> Result<u32, NetRefusal>
    ensures value { Gives (λ n. n) result (number_in place key.now lo hi (view value.now)) }
    ensures range { IfOk result (λ n. (lo ≤ n) × (n ≤ hi)) }
{
    match value {
        Value::Integer(number) => {
            if *number >= lo as i64 && *number <= hi as i64 {
                Ok(*number as u32)
            } else {
                Err(NetCause::OutOfRange.at_key(place, key))
            }
        }
        _ => Err(NetCause::WrongType.at_key(place, key)),
    }
}

/// Reads a required integer from `lo` to `hi`.
///
/// # Errors
///
/// Those of [`present`] and [`number_in`].
pub fn required_number(
    place: Place,
    key: &str,
    lo: u32,
    hi: u32,
    value: Option<&Value>,
) -> Result<u32, NetRefusal>
    ensures value { Gives (λ n. n) result (required place key.now (number_in place key.now lo hi) (seen value.entry)) }
    ensures range { IfOk result (λ n. (lo ≤ n) × (n ≤ hi)) }
{
    let value = read!(present(place, key, value));
    number_in(place, key, lo, hi, value)
}

/// Reads an integer from `lo` to `hi`, or the default, which lies between them.
///
/// # Errors
///
/// Those of [`number_in`].
pub fn number_or(
    place: Place,
    key: &str,
    default: u32,
    lo: u32,
    hi: u32,
    value: Option<&Value>,
) -> Result<u32, NetRefusal>
    requires least { lo ≤ default }
    requires most { default ≤ hi }
    ensures value { Gives (λ n. n) result (optional default (number_in place key.now lo hi) (seen value.entry)) }
    ensures range { IfOk result (λ n. (lo ≤ n) × (n ≤ hi)) }
{
    match value {
        Some(value) => number_in(place, key, lo, hi, value),
        None => Ok(default),
    }
}

/// Reads an integer from `-most` to `most`.
///
/// # Errors
///
/// At the key, `WrongType` where the value is no integer, and `OutOfRange` where it isn't between them.
#[tactic(auto, unfolding(crate::specs::Values::integer_in))]
pub fn integer_in(place: Place, key: &str, most: u32, value: &Value) -> Result<i32, NetRefusal>
    requires { most < 2 ^ 31 }
    ensures value { Gives (λ z. z) result (integer_in place key.now most (view value.now)) }
    ensures range { IfOk result (λ z. unsigned_abs z ≤ most) }
{
    match value {
        Value::Integer(number) => {
            if number.unsigned_abs() <= most as u64 {
                Ok(*number as i32)
            } else {
                Err(NetCause::OutOfRange.at_key(place, key))
            }
        }
        _ => Err(NetCause::WrongType.at_key(place, key)),
    }
}

/// Reads an integer from `-most` to `most`, 0 by default.
///
/// # Errors
///
/// Those of [`integer_in`].
pub fn integer_or_zero(
    place: Place,
    key: &str,
    most: u32,
    value: Option<&Value>,
) -> Result<i32, NetRefusal>
    requires { most < 2 ^ 31 }
    ensures value { Gives (λ z. z) result (optional (pos 0) (integer_in place key.now most) (seen value.entry)) }
    ensures range { IfOk result (λ z. unsigned_abs z ≤ most) }
{
    match value {
        Some(value) => integer_in(place, key, most, value),
        None => Ok(0),
    }
}

/// Reads a string.
///
/// # Errors
///
/// `WrongType` at the key where the value is no string.
#[tactic(auto, unfolding(crate::specs::Values::text_in))]
pub fn text_in<'t>(place: Place, key: &str, value: &'t Value) -> Result<&'t str, NetRefusal>
    ensures { Gives (λ text. text.now) result (text_in place key.now (view value.now)) }
{
    match value {
        Value::String(text) => Ok(text.as_str()),
        _ => Err(NetCause::WrongType.at_key(place, key)),
    }
}

/// Reads the elements of an array, in their order.
///
/// # Errors
///
/// `WrongType` at the key where the value is no array.
#[tactic(auto, unfolding(crate::specs::Values::array_in))]
pub fn array_in<'t>(place: Place, key: &str, value: &'t Value) -> Result<&'t [Value], NetRefusal>
    ensures { Gives (λ values. map view values.now) result (array_in place key.now (view value.now)) }
{
    match value {
        Value::Array(values) => Ok(values.as_slice()),
        _ => Err(NetCause::WrongType.at_key(place, key)),
    }
}

/// Reads the elements of an array of 1 to `most` elements, in their order.
///
/// # Errors
///
/// At the key, `WrongType` where the value is no array, `empty` where it has no element, and `TooMany`
/// where it has more than `most`.
#[tactic(auto, unfolding(crate::specs::Values::elements_in))]
pub fn elements_in<'t>(
    place: Place,
    key: &str,
    empty: NetCause,
    most: usize,
    value: &'t Value,
) -> Result<&'t [Value], NetRefusal>
    ensures value { Gives (λ values. map view values.now) result (elements_in place key.now empty most (view value.now)) }
    ensures few { IfOk result (λ values. length values.now ≤ most) }
{
    let values = read!(array_in(place, key, value));
    if values.is_empty() {
        return Err(empty.at_key(place, key));
    }
    if values.len() > most {
        return Err(NetCause::TooMany.at_key(place, key));
    }
    Ok(values)
}

/// Reads the elements of an array of exactly `count` elements, in their order.
///
/// # Errors
///
/// At the key, `WrongType` where the value is no array, and `TableLength` where it has more elements or fewer.
#[tactic(auto, unfolding(crate::specs::Values::counted_in))]
pub fn counted_in<'t>(
    place: Place,
    key: &str,
    count: usize,
    value: &'t Value,
) -> Result<&'t [Value], NetRefusal>
    ensures value { Gives (λ values. map view values.now) result (counted_in place key.now count (view value.now)) }
    ensures count { IfOk result (λ values. length values.now ≡ count) }
{
    let values = read!(array_in(place, key, value));
    if values.len() != count {
        return Err(NetCause::TableLength.at_key(place, key));
    }
    Ok(values)
}

/// Reads an element of an array that is a table.
///
/// # Errors
///
/// `WrongType` at the place where it is none.
#[tactic(auto, unfolding(crate::specs::Values::table_in))]
pub fn table_in(place: Place, value: &Value) -> Result<&Table, NetRefusal>
    ensures { Gives (λ table. table_view table.now) result (table_in place (view value.now)) }
{
    match value {
        Value::Table(table) => Ok(table),
        _ => Err(NetCause::WrongType.at_place(place)),
    }
}

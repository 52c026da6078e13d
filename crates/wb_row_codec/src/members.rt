//! The members that kept rows alone have.
ghost use Rattle.std.specs.Prelude.{◌≡◌, IfOk, true, option_map};
ghost use Rattle.std.specs.Result.{result_ok};
ghost use Rattle.hex.specs.Hex.{decode_sized};
ghost use Rattle.serde_json.specs.View.{view};
ghost use Rattle.wb_model.specs.Bodies.{under};
ghost use Rattle.wb_row_codec.specs.Shapes.{digest as digest_of, day as day_of, day_named as day_by, signed, is_within};
ghost use Rattle.wb_json.specs.Gives.{Gives};

use serde_json::Value;
use wb_base::{Day, Digest};
use wb_json::ReadError;
use wb_terms::read_date;

// A number in a range, of either sign.
fn read_signed(value: &Value, low: i32, high: i32) -> Result<i32, ReadError>
    ensures number { Gives (signed low high (view value.now)) result }
    ensures fits { IfOk result (λ n. is_within low high n ≡ true) }
{
    match value.as_i64() {
        Some(number) => {
            if i64::from(low) <= number && number <= i64::from(high) {
                Ok(number as i32)
            } else {
                Err(ReadError::Other)
            }
        }
        None => Err(ReadError::Other),
    }
}

/// The number in a range under a key, of either sign.
pub fn signed_under(value: &Value, key: &str, low: i32, high: i32) -> Result<i32, ReadError>
    ensures number { Gives (under key.now (signed low high) (view value.now)) result }
    ensures fits { IfOk result (λ n. is_within low high n ≡ true) }
{
    match value.get(key) {
        Some(found) => read_signed(found, low, high),
        None => Err(ReadError::Other),
    }
}

// The day that a date names; the day before 1970 may be kept, though no answer is that date.
fn day_named(name: &str) -> Option<Day>
    ensures { result ≡ day_by name.now }
{
    if name == "1969-12-31" {
        Some(Day::new(-1))
    } else {
        read_date(name.as_bytes())
    }
}

/// The day of the date under a key.
pub fn day_under(value: &Value, key: &str) -> Result<Day, ReadError>
    ensures { Gives (under key.now day_of (view value.now)) result }
{
    match value.get(key) {
        Some(found) => match found.as_str() {
            Some(name) => day_named(name).ok_or(ReadError::Other),
            None => Err(ReadError::Other),
        },
        None => Err(ReadError::Other),
    }
}

// The digest that a text is in hexadecimal digits.
fn digest_named(digits: &str) -> Option<Digest>
    ensures { result ≡ option_map (λ x. record { 0 = x }) (result_ok (decode_sized digits.now 32)) }
{
    let mut bytes = [0; 32];
    match hex::decode_to_slice(digits.as_bytes(), &mut bytes) {
        Ok(()) => Some(Digest(bytes)),
        Err(_) => None,
    }
}

/// The digest under a key.
pub fn digest_under(value: &Value, key: &str) -> Result<Digest, ReadError>
    ensures { Gives (under key.now digest_of (view value.now)) result }
{
    match value.get(key) {
        Some(found) => match found.as_str() {
            Some(digits) => digest_named(digits).ok_or(ReadError::Other),
            None => Err(ReadError::Other),
        },
        None => Err(ReadError::Other),
    }
}

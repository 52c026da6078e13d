//! The fields of a request's head (RFC 9112, section 5), and what they say.
ghost use Rattle.std.specs.Prelude.{◌≡◌, ◌∷◌, [], length, map, All};
ghost use Rattle.std.specs.List.{list_all};
ghost use Rattle.std.specs.Char.{is_ascii_digit};
ghost use Rattle.httparse.specs.Spans.{header_bytes, IsHeaderWithin};
ghost use Rattle.wb_model.specs.Fits.{is_lower_hex};
ghost use Rattle.wb_model.specs.Heads.{is_named, values, is_absent as lacks, is_digits as digits_test, length_said, declared_length as length_of_fields, is_token as token_test, token as token_of, session as session_of};
ghost use Rattle.wb_wire.specs.FieldValues.{AreValues};

use crate::WireFault;
use crate::numbers::number_of;
use httparse::spans::HeaderSpan;
use std::str;
use wb_base::{Presented, limits};

/// The values of all fields of a name.
pub enum Values<'a> {
    None,
    One(&'a [u8]),
    Several,
}

/// Whether a field has the name.
pub fn has_name(bytes: &[u8], field: &HeaderSpan, name: &[u8]) -> bool
    requires { IsHeaderWithin (length bytes.now) field.now }
    ensures { result ≡ is_named name.now (header_bytes bytes.now field.now) }
{
    field.name.of(bytes).eq_ignore_ascii_case(name)
}

/// The values of the fields of a name.
pub fn values_of<'a>(bytes: &'a [u8], fields: &[HeaderSpan], name: &[u8]) -> Values<'a>
    requires { All (IsHeaderWithin (length bytes.now)) fields.now }
    ensures { AreValues (values name.now (map (header_bytes bytes.now) fields.now)) result }
{
    let mut found = None;
    for field in fields {
        if has_name(bytes, field, name) {
            if found.is_some() {
                return Values::Several;
            }
            found = Some(field.value.of(bytes));
        }
    }
    match found {
        Some(value) => Values::One(value),
        None => Values::None,
    }
}

/// Whether no field has the name.
pub fn is_absent(bytes: &[u8], fields: &[HeaderSpan], name: &[u8]) -> bool
    requires { All (IsHeaderWithin (length bytes.now)) fields.now }
    ensures { result ≡ lacks name.now (map (header_bytes bytes.now) fields.now) }
{
    match values_of(bytes, fields, name) {
        Values::None => true,
        Values::One(_) => false,
        Values::Several => false,
    }
}

// Whether all bytes are digits.
fn are_digits(text: &[u8]) -> bool
    ensures { result ≡ list_all is_ascii_digit text.now }
{
    text.iter().all(|c| c.is_ascii_digit())
}

// Whether a text is one or more digits.
fn is_digits(text: &[u8]) -> bool
    ensures { result ≡ digits_test text.now }
{
    !text.is_empty() && are_digits(text)
}

// The length that a text says, leading zeros among its digits.
fn length_in(text: &[u8]) -> Result<Option<u64>, WireFault>
    ensures { result ≡ length_said (text.now ∷ []) }
{
    if !is_digits(text) {
        return Err(WireFault::BadLength);
    }
    let digits = match str::from_utf8(text) {
        Ok(digits) => digits,
        Err(_) => return Err(WireFault::BadLength),
    };
    match digits.parse::<u64>() {
        Ok(length) => {
            if length <= 262_144 {
                Ok(Some(length))
            } else {
                Err(WireFault::TooLarge)
            }
        }
        Err(_) => Err(WireFault::TooLarge),
    }
}

/// The length of the body that the fields declare (RFC 9112, section 6.2).
pub fn declared_length(bytes: &[u8], fields: &[HeaderSpan]) -> Result<Option<u64>, WireFault>
    requires { All (IsHeaderWithin (length bytes.now)) fields.now }
    ensures { result ≡ length_of_fields (map (header_bytes bytes.now) fields.now) }
{
    if !is_absent(bytes, fields, b"transfer-encoding") {
        return Err(WireFault::NoLength);
    }
    match values_of(bytes, fields, b"content-length") {
        Values::None => Ok(None),
        Values::One(text) => length_in(text),
        Values::Several => Err(WireFault::BadLength),
    }
}

// Whether all bytes are lower-case hexadecimal digits.
fn are_lower_hex(text: &[u8]) -> bool
    ensures { result ≡ list_all is_lower_hex text.now }
{
    text.iter()
        .all(|c| c.is_ascii_digit() || 97 <= *c && *c <= 102)
}

// Whether a turn and the 33 bytes after it can be a session's.
fn is_token(turn: u64, rest: &[u8]) -> bool
    requires { length rest.now ≡ 33 }
    ensures { result ≡ token_test turn rest.now }
{
    rest[0] == b'-' && turn <= limits::TURNS && are_lower_hex(&rest[1..])
}

// The session of a turn's digits and of the 33 bytes after them.
fn token(turn: &[u8], rest: &[u8]) -> Presented
    requires { length rest.now ≡ 33 }
    ensures { result ≡ token_of turn.now rest.now }
{
    let turn = match number_of(turn) {
        Some(turn) => turn,
        None => return Presented::Bad,
    };
    if !is_token(turn, rest) {
        return Presented::Bad;
    }
    let mut secret = [0; 32];
    secret.copy_from_slice(&rest[1..]);
    Presented::Token { turn, secret }
}

/// The session that the fields present.
pub fn session(bytes: &[u8], fields: &[HeaderSpan]) -> Presented
    requires { All (IsHeaderWithin (length bytes.now)) fields.now }
    ensures { result ≡ session_of (map (header_bytes bytes.now) fields.now) }
{
    match values_of(bytes, fields, b"x-session") {
        Values::None => Presented::None,
        Values::One(text) => {
            if text.len() < 33 {
                return Presented::Bad;
            }
            let at = text.len() - 33;
            token(&text[..at], &text[at..])
        }
        Values::Several => Presented::Bad,
    }
}

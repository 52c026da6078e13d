//! Looking into TOML values.
ghost use Rattle.std.specs.Prelude.{◌≡◌, ◌≤◌, ◌<◌, ◌≤ℤ◌, Some, None, IfOk, Err, map, length};
ghost use Rattle.std.specs.List.{list_all};
ghost use Rattle.toml.specs.Data.{as_bool, as_str, table};
ghost use Rattle.toml.specs.View.{view, items_view};
ghost use Rattle.wb_model.specs.Bodies.{no_rights};
ghost use Rattle.wb_model.specs.Fits.{is_lower_hex as lower_hex_test};
ghost use Rattle.wb_setup.specs.TomlValues.{document, size as size_of, has_only as only_these, under, text, number, whole};
ghost use Rattle.wb_setup.specs.Given.{role as role_of, with_rights, rights as rights_of, is_salt_text as salt_test, salt_named as salt_by, salt as salt_of, if_flag};
ghost use Rattle.wb_json.specs.Gives.{Gives};

use std::alloc::Global;
use toml::Value;
use wb_base::{Role, Salt, Tenant, Text, UserId, limits};
use wb_json::{ReadError, role_named, with_right};
use wb_model::Rights;

/// The document that bytes are, as a table.
pub fn read_document(alloc: Global, bytes: &[u8]) -> Result<Value, ReadError>
    ensures ok { IfOk result (λ value. document bytes.now ≡ Some (view value)) }
    ensures other { result ≡ Err ReadError.Other → document bytes.now ≡ None }
{
    match toml::table_from_slice(alloc, bytes) {
        Ok(table) => Ok(Value::Table(table)),
        Err(error) => {
            if error.is_memory() {
                Err(ReadError::Memory)
            } else {
                Err(ReadError::Other)
            }
        }
    }
}

/// How many keys a table has.
pub fn size(value: &Value) -> usize
    ensures { result ≡ size_of (view value.now) }
{
    match value {
        Value::Table(members) => members.len(),
        _ => 0,
    }
}

/// Whether there is no key but these.
pub fn has_only(value: &Value, keys: &[&str]) -> bool
    requires { length keys.now < 100 }
    ensures { result ≡ only_these (map (λ k. k.now) keys.now) (view value.now) }
{
    let mut count = 0;
    for key in keys {
        if value.get(*key).is_some() {
            count += 1;
        }
    }
    size(value) == count
}

// A text of so many bytes.
fn read_text(alloc: Global, value: &Value, low: usize, high: usize) -> Result<Text, ReadError>
    ensures { Gives (text low high (view value.now)) result }
{
    match value.as_str() {
        Some(text) => {
            if low <= text.len() && text.len() <= high {
                Ok(Text::from_str(alloc, text)?)
            } else {
                Err(ReadError::Other)
            }
        }
        None => Err(ReadError::Other),
    }
}

/// The text of so many bytes under a key.
pub fn text_under(
    alloc: Global,
    value: &Value,
    key: &str,
    low: usize,
    high: usize,
) -> Result<Text, ReadError>
    ensures { Gives (under key.now (text low high) (view value.now)) result }
{
    match value.get(key) {
        Some(found) => read_text(alloc, found, low, high),
        None => Err(ReadError::Other),
    }
}

/// The text under a key, of whatever length.
pub fn any_text_under(alloc: Global, value: &Value, key: &str) -> Result<Text, ReadError>
    ensures { Gives (under key.now as_str (view value.now)) result }
{
    match value.get(key) {
        Some(found) => match found.as_str() {
            Some(text) => Ok(Text::from_str(alloc, text)?),
            None => Err(ReadError::Other),
        },
        None => Err(ReadError::Other),
    }
}

// A number in a range.
fn read_number(value: &Value, low: i32, high: i32) -> Result<i32, ReadError>
    ensures number { Gives (number low high (view value.now)) result }
    ensures low { IfOk result (λ n. low ≤ℤ n) }
    ensures high { IfOk result (λ n. n ≤ℤ high) }
{
    match value.as_integer() {
        Some(number) => {
            if i64::from(low) <= number && number <= i64::from(high) {
                Ok(number as i32)
            } else {
                Err(ReadError::Other)
            }
        }
        None => Err(ReadError::Other),
    }
}

/// The number in a range under a key.
pub fn number_under(value: &Value, key: &str, low: i32, high: i32) -> Result<i32, ReadError>
    ensures number { Gives (under key.now (number low high) (view value.now)) result }
    ensures low { IfOk result (λ n. low ≤ℤ n) }
    ensures high { IfOk result (λ n. n ≤ℤ high) }
{
    match value.get(key) {
        Some(found) => read_number(found, low, high),
        None => Err(ReadError::Other),
    }
}

/// A whole number in a range.
pub fn read_whole(value: &Value, low: u32, high: u32) -> Result<u32, ReadError>
    ensures number { Gives (whole low high (view value.now)) result }
    ensures low { IfOk result (λ n. low ≤ n) }
    ensures high { IfOk result (λ n. n ≤ high) }
{
    match value.as_integer() {
        Some(number) => {
            if i64::from(low) <= number && number <= i64::from(high) {
                Ok(number as u32)
            } else {
                Err(ReadError::Other)
            }
        }
        None => Err(ReadError::Other),
    }
}

/// The whole number in a range under a key.
pub fn whole_under(value: &Value, key: &str, low: u32, high: u32) -> Result<u32, ReadError>
    ensures number { Gives (under key.now (whole low high) (view value.now)) result }
    ensures low { IfOk result (λ n. low ≤ n) }
    ensures high { IfOk result (λ n. n ≤ high) }
{
    match value.get(key) {
        Some(found) => read_whole(found, low, high),
        None => Err(ReadError::Other),
    }
}

/// The id of a user that a value is.
pub fn read_user_id(value: &Value) -> Result<UserId, ReadError>
    ensures { Gives (whole 1 256 (view value.now)) result }
{
    let number = read_whole(value, 1, 256)?;
    match UserId::try_new(number as u16) {
        Some(user) => Ok(user),
        None => Err(ReadError::Other),
    }
}

/// The id of a user under a key.
pub fn user_id_under(value: &Value, key: &str) -> Result<UserId, ReadError>
    ensures { Gives (under key.now (whole 1 256) (view value.now)) result }
{
    match value.get(key) {
        Some(found) => read_user_id(found),
        None => Err(ReadError::Other),
    }
}

/// The id of a tenant under a key.
pub fn tenant_id_under(value: &Value, key: &str) -> Result<Tenant, ReadError>
    ensures { Gives (under key.now (whole 1 64) (view value.now)) result }
{
    let number = whole_under(value, key, 1, limits::TENANTS)?;
    match Tenant::try_new(number) {
        Some(tenant) => Ok(tenant),
        None => Err(ReadError::Other),
    }
}

/// The truth value under a key.
pub fn flag_under(value: &Value, key: &str) -> Result<bool, ReadError>
    ensures { Gives (under key.now as_bool (view value.now)) result }
{
    match value.get(key) {
        Some(found) => match found.as_bool() {
            Some(flag) => Ok(flag),
            None => Err(ReadError::Other),
        },
        None => Err(ReadError::Other),
    }
}

/// The truth value under a key, which is false where it is left out.
pub fn flag_if_under(value: &Value, key: &str) -> Result<bool, ReadError>
    ensures { Gives (if_flag key.now (view value.now)) result }
{
    match value.get(key) {
        Some(found) => match found.as_bool() {
            Some(flag) => Ok(flag),
            None => Err(ReadError::Other),
        },
        None => Ok(false),
    }
}

/// The role under a key.
pub fn role_under(value: &Value, key: &str) -> Result<Role, ReadError>
    ensures { Gives (under key.now role_of (view value.now)) result }
{
    match value.get(key) {
        Some(found) => match found.as_str() {
            Some(name) => role_named(name).ok_or(ReadError::Other),
            None => Err(ReadError::Other),
        },
        None => Err(ReadError::Other),
    }
}

// The rights of these names, each of which stands once.
fn rights_named(names: &[Value]) -> Result<Rights, ReadError>
    ensures { Gives (with_rights no_rights (items_view names.now)) result }
{
    let mut may = Rights {
        delete: false,
        postpone: false,
        share: false,
        transfer: false,
    };
    for value in names {
        let Some(name) = value.as_str() else {
            return Err(ReadError::Other);
        };
        let Some(more) = with_right(may, name) else {
            return Err(ReadError::Other);
        };
        may = more;
    }
    Ok(may)
}

/// The rights under a key.
pub fn rights_under(value: &Value, key: &str) -> Result<Rights, ReadError>
    ensures { Gives (under key.now rights_of (view value.now)) result }
{
    match value.get(key) {
        Some(found) => match found.as_array() {
            Some(names) => rights_named(names.as_slice()),
            None => Err(ReadError::Other),
        },
        None => Err(ReadError::Other),
    }
}

fn is_lower_hex(byte: u8) -> bool
    ensures { result ≡ lower_hex_test byte }
{
    byte.is_ascii_digit() || 97 <= byte && byte <= 102
}

fn all_lower_hex(bytes: &[u8]) -> bool
    ensures { result ≡ list_all lower_hex_test bytes.now }
{
    for byte in bytes {
        if !is_lower_hex(*byte) {
            return false;
        }
    }
    true
}

// Whether a text is 32 lower-case hexadecimal digits.
fn is_salt_text(text: &str) -> bool
    ensures { result ≡ salt_test text.now }
{
    let bytes = text.as_bytes();
    bytes.len() == 32 && all_lower_hex(bytes)
}

// The salt that a text is.
fn salt_named(text: &str) -> Option<Salt>
    ensures { result ≡ salt_by text.now }
{
    if !is_salt_text(text) {
        return None;
    }
    let mut bytes = [0; 16];
    match hex::decode_to_slice(text.as_bytes(), &mut bytes) {
        Ok(()) => Some(Salt(bytes)),
        Err(_) => None,
    }
}

/// The salt under a key.
pub fn salt_under(value: &Value, key: &str) -> Result<Salt, ReadError>
    ensures { Gives (under key.now salt_of (view value.now)) result }
{
    match value.get(key) {
        Some(found) => match found.as_str() {
            Some(text) => salt_named(text).ok_or(ReadError::Other),
            None => Err(ReadError::Other),
        },
        None => Err(ReadError::Other),
    }
}

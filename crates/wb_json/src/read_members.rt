//! Members of an object, each read under its key.
ghost use Rattle.std.specs.Prelude.{◌≡◌, ◌≤◌, IfOk, true, option_map};
ghost use Rattle.serde_json.specs.Find.{as_bool, as_str};
ghost use Rattle.serde_json.specs.View.{view, items_view};
ghost use Rattle.wb_model.specs.Bodies.{under, if_under, text, whole, status as status_of, role as role_of, with_rights, no_rights, rights as rights_of};
ghost use Rattle.wb_model.specs.Fits.{is_between, has_bytes};
ghost use Rattle.wb_json.specs.Dates.{date};
ghost use Rattle.wb_json.specs.Gives.{Gives};

use crate::ReadError;
use crate::names::{role_named, status_named, with_right};
use crate::read_lists::Part;
use serde_json::Value;
use std::alloc::Global;
use wb_base::{Day, Role, Text, UserId};
use wb_model::{Rights, Status};
use wb_terms::read_date;

/// A text of so many bytes.
pub fn read_text(alloc: Global, value: &Value, low: usize, high: usize) -> Result<Text, ReadError>
    ensures text { Gives (text low high (view value.now)) result }
    ensures fits { IfOk result (λ x. has_bytes low high x ≡ true) }
{
    match value.as_str() {
        Some(text) => {
            if low <= text.len() && text.len() <= high {
                Ok(Text::from_str(alloc, text)?)
            } else {
                Err(ReadError::Other)
            }
        }
        None => Err(ReadError::Other),
    }
}

/// The text of so many bytes under a key.
pub fn text_under(
    alloc: Global,
    value: &Value,
    key: &str,
    low: usize,
    high: usize,
) -> Result<Text, ReadError>
    ensures text { Gives (under key.now (text low high) (view value.now)) result }
    ensures fits { IfOk result (λ x. has_bytes low high x ≡ true) }
{
    match value.get(key) {
        Some(found) => read_text(alloc, found, low, high),
        None => Err(ReadError::Other),
    }
}

/// The text of so many bytes under a key that may be left out.
pub fn text_if_under(
    alloc: Global,
    value: &Value,
    key: &str,
    low: usize,
    high: usize,
) -> Result<Option<Text>, ReadError>
    ensures { Gives (if_under key.now (text low high) (view value.now)) result }
{
    match value.get(key) {
        Some(found) => Ok(Some(read_text(alloc, found, low, high)?)),
        None => Ok(None),
    }
}

/// The text under a key, of whatever length, as it stands.
pub fn str_under<'a>(value: &'a Value, key: &str) -> Option<&'a str>
    ensures { option_map (λ s. s.now) result ≡ under key.now as_str (view value.now) }
{
    match value.get(key) {
        Some(found) => found.as_str(),
        None => None,
    }
}

// A whole number in a range.
fn read_whole(value: &Value, low: u64, high: u64) -> Result<u64, ReadError>
    ensures number { Gives (whole low high (view value.now)) result }
    ensures fits { IfOk result (λ n. is_between low high n ≡ true) }
    ensures low { IfOk result (λ n. low ≤ n) }
    ensures high { IfOk result (λ n. n ≤ high) }
{
    match value.as_u64() {
        Some(number) => {
            if low <= number && number <= high {
                Ok(number)
            } else {
                Err(ReadError::Other)
            }
        }
        None => Err(ReadError::Other),
    }
}

/// The whole number in a range under a key, which may be a large one.
pub fn long_under(value: &Value, key: &str, low: u64, high: u64) -> Result<u64, ReadError>
    ensures number { Gives (under key.now (whole low high) (view value.now)) result }
    ensures fits { IfOk result (λ n. is_between low high n ≡ true) }
    ensures low { IfOk result (λ n. low ≤ n) }
    ensures high { IfOk result (λ n. n ≤ high) }
{
    match value.get(key) {
        Some(found) => read_whole(found, low, high),
        None => Err(ReadError::Other),
    }
}

/// The whole number in a range under a key.
pub fn whole_under(value: &Value, key: &str, low: u32, high: u32) -> Result<u32, ReadError>
    ensures number { Gives (under key.now (whole low high) (view value.now)) result }
    ensures fits { IfOk result (λ n. is_between low high n ≡ true) }
    ensures low { IfOk result (λ n. low ≤ n) }
    ensures high { IfOk result (λ n. n ≤ high) }
{
    let number = long_under(value, key, u64::from(low), u64::from(high))?;
    Ok(number as u32)
}

impl Part for UserId {
    ghost reading = { whole 1 256 };

    fn read(alloc: Global, value: &Value) -> Result<UserId, ReadError> {
        let number = read_whole(value, 1, 256)?;
        match UserId::try_new(number as u16) {
            Some(user) => Ok(user),
            None => Err(ReadError::Other),
        }
    }
}

/// The id of a user under a key.
pub fn user_under(value: &Value, key: &str) -> Result<UserId, ReadError>
    ensures { Gives (under key.now (whole 1 256) (view value.now)) result }
{
    let number = whole_under(value, key, 1, 256)?;
    match UserId::try_new(number as u16) {
        Some(user) => Ok(user),
        None => Err(ReadError::Other),
    }
}

impl Part for Day {
    ghost reading = { date };

    fn read(alloc: Global, value: &Value) -> Result<Day, ReadError> {
        match value.as_str() {
            Some(name) => read_date(name.as_bytes()).ok_or(ReadError::Other),
            None => Err(ReadError::Other),
        }
    }
}

/// The truth value under a key.
pub fn flag_under(value: &Value, key: &str) -> Result<bool, ReadError>
    ensures { Gives (under key.now as_bool (view value.now)) result }
{
    match value.get(key) {
        Some(found) => match found.as_bool() {
            Some(flag) => Ok(flag),
            None => Err(ReadError::Other),
        },
        None => Err(ReadError::Other),
    }
}

/// The status under a key.
pub fn status_under(value: &Value, key: &str) -> Result<Status, ReadError>
    ensures { Gives (under key.now status_of (view value.now)) result }
{
    match value.get(key) {
        Some(found) => match found.as_str() {
            Some(name) => status_named(name).ok_or(ReadError::Other),
            None => Err(ReadError::Other),
        },
        None => Err(ReadError::Other),
    }
}

/// The role under a key.
pub fn role_under(value: &Value, key: &str) -> Result<Role, ReadError>
    ensures { Gives (under key.now role_of (view value.now)) result }
{
    match value.get(key) {
        Some(found) => match found.as_str() {
            Some(name) => role_named(name).ok_or(ReadError::Other),
            None => Err(ReadError::Other),
        },
        None => Err(ReadError::Other),
    }
}

// The rights of these names, each of which stands once.
fn rights_named(names: &[Value]) -> Result<Rights, ReadError>
    ensures { Gives (with_rights no_rights (items_view names.now)) result }
{
    let mut may = Rights {
        delete: false,
        postpone: false,
        share: false,
        transfer: false,
    };
    for value in names {
        let Some(name) = value.as_str() else {
            return Err(ReadError::Other);
        };
        let Some(more) = with_right(may, name) else {
            return Err(ReadError::Other);
        };
        may = more;
    }
    Ok(may)
}

/// The rights under a key.
pub fn rights_under(value: &Value, key: &str) -> Result<Rights, ReadError>
    ensures { Gives (under key.now rights_of (view value.now)) result }
{
    match value.get(key) {
        Some(found) => match found.as_array() {
            Some(names) => rights_named(names.as_slice()),
            None => Err(ReadError::Other),
        },
        None => Err(ReadError::Other),
    }
}

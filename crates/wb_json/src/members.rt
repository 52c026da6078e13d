//! JSON values, built a member at a time, and their compact texts (RFC 8259).
ghost use Rattle.std.specs.Prelude.{◌≡◌, IfOk, OnOk, false};
ghost use Rattle.serde_json.specs.Data.{put, string, boolean, null};
ghost use Rattle.serde_json.specs.View.{view, members_view};
ghost use Rattle.serde_json.specs.Written.{compact_text, has_float};
ghost use Rattle.wb_model.specs.Json.{or_null, whole as whole_data, date as date_data};

use serde_json::{Map, Value};
use std::alloc::Global;
use std::str;
use wb_base::{Day, Memory, Text};
use wb_terms::date_text;

/// Puts a text.
pub fn put_text(
    map: &mut Map<String, Value>,
    alloc: Global,
    key: &str,
    text: &str,
) -> Result<(), Memory>
    ensures { OnOk result (members_view map.new.entries
        ≡ put key.now (string text.now) (members_view map.old.entries)) }
{
    let text = Value::try_from_str(alloc, text)?;
    serde_json::put(map, alloc, key, text)?;
    Ok(())
}

/// Puts a flag.
pub fn put_flag(
    map: &mut Map<String, Value>,
    alloc: Global,
    key: &str,
    flag: bool,
) -> Result<(), Memory>
    ensures { OnOk result (members_view map.new.entries
        ≡ put key.now (boolean flag) (members_view map.old.entries)) }
{
    serde_json::put(map, alloc, key, Value::Bool(flag))?;
    Ok(())
}

/// Puts a whole number.
pub fn put_whole(
    map: &mut Map<String, Value>,
    alloc: Global,
    key: &str,
    whole: u64,
) -> Result<(), Memory>
    ensures { OnOk result (members_view map.new.entries
        ≡ put key.now (whole_data whole) (members_view map.old.entries)) }
{
    serde_json::put(map, alloc, key, Value::from(whole))?;
    Ok(())
}

/// Puts null.
pub fn put_null(map: &mut Map<String, Value>, alloc: Global, key: &str) -> Result<(), Memory>
    ensures { OnOk result (members_view map.new.entries
        ≡ put key.now null (members_view map.old.entries)) }
{
    serde_json::put(map, alloc, key, Value::Null)?;
    Ok(())
}

// A date as it is written.
pub(crate) fn date_value(alloc: Global, day: Day) -> Result<Value, Memory>
    ensures { IfOk result (λ value. view value ≡ date_data day) }
{
    let _days = day.days();
    let bytes = date_text(day);
    match str::from_utf8(bytes.as_slice()) {
        Ok(text) => Ok(Value::try_from_str(alloc, text)?),
        Err(_) => unreachable!(),
    }
}

/// Puts a date.
pub fn put_date(
    map: &mut Map<String, Value>,
    alloc: Global,
    key: &str,
    day: Day,
) -> Result<(), Memory>
    ensures { OnOk result (members_view map.new.entries
        ≡ put key.now (date_data day) (members_view map.old.entries)) }
{
    let date = date_value(alloc, day)?;
    put_value(map, alloc, key, date)
}

/// Puts a date, or null where there is none.
pub fn put_date_or_null(
    map: &mut Map<String, Value>,
    alloc: Global,
    key: &str,
    day: Option<Day>,
) -> Result<(), Memory>
    ensures { OnOk result (members_view map.new.entries
        ≡ put key.now (or_null date_data day) (members_view map.old.entries)) }
{
    match day {
        Some(day) => put_date(map, alloc, key, day),
        None => put_null(map, alloc, key),
    }
}

/// Puts a whole number, or null where there is none.
pub fn put_whole_or_null(
    map: &mut Map<String, Value>,
    alloc: Global,
    key: &str,
    whole: Option<u64>,
) -> Result<(), Memory>
    ensures { OnOk result (members_view map.new.entries
        ≡ put key.now (or_null whole_data whole) (members_view map.old.entries)) }
{
    match whole {
        Some(whole) => put_whole(map, alloc, key, whole),
        None => put_null(map, alloc, key),
    }
}

/// Puts a value.
pub fn put_value(
    map: &mut Map<String, Value>,
    alloc: Global,
    key: &str,
    value: Value,
) -> Result<(), Memory>
    ensures { OnOk result (members_view map.new.entries
        ≡ put key.now (view value) (members_view map.old.entries)) }
{
    serde_json::put(map, alloc, key, value)?;
    Ok(())
}

/// The compact text of a value in which no number is kept as a floating one.
pub fn text_of(alloc: Global, value: &Value) -> Result<Text, Memory>
    requires { has_float (view value.now) ≡ false }
    ensures { IfOk result (λ text. text ≡ compact_text (view value.now)) }
{
    let written = value.to_string(alloc)?;
    Text::from_str(alloc, written.as_str())
}

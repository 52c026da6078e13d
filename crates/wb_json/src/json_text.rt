//! JSON text (RFC 8259), read as a value.
ghost use Rattle.std.specs.Prelude.{◌≡◌, IfOk, Some, None, Err};
ghost use Rattle.serde_json.specs.View.{view, items_view, members_view};
ghost use Rattle.serde_json.specs.Written.{has_float, items_have_float, members_have_float};
ghost use Rattle.wb_model.specs.Bodies.{json as json_of};

use crate::ReadError;
use serde_json::{Map, Value};
use std::alloc::Global;

// Whether a number of the value is kept as a floating one.
#[cycle(scan)]
fn keeps_float(value: &Value) -> bool
    ensures { result ≡ has_float (view value.now) }
{
    match value {
        Value::Number(number) => number.is_f64(),
        Value::Array(items) => any_item(items),
        Value::Object(members) => any_member(members),
        _ => false,
    }
}

#[cycle(scan)]
fn any_item(items: &Vec<Value>) -> bool
    ensures { result ≡ items_have_float (items_view items.now.items) }
{
    for item in items {
        if keeps_float(item) {
            return true;
        }
    }
    false
}

#[cycle(scan)]
fn any_member(members: &Map<String, Value>) -> bool
    ensures { result ≡ members_have_float (members_view members.now.entries) }
{
    for (_key, member) in members.iter() {
        if keeps_float(member) {
            return true;
        }
    }
    false
}

/// The value that bytes are as JSON, where none of its numbers is kept as a floating one.
pub fn read_json(alloc: Global, bytes: &[u8]) -> Result<Value, ReadError>
    ensures ok { IfOk result (λ value. json_of bytes.now ≡ Some (view value)) }
    ensures other { result ≡ Err ReadError.Other → json_of bytes.now ≡ None }
{
    match Value::from_slice(alloc, bytes) {
        Ok(value) => {
            if keeps_float(&value) {
                Err(ReadError::Other)
            } else {
                Ok(value)
            }
        }
        Err(error) => {
            if error.is_memory() {
                Err(ReadError::Memory)
            } else {
                Err(ReadError::Other)
            }
        }
    }
}

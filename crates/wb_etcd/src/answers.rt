//! What the answers of a store tell.
ghost use Rattle.std.specs.Prelude.{◌≡◌, ◌++◌, Some, List, decimal, option_map, IfOk, OnOk, unwrap_or};
ghost use Rattle.std.specs.String.{string_bytes};
ghost use Rattle.serde_json.specs.View.{view, items_view};
ghost use Rattle.wb_base.specs.declared.rows.Row.{Row as KeptRow};
ghost use Rattle.wb_etcd.specs.Answers.{text_under as text_of, is_set as is_flagged, is_made as was_made, has_more as tells_more, HasRevision, WasPutAt, told_items, IsRowOf, AreRowsOf};
ghost use Rattle.wb_etcd.specs.Transactions.{base64_text};

use crate::above::add;
use crate::keys::read_key;
use base64::DecodeAllocError;
use base64::engine::general_purpose::STANDARD;
use serde_json::Value;
use std::alloc::Global;
use wb_base::{KeepErr, Memory, Row, Text, TextFault};
use wb_list::Sorted;

// The text under a key.
fn text_under<'a>(value: &'a Value, key: &str) -> Option<&'a str>
    ensures { option_map (λ text. text.now) result ≡ text_of key.now (view value.now) }
{
    value.get(key)?.as_str()
}

// Whether a flag is there and set.
fn is_set(answer: &Value, key: &str) -> bool
    ensures { result ≡ is_flagged key.now (view answer.now) }
{
    match answer.get(key) {
        Some(flag) => flag.as_bool().unwrap_or(false),
        None => false,
    }
}

/// Whether a transaction was made, since what it compares was so.
pub(crate) fn is_made(answer: &Value) -> bool
    ensures { result ≡ was_made (view answer.now) }
{
    is_set(answer, "succeeded")
}

/// Whether there is more under the keys than was told.
pub(crate) fn has_more(answer: &Value) -> bool
    ensures { result ≡ tells_more (view answer.now) }
{
    is_set(answer, "more")
}

// The number that a text is in decimal.
fn number_of(alloc: Global, text: &str) -> Result<u64, KeepErr>
    ensures { IfOk result (λ number. text.now ≡ decimal number) }
{
    let Ok(number) = text.parse::<u64>() else {
        return Err(KeepErr::Failed);
    };
    let again = shown(alloc, number)?;
    if again.as_str() == text {
        Ok(number)
    } else {
        Err(KeepErr::Failed)
    }
}

// A number in decimal.
fn shown(alloc: Global, number: u64) -> Result<String, Memory>
    ensures { IfOk result (λ text. string_bytes text ≡ decimal number) }
{
    Ok(format!(in alloc; "{number}")?)
}

/// The store's revision as it answered.
pub(crate) fn revision(alloc: Global, answer: &Value) -> Result<u64, KeepErr>
    ensures { IfOk result (λ number. HasRevision (view answer.now) number) }
{
    let Some(header) = answer.get("header") else {
        return Err(KeepErr::Failed);
    };
    match text_under(header, "revision") {
        Some(text) => number_of(alloc, text),
        None => Err(KeepErr::Failed),
    }
}

/// The keys that are told, with their values.
pub(crate) fn items(answer: &Value) -> &[Value]
    ensures { items_view result.now ≡ told_items (view answer.now) }
{
    match answer.get("kvs") {
        Some(told) => match told.as_array() {
            Some(items) => items.as_slice(),
            None => &[],
        },
        None => &[],
    }
}

/// At which revision the first key that is told was last put, and 0 where none is told.
pub(crate) fn put_at(alloc: Global, items: &[Value]) -> Result<u64, KeepErr>
    ensures { IfOk result (λ number. WasPutAt (items_view items.now) number) }
{
    let Some(first) = items.first() else {
        return Ok(0);
    };
    match text_under(first, "mod_revision") {
        Some(text) => number_of(alloc, text),
        None => Err(KeepErr::Failed),
    }
}

// The bytes that a text is in base64.
#[tactic(auto, unfolding(crate::specs::Transactions::base64_text))]
fn bytes_of(alloc: Global, text: &str) -> Result<Vec<u8>, KeepErr>
    ensures { IfOk result (λ bytes. text.now ≡ base64_text bytes.items) }
{
    match STANDARD.decode(alloc, text.as_bytes()) {
        Ok(bytes) => Ok(bytes),
        Err(DecodeAllocError::OutOfMemory) => Err(KeepErr::Memory),
        Err(_) => Err(KeepErr::Failed),
    }
}

// The text that a text is in base64.
fn kept_text(alloc: Global, text: &str) -> Result<Text, KeepErr>
    ensures { IfOk result (λ kept. text.now ≡ base64_text kept) }
{
    let bytes = bytes_of(alloc, text)?;
    match Text::copy(alloc, bytes.as_slice()) {
        Ok(kept) => Ok(kept),
        Err(TextFault::Memory) => Err(KeepErr::Memory),
        Err(TextFault::NotUtf8) => Err(KeepErr::Failed),
    }
}

// The row that a key is told to be, with its value.
fn row_of(alloc: Global, prefix: &[u8], told: &Value) -> Result<Row, KeepErr>
    ensures { IfOk result (λ row. IsRowOf prefix.now (view told.now) row) }
{
    let Some(text) = text_under(told, "key") else {
        return Err(KeepErr::Failed);
    };
    let bytes = bytes_of(alloc, text)?;
    let Some(key) = read_key(alloc, prefix, bytes.as_slice())? else {
        return Err(KeepErr::Failed);
    };
    let value = text_under(told, "value").unwrap_or("");
    Ok(Row {
        key,
        text: kept_text(alloc, value)?,
    })
}

/// Puts the rows that are told behind others, where each lies above all before it.
pub(crate) fn add_rows(
    alloc: Global,
    prefix: &[u8],
    items: &[Value],
    rows: &mut Sorted<Row>,
) -> Result<(), KeepErr>
    ensures { OnOk result ((piece : List KeptRow) × (rows.new.items ≡ rows.old.items ++ piece) × AreRowsOf prefix.now (items_view items.now) piece) }
{
    for told in items {
        add(rows, row_of(alloc, prefix, told)?)?;
    }
    Ok(())
}

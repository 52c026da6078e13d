//! What a kept row stands for, and the row of that.
ghost use Rattle.std.specs.Prelude.{◌≡◌, IfOk, IfSome, Some, None, option_and_then, true, if◌then◌else◌};
ghost use Rattle.serde_json.specs.Read.{read};
ghost use Rattle.wb_base.specs.declared.form.Format.TheVariants.{Weighed};
ghost use Rattle.serde_json.specs.View.{view};
ghost use Rattle.wb_row_codec.specs.Items.{item_row as row_of, item_of, is_key, is_row, is_in_range, shaped, of_kind};
ghost use Rattle.wb_json.specs.Gives.{Gives};

use crate::contexts::{read_context, read_version};
use crate::numberings::read_numbering;
use crate::read_deed::read_entry;
use crate::rows::{entry_row, numbering_row, sealed_row};
use crate::settings::read_settings;
use crate::tenant_rows::{context_row, form_row, settings_row, user_row};
use crate::users::read_user;
use crate::{EntryItem, Item, NumberingItem};
use serde_json::Value;
use std::alloc::Global;
use wb_base::{Format, Key, Memory, Number, Row, Tenant, UserId, limits};
use wb_custody::SealedItem;
use wb_json::{ReadError, read_answers};

/// The row of an item in a format.
pub fn item_row(alloc: Global, format: Format, item: &Item) -> Result<Row, Memory>
    ensures { IfOk result (λ row. row ≡ row_of format item.now) }
{
    match item {
        Item::Settings(x) => settings_row(alloc, x),
        Item::Numbering(x) => numbering_row(alloc, x.tenant, &x.numbering),
        Item::User(x) => user_row(alloc, x),
        Item::Form(x) => form_row(alloc, format, x.tenant, x.id, x.version, &x.form),
        Item::Context(x) => context_row(alloc, x),
        Item::Entry(x) => entry_row(alloc, x.tenant, x.number, x.place, &x.entry),
        Item::Sealed(x) => sealed_row(alloc, x.tenant, x.number, &x.answers),
    }
}

// The user of a row.
fn user_item(alloc: Global, tenant: Tenant, a: u32, value: &Value) -> Result<Item, ReadError>
    ensures item { Gives (of_kind Weighed 3 tenant a 0 (view value.now)) result }
    ensures fits { IfOk result (λ item. is_in_range item ≡ true) }
{
    if a < 1 || 256 < a {
        return Err(ReadError::Other);
    }
    match UserId::try_new(a as u16) {
        Some(id) => Ok(Item::User(read_user(alloc, tenant, id, value)?)),
        None => Err(ReadError::Other),
    }
}

// The form of a row.
fn form_item(
    alloc: Global,
    format: Format,
    tenant: Tenant,
    a: u32,
    b: u32,
    value: &Value,
) -> Result<Item, ReadError>
    ensures item { Gives (of_kind format 4 tenant a b (view value.now)) result }
    ensures fits { IfOk result (λ item. is_in_range item ≡ true) }
{
    if a < 1 || limits::FORMS < a || b < 1 || limits::VERSIONS < b {
        return Err(ReadError::Other);
    }
    Ok(Item::Form(read_version(alloc, format, tenant, a, b, value)?))
}

// The context of a row.
fn context_item(alloc: Global, tenant: Tenant, a: u32, value: &Value) -> Result<Item, ReadError>
    ensures item { Gives (of_kind Weighed 5 tenant a 0 (view value.now)) result }
    ensures fits { IfOk result (λ item. is_in_range item ≡ true) }
{
    if a < 1 || limits::CONTEXTS < a {
        return Err(ReadError::Other);
    }
    Ok(Item::Context(read_context(alloc, tenant, a, value)?))
}

// The entry of a row.
fn entry_item(
    alloc: Global,
    tenant: Tenant,
    a: u32,
    b: u32,
    value: &Value,
) -> Result<Item, ReadError>
    ensures item { Gives (of_kind Weighed 6 tenant a b (view value.now)) result }
    ensures fits { IfOk result (λ item. is_in_range item ≡ true) }
{
    let Some(number) = Number::try_new(a) else {
        return Err(ReadError::Other);
    };
    if b < 1 {
        return Err(ReadError::Other);
    }
    let entry = read_entry(alloc, value)?;
    Ok(Item::Entry(EntryItem {
        tenant,
        number,
        place: b,
        entry,
    }))
}

// The identity answers of a row.
fn sealed_item(alloc: Global, tenant: Tenant, a: u32, value: &Value) -> Result<Item, ReadError>
    ensures item { Gives (of_kind Weighed 7 tenant a 0 (view value.now)) result }
    ensures fits { IfOk result (λ item. is_in_range item ≡ true) }
{
    let Some(number) = Number::try_new(a) else {
        return Err(ReadError::Other);
    };
    let answers = read_answers(alloc, value)?;
    Ok(Item::Sealed(SealedItem {
        tenant,
        number,
        answers,
    }))
}

// The item of a tenant that a value is, with the kind and ids of its key.
fn read_kind(
    alloc: Global,
    format: Format,
    tenant: Tenant,
    key: Key,
    value: &Value,
) -> Result<Item, ReadError>
    ensures item { Gives (of_kind format key.kind tenant key.a key.b (view value.now)) result }
    ensures fits { IfOk result (λ item. is_in_range item ≡ true) }
{
    match key.kind {
        Key::SETTINGS => Ok(Item::Settings(read_settings(alloc, tenant, value)?)),
        Key::NUMBERING => Ok(Item::Numbering(NumberingItem {
            tenant,
            numbering: read_numbering(value)?,
        })),
        Key::USER => user_item(alloc, tenant, key.a, value),
        Key::FORM => form_item(alloc, format, tenant, key.a, key.b, value),
        Key::CONTEXT => context_item(alloc, tenant, key.a, value),
        Key::ENTRY => entry_item(alloc, tenant, key.a, key.b, value),
        Key::SEALED => sealed_item(alloc, tenant, key.a, value),
        _ => Err(ReadError::Other),
    }
}

// The item that a value is, with a key.
fn read_shape(alloc: Global, format: Format, key: Key, value: &Value) -> Result<Item, ReadError>
    ensures item { Gives (shaped format key (view value.now)) result }
    ensures fits { IfOk result (λ item. is_in_range item ≡ true) }
{
    match Tenant::try_new(key.tenant) {
        Some(tenant) => read_kind(alloc, format, tenant, key, value),
        None => Err(ReadError::Other),
    }
}

// The item that a text is, with a key.
fn read_text(alloc: Global, format: Format, key: Key, text: &str) -> Result<Item, ReadError>
    ensures item { Gives (option_and_then (shaped format key) (read text.now)) result }
    ensures fits { IfOk result (λ item. is_in_range item ≡ true) }
{
    match Value::from_str(alloc, text) {
        Ok(value) => read_shape(alloc, format, key, &value),
        Err(error) => {
            if error.is_memory() {
                Err(ReadError::Memory)
            } else {
                Err(ReadError::Other)
            }
        }
    }
}

fn same_key(key: Key, other: Key) -> bool
    ensures { result ≡ is_key key other }
{
    key.kind == other.kind && key.tenant == other.tenant && key.a == other.a && key.b == other.b
}

fn same_row(row: &Row, other: &Row) -> bool
    ensures { result ≡ is_row row.now other.now }
{
    same_key(row.key, other.key) && row.text == other.text
}

// The item, where its row is this one.
fn keep_item(alloc: Global, format: Format, item: Item, row: &Row) -> Result<Option<Item>, Memory>
    ensures item { IfOk result (λ kept. kept ≡ (if is_row (row_of format item) row.now then Some item else None)) }
    ensures own { IfOk result (λ kept. IfSome kept (λ own. own ≡ item)) }
{
    let again = item_row(alloc, format, &item)?;
    if same_row(&again, row) {
        Ok(Some(item))
    } else {
        Ok(None)
    }
}

/// What a row of a format stands for, where it is good: the item in its ranges whose row it is.
pub fn read_item(alloc: Global, format: Format, row: &Row) -> Result<Option<Item>, Memory>
    ensures item { IfOk result (λ found. found ≡ item_of format row.now) }
    ensures fits { IfOk result (λ found. IfSome found (λ item. is_in_range item ≡ true)) }
{
    match read_text(alloc, format, row.key, row.text.as_str()) {
        Ok(item) => keep_item(alloc, format, item, row),
        Err(ReadError::Other) => Ok(None),
        Err(ReadError::Memory) => Err(Memory),
    }
}

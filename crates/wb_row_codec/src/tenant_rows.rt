//! The kept rows of what tenants are set up with, each with its key and its compact JSON text (RFC 8259).
ghost use Rattle.std.specs.Prelude.{◌≡◌, ◌==◌, not, length, if◌then◌else◌, codes, IfOk, OnOk};
ghost use Rattle.hex.specs.Hex.{encode_lower};
ghost use Rattle.serde_json.specs.Data.{put, string, boolean, number};
ghost use Rattle.serde_json.specs.Find.{of_integer};
ghost use Rattle.serde_json.specs.View.{view, members_view};
ghost use Rattle.wb_base.specs.FormJson.{form_in};
ghost use Rattle.wb_model.specs.Json.{date, list_of};
ghost use Rattle.wb_model.specs.Rows.{row, settings_data, user_data, context_data};

use serde_json::{Map, Value};
use std::alloc::Global;
use wb_base::{Day, Form, Format, Key, Memory, Row, Tenant};
use wb_form::FormText;
use wb_json::{
    list_value, put_flag, put_text, put_value, put_whole, rights_value, role_name, text_of,
};
use wb_model::{ContextItem, TenantItem, UserItem};

// Puts bytes in lower-case hexadecimal digits.
fn put_hex(
    map: &mut Map<String, Value>,
    alloc: Global,
    key: &str,
    bytes: &[u8],
) -> Result<(), Memory>
    ensures { OnOk result (members_view map.new.entries
        ≡ put key.now (string (encode_lower bytes.now)) (members_view map.old.entries)) }
{
    let digits = hex::encode(alloc, bytes)?;
    put_text(map, alloc, key, digits.as_str())
}

// Puts a flag where it is set.
fn put_set(map: &mut Map<String, Value>, alloc: Global, key: &str, flag: bool) -> Result<(), Memory>
    ensures { OnOk result (members_view map.new.entries
        ≡ (if flag then put key.now (boolean flag) (members_view map.old.entries) else members_view map.old.entries)) }
{
    if flag {
        put_flag(map, alloc, key, flag)?;
    }
    Ok(())
}

// Puts holidays, where there are some.
fn put_holidays(map: &mut Map<String, Value>, alloc: Global, days: &[Day]) -> Result<(), Memory>
    ensures { OnOk result (members_view map.new.entries
        ≡ (if not (length days.now == 0) then put (codes "holidays") (list_of date days.now) (members_view map.old.entries) else members_view map.old.entries)) }
{
    if days.is_empty() {
        return Ok(());
    }
    put_value(map, alloc, "holidays", list_value(alloc, days)?)
}

// A tenant's minutes from UTC as a JSON number.
fn offset_value(item: &TenantItem) -> Value
    ensures { view result ≡ number (of_integer item.now.offset) }
{
    Value::from(item.offset as i64)
}

// The JSON value of a tenant's settings. What is as it is by default is left out.
fn settings_value(alloc: Global, item: &TenantItem) -> Result<Value, Memory>
    ensures { IfOk result (λ value. view value ≡ settings_data item.now) }
{
    let mut map = Map::new(alloc);
    put_hex(&mut map, alloc, "salt", item.salt.0.as_slice())?;
    put_set(&mut map, alloc, "roll", item.calendar.rolls())?;
    put_whole(&mut map, alloc, "quota", item.quota as u64)?;
    put_value(&mut map, alloc, "offset", offset_value(item))?;
    put_whole(&mut map, alloc, "notice_days", item.notice_days as u64)?;
    put_text(&mut map, alloc, "name", item.name.as_str())?;
    put_holidays(&mut map, alloc, item.calendar.holidays())?;
    put_set(&mut map, alloc, "external", item.external)?;
    Ok(Value::Object(map))
}

/// The row of a tenant's settings, of kind 1.
pub fn settings_row(alloc: Global, item: &TenantItem) -> Result<Row, Memory>
    ensures { IfOk result (λ kept. kept ≡ row 1 item.now.tenant 0 0 (settings_data item.now)) }
{
    let value = settings_value(alloc, item)?;
    Ok(Row {
        key: Key {
            kind: Key::SETTINGS,
            tenant: item.tenant.id(),
            a: 0,
            b: 0,
        },
        text: text_of(alloc, &value)?,
    })
}

// The JSON value of a user.
#[tactic(auto, unfolding(wb_model::specs::Rows::user_data))]
fn user_value(alloc: Global, user: &UserItem) -> Result<Value, Memory>
    ensures { IfOk result (λ value. view value ≡ user_data user.now) }
{
    let mut map = Map::new(alloc);
    put_hex(&mut map, alloc, "secret", user.secret.0.as_slice())?;
    put_text(&mut map, alloc, "role", role_name(user.role))?;
    put_text(&mut map, alloc, "name", user.name.as_str())?;
    put_value(&mut map, alloc, "may", rights_value(alloc, user.may)?)?;
    put_flag(&mut map, alloc, "enabled", user.enabled)?;
    put_whole(&mut map, alloc, "disabled", user.disabled as u64)?;
    Ok(Value::Object(map))
}

/// The row of a user, of kind 3.
pub fn user_row(alloc: Global, user: &UserItem) -> Result<Row, Memory>
    ensures { IfOk result (λ kept. kept ≡ row 3 user.now.tenant user.now.id 0 (user_data user.now)) }
{
    let value = user_value(alloc, user)?;
    Ok(Row {
        key: Key {
            kind: Key::USER,
            tenant: user.tenant.id(),
            a: user.id.id() as u32,
            b: 0,
        },
        text: text_of(alloc, &value)?,
    })
}

/// The row of a version of a form of a tenant, of kind 4, in a format.
pub fn form_row(
    alloc: Global,
    format: Format,
    tenant: Tenant,
    id: u32,
    version: u32,
    form: &Form,
) -> Result<Row, Memory>
    ensures { IfOk result (λ kept. kept ≡ row 4 tenant id version (form_in format form.now)) }
{
    let value = form.show_as(alloc, format)?;
    Ok(Row {
        key: Key {
            kind: Key::FORM,
            tenant: tenant.id(),
            a: id,
            b: version,
        },
        text: text_of(alloc, &value)?,
    })
}

// The JSON value of a context.
#[tactic(auto, unfolding(wb_model::specs::Rows::context_data))]
fn context_value(alloc: Global, context: &ContextItem) -> Result<Value, Memory>
    ensures { IfOk result (λ value. view value ≡ context_data context.now) }
{
    let mut map = Map::new(alloc);
    put_whole(&mut map, alloc, "retention", context.retention as u64)?;
    put_value(
        &mut map,
        alloc,
        "recipients",
        list_value(alloc, context.recipients.as_slice())?,
    )?;
    put_flag(&mut map, alloc, "open", context.is_open)?;
    put_text(&mut map, alloc, "name", context.name.as_str())?;
    put_whole(&mut map, alloc, "form", context.form as u64)?;
    Ok(Value::Object(map))
}

/// The row of a context, of kind 5.
pub fn context_row(alloc: Global, context: &ContextItem) -> Result<Row, Memory>
    ensures { IfOk result (λ kept. kept ≡ row 5 context.now.tenant context.now.id 0 (context_data context.now)) }
{
    let value = context_value(alloc, context)?;
    Ok(Row {
        key: Key {
            kind: Key::CONTEXT,
            tenant: context.tenant.id(),
            a: context.id,
            b: 0,
        },
        text: text_of(alloc, &value)?,
    })
}

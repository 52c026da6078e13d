//! The settings of a tenant, as a row has them.
ghost use Rattle.std.specs.Prelude.{◌≡◌, option_map, IfOk, true};
ghost use Rattle.std.specs.Result.{result_ok};
ghost use Rattle.hex.specs.Hex.{decode_sized};
ghost use Rattle.serde_json.specs.View.{view};
ghost use Rattle.wb_base.specs.Calendars.{are_holidays as may_be_holidays};
ghost use Rattle.wb_base.specs.FormShape.{flag_at};
ghost use Rattle.wb_model.specs.Bodies.{under};
ghost use Rattle.wb_model.specs.SetUps.{is_tenant_item};
ghost use Rattle.wb_row_codec.specs.Shapes.{calendar as calendar_of, salt as salt_of, settings as settings_of};
ghost use Rattle.wb_json.specs.Gives.{Gives};

use crate::members::signed_under;
use serde_json::Value;
use std::alloc::Global;
use wb_base::{Calendar, Day, Salt, Tenant, are_holidays, limits};
use wb_json::{ReadError, list_if_under, text_under, whole_under};
use wb_list::Items;
use wb_model::TenantItem;

// The salt that a text is in hexadecimal digits.
fn salt_named(digits: &str) -> Option<Salt>
    ensures { result ≡ option_map (λ x. record { 0 = x }) (result_ok (decode_sized digits.now 16)) }
{
    let mut bytes = [0; 16];
    match hex::decode_to_slice(digits.as_bytes(), &mut bytes) {
        Ok(()) => Some(Salt(bytes)),
        Err(_) => None,
    }
}

// The salt under a key.
fn salt_under(value: &Value, key: &str) -> Result<Salt, ReadError>
    ensures { Gives (under key.now salt_of (view value.now)) result }
{
    match value.get(key) {
        Some(found) => match found.as_str() {
            Some(digits) => salt_named(digits).ok_or(ReadError::Other),
            None => Err(ReadError::Other),
        },
        None => Err(ReadError::Other),
    }
}

// The flag under a key, which is not set where it is left out.
fn flag_if_under(value: &Value, key: &str) -> Result<bool, ReadError>
    ensures { Gives (flag_at key.now (view value.now)) result }
{
    wb_form::flag_at(value, key).ok_or(ReadError::Other)
}

// The calendar of a tenant.
fn read_calendar(alloc: Global, value: &Value) -> Result<Calendar, ReadError>
    ensures calendar { Gives (calendar_of (view value.now)) result }
    ensures fits { IfOk result (λ x. may_be_holidays x.holidays ≡ true) }
{
    let days: Items<Day> = list_if_under(alloc, value, "holidays")?;
    let rolls = flag_if_under(value, "roll")?;
    if are_holidays(days.as_slice()) {
        Ok(Calendar::of(rolls, days.into_vec()))
    } else {
        Err(ReadError::Other)
    }
}

/// The settings of a tenant that a value is. What is as it is by default may be left out here; a row that says it is another
/// text than that of its settings.
pub fn read_settings(alloc: Global, tenant: Tenant, value: &Value) -> Result<TenantItem, ReadError>
    ensures settings { Gives (settings_of tenant (view value.now)) result }
    ensures fits { IfOk result (λ x. is_tenant_item x ≡ true) }
{
    let _id = tenant.id();
    let external = flag_if_under(value, "external")?;
    let calendar = read_calendar(alloc, value)?;
    let name = text_under(alloc, value, "name", 1, limits::NAME_BYTES)?;
    let notice_days = whole_under(value, "notice_days", 0, limits::NOTICE_DAYS)?;
    let offset = signed_under(value, "offset", -720, 840)?;
    let quota = whole_under(value, "quota", 1, limits::QUOTA)?;
    let salt = salt_under(value, "salt")?;
    Ok(TenantItem {
        tenant,
        external,
        calendar,
        name,
        notice_days: notice_days as u8,
        offset,
        quota,
        salt,
    })
}

//! What a setup gives.
ghost use Rattle.std.specs.Prelude.{◌≡◌, Some, None};
ghost use Rattle.toml.specs.View.{view};
ghost use Rattle.wb_setup.specs.TomlValues.{under, whole};
ghost use Rattle.wb_setup.specs.Given.{recipients as recipients_of, user_of, form_of, context_of, tenant_of, tenants_of, day as day_of, calendar as calendar_of, has_format as format_test};
ghost use Rattle.wb_json.specs.Gives.{Gives};

use crate::given::{GivenContext, GivenForm, GivenTenant, GivenUser};
use crate::parts::{Part, list_if_under, list_under, read_list};
use crate::toml_values::{
    any_text_under, flag_if_under, flag_under, has_only, number_under, read_user_id, rights_under,
    role_under, salt_under, tenant_id_under, text_under, user_id_under, whole_under,
};
use std::alloc::Global;
use toml::Value;
use wb_base::{Calendar, Day, UserId, are_holidays, limits};
use wb_json::ReadError;
use wb_list::Items;
use wb_terms::read_date;

impl Part for UserId {
    ghost reading = { whole 1 256 };

    fn read(_alloc: Global, value: &Value) -> Result<UserId, ReadError> {
        read_user_id(value)
    }
}

// The recipients that a value is.
fn read_recipients(alloc: Global, value: &Value) -> Result<Items<UserId>, ReadError>
    ensures { Gives (recipients_of (view value.now)) result }
{
    let users = read_list(alloc, value)?;
    if 1 <= users.len() && users.len() <= limits::READERS {
        Ok(users)
    } else {
        Err(ReadError::Other)
    }
}

// The recipients under a key.
fn recipients_under(alloc: Global, value: &Value, key: &str) -> Result<Items<UserId>, ReadError>
    ensures { Gives (under key.now recipients_of (view value.now)) result }
{
    match value.get(key) {
        Some(found) => read_recipients(alloc, found),
        None => Err(ReadError::Other),
    }
}

impl Part for GivenUser {
    ghost reading = { user_of };

    fn read(alloc: Global, value: &Value) -> Result<GivenUser, ReadError> {
        if !has_only(value, &["enabled", "id", "may", "name", "password", "role"]) {
            return Err(ReadError::Other);
        }
        let id = user_id_under(value, "id")?;
        let name = text_under(alloc, value, "name", 1, limits::USER_NAME_BYTES)?;
        let role = role_under(value, "role")?;
        let password = text_under(alloc, value, "password", 1, limits::NAME_BYTES)?;
        let enabled = flag_under(value, "enabled")?;
        let may = rights_under(value, "may")?;
        Ok(GivenUser {
            id,
            name,
            role,
            password,
            enabled,
            may,
        })
    }
}

impl Part for GivenForm {
    ghost reading = { form_of };

    fn read(alloc: Global, value: &Value) -> Result<GivenForm, ReadError> {
        if !has_only(value, &["form", "id"]) {
            return Err(ReadError::Other);
        }
        let id = whole_under(value, "id", 1, limits::FORMS)?;
        let json = any_text_under(alloc, value, "form")?;
        Ok(GivenForm { id, json })
    }
}

impl Part for GivenContext {
    ghost reading = { context_of };

    fn read(alloc: Global, value: &Value) -> Result<GivenContext, ReadError> {
        if !has_only(
            value,
            &["form", "id", "name", "open", "recipients", "retention"],
        ) {
            return Err(ReadError::Other);
        }
        let id = whole_under(value, "id", 1, limits::CONTEXTS)?;
        let name = text_under(alloc, value, "name", 1, limits::NAME_BYTES)?;
        let form = whole_under(value, "form", 1, limits::FORMS)?;
        let retention = whole_under(value, "retention", 1, limits::RETENTION_DAYS)?;
        let recipients = recipients_under(alloc, value, "recipients")?;
        let is_open = flag_under(value, "open")?;
        Ok(GivenContext {
            id,
            name,
            form,
            retention: retention as u16,
            recipients,
            is_open,
        })
    }
}

impl Part for Day {
    ghost reading = { day_of };

    fn read(alloc: Global, value: &Value) -> Result<Day, ReadError> {
        match value.as_str() {
            Some(text) => read_date(text.as_bytes()).ok_or(ReadError::Other),
            None => Err(ReadError::Other),
        }
    }
}

// Whether a tenant's due days roll, and past which holidays.
fn calendar(alloc: Global, value: &Value) -> Result<Calendar, ReadError>
    ensures { Gives (calendar_of (view value.now)) result }
{
    let rolls = flag_if_under(value, "roll")?;
    let days: Items<Day> = list_if_under(alloc, value, "holidays")?;
    if are_holidays(days.as_slice()) {
        Ok(Calendar::of(rolls, days.into_vec()))
    } else {
        Err(ReadError::Other)
    }
}

impl Part for GivenTenant {
    ghost reading = { tenant_of };

    fn read(alloc: Global, value: &Value) -> Result<GivenTenant, ReadError> {
        if !has_only(
            value,
            &[
                "context",
                "external",
                "form",
                "holidays",
                "id",
                "name",
                "notice_days",
                "offset",
                "quota",
                "roll",
                "salt",
                "user",
            ],
        ) {
            return Err(ReadError::Other);
        }
        let id = tenant_id_under(value, "id")?;
        let name = text_under(alloc, value, "name", 1, limits::NAME_BYTES)?;
        let salt = salt_under(value, "salt")?;
        let offset = number_under(value, "offset", -720, 840)?;
        let quota = whole_under(value, "quota", 1, limits::QUOTA)?;
        let notice_days = whole_under(value, "notice_days", 0, limits::NOTICE_DAYS)?;
        let external = flag_if_under(value, "external")?;
        let calendar = calendar(alloc, value)?;
        let users = list_if_under(alloc, value, "user")?;
        let forms = list_if_under(alloc, value, "form")?;
        let contexts = list_if_under(alloc, value, "context")?;
        Ok(GivenTenant {
            id,
            name,
            salt,
            external,
            calendar,
            offset,
            quota,
            notice_days: notice_days as u8,
            users,
            forms,
            contexts,
        })
    }
}

// Whether the setup is of the first format.
fn has_format(value: &Value) -> bool
    ensures { result ≡ format_test (view value.now) }
{
    match value.get("host") {
        Some(found) => match found.as_str() {
            Some(text) => text == "whistle 1",
            None => false,
        },
        None => false,
    }
}

/// The tenants of a document, in its order.
pub fn read_tenants(alloc: Global, value: &Value) -> Result<Items<GivenTenant>, ReadError>
    ensures { Gives (tenants_of (view value.now)) result }
{
    if !has_only(value, &["host", "tenant"]) {
        return Err(ReadError::Other);
    }
    if !has_format(value) {
        return Err(ReadError::Other);
    }
    list_under(alloc, value, "tenant")
}

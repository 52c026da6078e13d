//! What an administrator sets, in the bodies of requests.
ghost use Rattle.std.specs.Prelude.{◌≡◌, ◌==◌, Some};
ghost use Rattle.std.specs.List.{list_any};
ghost use Rattle.serde_json.specs.View.{view};
ghost use Rattle.wb_model.specs.Fits.{are_distinct as distinct_test};
ghost use Rattle.wb_model.specs.Bodies.{under, recipients as recipients_of, are_recipients as recipients_test, settings_set as settings_of, user_set as user_of, context_set as context_of, form as form_of, new_form as new_form_of};
ghost use Rattle.wb_json.specs.Gives.{Gives};

use serde_json::Value;
use std::alloc::Global;
use wb_base::{Form, FormFault, UserId, limits};
use wb_form::{FormText, has_only, size};
use wb_json::{
    ReadError, flag_under, read_list, rights_under, role_under, text_if_under, text_under,
    whole_under,
};
use wb_list::Items;
use wb_model::{Command, ContextSet, SettingsSet, UserSet};

// Whether a user is one of these.
fn is_among(users: &[UserId], user: UserId) -> bool
    ensures { result ≡ list_any (λ u. u == user) users.now }
{
    for other in users {
        if other.id() == user.id() {
            return true;
        }
    }
    false
}

// Whether each user stands once.
fn are_distinct(users: &[UserId]) -> bool
    ensures { result ≡ distinct_test users.now }
{
    for (at, user) in users.iter().enumerate() {
        if is_among(&users[at + 1..], *user) {
            return false;
        }
    }
    true
}

// Whether these can be a context's recipients.
fn are_recipients(users: &[UserId]) -> bool
    ensures { result ≡ recipients_test users.now }
{
    1 <= users.len() && users.len() <= limits::READERS && are_distinct(users)
}

// The recipients that a value is.
fn read_recipients(alloc: Global, value: &Value) -> Result<Items<UserId>, ReadError>
    ensures { Gives (recipients_of (view value.now)) result }
{
    let users: Items<UserId> = read_list(alloc, value)?;
    if are_recipients(users.as_slice()) {
        Ok(users)
    } else {
        Err(ReadError::Other)
    }
}

// The recipients under a key.
fn recipients_under(alloc: Global, value: &Value, key: &str) -> Result<Items<UserId>, ReadError>
    ensures { Gives (under key.now recipients_of (view value.now)) result }
{
    match value.get(key) {
        Some(found) => read_recipients(alloc, found),
        None => Err(ReadError::Other),
    }
}

/// `{"name", "notice_days", "quota"}`.
pub fn settings_set(alloc: Global, value: &Value) -> Result<SettingsSet, ReadError>
    ensures { Gives (settings_of (view value.now)) result }
{
    if size(value) != 3 {
        return Err(ReadError::Other);
    }
    let name = text_under(alloc, value, "name", 1, limits::NAME_BYTES)?;
    let notice_days = whole_under(value, "notice_days", 0, limits::NOTICE_DAYS)?;
    let quota = whole_under(value, "quota", 1, limits::QUOTA)?;
    Ok(SettingsSet {
        name,
        notice_days: notice_days as u8,
        quota,
    })
}

/// `{"name", "role", "enabled", "may", "password"}`, of which `password` may be left out.
pub fn user_set(alloc: Global, value: &Value) -> Result<UserSet, ReadError>
    ensures { Gives (user_of (view value.now)) result }
{
    if !has_only(value, &["enabled", "may", "name", "password", "role"]) {
        return Err(ReadError::Other);
    }
    let name = text_under(alloc, value, "name", 1, limits::USER_NAME_BYTES)?;
    let role = role_under(value, "role")?;
    let enabled = flag_under(value, "enabled")?;
    let may = rights_under(value, "may")?;
    let password = text_if_under(alloc, value, "password", 1, limits::NAME_BYTES)?;
    Ok(UserSet {
        name,
        role,
        enabled,
        may,
        password,
    })
}

/// `{"name", "form", "open", "recipients", "retention"}`.
pub fn context_set(alloc: Global, value: &Value) -> Result<ContextSet, ReadError>
    ensures { Gives (context_of (view value.now)) result }
{
    if size(value) != 5 {
        return Err(ReadError::Other);
    }
    let name = text_under(alloc, value, "name", 1, limits::NAME_BYTES)?;
    let form = whole_under(value, "form", 1, limits::FORMS)?;
    let is_open = flag_under(value, "open")?;
    let recipients = recipients_under(alloc, value, "recipients")?;
    let retention = whole_under(value, "retention", 1, limits::RETENTION_DAYS)?;
    Ok(ContextSet {
        name,
        form,
        is_open,
        recipients,
        retention: retention as u16,
    })
}

// The form that a value is, or its fault, which is never want of memory.
fn read_form(alloc: Global, value: &Value) -> Result<Result<Form, FormFault>, ReadError>
    ensures { Gives (Some (form_of (view value.now))) result }
{
    match Form::read(alloc, value) {
        Ok(form) => Ok(Ok(form)),
        Err(fault) => {
            if fault.code == FormFault::MEMORY {
                Err(ReadError::Memory)
            } else {
                Ok(Err(fault))
            }
        }
    }
}

/// `{"form"}`.
pub fn new_form(alloc: Global, t: u32, f: u32, value: &Value) -> Result<Command, ReadError>
    ensures { Gives (new_form_of t f (view value.now)) result }
{
    if size(value) != 1 {
        return Err(ReadError::Other);
    }
    match value.get("form") {
        Some(found) => Ok(Command::SetForm {
            t,
            f,
            form: read_form(alloc, found)?,
        }),
        None => Err(ReadError::Other),
    }
}

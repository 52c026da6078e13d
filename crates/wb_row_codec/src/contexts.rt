//! Contexts and forms of a tenant, as rows have them.
ghost use Rattle.std.specs.Prelude.{◌≡◌, ◌≤◌, IfOk, true};
ghost use Rattle.serde_json.specs.View.{view};
ghost use Rattle.wb_base.specs.FormFaults.{is_good};
ghost use Rattle.wb_model.specs.Bodies.{under};
ghost use Rattle.wb_model.specs.Legal.{are_readers as readers_test, ascends, ascends_from};
ghost use Rattle.wb_model.specs.SetUps.{is_context_item, is_form_item};
ghost use Rattle.wb_row_codec.specs.Shapes.{recipients as recipients_of, context as context_of, form as form_of, good_form, is_in_format as in_format};
ghost use Rattle.wb_json.specs.Gives.{Gives};

use serde_json::Value;
use std::alloc::Global;
use wb_base::{Form, FormFault, Format, Tenant, UserId, limits};
use wb_form::{FormText, has_score};
use wb_json::{ReadError, flag_under, read_list, text_under, whole_under};
use wb_list::Items;
use wb_model::{ContextItem, FormItem};

// Whether users ascend from above an id.
fn ascend_from(low: UserId, users: &[UserId]) -> bool
    ensures { result ≡ ascends_from low users.now }
{
    let mut last = low;
    for user in users {
        if user.id() <= last.id() {
            return false;
        }
        last = *user;
    }
    true
}

// Whether users ascend.
fn ascend(users: &[UserId]) -> bool
    ensures { result ≡ ascends users.now }
{
    match users.first() {
        Some(first) => ascend_from(*first, &users[1..]),
        None => true,
    }
}

// Whether there are 1 to 32 users, which ascend.
fn are_readers(users: &[UserId]) -> bool
    ensures { result ≡ readers_test users.now }
{
    1 <= users.len() && users.len() <= limits::READERS && ascend(users)
}

// The recipients under a key.
fn recipients_under(alloc: Global, value: &Value, key: &str) -> Result<Items<UserId>, ReadError>
    ensures users { Gives (under key.now recipients_of (view value.now)) result }
    ensures fits { IfOk result (λ users. readers_test users ≡ true) }
{
    let Some(found) = value.get(key) else {
        return Err(ReadError::Other);
    };
    let users: Items<UserId> = read_list(alloc, found)?;
    if are_readers(users.as_slice()) {
        Ok(users)
    } else {
        Err(ReadError::Other)
    }
}

/// The context of an id that a value is.
pub fn read_context(
    alloc: Global,
    tenant: Tenant,
    id: u32,
    value: &Value,
) -> Result<ContextItem, ReadError>
    requires low { 1 ≤ id }
    requires high { id ≤ 64 }
    ensures context { Gives (context_of tenant id (view value.now)) result }
    ensures fits { IfOk result (λ x. is_context_item x ≡ true) }
{
    let form = whole_under(value, "form", 1, limits::FORMS)?;
    let name = text_under(alloc, value, "name", 1, limits::NAME_BYTES)?;
    let is_open = flag_under(value, "open")?;
    let recipients = recipients_under(alloc, value, "recipients")?;
    let retention = whole_under(value, "retention", 1, limits::RETENTION_DAYS)?;
    Ok(ContextItem {
        tenant,
        id,
        form,
        name,
        is_open,
        recipients,
        retention: retention as u16,
    })
}

// The good form that a value is.
fn read_good(alloc: Global, format: Format, value: &Value) -> Result<Form, ReadError>
    ensures form { Gives (good_form format (view value.now)) result }
    ensures good { IfOk result (λ x. is_good x ≡ true) }
{
    match Form::read_as(alloc, format, value) {
        Ok(form) => Ok(form),
        Err(fault) => {
            if fault.code == FormFault::MEMORY {
                Err(ReadError::Memory)
            } else {
                Err(ReadError::Other)
            }
        }
    }
}

// Whether rows of the format have the form.
fn is_in_format(format: Format, form: &Form) -> bool
    ensures { result ≡ in_format format form.now }
{
    match format {
        Format::Plain => !has_score(form),
        Format::Weighed => true,
    }
}

/// The version of a form that a value is, where the form is good.
pub fn read_version(
    alloc: Global,
    format: Format,
    tenant: Tenant,
    id: u32,
    version: u32,
    value: &Value,
) -> Result<FormItem, ReadError>
    requires low { 1 ≤ id }
    requires high { id ≤ 16 }
    requires first { 1 ≤ version }
    requires last { version ≤ 99 }
    ensures form { Gives (form_of format tenant id version (view value.now)) result }
    ensures fits { IfOk result (λ x. is_form_item x ≡ true) }
{
    let form = read_good(alloc, format, value)?;
    if !is_in_format(format, &form) {
        return Err(ReadError::Other);
    }
    Ok(FormItem {
        tenant,
        id,
        version,
        form,
    })
}

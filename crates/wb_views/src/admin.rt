//! The body that shows a tenant's admins what it is set up with.
ghost use Rattle.std.specs.Prelude.{◌≡◌, ◌++◌, ◌∷◌, ◌==◌, filter, map as map_over, IfOk, OnOk};
ghost use Rattle.std.specs.List.{list_any};
ghost use Rattle.serde_json.specs.View.{view};
ghost use Rattle.serde_json.specs.Written.{compact_text};
ghost use Rattle.wb_model.specs.Json.{list_of};
ghost use Rattle.wb_model.specs.Openings.{registry_of};
ghost use Rattle.wb_model.specs.TenantViews as views;
ghost use Rattle.wb_tenants.specs.Sets.{HasTenant};
ghost use Rattle.wb_views.specs.Shown.{forms_shown};

use crate::tenant::settings;
use serde_json::{Map, Value};
use std::alloc::Global;
use wb_base::{Memory, Tenant, Text};
use wb_json::{
    list_value, put_flag, put_text, put_value, put_whole, rights_value, role_name, text_of,
};
use wb_model::{ContextItem, FormItem, TenantItem, UserItem};
use wb_tenants::Registry;

// The object of a context.
fn context_value(alloc: Global, context: &ContextItem) -> Result<Value, Memory>
    ensures { IfOk result (λ value. view value ≡ views.admin_context context.now) }
{
    let recipients = list_value(alloc, context.recipients.as_slice())?;
    let mut map = Map::new(alloc);
    put_whole(&mut map, alloc, "retention", context.retention as u64)?;
    put_value(&mut map, alloc, "recipients", recipients)?;
    put_flag(&mut map, alloc, "open", context.is_open)?;
    put_text(&mut map, alloc, "name", context.name.as_str())?;
    put_whole(&mut map, alloc, "id", context.id as u64)?;
    put_whole(&mut map, alloc, "form", context.form as u64)?;
    Ok(Value::Object(map))
}

// The array of a tenant's contexts.
fn contexts_value(alloc: Global, contexts: &[ContextItem], tenant: Tenant) -> Result<Value, Memory>
    ensures { IfOk result (λ value.
        view value ≡ list_of views.admin_context (filter (λ x. x.tenant == tenant) contexts.now)) }
{
    let mut values = Vec::new(alloc);
    for context in contexts {
        if context.tenant == tenant {
            values.push(context_value(alloc, context)?)?;
        }
    }
    Ok(Value::Array(values))
}

// The object of a form with the number of its versions.
fn form_value(alloc: Global, form: &FormItem) -> Result<Value, Memory>
    ensures { IfOk result (λ value. view value ≡ views.admin_form form.now) }
{
    let mut map = Map::new(alloc);
    put_whole(&mut map, alloc, "versions", form.version as u64)?;
    put_whole(&mut map, alloc, "id", form.id as u64)?;
    Ok(Value::Object(map))
}

// Whether one of these is a version of a form of a tenant.
fn has_version(forms: &[FormItem], tenant: Tenant, id: u32) -> bool
    ensures { result ≡ list_any (λ y. y.id == id) (filter (λ x. x.tenant == tenant) forms.now) }
{
    for form in forms {
        if form.tenant == tenant && form.id == id {
            return true;
        }
    }
    false
}

// Puts a form of the tenant at the end, where no later one is another version of it.
#[tactic(auto, unfolding(crate::specs::Shown::forms_shown))]
fn push_newest(
    values: &mut Vec<Value>,
    alloc: Global,
    tenant: Tenant,
    form: &FormItem,
    later: &[FormItem],
) -> Result<(), Memory>
    ensures { OnOk result (map_over view values.new.items ++ forms_shown tenant later.now
        ≡ map_over view values.old.items ++ forms_shown tenant (form.now ∷ later.now)) }
{
    if form.tenant != tenant {
        return Ok(());
    }
    if has_version(later, tenant, form.id) {
        return Ok(());
    }
    values.push(form_value(alloc, form)?)?;
    Ok(())
}

// The array of a tenant's forms, each in its newest version.
fn forms_value(alloc: Global, forms: &[FormItem], tenant: Tenant) -> Result<Value, Memory>
    ensures { IfOk result (λ value.
        view value ≡ list_of views.admin_form (views.newest_forms (filter (λ x. x.tenant == tenant) forms.now))) }
{
    let mut values = Vec::new(alloc);
    for (at, form) in forms.iter().enumerate() {
        push_newest(&mut values, alloc, tenant, form, &forms[at + 1..])?;
    }
    Ok(Value::Array(values))
}

// The object of a user.
fn user_value(alloc: Global, user: &UserItem) -> Result<Value, Memory>
    ensures { IfOk result (λ value. view value ≡ views.admin_user user.now) }
{
    let may = rights_value(alloc, user.may)?;
    let mut map = Map::new(alloc);
    put_text(&mut map, alloc, "role", role_name(user.role))?;
    put_text(&mut map, alloc, "name", user.name.as_str())?;
    put_value(&mut map, alloc, "may", may)?;
    put_whole(&mut map, alloc, "id", user.id.id() as u64)?;
    put_flag(&mut map, alloc, "enabled", user.enabled)?;
    Ok(Value::Object(map))
}

// The array of a tenant's users.
fn users_value(alloc: Global, users: &[UserItem], tenant: Tenant) -> Result<Value, Memory>
    ensures { IfOk result (λ value.
        view value ≡ list_of views.admin_user (filter (λ x. x.tenant == tenant) users.now)) }
{
    let mut values = Vec::new(alloc);
    for user in users {
        if user.tenant == tenant {
            values.push(user_value(alloc, user)?)?;
        }
    }
    Ok(Value::Array(values))
}

// The object of a tenant's settings.
fn settings_value(alloc: Global, settings: &TenantItem) -> Result<Value, Memory>
    ensures { IfOk result (λ value. view value ≡ views.admin_settings settings.now) }
{
    let mut map = Map::new(alloc);
    put_whole(&mut map, alloc, "quota", settings.quota as u64)?;
    put_value(
        &mut map,
        alloc,
        "offset",
        Value::from(settings.offset as i64),
    )?;
    put_whole(&mut map, alloc, "notice_days", settings.notice_days as u64)?;
    put_text(&mut map, alloc, "name", settings.name.as_str())?;
    Ok(Value::Object(map))
}

// The JSON value of the body.
#[tactic(auto, unfolding(wb_model::specs::TenantViews::admin_view))]
fn admin_value(
    alloc: Global,
    registry: &Registry,
    tenant: Tenant,
    last: u32,
) -> Result<Value, Memory>
    requires { HasTenant registry.now.lists tenant }
    ensures { IfOk result (λ value. view value ≡ views.admin_view (registry_of registry.now.lists tenant) last) }
{
    let lists = registry.lists();
    let users = users_value(alloc, lists.users.as_slice(), tenant)?;
    let settings = settings_value(alloc, settings(registry, tenant))?;
    let forms = forms_value(alloc, lists.forms.as_slice(), tenant)?;
    let contexts = contexts_value(alloc, lists.contexts.as_slice(), tenant)?;
    let mut map = Map::new(alloc);
    put_value(&mut map, alloc, "users", users)?;
    put_value(&mut map, alloc, "settings", settings)?;
    put_whole(&mut map, alloc, "last_number", last as u64)?;
    put_value(&mut map, alloc, "forms", forms)?;
    put_value(&mut map, alloc, "contexts", contexts)?;
    Ok(Value::Object(map))
}

/// The body that shows a tenant's admins what it is set up with, and the last number that was drawn.
pub fn admin_view(
    alloc: Global,
    registry: &Registry,
    tenant: Tenant,
    last: u32,
) -> Result<Text, Memory>
    requires { HasTenant registry.now.lists tenant }
    ensures { IfOk result (λ text. text ≡ compact_text (views.admin_view (registry_of registry.now.lists tenant) last)) }
{
    let value = admin_value(alloc, registry, tenant, last)?;
    text_of(alloc, &value)
}

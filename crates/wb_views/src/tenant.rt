//! The bodies that show what a tenant is set up with: to everyone, and of one context.
ghost use Rattle.std.specs.Prelude.{◌≡◌, ◌==◌, filter, IfOk};
ghost use Rattle.serde_json.specs.View.{view};
ghost use Rattle.serde_json.specs.Written.{compact_text};
ghost use Rattle.wb_model.specs.Json.{list_of};
ghost use Rattle.wb_model.specs.Openings.{registry_of};
ghost use Rattle.wb_model.specs.TenantViews.{public_context, public_view as public_data, context_view as context_data};
ghost use Rattle.wb_tenants.specs.Sets.{HasTenant};
ghost use Rattle.wb_views.specs.Shown.{HasForm, ShowsContext};

use serde_json::{Map, Value};
use std::alloc::Global;
use wb_base::{Memory, Tenant, Text};
use wb_form::FormText;
use wb_json::{put_text, put_value, put_whole, text_of};
use wb_model::{ContextItem, FormItem, TenantItem};
use wb_tenants::Registry;

/// The settings of a tenant that is there.
pub(crate) fn settings(registry: &Registry, tenant: Tenant) -> &TenantItem
    requires { HasTenant registry.now.lists tenant }
    ensures { result.now ≡ (registry_of registry.now.lists tenant).settings }
{
    match registry.tenant(tenant) {
        Some(item) => item,
        None => unreachable!(),
    }
}

// The object of a context that is shown to everyone.
fn public_context_value(alloc: Global, context: &ContextItem) -> Result<Value, Memory>
    ensures { IfOk result (λ value. view value ≡ public_context context.now) }
{
    let mut map = Map::new(alloc);
    put_text(&mut map, alloc, "name", context.name.as_str())?;
    put_whole(&mut map, alloc, "id", context.id as u64)?;
    Ok(Value::Object(map))
}

// The array of a tenant's open contexts.
fn open_contexts(alloc: Global, contexts: &[ContextItem], tenant: Tenant) -> Result<Value, Memory>
    ensures { IfOk result (λ value.
        view value ≡ list_of public_context (filter (λ x. x.is_open) (filter (λ x. x.tenant == tenant) contexts.now))) }
{
    let mut values = Vec::new(alloc);
    for context in contexts {
        if context.tenant == tenant && context.is_open {
            values.push(public_context_value(alloc, context)?)?;
        }
    }
    Ok(Value::Array(values))
}

// The JSON value of what everyone is shown of a tenant.
#[tactic(auto, unfolding(wb_model::specs::TenantViews::public_view))]
fn public_value(alloc: Global, registry: &Registry, tenant: Tenant) -> Result<Value, Memory>
    requires { HasTenant registry.now.lists tenant }
    ensures { IfOk result (λ value. view value ≡ public_data (registry_of registry.now.lists tenant)) }
{
    let settings = settings(registry, tenant);
    let contexts = open_contexts(alloc, registry.lists().contexts.as_slice(), tenant)?;
    let mut map = Map::new(alloc);
    put_whole(&mut map, alloc, "tenant", settings.tenant.id() as u64)?;
    put_text(&mut map, alloc, "name", settings.name.as_str())?;
    put_value(&mut map, alloc, "contexts", contexts)?;
    Ok(Value::Object(map))
}

/// The body that shows a tenant to everyone: its name and its open contexts.
pub fn public_view(alloc: Global, registry: &Registry, tenant: Tenant) -> Result<Text, Memory>
    requires { HasTenant registry.now.lists tenant }
    ensures { IfOk result (λ text. text ≡ compact_text (public_data (registry_of registry.now.lists tenant))) }
{
    let value = public_value(alloc, registry, tenant)?;
    text_of(alloc, &value)
}

// The JSON value of a context with a version of its form.
#[tactic(auto, unfolding(wb_model::specs::TenantViews::context_view))]
fn context_value(alloc: Global, context: &ContextItem, form: &FormItem) -> Result<Value, Memory>
    ensures { IfOk result (λ value. view value ≡ context_data context.now form.now) }
{
    let mut map = Map::new(alloc);
    put_whole(&mut map, alloc, "version", form.version as u64)?;
    put_text(&mut map, alloc, "name", context.name.as_str())?;
    put_value(&mut map, alloc, "form", form.form.show(alloc)?)?;
    put_whole(&mut map, alloc, "context", context.id as u64)?;
    Ok(Value::Object(map))
}

// The body that shows a context with a version of its form.
fn context_text(alloc: Global, context: &ContextItem, form: &FormItem) -> Result<Text, Memory>
    ensures { IfOk result (λ text. text ≡ compact_text (context_data context.now form.now)) }
{
    let value = context_value(alloc, context, form)?;
    text_of(alloc, &value)
}

/// The body that shows a context of a tenant, with its form in the newest version.
pub fn context_view(
    alloc: Global,
    registry: &Registry,
    tenant: Tenant,
    context: u32,
) -> Result<Text, Memory>
    requires { HasForm (registry_of registry.now.lists tenant) context }
    ensures { IfOk result (λ text. ShowsContext (registry_of registry.now.lists tenant) context text) }
{
    match registry.context(tenant, context) {
        Some(item) => match registry.newest_form(tenant, item.form) {
            Some(form) => context_text(alloc, item, form),
            None => unreachable!(),
        },
        None => unreachable!(),
    }
}

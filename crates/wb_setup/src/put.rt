//! The lists of a setup, each in the order of its keys.
ghost use Rattle.std.specs.Prelude.{◌≡◌, [], IfOk, OnOk, fold};
ghost use Rattle.std.specs.Ordering.{nat_cmp};
ghost use Rattle.wb_list.specs.Keyed.{IsAscending};
ghost use Rattle.wb_model.specs.Settings.{ascending as ascending_of};
ghost use Rattle.wb_setup.specs.Keys.{AreInOrder, tenant_key, key_cmp, user_key, version_key, context_key};
ghost use Rattle.wb_setup.specs.Setups.{tenant_item as tenant_item_of, user_item as user_item_of, context_item as context_item_of, put_tenant, put_users as put_users_of, put_form, put_contexts as put_contexts_of, lists_of as lists_by};

use crate::given::{GivenContext, GivenTenant, GivenUser};
use crate::ordered::{add, nothing};
use std::alloc::Global;
use wb_access::digest;
use wb_base::{Memory, UserId};
use wb_list::{Items, TryClone};
use wb_model::{ContextItem, FormItem, Lists, TenantItem, UserItem};

// Ids in their order.
fn ascending(alloc: Global, users: &[UserId]) -> Result<Items<UserId>, Memory>
    ensures { IfOk result (λ ids. ids ≡ ascending_of users.now) }
{
    let mut ids = nothing(alloc);
    for user in users {
        add(&mut ids, *user)?;
    }
    Ok(Items::of(ids))
}

fn tenant_item(tenant: &GivenTenant) -> Result<TenantItem, Memory>
    ensures { IfOk result (λ item. item ≡ tenant_item_of tenant.now) }
{
    let name = tenant.name.try_clone()?;
    let calendar = tenant.calendar.try_clone()?;
    Ok(TenantItem {
        tenant: tenant.id,
        external: tenant.external,
        calendar,
        name,
        notice_days: tenant.notice_days,
        offset: tenant.offset,
        quota: tenant.quota,
        salt: tenant.salt,
    })
}

fn user_item(tenant: &GivenTenant, user: &GivenUser) -> Result<UserItem, Memory>
    ensures { IfOk result (λ item. item ≡ user_item_of tenant.now user.now) }
{
    let name = user.name.try_clone()?;
    let secret = digest(&tenant.salt, user.password.as_bytes());
    Ok(UserItem {
        tenant: tenant.id,
        id: user.id,
        disabled: 0,
        enabled: user.enabled,
        may: user.may,
        name,
        role: user.role,
        secret,
    })
}

fn context_item(
    alloc: Global,
    tenant: &GivenTenant,
    context: &GivenContext,
) -> Result<ContextItem, Memory>
    ensures { IfOk result (λ item. item ≡ context_item_of tenant.now context.now) }
{
    let name = context.name.try_clone()?;
    let recipients = ascending(alloc, context.recipients.as_slice())?;
    Ok(ContextItem {
        tenant: tenant.id,
        id: context.id,
        form: context.form,
        name,
        is_open: context.is_open,
        recipients,
        retention: context.retention,
    })
}

fn tenants_of(alloc: Global, tenants: &[GivenTenant]) -> Result<Items<TenantItem>, Memory>
    ensures all { IfOk result (λ items. items ≡ fold put_tenant [] tenants.now) }
    ensures order { IfOk result (λ items. IsAscending nat_cmp tenant_key items) }
{
    let mut items = nothing(alloc);
    for tenant in tenants {
        add(&mut items, tenant_item(tenant)?)?;
    }
    Ok(Items::of(items))
}

fn put_users(items: &mut Vec<UserItem>, tenant: &GivenTenant) -> Result<(), Memory>
    requires { IsAscending key_cmp user_key items.old.items }
    ensures put { OnOk result (items.new.items ≡ put_users_of items.old.items tenant.now) }
    ensures order { OnOk result (IsAscending key_cmp user_key items.new.items) }
{
    for user in tenant.users.as_slice() {
        add(items, user_item(tenant, user)?)?;
    }
    Ok(())
}

fn users_of(alloc: Global, tenants: &[GivenTenant]) -> Result<Items<UserItem>, Memory>
    ensures all { IfOk result (λ items. items ≡ fold put_users_of [] tenants.now) }
    ensures order { IfOk result (λ items. IsAscending key_cmp user_key items) }
{
    let mut items = nothing(alloc);
    for tenant in tenants {
        put_users(&mut items, tenant)?;
    }
    Ok(Items::of(items))
}

fn put_contexts(
    alloc: Global,
    items: &mut Vec<ContextItem>,
    tenant: &GivenTenant,
) -> Result<(), Memory>
    requires { IsAscending key_cmp context_key items.old.items }
    ensures put { OnOk result (items.new.items ≡ put_contexts_of items.old.items tenant.now) }
    ensures order { OnOk result (IsAscending key_cmp context_key items.new.items) }
{
    for context in tenant.contexts.as_slice() {
        add(items, context_item(alloc, tenant, context)?)?;
    }
    Ok(())
}

fn contexts_of(alloc: Global, tenants: &[GivenTenant]) -> Result<Items<ContextItem>, Memory>
    ensures all { IfOk result (λ items. items ≡ fold put_contexts_of [] tenants.now) }
    ensures order { IfOk result (λ items. IsAscending key_cmp context_key items) }
{
    let mut items = nothing(alloc);
    for tenant in tenants {
        put_contexts(alloc, &mut items, tenant)?;
    }
    Ok(Items::of(items))
}

fn forms_of(alloc: Global, forms: Items<FormItem>) -> Result<Items<FormItem>, Memory>
    ensures all { IfOk result (λ items. items ≡ fold put_form [] forms) }
    ensures order { IfOk result (λ items. IsAscending key_cmp version_key items) }
{
    let mut items = nothing(alloc);
    for form in forms.into_vec() {
        add(&mut items, form)?;
    }
    Ok(Items::of(items))
}

/// The lists of the setup, each in the order of its keys.
pub fn lists_of(
    alloc: Global,
    given: &[GivenTenant],
    forms: Items<FormItem>,
) -> Result<Lists, Memory>
    ensures all { IfOk result (λ lists. lists ≡ lists_by given.now forms) }
    ensures order { IfOk result (λ lists. AreInOrder lists) }
{
    let tenants = tenants_of(alloc, given)?;
    let users = users_of(alloc, given)?;
    let forms = forms_of(alloc, forms)?;
    let contexts = contexts_of(alloc, given)?;
    Ok(Lists {
        tenants,
        users,
        forms,
        contexts,
    })
}

//! The rules of what tenants are set up with.
ghost use Rattle.std.specs.Prelude.{◌≡◌, ◌==◌, None, IfOk};
ghost use Rattle.std.specs.List.{list_all, list_any};
ghost use Rattle.wb_base.specs.KeptRows.{key_of};
ghost use Rattle.wb_model.specs.Openings.{registry_of};
ghost use Rattle.wb_model.specs.Settings.{is_recipient as is_recipient_in};
ghost use Rattle.wb_model.specs.SetUps.{same_user_name};
ghost use Rattle.wb_rows.specs.Blame.{first_breaking};
ghost use Rattle.wb_rows.specs.ListRules.{has_tenant_rows as has_tenant_rows_in, has_version as has_version_in, follows as follows_in, is_right_context as is_right_context_in, list_fault as list_fault_of};
ghost use Rattle.wb_rows.specs.Places.{user_key, form_key, context_key};

use crate::RowFault;
use crate::repeated::{Marked, first_repeated};
use std::alloc::Global;
use wb_base::{Key, Memory, Role, Row, Tenant, Text, UserId};
use wb_list::TryClone;
use wb_model::{ContextItem, FormItem, Lists, TenantItem, UserItem};
use wb_row_codec::NumberingItem;
use wb_tenants::Registry;

// Whether a tenant's settings are there. There are at most 64.
fn has_settings(tenants: &[TenantItem], tenant: u32) -> bool
    ensures { result ≡ list_any (λ x. x.tenant == tenant) tenants.now }
{
    tenants.iter().any(|item| item.tenant.id() == tenant)
}

// Whether a tenant's numbering is there. There are at most 64.
fn has_numbering(numberings: &[NumberingItem], tenant: u32) -> bool
    ensures { result ≡ list_any (λ x. x.tenant == tenant) numberings.now }
{
    numberings.iter().any(|item| item.tenant.id() == tenant)
}

// Whether the tenant that a row's key names has its settings and its numbering.
#[tactic(auto, unfolding(crate::specs::ListRules::has_tenant_rows))]
fn has_tenant_rows(lists: &Lists, numberings: &[NumberingItem], row: &Row) -> bool
    ensures { result ≡ has_tenant_rows_in lists.now numberings.now row.now }
{
    let tenant = row.key.tenant;
    has_settings(lists.tenants.as_slice(), tenant) && has_numbering(numberings, tenant)
}

// The first row whose tenant lacks its settings or its numbering.
fn first_without_tenant(lists: &Lists, numberings: &[NumberingItem], rows: &[Row]) -> Option<Key>
    ensures { result ≡ first_breaking (has_tenant_rows_in lists.now numberings.now) key_of rows.now }
{
    for row in rows {
        if !has_tenant_rows(lists, numberings, row) {
            return Some(row.key);
        }
    }
    None
}

impl Marked for UserItem {
    ghost use Rattle.std.specs.Prelude.{Some};
    ghost use Rattle.wb_model.specs.SetUps.{same_user_name};
    ghost use Rattle.wb_rows.specs.Places.{user_key};
    ghost use Rattle.wb_rows.specs.NameTies.{names_tie};

    type Mark = (Tenant, Text);

    ghost mark_of = { λ user. Some (user.tenant, user.name) };

    ghost key_of = { user_key };

    ghost same = { same_user_name };

    ghost ties = { names_tie };

    fn mark(&self, alloc: Global) -> Result<Option<(Tenant, Text)>, Memory> {
        Ok(Some((self.tenant, self.name.try_clone()?)))
    }

    fn key(&self) -> Key {
        Key {
            kind: Key::USER,
            tenant: self.tenant.id(),
            a: u32::from(self.id.id()),
            b: 0,
        }
    }
}

// Whether a version of a form is there.
fn has_version(registry: &Registry, tenant: Tenant, id: u32, version: u32) -> bool
    ensures { result ≡ has_version_in registry.now.lists tenant id version }
{
    registry.form(tenant, id, version).is_some()
}

// Whether a form's version is the first, or the version before it is there.
#[tactic(auto, unfolding(crate::specs::ListRules::follows))]
fn follows(registry: &Registry, form: &FormItem) -> bool
    ensures { result ≡ follows_in registry.now.lists form.now }
{
    form.version <= 1 || has_version(registry, form.tenant, form.id, form.version - 1)
}

// The first version of a form that follows none.
fn first_gap(registry: &Registry, forms: &[FormItem]) -> Option<Key>
    ensures { result ≡ first_breaking (follows_in registry.now.lists) form_key forms.now }
{
    for form in forms {
        if !follows(registry, form) {
            return Some(Key {
                kind: Key::FORM,
                tenant: form.tenant.id(),
                a: form.id,
                b: form.version,
            });
        }
    }
    None
}

// Whether a user is a recipient.
fn is_recipient(registry: &Registry, tenant: Tenant, id: UserId) -> bool
    ensures { result ≡ is_recipient_in (registry_of registry.now.lists tenant).users id }
{
    match registry.user(tenant, id) {
        Some(user) => user.role == Role::Recipient,
        None => false,
    }
}

// Whether each of these is a recipient.
fn are_recipients(registry: &Registry, tenant: Tenant, users: &[UserId]) -> bool
    ensures { result ≡ list_all (is_recipient_in (registry_of registry.now.lists tenant).users) users.now }
{
    users
        .iter()
        .all(|user| is_recipient(registry, tenant, *user))
}

// Whether a context's form is there, and its recipients are recipients.
#[tactic(auto, unfolding(crate::specs::ListRules::is_right_context))]
fn is_right_context(registry: &Registry, context: &ContextItem) -> bool
    ensures { result ≡ is_right_context_in registry.now.lists context.now }
{
    has_version(registry, context.tenant, context.form, 1)
        && are_recipients(registry, context.tenant, context.recipients.as_slice())
}

// The first context that lacks its form or a recipient.
fn first_wrong_context(registry: &Registry, contexts: &[ContextItem]) -> Option<Key>
    ensures { result ≡ first_breaking (is_right_context_in registry.now.lists) context_key contexts.now }
{
    for context in contexts {
        if !is_right_context(registry, context) {
            return Some(Key {
                kind: Key::CONTEXT,
                tenant: context.tenant.id(),
                a: context.id,
                b: 0,
            });
        }
    }
    None
}

/// The first of the rules of what tenants are set up with that is broken, and the first row that breaks it.
pub fn list_fault(
    alloc: Global,
    rows: &[Row],
    registry: &Registry,
    numberings: &[NumberingItem],
) -> Result<Option<RowFault>, Memory>
    ensures { IfOk result (λ fault. fault ≡ list_fault_of rows.now registry.now.lists numberings.now) }
{
    let lists = registry.lists();
    if let Some(key) = first_without_tenant(lists, numberings, rows) {
        return Ok(Some(RowFault::BadSet(1, key)));
    }
    if let Some(key) = first_repeated(alloc, lists.users.as_slice())? {
        return Ok(Some(RowFault::BadSet(2, key)));
    }
    if let Some(key) = first_gap(registry, lists.forms.as_slice()) {
        return Ok(Some(RowFault::BadSet(3, key)));
    }
    if let Some(key) = first_wrong_context(registry, lists.contexts.as_slice()) {
        return Ok(Some(RowFault::BadSet(4, key)));
    }
    Ok(None)
}

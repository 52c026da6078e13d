//! A registry of what is kept and of what a setup adds.
ghost use Rattle.std.specs.Prelude.{◌≡◌, ◌==◌, ◌++◌, [], ◌∷◌, ℕ, not, filter, fold, IfOk, OnOk};
ghost use Rattle.std.specs.List.{list_any};
ghost use Rattle.wb_list.specs.Keyed.{IsAscending, insert_item};
ghost use Rattle.wb_setup.specs.Joined.{joined as joined_lists, others_of, lists_with};
ghost use Rattle.wb_setup.specs.Keys.{AreInOrder};

use crate::Registry;
use crate::form_copies::copy_form;
use std::alloc::Global;
use wb_base::{Memory, Tenant};
use wb_list::{Items, TryClone};
use wb_model::{ContextItem, FormItem, Lists, TenantItem, UserItem};
use wb_setup::{Placed, Setup, add};

/// What a setup adds: an item of a tenant, which can be copied.
pub trait Added: Placed {
    /// Its tenant.
    ghost owner: { Self → ℕ };

    /// Its tenant.
    fn owner(&self) -> Tenant
        ensures { result ≡ owner self.now };

    /// The same item once more.
    fn once_more(&self) -> Result<Self, Memory>
    where
        Self: Sized,
        ensures { IfOk result (λ copy. copy ≡ self.now) };
}

impl Added for TenantItem {
    ghost owner = { λ x. x.tenant };

    fn owner(&self) -> Tenant {
        self.tenant
    }

    fn once_more(&self) -> Result<TenantItem, Memory> {
        let calendar = self.calendar.try_clone()?;
        let name = self.name.try_clone()?;
        Ok(TenantItem {
            tenant: self.tenant,
            external: self.external,
            calendar,
            name,
            notice_days: self.notice_days,
            offset: self.offset,
            quota: self.quota,
            salt: self.salt,
        })
    }
}

impl Added for UserItem {
    ghost owner = { λ x. x.tenant };

    fn owner(&self) -> Tenant {
        self.tenant
    }

    fn once_more(&self) -> Result<UserItem, Memory> {
        let name = self.name.try_clone()?;
        Ok(UserItem {
            tenant: self.tenant,
            id: self.id,
            disabled: self.disabled,
            enabled: self.enabled,
            may: self.may,
            name,
            role: self.role,
            secret: self.secret,
        })
    }
}

impl Added for FormItem {
    ghost owner = { λ x. x.tenant };

    fn owner(&self) -> Tenant {
        self.tenant
    }

    fn once_more(&self) -> Result<FormItem, Memory> {
        let form = copy_form(&self.form)?;
        Ok(FormItem {
            tenant: self.tenant,
            id: self.id,
            version: self.version,
            form,
        })
    }
}

impl Added for ContextItem {
    ghost owner = { λ x. x.tenant };

    fn owner(&self) -> Tenant {
        self.tenant
    }

    fn once_more(&self) -> Result<ContextItem, Memory> {
        let name = self.name.try_clone()?;
        let recipients = self.recipients.try_clone()?;
        Ok(ContextItem {
            tenant: self.tenant,
            id: self.id,
            form: self.form,
            name,
            is_open: self.is_open,
            recipients,
            retention: self.retention,
        })
    }
}

// Whether a tenant is one of these.
fn has_tenant(tenants: &[TenantItem], tenant: Tenant) -> bool
    ensures { result ≡ list_any (λ x. x.tenant == tenant) tenants.now }
{
    tenants.iter().any(|item| item.tenant.id() == tenant.id())
}

// Adds a copy of an item whose tenant is none of these.
fn add_other<T: Added>(more: &mut Items<T>, item: &T, tenants: &[TenantItem]) -> Result<(), Memory>
    ensures { OnOk result (more.new ≡ more.old ++ filter (λ x. not (list_any (λ y. y.tenant == T.owner x) tenants.now)) (item.now ∷ [])) }
{
    if !has_tenant(tenants, item.owner()) {
        more.push(item.once_more()?)?;
    }
    Ok(())
}

// Copies of those items whose tenant is none of these.
fn others<T: Added>(alloc: Global, items: &[T], tenants: &[TenantItem]) -> Result<Items<T>, Memory>
    ensures { IfOk result (λ more. more ≡ filter (λ x. not (list_any (λ y. y.tenant == T.owner x) tenants.now)) items.now) }
{
    let mut more = Items::new(alloc);
    for item in items {
        add_other(&mut more, item, tenants)?;
    }
    Ok(more)
}

// The items with others, each at its place.
fn with_all<T: Placed>(items: Items<T>, more: Items<T>) -> Result<Items<T>, Memory>
    requires { IsAscending T.Key.cmp T.key_of items }
    ensures ok { IfOk result (λ all. all ≡ fold (insert_item T.Key.cmp T.key_of) items more) }
    ensures order { IfOk result (λ all. IsAscending T.Key.cmp T.key_of all) }
{
    let mut all = items.into_vec();
    for item in more.into_vec() {
        add(&mut all, item)?;
    }
    Ok(Items::of(all))
}

// Those items of a setup whose tenant is none of these.
fn other_lists(setup: &Lists, kept: &Lists) -> Result<Lists, Memory>
    ensures { IfOk result (λ lists. lists ≡ others_of setup.now kept.now) }
{
    let alloc = kept.tenants.allocator();
    let tenants = others(alloc, setup.tenants.as_slice(), kept.tenants.as_slice())?;
    let users = others(alloc, setup.users.as_slice(), kept.tenants.as_slice())?;
    let forms = others(alloc, setup.forms.as_slice(), kept.tenants.as_slice())?;
    let contexts = others(alloc, setup.contexts.as_slice(), kept.tenants.as_slice())?;
    Ok(Lists {
        tenants,
        users,
        forms,
        contexts,
    })
}

// The lists with others, each item at its place.
fn with_lists(lists: Lists, more: Lists) -> Result<Lists, Memory>
    requires { AreInOrder lists }
    ensures all { IfOk result (λ all. all ≡ lists_with lists more) }
    ensures order { IfOk result (λ all. AreInOrder all) }
{
    let tenants = with_all(lists.tenants, more.tenants)?;
    let users = with_all(lists.users, more.users)?;
    let forms = with_all(lists.forms, more.forms)?;
    let contexts = with_all(lists.contexts, more.contexts)?;
    Ok(Lists {
        tenants,
        users,
        forms,
        contexts,
    })
}

impl Registry {
    // Its lists.
    fn into_lists(self) -> Lists
        ensures all { result ≡ self.lists }
        ensures order { AreInOrder self.lists }
    {
        self.lists
    }

    /// The kept tenants whole, and those tenants of a setup that are not kept.
    pub fn of(setup: &Setup, kept: Registry) -> Result<Registry, Memory>
        ensures { IfOk result (λ all. all.lists ≡ joined_lists setup.now.lists kept.lists) }
    {
        let more = other_lists(&setup.lists, kept.lists())?;
        Ok(Registry::over(with_lists(kept.into_lists(), more)?))
    }
}

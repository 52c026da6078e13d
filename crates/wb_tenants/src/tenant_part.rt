//! A tenant's part of a registry, as a registry of its own.
ghost use Rattle.std.specs.Prelude.{◌≡◌, ◌==◌, ◌++◌, ◌∷◌, [], filter, IfOk, OnOk};
ghost use Rattle.wb_model.specs.Openings.{registry_of};
ghost use Rattle.wb_tenants.specs.Owned.{own_lists};
ghost use Rattle.wb_tenants.specs.Sets.{HasTenant};

use crate::Registry;
use crate::joined::Added;
use std::alloc::Global;
use wb_base::{Memory, Tenant};
use wb_list::Items;
use wb_model::Lists;

// Adds a copy of an item that is the tenant's.
fn add_own<T: Added>(own: &mut Items<T>, item: &T, tenant: Tenant) -> Result<(), Memory>
    ensures { OnOk result (own.new ≡ own.old ++ filter (λ x. T.owner x == tenant) (item.now ∷ [])) }
{
    if item.owner().id() == tenant.id() {
        own.push(item.once_more()?)?;
    }
    Ok(())
}

// Copies of those items that are the tenant's.
fn copies<T: Added>(alloc: Global, items: &[T], tenant: Tenant) -> Result<Items<T>, Memory>
    ensures { IfOk result (λ own. own ≡ filter (λ x. T.owner x == tenant) items.now) }
{
    let mut own = Items::new(alloc);
    for item in items {
        add_own(&mut own, item, tenant)?;
    }
    Ok(own)
}

impl Registry {
    /// What it has of a tenant, as a registry of its own.
    pub fn part(&self, tenant: Tenant) -> Result<Registry, Memory>
        ensures own { IfOk result (λ own. own.lists ≡ own_lists tenant self.now.lists) }
        ensures same { IfOk result (λ own. registry_of own.lists tenant ≡ registry_of self.now.lists tenant) }
        ensures there { HasTenant self.now.lists tenant → IfOk result (λ own. HasTenant own.lists tenant) }
    {
        let alloc = self.allocator();
        let lists = self.lists();
        let tenants = copies(alloc, lists.tenants.as_slice(), tenant)?;
        let users = copies(alloc, lists.users.as_slice(), tenant)?;
        let forms = copies(alloc, lists.forms.as_slice(), tenant)?;
        let contexts = copies(alloc, lists.contexts.as_slice(), tenant)?;
        Ok(Registry::over(Lists {
            tenants,
            users,
            forms,
            contexts,
        }))
    }
}

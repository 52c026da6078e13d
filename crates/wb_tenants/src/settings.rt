//! Setting a tenant's name, days of notice and quota.
ghost use Rattle.std.specs.Prelude.{◌≡◌, true, find, is_some, IfOk, IfErr, IsOk};
ghost use Rattle.std.specs.Ordering.{nat_cmp};
ghost use Rattle.wb_list.specs.Keyed.{IsAscending, IsPlace, insert_item};
ghost use Rattle.wb_model.specs.Openings.{registry_of};
ghost use Rattle.wb_model.specs.Rows.{row, settings_data};
ghost use Rattle.wb_setup.specs.Keys.{tenant_key};
ghost use Rattle.wb_tenants.specs.Sets.{HasTenant, is_tenant, settings_in, set_tenant, with_settings};

use crate::Registry;
use crate::copies::copy_settings;
use crate::joined::Added;
use std::mem;
use wb_base::{Memory, Row, Tenant};
use wb_list::Items;
use wb_model::{AdminFault, SettingsSet, TenantItem};
use wb_row_codec::settings_row;
use wb_setup::place;

// Sets new settings of a tenant.
fn set_item(item: &mut TenantItem, next: SettingsSet)
    ensures { item.new ≡ set_tenant next item.old }
{
    item.name = next.name;
    item.notice_days = next.notice_days;
    item.quota = next.quota;
}

// Sets new settings of the tenant that is listed at a place.
fn set_at(items: &mut Vec<TenantItem>, tenant: Tenant, at: usize, next: SettingsSet)
    requires order { IsAscending nat_cmp tenant_key items.old.items }
    requires place { IsPlace nat_cmp tenant_key items.old.items tenant at }
    ensures { items.new.items ≡ insert_item nat_cmp tenant_key items.old.items (set_tenant next (settings_in items.old.items tenant)) }
{
    set_item(&mut items[at], next);
}

// Sets new settings of a tenant that is listed.
fn set_listed(list: &mut Items<TenantItem>, tenant: Tenant, next: SettingsSet)
    requires order { IsAscending nat_cmp tenant_key list.old }
    requires there { is_some (find (is_tenant tenant) list.old) ≡ true }
    ensures { list.new ≡ insert_item nat_cmp tenant_key list.old (set_tenant next (settings_in list.old tenant)) }
{
    let alloc = list.allocator();
    let mut items = mem::replace(list, Items::new(alloc)).into_vec();
    match place(items.as_slice(), &tenant) {
        Ok(at) => set_at(&mut items, tenant, at, next),
        Err(_) => unreachable!(),
    }
    *list = Items::of(items);
}

impl Registry {
    // The tenant as it will be set.
    fn settings_item(&self, tenant: Tenant, next: SettingsSet) -> Result<TenantItem, Memory>
        requires { HasTenant self.now.lists tenant }
        ensures { IfOk result (λ item. item ≡ set_tenant next (registry_of self.now.lists tenant).settings) }
    {
        match self.tenant(tenant) {
            Some(kept) => {
                let mut item = kept.once_more()?;
                set_item(&mut item, next);
                Ok(item)
            }
            None => unreachable!(),
        }
    }

    // The row that the settings will have.
    fn planned_settings(&self, tenant: Tenant, next: &SettingsSet) -> Result<Row, Memory>
        requires { HasTenant self.now.lists tenant }
        ensures { IfOk result (λ kept. kept ≡ row 1 (set_tenant next.now (registry_of self.now.lists tenant).settings).tenant 0 0 (settings_data (set_tenant next.now (registry_of self.now.lists tenant).settings))) }
    {
        let item = self.settings_item(tenant, copy_settings(next)?)?;
        settings_row(self.allocator(), &item)
    }

    /// The row that the settings of a tenant will have once these are set. The lists stay as they are.
    pub fn plan_settings(&mut self, tenant: Tenant, next: &SettingsSet) -> Result<Row, AdminFault>
        requires { HasTenant self.old.lists tenant }
        ensures lists { self.new.lists ≡ self.old.lists }
        ensures row { IfOk result (λ kept. kept ≡ row 1 (set_tenant next.now (registry_of self.old.lists tenant).settings).tenant 0 0 (settings_data (set_tenant next.now (registry_of self.old.lists tenant).settings))) }
        ensures fault { IfErr result (λ fault. fault ≡ AdminFault.Memory) }
    {
        match self.planned_settings(tenant, next) {
            Ok(row) => Ok(row),
            Err(_) => Err(AdminFault::Memory),
        }
    }

    /// Sets new settings of a tenant, in their place. It takes no memory.
    pub fn set_settings(&mut self, tenant: Tenant, next: SettingsSet) -> Result<(), AdminFault>
        requires { HasTenant self.old.lists tenant }
        ensures set { self.new.lists ≡ with_settings tenant next self.old.lists }
        ensures ok { IsOk result }
    {
        set_listed(&mut self.lists.tenants, tenant, next);
        Ok(())
    }
}

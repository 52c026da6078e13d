//! What a tenant is set up with.
ghost use Rattle.std.specs.Prelude.{◌≡◌, ◌≢◌, Some, None, Err, IfOk, IfErr, OnOk};
ghost use Rattle.std.specs.Option.{option_copied};
ghost use Rattle.wb_model.specs.Openings.{registry_of};
ghost use Rattle.wb_model.specs.Tables.{user as user_by, user_named as user_called, context as context_by, newest_form as newest_form_by, disablings as disablings_of};
ghost use Rattle.wb_model.specs.Settings.{configured};
ghost use Rattle.wb_tables.specs.Configured.{IsReadyToSet, IsSoundProposal, fault_of, row_of, setting_of};
ghost use Rattle.wb_tenants.specs.Sets.{HasTenant, version_of};

use crate::proposal::Proposal;
use std::marker::Model;
use wb_base::{Row, Tenant, Text, UserId};
use wb_model::{AdminFault, ContextItem, FormItem, TenantItem, UserItem};
use wb_tenants::{
    Registry, a_context_is_set_in_its_tenant_alone, a_form_is_set_in_its_tenant_alone,
    a_user_is_set_in_its_tenant_alone, settings_are_set_in_their_tenant_alone,
};

/// The registry of one tenant, seen as what the tenant is set up with.
#[derive(Drop)]
pub struct Configuration {
    tenant: Tenant,
    registry: Registry,
}

impl Model for Configuration {
    ghost use Rattle.wb_model.specs.Openings.{registry_of};
    ghost use Rattle.wb_tables.specs.Configured.{Configured};
    ghost use Rattle.wb_tenants.specs.Sets.{HasTenant};

    ghost Value = { Configured };

    ghost view = { λ c. record { tenant = c.tenant; lists = c.registry.lists; registry = registry_of c.registry.lists c.tenant; users = c.registry.users; forms = c.registry.forms; contexts = c.registry.contexts } };

    ghost invariant = { λ c. HasTenant c.registry.lists c.tenant };
}

impl Configuration {
    /// What a tenant is set up with, of a registry that has it. It takes no memory.
    pub fn of(registry: Registry, tenant: Tenant) -> Configuration
        requires { HasTenant registry.lists tenant }
        ensures tenant { result.tenant ≡ tenant }
        ensures registry { result.registry ≡ registry_of registry.lists tenant }
    {
        Configuration { tenant, registry }
    }

    /// The tenant.
    pub fn tenant(&self) -> Tenant
        ensures { result ≡ self.now.tenant }
    {
        self.tenant
    }

    /// The registry that it is of.
    pub fn registry(&self) -> &Registry
        ensures lists { result.now.lists ≡ self.now.lists }
        ensures registry { registry_of result.now.lists self.now.tenant ≡ self.now.registry }
        ensures there { HasTenant result.now.lists self.now.tenant }
    {
        &self.registry
    }

    /// The tenant's settings.
    pub fn settings(&self) -> &TenantItem
        ensures { result.now ≡ self.now.registry.settings }
    {
        match self.registry.tenant(self.tenant) {
            Some(item) => item,
            None => unreachable!(),
        }
    }

    /// A user. It takes no memory, as all look-ups.
    pub fn user(&self, id: UserId) -> Option<&UserItem>
        ensures { option_copied result ≡ user_by id self.now.registry.users }
    {
        self.registry.user(self.tenant, id)
    }

    /// The user of a name.
    pub fn user_named(&self, name: &Text) -> Option<&UserItem>
        ensures { option_copied result ≡ user_called name.now self.now.registry.users }
    {
        self.registry.user_named(self.tenant, name)
    }

    /// How often a user was disabled.
    pub fn disablings(&self, id: UserId) -> u32
        ensures { result ≡ disablings_of id self.now.registry.users }
    {
        match self.user(id) {
            Some(user) => user.disabled,
            None => 0,
        }
    }

    /// A context.
    pub fn context(&self, id: u32) -> Option<&ContextItem>
        ensures { option_copied result ≡ context_by id self.now.registry.contexts }
    {
        self.registry.context(self.tenant, id)
    }

    /// A version of a form.
    pub fn form(&self, id: u32, version: u32) -> Option<&FormItem>
        ensures { option_copied result ≡ version_of id version self.now.registry.forms }
    {
        self.registry.form(self.tenant, id, version)
    }

    /// A form in its newest version.
    pub fn newest_form(&self, id: u32) -> Option<&FormItem>
        ensures { option_copied result ≡ newest_form_by id self.now.registry.forms }
    {
        self.registry.newest_form(self.tenant, id)
    }

    /// The row that what is asked to be set will have, with the room for it, or the first rule that refuses it. What the
    /// tenant is set up with stays as it is.
    pub fn plan(&mut self, next: &Proposal) -> Result<Row, AdminFault>
        requires sound { IsSoundProposal next.now }
        ensures tenant { self.new.tenant ≡ self.old.tenant }
        ensures registry { self.new.registry ≡ self.old.registry }
        ensures fault { IfErr result (λ fault. fault ≢ AdminFault.Memory → fault_of self.old.registry next.now ≡ Some fault) }
        ensures wants { result ≡ Err AdminFault.Memory → fault_of self.old.registry next.now ≡ None }
        ensures row { IfOk result (λ kept. kept ≡ row_of self.old.tenant self.old.registry next.now) }
        ensures ready { OnOk result (IsReadyToSet self.new next.now) }
    {
        match next {
            Proposal::ToTenant(next) => self.registry.plan_settings(self.tenant, next),
            Proposal::ToUser(id, next) => self.registry.plan_user(self.tenant, *id, next),
            Proposal::ToContext(id, next) => self.registry.plan_context(self.tenant, *id, next),
            Proposal::ToForm(id, form) => self.registry.plan_form(self.tenant, *id, form),
        }
    }

    /// Sets what was asked and planned. It takes no memory and cannot fail.
    pub fn set(&mut self, next: Proposal)
        requires ready { IsReadyToSet self.old next }
        ensures tenant { self.new.tenant ≡ self.old.tenant }
        ensures registry { self.new.registry ≡ configured (setting_of self.old.tenant self.old.registry next) self.old.registry }
    {
        let _in_order = self.registry.lists();
        let tenant = self.tenant;
        match next {
            Proposal::ToTenant(next) => {
                settings_are_set_in_their_tenant_alone();
                self.registry.set_settings(tenant, next).unwrap();
            }
            Proposal::ToUser(id, next) => {
                a_user_is_set_in_its_tenant_alone();
                self.registry.set_user(tenant, id, next).unwrap();
            }
            Proposal::ToContext(id, next) => {
                a_context_is_set_in_its_tenant_alone();
                self.registry.set_context(tenant, id, next).unwrap();
            }
            Proposal::ToForm(id, form) => {
                a_form_is_set_in_its_tenant_alone();
                self.registry.set_form(tenant, id, form).unwrap();
            }
        }
    }
}

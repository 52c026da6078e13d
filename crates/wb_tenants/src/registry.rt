//! The registry: the tenants of a host, with their users, forms and contexts.
ghost use Rattle.std.specs.Prelude.{◌≡◌, find, option_and_then};
ghost use Rattle.std.specs.Option.{option_copied};
ghost use Rattle.wb_base.specs.FormShape.{keep};
ghost use Rattle.wb_model.specs.Openings.{registry_of};
ghost use Rattle.wb_model.specs.Tables.{user as user_in, user_named as user_named_in, context as context_in, newest_form as newest_form_in};
ghost use Rattle.wb_setup.specs.Keys.{AreInOrder};
ghost use Rattle.wb_tenants.specs.Sets.{is_tenant, is_version, version_of};

use crate::owned::part;
use crate::spare::Spare;
use std::alloc::Global;
use std::marker::Model;
use wb_base::{Tenant, Text, UserId};
use wb_model::{ContextItem, FormItem, Lists, TenantItem, UserItem};
use wb_setup::{find_in, form_place};

/// The tenants of a host, seen as their lists and the room that these have for more.
#[derive(Drop)]
pub struct Registry {
    pub(crate) lists: Lists,
    pub(crate) more_users: Spare<UserItem>,
    pub(crate) more_forms: Spare<FormItem>,
    pub(crate) more_contexts: Spare<ContextItem>,
}

impl Model for Registry {
    ghost use Rattle.std.specs.Prelude.{◌-◌, length};
    ghost use Rattle.wb_setup.specs.Keys.{AreInOrder};
    ghost use Rattle.wb_tenants.specs.Sets.{Roomed};

    ghost Value = { Roomed };

    ghost view = { λ r. record { lists = r.lists; users = r.more_users - length r.lists.users; forms = r.more_forms - length r.lists.forms; contexts = r.more_contexts - length r.lists.contexts } };

    ghost invariant = { λ r. AreInOrder r.lists };
}

impl Registry {
    /// The registry of these lists, each of which is in the order of its keys. It takes no memory.
    pub fn over(lists: Lists) -> Registry
        requires { AreInOrder lists }
        ensures { result.lists ≡ lists }
    {
        let alloc = lists.tenants.allocator();
        Registry {
            lists,
            more_users: Spare::new(alloc),
            more_forms: Spare::new(alloc),
            more_contexts: Spare::new(alloc),
        }
    }

    /// Its lists. It takes no memory.
    pub fn lists(&self) -> &Lists
        ensures all { result.now ≡ self.now.lists }
        ensures order { AreInOrder self.now.lists }
    {
        &self.lists
    }

    // The allocator that its lists were made with.
    pub(crate) fn allocator(&self) -> Global {
        self.lists.tenants.allocator()
    }

    /// A tenant. It takes no memory, as all look-ups.
    pub fn tenant(&self, tenant: Tenant) -> Option<&TenantItem>
        ensures { option_copied result ≡ find (is_tenant tenant) self.now.lists.tenants }
    {
        find_in(self.lists.tenants.as_slice(), &tenant)
    }

    /// A user of a tenant.
    pub fn user(&self, tenant: Tenant, id: UserId) -> Option<&UserItem>
        ensures { option_copied result ≡ user_in id (registry_of self.now.lists tenant).users }
    {
        find_in(self.lists.users.as_slice(), &(tenant, id))
    }

    // The users of a tenant.
    pub(crate) fn users_of(&self, tenant: Tenant) -> &[UserItem]
        ensures { result.now ≡ (registry_of self.now.lists tenant).users }
    {
        part(self.lists.users.as_slice(), tenant)
    }

    /// The user of a tenant who has a name.
    pub fn user_named(&self, tenant: Tenant, name: &Text) -> Option<&UserItem>
        ensures { option_copied result ≡ user_named_in name.now (registry_of self.now.lists tenant).users }
    {
        self.users_of(tenant).iter().find(|user| user.name == *name)
    }

    /// A context of a tenant.
    pub fn context(&self, tenant: Tenant, id: u32) -> Option<&ContextItem>
        ensures { option_copied result ≡ context_in id (registry_of self.now.lists tenant).contexts }
    {
        find_in(self.lists.contexts.as_slice(), &(tenant, id))
    }

    /// A version of a form of a tenant.
    pub fn form(&self, tenant: Tenant, id: u32, version: u32) -> Option<&FormItem>
        ensures { option_copied result ≡ version_of id version (registry_of self.now.lists tenant).forms }
    {
        let key = (tenant, form_place(id, version));
        kept_version(find_in(self.lists.forms.as_slice(), &key), id, version)
    }

    // The forms of a tenant.
    fn forms_of(&self, tenant: Tenant) -> &[FormItem]
        ensures { result.now ≡ (registry_of self.now.lists tenant).forms }
    {
        part(self.lists.forms.as_slice(), tenant)
    }

    /// A form of a tenant in its newest version.
    pub fn newest_form(&self, tenant: Tenant, id: u32) -> Option<&FormItem>
        ensures { option_copied result ≡ newest_form_in id (registry_of self.now.lists tenant).forms }
    {
        newest(self.forms_of(tenant), id)
    }
}

// A form, where it is this version of this form.
fn kept_version(found: Option<&FormItem>, id: u32, version: u32) -> Option<&FormItem>
    ensures { option_copied result ≡ option_and_then (keep (is_version id version)) (option_copied found.entry) }
{
    match found {
        Some(item) => {
            if item.id == id && item.version == version {
                Some(item)
            } else {
                None
            }
        }
        None => None,
    }
}

// The last of these that is of a form.
fn newest(forms: &[FormItem], id: u32) -> Option<&FormItem>
    ensures { option_copied result ≡ newest_form_in id forms.now }
{
    let mut last = None;
    for form in forms {
        if form.id == id {
            last = Some(form);
        }
    }
    last
}

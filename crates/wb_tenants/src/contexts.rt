//! Setting a context, new or changed.
ghost use Rattle.std.specs.Prelude.{◌≡◌, ◌≢◌, ◌<◌, true, Some, None, Err, is_some, IsOk, IfOk, IfErr, OnOk, OnErr};
ghost use Rattle.std.specs.List.{list_all};
ghost use Rattle.wb_model.specs.Fits.{are_distinct};
ghost use Rattle.wb_model.specs.Openings.{registry_of};
ghost use Rattle.wb_model.specs.Rows.{row, context_data};
ghost use Rattle.wb_model.specs.Settings.{ascending, context_fault as context_fault_in, context_item as context_item_of, is_recipient as is_recipient_test};
ghost use Rattle.wb_model.specs.Tables.{newest_form as newest_form_in};
ghost use Rattle.wb_tenants.specs.Sets.{HasTenant, with_context};

use crate::Registry;
use crate::copies::copy_context;
use wb_base::{Memory, Role, Row, Tenant, UserId, limits};
use wb_list::Items;
use wb_model::{AdminFault, ContextItem, ContextSet};
use wb_row_codec::context_row;

// Distinct ids in their order. It takes no memory.
fn in_order(users: Items<UserId>) -> Items<UserId>
    requires { are_distinct users ≡ true }
    ensures { result ≡ ascending users }
{
    let mut users = users.into_vec();
    users.sort_unstable();
    Items::of(users)
}

// The context that is set.
fn context_item(tenant: Tenant, id: u32, next: ContextSet) -> ContextItem
    requires { are_distinct next.recipients ≡ true }
    ensures { result ≡ context_item_of tenant id next }
{
    let recipients = in_order(next.recipients);
    ContextItem {
        tenant,
        id,
        form: next.form,
        name: next.name,
        is_open: next.is_open,
        recipients,
        retention: next.retention,
    }
}

impl Registry {
    // Whether a user is a recipient.
    fn is_recipient(&self, tenant: Tenant, id: UserId) -> bool
        ensures { result ≡ is_recipient_test (registry_of self.now.lists tenant).users id }
    {
        match self.user(tenant, id) {
            Some(user) => user.role == Role::Recipient,
            None => false,
        }
    }

    // Whether each of these is a recipient.
    fn are_recipients(&self, tenant: Tenant, users: &[UserId]) -> bool
        ensures { result ≡ list_all (is_recipient_test (registry_of self.now.lists tenant).users) users.now }
    {
        users.iter().all(|user| self.is_recipient(tenant, *user))
    }

    // Whether a form is there.
    fn has_form(&self, tenant: Tenant, id: u32) -> bool
        ensures { result ≡ is_some (newest_form_in id (registry_of self.now.lists tenant).forms) }
    {
        self.newest_form(tenant, id).is_some()
    }

    // Why a context is not set.
    fn context_fault(&self, tenant: Tenant, id: u32, next: &ContextSet) -> Option<AdminFault>
        ensures fault { result ≡ context_fault_in (registry_of self.now.lists tenant) id next.now }
        ensures named { result ≢ Some AdminFault.Memory }
    {
        if 1 <= id
            && id <= limits::CONTEXTS
            && self.has_form(tenant, next.form)
            && self.are_recipients(tenant, next.recipients.as_slice())
        {
            None
        } else {
            Some(AdminFault::NotFound)
        }
    }

    // The row that the context will have, and the room for it.
    fn planned_context(&mut self, tenant: Tenant, id: u32, next: &ContextSet) -> Result<Row, Memory>
        requires { are_distinct next.now.recipients ≡ true }
        ensures lists { self.new.lists ≡ self.old.lists }
        ensures row { IfOk result (λ kept. kept ≡ row 5 tenant id 0 (context_data (context_item_of tenant id next.now))) }
        ensures room { OnOk result (0 < self.new.contexts) }
    {
        let item = context_item(tenant, id, copy_context(next)?);
        let row = context_row(self.allocator(), &item)?;
        self.more_contexts.reserve_over(self.lists.contexts.len())?;
        Ok(row)
    }

    /// The row that a context will have once it is set, and the room for it. The lists stay as they are.
    pub fn plan_context(
        &mut self,
        tenant: Tenant,
        id: u32,
        next: &ContextSet,
    ) -> Result<Row, AdminFault>
        requires tenant { HasTenant self.old.lists tenant }
        requires distinct { are_distinct next.now.recipients ≡ true }
        ensures lists { self.new.lists ≡ self.old.lists }
        ensures ok { OnOk result (context_fault_in (registry_of self.old.lists tenant) id next.now ≡ None) }
        ensures row { IfOk result (λ kept. kept ≡ row 5 tenant id 0 (context_data (context_item_of tenant id next.now))) }
        ensures room { OnOk result (0 < self.new.contexts) }
        ensures fault { IfErr result (λ fault. fault ≢ AdminFault.Memory → context_fault_in (registry_of self.old.lists tenant) id next.now ≡ Some fault) }
        ensures wants { result ≡ Err AdminFault.Memory → context_fault_in (registry_of self.old.lists tenant) id next.now ≡ None }
    {
        if let Some(fault) = self.context_fault(tenant, id, next) {
            return Err(fault);
        }
        match self.planned_context(tenant, id, next) {
            Ok(row) => Ok(row),
            Err(_) => Err(AdminFault::Memory),
        }
    }

    /// Sets a context, new or changed. Where `plan_context` was Ok and the registry is as it left it, this is Ok and takes no memory.
    pub fn set_context(
        &mut self,
        tenant: Tenant,
        id: u32,
        next: ContextSet,
    ) -> Result<(), AdminFault>
        requires tenant { HasTenant self.old.lists tenant }
        requires distinct { are_distinct next.recipients ≡ true }
        ensures ok { OnOk result (context_fault_in (registry_of self.old.lists tenant) id next ≡ None) }
        ensures set { OnOk result (self.new.lists ≡ with_context tenant id next self.old.lists) }
        ensures fault { IfErr result (λ fault. fault ≢ AdminFault.Memory → context_fault_in (registry_of self.old.lists tenant) id next ≡ Some fault) }
        ensures wants { result ≡ Err AdminFault.Memory → context_fault_in (registry_of self.old.lists tenant) id next ≡ None }
        ensures err { OnErr result (self.new.lists ≡ self.old.lists) }
        ensures planned { 0 < self.old.contexts → context_fault_in (registry_of self.old.lists tenant) id next ≡ None → IsOk result }
    {
        if let Some(fault) = self.context_fault(tenant, id, &next) {
            return Err(fault);
        }
        if self
            .more_contexts
            .reserve_over(self.lists.contexts.len())
            .is_err()
        {
            return Err(AdminFault::Memory);
        }
        let item = context_item(tenant, id, next);
        self.more_contexts.put_in(&mut self.lists.contexts, item);
        Ok(())
    }
}

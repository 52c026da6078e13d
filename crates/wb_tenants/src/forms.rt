//! Setting one more version of a form.
ghost use Rattle.std.specs.Prelude.{◌≡◌, ◌≢◌, ◌<◌, Some, None, Err, IsOk, IfOk, IfErr, OnOk, OnErr};
ghost use Rattle.std.specs.Option.{option_map_or};
ghost use Rattle.wb_base.specs.FormJson.{kept_data};
ghost use Rattle.wb_model.specs.Openings.{registry_of};
ghost use Rattle.wb_model.specs.Rows.{row};
ghost use Rattle.wb_model.specs.Settings.{form_fault as form_fault_in, form_item as form_item_of, next_version};
ghost use Rattle.wb_model.specs.Tables.{newest_form as newest_form_in};
ghost use Rattle.wb_tenants.specs.Sets.{HasTenant, with_form};

use crate::Registry;
use wb_base::{Form, Format, Memory, Row, Tenant, limits};
use wb_model::{AdminFault, FormItem};
use wb_row_codec::form_row;

impl Registry {
    // The number of the newest version of a form, 0 where there is none.
    fn newest_version(&self, tenant: Tenant, id: u32) -> u32
        ensures { result ≡ option_map_or (λ x. x.version) (newest_form_in id (registry_of self.now.lists tenant).forms) 0 }
    {
        match self.newest_form(tenant, id) {
            Some(form) => form.version,
            None => 0,
        }
    }

    // Why one more version of a form is not set.
    fn form_fault(&self, tenant: Tenant, id: u32) -> Option<AdminFault>
        ensures fault { result ≡ form_fault_in (registry_of self.now.lists tenant).forms id }
        ensures named { result ≢ Some AdminFault.Memory }
    {
        if id < 1 || limits::FORMS < id {
            return Some(AdminFault::NotFound);
        }
        if limits::VERSIONS <= self.newest_version(tenant, id) {
            return Some(AdminFault::Full);
        }
        None
    }

    // The version that is set.
    fn form_item(&self, tenant: Tenant, id: u32, next: Form) -> FormItem
        requires { form_fault_in (registry_of self.now.lists tenant).forms id ≡ None }
        ensures { result ≡ form_item_of tenant id (registry_of self.now.lists tenant).forms next }
    {
        let version = self.newest_version(tenant, id) + 1;
        FormItem {
            tenant,
            id,
            version,
            form: next,
        }
    }

    // The row that the version will have, and the room for it.
    fn planned_form(&mut self, tenant: Tenant, id: u32, next: &Form) -> Result<Row, Memory>
        requires { form_fault_in (registry_of self.old.lists tenant).forms id ≡ None }
        ensures lists { self.new.lists ≡ self.old.lists }
        ensures row { IfOk result (λ kept. kept ≡ row 4 tenant id (next_version id (registry_of self.old.lists tenant).forms) (kept_data next.now)) }
        ensures room { OnOk result (0 < self.new.forms) }
    {
        let version = self.newest_version(tenant, id) + 1;
        let row = form_row(self.allocator(), Format::Weighed, tenant, id, version, next)?;
        self.more_forms.reserve_over(self.lists.forms.len())?;
        Ok(row)
    }

    /// The row that one more version of a form will have once it is set, and the room for it. The lists stay as they are.
    pub fn plan_form(&mut self, tenant: Tenant, id: u32, next: &Form) -> Result<Row, AdminFault>
        requires { HasTenant self.old.lists tenant }
        ensures lists { self.new.lists ≡ self.old.lists }
        ensures ok { OnOk result (form_fault_in (registry_of self.old.lists tenant).forms id ≡ None) }
        ensures row { IfOk result (λ kept. kept ≡ row 4 tenant id (next_version id (registry_of self.old.lists tenant).forms) (kept_data next.now)) }
        ensures room { OnOk result (0 < self.new.forms) }
        ensures fault { IfErr result (λ fault. fault ≢ AdminFault.Memory → form_fault_in (registry_of self.old.lists tenant).forms id ≡ Some fault) }
        ensures wants { result ≡ Err AdminFault.Memory → form_fault_in (registry_of self.old.lists tenant).forms id ≡ None }
    {
        if let Some(fault) = self.form_fault(tenant, id) {
            return Err(fault);
        }
        match self.planned_form(tenant, id, next) {
            Ok(row) => Ok(row),
            Err(_) => Err(AdminFault::Memory),
        }
    }

    /// Sets one more version of a form. Where `plan_form` was Ok and the registry is as it left it, this is Ok and takes no memory.
    pub fn set_form(&mut self, tenant: Tenant, id: u32, next: Form) -> Result<(), AdminFault>
        requires { HasTenant self.old.lists tenant }
        ensures ok { OnOk result (form_fault_in (registry_of self.old.lists tenant).forms id ≡ None) }
        ensures set { OnOk result (self.new.lists ≡ with_form tenant id next self.old.lists) }
        ensures fault { IfErr result (λ fault. fault ≢ AdminFault.Memory → form_fault_in (registry_of self.old.lists tenant).forms id ≡ Some fault) }
        ensures wants { result ≡ Err AdminFault.Memory → form_fault_in (registry_of self.old.lists tenant).forms id ≡ None }
        ensures err { OnErr result (self.new.lists ≡ self.old.lists) }
        ensures planned { 0 < self.old.forms → form_fault_in (registry_of self.old.lists tenant).forms id ≡ None → IsOk result }
    {
        if let Some(fault) = self.form_fault(tenant, id) {
            return Err(fault);
        }
        if self
            .more_forms
            .reserve_over(self.lists.forms.len())
            .is_err()
        {
            return Err(AdminFault::Memory);
        }
        let item = self.form_item(tenant, id, next);
        self.more_forms.put_in(&mut self.lists.forms, item);
        Ok(())
    }
}

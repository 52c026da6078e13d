//! Setting a user, new or changed.
ghost use Rattle.std.specs.Prelude.{◌≡◌, ◌≢◌, ◌<◌, ◌+◌, ◌==◌, ◌&&◌, ◌||◌, is_some, if◌then◌else◌, find, nat_le, not, false, Some, None, Err, IsOk, IfOk, IfErr, OnOk, OnErr};
ghost use Rattle.std.specs.Option.{option_copied, option_or};
ghost use Rattle.wb_base.specs.AnswerList.{is_text};
ghost use Rattle.wb_model.specs.Openings.{registry_of};
ghost use Rattle.wb_model.specs.Refusing.{refuses_where};
ghost use Rattle.wb_model.specs.Rows.{row, user_data};
ghost use Rattle.wb_model.specs.Settings.{disables, times_disabled, password_digest, role_fixed, user_fault as user_fault_in, user_item as user_item_of};
ghost use Rattle.wb_tenants.specs.Sets.{HasTenant, set_user as user_set, with_user};

use crate::Registry;
use crate::copies::copy_user;
use wb_access::digest;
use wb_base::{Digest, Memory, Row, Salt, Tenant, Text, UserId, limits};
use wb_model::{AdminFault, UserItem, UserSet};
use wb_row_codec::user_row;

// Another of these users who has the name.
fn other_named<'a>(users: &'a [UserItem], id: UserId, next: &UserSet) -> Option<&'a UserItem>
    ensures { option_copied result ≡ find (λ x. is_text x.name next.now.name && not (x.id == id)) users.now }
{
    for user in users {
        if user.name == next.name && user.id.id() != id.id() {
            return Some(user);
        }
    }
    None
}

// Whether the user has a password, kept or new.
fn has_password(before: Option<&UserItem>, next: &UserSet) -> bool
    ensures { result ≡ (is_some (option_copied before.entry) || is_some next.now.password) }
{
    before.is_some() || next.password.is_some()
}

// The fault of a role that would change, or of one disabling too many.
fn last_fault(before: Option<&UserItem>, next: &UserSet) -> Option<AdminFault>
    ensures fault { result ≡ option_or (role_fixed (option_copied before.entry) next.now) (refuses_where (disables (option_copied before.entry) next.now && nat_le 10_000 (times_disabled (option_copied before.entry))) AdminFault.Full) }
    ensures named { result ≢ Some AdminFault.Memory }
{
    let Some(user) = before else {
        return None;
    };
    if user.role != next.role {
        return Some(AdminFault::RoleFixed(user.role));
    }
    if user.enabled && !next.enabled && limits::DISABLINGS <= user.disabled {
        return Some(AdminFault::Full);
    }
    None
}

// The digest of the new password, or the one that was kept.
fn secret_after(salt: &Salt, before: Option<&UserItem>, password: &Option<Text>) -> Digest
    ensures { result ≡ password_digest salt.now (option_copied before.entry) password.now }
{
    match password {
        Some(password) => digest(salt, password.as_bytes()),
        None => match before {
            Some(user) => user.secret,
            None => digest(salt, &[]),
        },
    }
}

// How often the user was disabled, with this setting.
fn disabled_after(before: Option<&UserItem>, next: &UserSet) -> u32
    requires { disables (option_copied before) next.now && nat_le 10_000 (times_disabled (option_copied before)) ≡ false }
    ensures { result ≡ (if disables (option_copied before.entry) next.now then times_disabled (option_copied before.entry) + 1 else times_disabled (option_copied before.entry)) }
{
    match before {
        Some(user) => {
            if user.enabled && !next.enabled {
                user.disabled + 1
            } else {
                user.disabled
            }
        }
        None => 0,
    }
}

// The user that is set.
fn item_after(
    tenant: Tenant,
    id: UserId,
    salt: &Salt,
    before: Option<&UserItem>,
    next: UserSet,
) -> UserItem
    requires { disables (option_copied before) next && nat_le 10_000 (times_disabled (option_copied before)) ≡ false }
    ensures { result ≡ user_item_of tenant salt.now id (option_copied before.entry) next }
{
    let disabled = disabled_after(before, &next);
    let secret = secret_after(salt, before, &next.password);
    UserItem {
        tenant,
        id,
        disabled,
        enabled: next.enabled,
        may: next.may,
        name: next.name,
        role: next.role,
        secret,
    }
}

impl Registry {
    // Why a user is not set.
    fn user_fault(&self, tenant: Tenant, id: UserId, next: &UserSet) -> Option<AdminFault>
        ensures fault { result ≡ user_fault_in (registry_of self.now.lists tenant).users id next.now }
        ensures named { result ≢ Some AdminFault.Memory }
    {
        let _within = id.id();
        let before = self.user(tenant, id);
        if !has_password(before, next) {
            return Some(AdminFault::NoPassword);
        }
        match other_named(self.users_of(tenant), id, next) {
            Some(other) => Some(AdminFault::NameTaken(other.id)),
            None => last_fault(before, next),
        }
    }

    // The salt of a tenant that is there.
    fn salt(&self, tenant: Tenant) -> Salt
        requires { HasTenant self.now.lists tenant }
        ensures { result ≡ (registry_of self.now.lists tenant).settings.salt }
    {
        match self.tenant(tenant) {
            Some(item) => item.salt,
            None => unreachable!(),
        }
    }

    // The user that is set.
    fn user_item(&self, tenant: Tenant, id: UserId, next: UserSet) -> UserItem
        requires tenant { HasTenant self.now.lists tenant }
        requires fault { user_fault_in (registry_of self.now.lists tenant).users id next ≡ None }
        ensures { result ≡ user_set tenant id next self.now.lists }
    {
        let salt = self.salt(tenant);
        let before = self.user(tenant, id);
        item_after(tenant, id, &salt, before, next)
    }

    // The row that the user will have, and the room for the user.
    fn planned_user(&mut self, tenant: Tenant, id: UserId, next: &UserSet) -> Result<Row, Memory>
        requires tenant { HasTenant self.old.lists tenant }
        requires fault { user_fault_in (registry_of self.old.lists tenant).users id next.now ≡ None }
        ensures lists { self.new.lists ≡ self.old.lists }
        ensures row { IfOk result (λ kept. kept ≡ row 3 tenant id 0 (user_data (user_set tenant id next.now self.old.lists))) }
        ensures room { OnOk result (0 < self.new.users) }
    {
        let item = self.user_item(tenant, id, copy_user(next)?);
        let row = user_row(self.allocator(), &item)?;
        self.more_users.reserve_over(self.lists.users.len())?;
        Ok(row)
    }

    /// The row that a user will have once it is set, and the room for it. The lists stay as they are.
    pub fn plan_user(
        &mut self,
        tenant: Tenant,
        id: UserId,
        next: &UserSet,
    ) -> Result<Row, AdminFault>
        requires { HasTenant self.old.lists tenant }
        ensures lists { self.new.lists ≡ self.old.lists }
        ensures ok { OnOk result (user_fault_in (registry_of self.old.lists tenant).users id next.now ≡ None) }
        ensures row { IfOk result (λ kept. kept ≡ row 3 tenant id 0 (user_data (user_set tenant id next.now self.old.lists))) }
        ensures room { OnOk result (0 < self.new.users) }
        ensures fault { IfErr result (λ fault. fault ≢ AdminFault.Memory → user_fault_in (registry_of self.old.lists tenant).users id next.now ≡ Some fault) }
        ensures wants { result ≡ Err AdminFault.Memory → user_fault_in (registry_of self.old.lists tenant).users id next.now ≡ None }
    {
        if let Some(fault) = self.user_fault(tenant, id, next) {
            return Err(fault);
        }
        match self.planned_user(tenant, id, next) {
            Ok(row) => Ok(row),
            Err(_) => Err(AdminFault::Memory),
        }
    }

    /// Sets a user, new or changed. Where `plan_user` was Ok and the registry is as it left it, this is Ok and takes no memory.
    pub fn set_user(&mut self, tenant: Tenant, id: UserId, next: UserSet) -> Result<(), AdminFault>
        requires { HasTenant self.old.lists tenant }
        ensures ok { OnOk result (user_fault_in (registry_of self.old.lists tenant).users id next ≡ None) }
        ensures set { OnOk result (self.new.lists ≡ with_user tenant id next self.old.lists) }
        ensures fault { IfErr result (λ fault. fault ≢ AdminFault.Memory → user_fault_in (registry_of self.old.lists tenant).users id next ≡ Some fault) }
        ensures wants { result ≡ Err AdminFault.Memory → user_fault_in (registry_of self.old.lists tenant).users id next ≡ None }
        ensures err { OnErr result (self.new.lists ≡ self.old.lists) }
        ensures planned { 0 < self.old.users → user_fault_in (registry_of self.old.lists tenant).users id next ≡ None → IsOk result }
    {
        if let Some(fault) = self.user_fault(tenant, id, &next) {
            return Err(fault);
        }
        if self
            .more_users
            .reserve_over(self.lists.users.len())
            .is_err()
        {
            return Err(AdminFault::Memory);
        }
        let item = self.user_item(tenant, id, next);
        self.more_users.put_in(&mut self.lists.users, item);
        Ok(())
    }
}

//! Whom notices may be for.
ghost use Rattle.std.specs.Prelude.{◌≡◌, ◌==◌, ◌&&◌, filter, IfOk};
ghost use Rattle.wb_model.specs.Tables as tables;
ghost use Rattle.wb_model.specs.Openings.{registry_of};
ghost use Rattle.wb_notice.specs.Owed.{addressees as addressees_of};

use std::alloc::Global;
use wb_base::{Memory, Role, Tenant, UserId};
use wb_model::UserItem;
use wb_tenants::Registry;

/// An enabled user.
#[derive(Clone, Copy, Debug, PartialEq, Eq)]
pub struct Addressee {
    pub user: UserId,
    pub role: Role,
}

/// The users of a tenant who are enabled, among those of all tenants.
pub(crate) fn addressees(
    alloc: Global,
    users: &[UserItem],
    tenant: Tenant,
) -> Result<Vec<Addressee>, Memory>
    ensures { IfOk result (λ found. found.items ≡ addressees_of (filter (λ x. x.tenant == tenant) users.now)) }
{
    let mut found = Vec::new(alloc);
    for user in users {
        if user.tenant == tenant && user.enabled {
            found.push(Addressee {
                user: user.id,
                role: user.role,
            })?;
        }
    }
    Ok(found)
}

/// How often a user of a tenant was disabled.
pub(crate) fn disablings(registry: &Registry, tenant: Tenant, user: UserId) -> u32
    ensures { result ≡ tables.disablings user (registry_of registry.now.lists tenant).users }
{
    match registry.user(tenant, user) {
        Some(item) => item.disabled,
        None => 0,
    }
}

//! The requests for a report's identity, with the states that they have by now.
ghost use Rattle.std.specs.Prelude.{◌≡◌, ◌<◌, ◌≤◌, ◌++◌, length, Some, option_map, IfOk, OnOk};
ghost use Rattle.wb_model.specs.Access as access;
ghost use Rattle.wb_model.specs.Openings.{registry_of};
ghost use Rattle.wb_model.specs.Tables as tables;
ghost use Rattle.wb_model.specs.ViewRows as rows_of;
ghost use Rattle.wb_views.specs.Seen.{custodied_at};

use wb_base::{Memory, Number, Tenant, UserId};
use wb_custody::AccessDesk;
use wb_list::TryClone;
use wb_model::{Custodied, State};
use wb_tenants::Registry;

/// How often a user of a tenant was disabled.
pub(crate) fn disablings(registry: &Registry, tenant: Tenant, user: UserId) -> u32
    ensures { result ≡ tables.disablings user (registry_of registry.now.lists tenant).users }
{
    match registry.user(tenant, user) {
        Some(item) => item.disabled,
        None => 0,
    }
}

/// The state by now of the request of a number, counted from 1.
pub(crate) fn state_of(desk: &AccessDesk, registry: &Registry, tenant: Tenant, id: usize) -> State
    requires low { 0 < id }
    requires high { id ≤ length desk.now.items }
    ensures { option_map (λ r. access.state_now (tables.disablings r.by (registry_of registry.now.lists tenant).users) r)
        (access.request_at id desk.now.items) ≡ Some result }
{
    let by = desk.get(id).by;
    desk.state(id, disablings(registry, tenant, by))
}

// The row of the request of a number, counted from 1.
fn custodied(
    desk: &AccessDesk,
    registry: &Registry,
    tenant: Tenant,
    number: Number,
    id: usize,
) -> Result<Custodied, Memory>
    requires low { 0 < id }
    requires high { id ≤ length desk.now.items }
    requires few { length desk.now.items ≤ 100 }
    ensures { IfOk result (λ row.
        option_map (custodied_at (registry_of registry.now.lists tenant).users number id) (access.request_at id desk.now.items) ≡ Some row) }
{
    let request = desk.get(id);
    let state = state_of(desk, registry, tenant, id);
    Ok(Custodied {
        number: number.get(),
        id: id as u32,
        by: request.by,
        reason: request.reason.try_clone()?,
        state,
        effective: request.effective,
    })
}

/// Puts the requests of a report at the end, each with its number and the state that it has by now.
pub fn push_custodied(
    rows: &mut Vec<Custodied>,
    registry: &Registry,
    tenant: Tenant,
    number: Number,
    desk: &AccessDesk,
) -> Result<(), Memory>
    requires { length desk.now.items ≤ 100 }
    ensures { OnOk result (rows.new.items
        ≡ rows.old.items ++ rows_of.custodied (registry_of registry.now.lists tenant).users number desk.now.items) }
{
    for at in 0..desk.len() {
        rows.push(custodied(desk, registry, tenant, number, at + 1)?)?;
    }
    Ok(())
}

//! The reports that a purge drops.
ghost use Rattle.std.specs.Prelude.{◌≡◌, ◌≢◌, ◌++◌, ℕ, [], List, All, map, true, false, IfOk, OnOk, OnErr};
ghost use Rattle.wb_base.specs.KeptRows.{all_changed, IsGoodChange};
ghost use Rattle.wb_base.specs.declared.rows.Change.TheVariants.{DropReport};
ghost use Rattle.wb_custody.specs.declared.sealed.SealedItem.{SealedItem};
ghost use Rattle.wb_model.specs.Rows.{rows_of};
ghost use Rattle.wb_tables.specs.Dead.{has_dead, any_dead, AreDead, AreDropped};
ghost use Rattle.wb_tables.specs.Kept.{place_of, plain_of, tenancy_of, purged_tenancy};
ghost use Rattle.wb_tables.specs.Places.{IsLookedUp, ArePlaces};

use crate::reports::today_at;
use crate::tenancy::Tenancy;
use std::alloc::Global;
use wb_base::{Change, Memory, Moment, Number, Tenant};

// The numbers of a tenant's reports that are not live at a time. It takes no memory where there are none.
fn dead_numbers(tenancy: &Tenancy, time: Moment) -> Result<Vec<Number>, Memory>
    requires place { IsLookedUp (plain_of tenancy.now) }
    ensures dead { IfOk result (λ numbers. AreDead time (plain_of tenancy.now) numbers.items) }
    ensures err { OnErr result (has_dead time (plain_of tenancy.now) ≡ true) }
{
    tenancy.cases.expired(today_at(tenancy, time))
}

// The reports of these numbers are to be dropped.
fn push_drops(batch: &mut Vec<Change>, tenant: Tenant, numbers: &[Number]) -> Result<(), Memory>
    ensures ok { OnOk result (batch.new.items ≡ batch.old.items ++ map (λ n. DropReport tenant n) numbers.now) }
    ensures err { OnErr result (numbers.now ≢ []) }
{
    for number in numbers {
        batch.push(Change::DropReport(tenant, *number))?;
    }
    Ok(())
}

// The reports of a tenant that are not live at a time are to be dropped.
fn push_tenant(batch: &mut Vec<Change>, tenancy: &Tenancy, time: Moment) -> Result<(), Memory>
    requires place { IsLookedUp (plain_of tenancy.now) }
    ensures ok { OnOk result (AreDropped time (place_of tenancy.now) batch.old.items batch.new.items) }
    ensures err { OnErr result (has_dead time (plain_of tenancy.now) ≡ true) }
{
    let numbers = dead_numbers(tenancy, time)?;
    push_drops(batch, tenancy.configuration.tenant(), numbers.as_slice())
}

/// What a purge of all tenants drops of the kept rows. It takes no memory where all reports are live.
pub fn dead_batch(alloc: Global, tenancies: &[Tenancy], time: Moment) -> Result<Vec<Change>, Memory>
    requires places { (turns : ℕ) × (items : List SealedItem) × ArePlaces turns 0 items (map place_of tenancies.now) }
    ensures rows { IfOk result (λ batch. (items : List SealedItem) → all_changed (rows_of (map (tenancy_of items) (map place_of tenancies.now))) batch.items
        ≡ rows_of (map (purged_tenancy time) (map (tenancy_of items) (map place_of tenancies.now)))) }
    ensures good { IfOk result (λ batch. All IsGoodChange batch.items) }
    ensures none { IfOk result (λ batch. any_dead time (map place_of tenancies.now) ≡ false → batch.items ≡ []) }
    ensures err { OnErr result (any_dead time (map place_of tenancies.now) ≡ true) }
{
    let mut batch = Vec::new(alloc);
    for tenancy in tenancies {
        push_tenant(&mut batch, tenancy, time)?;
    }
    Ok(batch)
}

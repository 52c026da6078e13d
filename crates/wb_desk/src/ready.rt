//! A turn that is ready to be made: it is planned, what it has to keep is written, and all memory is taken.
ghost use Rattle.std.specs.Prelude.{◌≡◌, ◌<◌, ℕ, List, [], true, map, length, slice_index_or, IfOk, OnErr};
ghost use Rattle.wb_custody.specs.declared.sealed.SealedItem.{SealedItem};
ghost use Rattle.wb_model.specs.Commands.{tenant_of as tenant_of_command, fits};
ghost use Rattle.wb_model.specs.Host.{purged};
ghost use Rattle.wb_model.specs.Tenants.{without_tenant as told_without};
ghost use Rattle.wb_commands.specs.Plans.{IsRoomyFor};
ghost use Rattle.wb_tables.specs.Dead.{any_dead};
ghost use Rattle.wb_tables.specs.Kept.{place_of};
ghost use Rattle.wb_tables.specs.Places.{ArePlaces, IsAt};
ghost use Rattle.wb_tables.specs.declared.tenancy.Tenancy.{Tenancy as KeptTenancy};
ghost use Rattle.wb_commands.specs.Puts.{puts_of};
ghost use Rattle.wb_desk.specs.Puts.{IsBatch};
ghost use Rattle.wb_desk.specs.Turns.{PlansTurnOf};

use crate::turning::plan_turn;
use std::alloc::Global;
use wb_base::{Change, Memory, Moment};
use wb_commands::{Mutation, TurnPlan};
use wb_custody::SealedTable;
use wb_model::{Asked, Told};
use wb_queries::without_tenant;
use wb_tables::{Tenancy, TurnContext, dead_batch};

/// A turn that is planned, for which there is room, and what it has to keep.
#[derive(Drop)]
pub struct Batched {
    pub plan: TurnPlan,
    pub batch: Vec<Change>,
}

/// What is told without a tenant, and what the turn has to keep.
#[derive(Drop)]
pub struct Unnamed {
    pub told: Told,
    pub batch: Vec<Change>,
}

// Plans the turn of the tenant at a place over the purged tables, and makes room for it. The tables stay.
fn ready_at(
    alloc: Global,
    tenancies: &mut [Tenancy],
    place: usize,
    sealed: &mut SealedTable,
    at: &TurnContext,
    asked: &Asked,
) -> Result<TurnPlan, Memory>
    requires places { (turns : ℕ) × (turns < at.now.turn) × ArePlaces turns 0 sealed.old.items (map place_of tenancies.old) }
    requires place { IsAt (tenant_of_command asked.now.command) tenancies.old place }
    requires fits { fits asked.now ≡ true }
    ensures plan { IfOk result (λ plan. (d : KeptTenancy) → PlansTurnOf (slice_index_or tenancies.old place d) sealed.old.items at.now asked.now plan) }
    ensures room { IfOk result (λ plan. (d : KeptTenancy) → IsRoomyFor at.now.time (slice_index_or tenancies.new place d) sealed.new.spare plan.change) }
    ensures tenants_left { map place_of tenancies.new ≡ map place_of tenancies.old }
    ensures sealed_left { sealed.new.items ≡ sealed.old.items }
{
    let tenancy = &mut tenancies[place];
    plan_turn(alloc, tenancy, sealed, at, asked)
}

// What the turn of the tenant at a place has to keep: what all tenants purge, and what its change puts.
fn batch_at(
    alloc: Global,
    tenancies: &[Tenancy],
    place: usize,
    time: Moment,
    change: &Mutation,
) -> Result<Vec<Change>, Memory>
    requires places { (turns : ℕ) × (items : List SealedItem) × ArePlaces turns 0 items (map place_of tenancies.now) }
    requires within { place < length tenancies.now }
    requires room { (spare : ℕ) × ((d : KeptTenancy) → IsRoomyFor time (slice_index_or tenancies.now place d) spare change.now) }
    ensures { IfOk result (λ batch. (d : KeptTenancy) → IsBatch time (map place_of tenancies.now) (puts_of (place_of (slice_index_or tenancies.now place d)) change.now) batch.items) }
{
    let mut batch = dead_batch(alloc, tenancies, time)?;
    change.rows(alloc, &mut batch, &tenancies[place])?;
    Ok(batch)
}

/// Makes the turn of the tenant at a place ready, with what it has to keep.
pub fn prepare_at(
    alloc: Global,
    tenancies: &mut [Tenancy],
    place: usize,
    sealed: &mut SealedTable,
    at: &TurnContext,
    asked: &Asked,
) -> Result<Batched, Memory>
    requires places { (turns : ℕ) × (turns < at.now.turn) × ArePlaces turns 0 sealed.old.items (map place_of tenancies.old) }
    requires place { IsAt (tenant_of_command asked.now.command) tenancies.old place }
    requires fits { fits asked.now ≡ true }
    ensures plan { IfOk result (λ b. (d : KeptTenancy) → PlansTurnOf (slice_index_or tenancies.old place d) sealed.old.items at.now asked.now b.plan) }
    ensures room { IfOk result (λ b. (d : KeptTenancy) → IsRoomyFor at.now.time (slice_index_or tenancies.new place d) sealed.new.spare b.plan.change) }
    ensures batch { IfOk result (λ b. (d : KeptTenancy) → IsBatch at.now.time (map place_of tenancies.new) (puts_of (place_of (slice_index_or tenancies.new place d)) b.plan.change) b.batch.items) }
    ensures tenants_left { map place_of tenancies.new ≡ map place_of tenancies.old }
    ensures sealed_left { sealed.new.items ≡ sealed.old.items }
{
    let plan = ready_at(alloc, tenancies, place, sealed, at, asked)?;
    let batch = batch_at(alloc, tenancies, place, at.time, &plan.change)?;
    Ok(Batched { plan, batch })
}

/// Makes a turn ready that names no tenant that is there: all tenants purge.
pub fn prepare_without(
    alloc: Global,
    tenancies: &[Tenancy],
    t: u32,
    time: Moment,
) -> Result<Unnamed, Memory>
    requires places { (turns : ℕ) × (items : List SealedItem) × ArePlaces turns 0 items (map place_of tenancies.now) }
    ensures told { IfOk result (λ u. u.told ≡ told_without t) }
    ensures batch { IfOk result (λ u. IsBatch time (map place_of tenancies.now) [] u.batch.items) }
    // The host's health is told without memory, where there is nothing to keep.
    ensures health { t ≡ 0 → OnErr result (any_dead time (map place_of tenancies.now) ≡ true) }
{
    let told = without_tenant(alloc, t)?;
    let batch = dead_batch(alloc, tenancies, time)?;
    Ok(Unnamed { told, batch })
}

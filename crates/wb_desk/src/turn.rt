//! One turn over the tables of all tenants: what it has to keep is kept in one call, and then it purges and changes.
ghost use Rattle.std.specs.Prelude.{◌≡◌, ◌<◌, ◌≤◌, ◌+◌, ℕ, None, true, find, map, length, slice_index_or};
ghost use Rattle.wb_model.specs.Commands.{tenant_of as tenant_of_command, fits};
ghost use Rattle.wb_commands.specs.Plans.{IsRoomyFor};
ghost use Rattle.wb_tables.specs.Kept.{place_of, plain_of, sessions_at};
ghost use Rattle.wb_tables.specs.Places.{ArePlaces, is_tenant, IsAt};
ghost use Rattle.wb_tables.specs.declared.tenancy.Tenancy.{Tenancy as KeptTenancy};
ghost use Rattle.wb_commands.specs.Made.{IsOwnMutation};
ghost use Rattle.wb_desk.specs.Ready.{IsMadeAt};
ghost use Rattle.wb_recovery.specs.SetUp.{AreSetUpRight};
ghost use Rattle.wb_desk.specs.Turns.{IsKeeping, IsTurnAt, rows_over};

use crate::batch::{Lost, keep};
use crate::needs::columns_of;
use crate::ready::{prepare_at, prepare_without};
use std::alloc::Global;
use wb_base::{Keeper, Moment};
use wb_commands::{Mutation, TurnPlan};
use wb_custody::SealedTable;
use wb_model::{Asked, Told};
use wb_tables::{Tenancy, TurnContext, place_at, purge_all};

// Makes the change of the tenant at a place.
fn make_at(
    tenancies: &mut [Tenancy],
    place: usize,
    sealed: &mut SealedTable,
    time: Moment,
    change: Mutation,
)
    requires places { (turns : ℕ) × ArePlaces turns 0 sealed.old.items (map place_of tenancies.old) }
    requires within { place < length tenancies.old }
    requires room { (d : KeptTenancy) → IsRoomyFor time (slice_index_or tenancies.old place d) sealed.old.spare change }
    requires own { (d : KeptTenancy) → IsOwnMutation (plain_of (slice_index_or tenancies.old place d)) change }
    ensures made { IsMadeAt place time change sealed.old.items sealed.new.items tenancies.old tenancies.new }
    ensures set_up { AreSetUpRight 0 (map place_of tenancies.old) → AreSetUpRight 0 (map place_of tenancies.new) }
    // A turn makes one session at most.
    ensures sessions { sessions_at (map place_of tenancies.new) ≤ sessions_at (map place_of tenancies.old) + 1 }
{
    let tenancy = &mut tenancies[place];
    change.apply(tenancy, sealed)
}

// A turn of the tenant at a place.
fn turn_at<K: Keeper>(
    alloc: Global,
    tenancies: &mut [Tenancy],
    place: usize,
    sealed: &mut SealedTable,
    keeper: &mut K,
    at: &TurnContext,
    asked: &Asked,
) -> Result<Told, Lost>
    requires places { (turns : ℕ) × (turns < at.now.turn) × ArePlaces turns 0 sealed.old.items (map place_of tenancies.old) }
    requires place { IsAt (tenant_of_command asked.now.command) tenancies.old place }
    requires fits { fits asked.now ≡ true }
    ensures turn { IsTurnAt (map place_of tenancies.old) sealed.old.items at.now asked.now result (map place_of tenancies.new) sealed.new.items }
    ensures keeper { IsKeeping (K.end keeper.old) (K.end keeper.new) result (rows_over (map place_of tenancies.old) sealed.old.items) (rows_over (map place_of tenancies.new) sealed.new.items) }
{
    let Ok(batched) = prepare_at(alloc, tenancies, place, sealed, at, asked) else {
        return Err(Lost::Memory);
    };
    match keep(keeper, batched.batch.as_slice()) {
        Ok(()) => {}
        Err(lost) => return Err(lost),
    }
    purge_all(tenancies, sealed, at.time);
    let TurnPlan { told, change } = batched.plan;
    make_at(tenancies, place, sealed, at.time, change);
    Ok(told)
}

// A turn that names no tenant that is there.
fn turn_without<K: Keeper>(
    alloc: Global,
    tenancies: &mut [Tenancy],
    t: u32,
    sealed: &mut SealedTable,
    keeper: &mut K,
    at: &TurnContext,
    asked: &Asked,
) -> Result<Told, Lost>
    requires places { (turns : ℕ) × (turns < at.now.turn) × ArePlaces turns 0 sealed.old.items (map place_of tenancies.old) }
    requires tenant { t ≡ tenant_of_command asked.now.command }
    requires absent { find (is_tenant t) (map place_of tenancies.old) ≡ None }
    ensures turn { IsTurnAt (map place_of tenancies.old) sealed.old.items at.now asked.now result (map place_of tenancies.new) sealed.new.items }
    ensures keeper { IsKeeping (K.end keeper.old) (K.end keeper.new) result (rows_over (map place_of tenancies.old) sealed.old.items) (rows_over (map place_of tenancies.new) sealed.new.items) }
{
    let Ok(unnamed) = prepare_without(alloc, tenancies, t, at.time) else {
        return Err(Lost::Memory);
    };
    match keep(keeper, unnamed.batch.as_slice()) {
        Ok(()) => {}
        Err(lost) => return Err(lost),
    }
    purge_all(tenancies, sealed, at.time);
    Ok(unnamed.told)
}

/// A turn over the tables of all tenants. Where it is lost they are as they were, and so are the keeper's rows.
pub fn turn<K: Keeper>(
    alloc: Global,
    tenancies: &mut [Tenancy],
    sealed: &mut SealedTable,
    keeper: &mut K,
    at: &TurnContext,
    asked: &Asked,
) -> Result<Told, Lost>
    requires places { (turns : ℕ) × (turns < at.now.turn) × ArePlaces turns 0 sealed.old.items (map place_of tenancies.old) }
    requires fits { fits asked.now ≡ true }
    ensures turn { IsTurnAt (map place_of tenancies.old) sealed.old.items at.now asked.now result (map place_of tenancies.new) sealed.new.items }
    ensures keeper { IsKeeping (K.end keeper.old) (K.end keeper.new) result (rows_over (map place_of tenancies.old) sealed.old.items) (rows_over (map place_of tenancies.new) sealed.new.items) }
{
    let t = columns_of(&asked.command).tenant;
    match place_at(tenancies, t) {
        Some(place) => turn_at(alloc, tenancies, place, sealed, keeper, at, asked),
        None => turn_without(alloc, tenancies, t, sealed, keeper, at, asked),
    }
}

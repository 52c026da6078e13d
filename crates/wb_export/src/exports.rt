//! The calls of the program that write a register or a forecast over kept rows.
ghost use Rattle.std.specs.Prelude.{◌≡◌, ◌≢◌, ◌⊎◌, Ok, true};
ghost use Rattle.std.specs.Io.KnownBytes.{Appends};
ghost use Rattle.wb_base.specs.Outside.{AppendsFront, Rose};
ghost use Rattle.wb_rows.specs.Held.{held_by};
ghost use Rattle.wb_rows.specs.Loaded.{KeepsRows};
ghost use Rattle.wb_export.specs.Exports.{Exported, IsForecastOf, IsRegisterOf, has_recipient, has_tenant as has_tenant_of};
ghost use Rattle.wb_cli.specs.Loads.{SinkStood, KeeperStood, WhereRead};
ghost use Rattle.wb_cli.specs.Statuses.{IsDoneOrNoMemory};

use crate::forecasts::forecast;
use crate::registers::register;
use std::alloc::Global;
use wb_base::{Day, Keeper, Memory, Moment, Role, Sink, Tenant, UserId};
use wb_cli::{Status, load_tables};
use wb_recovery::{later, latest_kept};
use wb_rows::Tables;

// Whether a tenant is there.
fn has_tenant(tables: &Tables, tenant: Tenant) -> bool
    ensures { result ≡ has_tenant_of tenant (held_by tables.now) }
{
    tables.registry.tenant(tenant).is_some()
}

// Whether a tenant is there, and a user of it, who is a recipient.
fn is_recipient(tables: &Tables, tenant: Tenant, user: UserId) -> bool
    ensures { result ≡ has_recipient tenant user (held_by tables.now) }
{
    let is_recipient = match tables.registry.user(tenant, user) {
        Some(user) => user.role == Role::Recipient,
        None => false,
    };
    has_tenant(tables, tenant) && is_recipient
}

// Writes a text.
fn write_out<W: Sink>(text: &[u8], sink: &mut W) -> Status
    ensures ends { (result ≡ Status.Done) ⊎ (result ≡ Status.WriteFault) }
    ensures done { result ≡ Status.Done → Appends (W.end sink.old).held (W.end sink.new).held text.now }
    ensures fault { result ≡ Status.WriteFault → AppendsFront (W.end sink.old).held (W.end sink.new).held text.now × Rose (W.end sink.old).count (W.end sink.new).count }
    ensures written_on { result ≢ Status.WriteFault → (W.end sink.new).count ≡ (W.end sink.old).count }
{
    match sink.write_all(text) {
        Ok(()) => Status::Done,
        Err(_) => Status::WriteFault,
    }
}

/// Writes the register of a tenant's user at a moment, or at the greatest that is kept where that is later, over a keeper's rows, which stay.
pub fn export_register<W: Sink, K: Keeper>(
    alloc: Global,
    tenant: Tenant,
    user: UserId,
    moment: Moment,
    sink: &mut W,
    keeper: &mut K,
) -> Status
    ensures did { Exported (K.end keeper.old) (K.end keeper.new) (W.end sink.old) (W.end sink.new) (has_recipient tenant user) (IsRegisterOf tenant user moment) result }
    ensures rows { KeepsRows (K.end keeper.old) (K.end keeper.new) }
    ensures back { (K.end keeper.new).honest → (K.end keeper.old).honest }
    ensures written_on { result ≢ Status.WriteFault → (W.end sink.new).count ≡ (W.end sink.old).count }
    // It is written over rows that are read, where the user is there and nothing failed, or there was no memory.
    ensures complete { WhereRead (K.end keeper.old) (K.end keeper.new) (λ h. has_recipient tenant user h ≡ true → SinkStood (W.end sink.old) (W.end sink.new) → KeeperStood (K.end keeper.old) (K.end keeper.new) → IsDoneOrNoMemory result) }
{
    let tables = match load_tables(alloc, keeper) {
        Ok(tables) => tables,
        Err(status) => return status,
    };
    if !is_recipient(&tables, tenant, user) {
        return Status::NotThere;
    }
    let now = later(moment, latest_kept(&tables));
    match register(alloc, &tables, tenant, user, now) {
        Ok(text) => write_out(&text, sink),
        Err(Memory) => Status::NoMemory,
    }
}

/// Writes what expires of a tenant by a day, over a keeper's rows, which stay.
pub fn export_forecast<W: Sink, K: Keeper>(
    alloc: Global,
    tenant: Tenant,
    day: Day,
    sink: &mut W,
    keeper: &mut K,
) -> Status
    ensures did { Exported (K.end keeper.old) (K.end keeper.new) (W.end sink.old) (W.end sink.new) (has_tenant_of tenant) (IsForecastOf tenant day) result }
    ensures rows { KeepsRows (K.end keeper.old) (K.end keeper.new) }
    ensures back { (K.end keeper.new).honest → (K.end keeper.old).honest }
    ensures written_on { result ≢ Status.WriteFault → (W.end sink.new).count ≡ (W.end sink.old).count }
    // It is written over rows that are read, where the tenant is there and nothing failed, or there was no memory.
    ensures complete { WhereRead (K.end keeper.old) (K.end keeper.new) (λ h. has_tenant_of tenant h ≡ true → SinkStood (W.end sink.old) (W.end sink.new) → KeeperStood (K.end keeper.old) (K.end keeper.new) → IsDoneOrNoMemory result) }
{
    let tables = match load_tables(alloc, keeper) {
        Ok(tables) => tables,
        Err(status) => return status,
    };
    if !has_tenant(&tables, tenant) {
        return Status::NotThere;
    }
    match forecast(alloc, &tables, tenant, day) {
        Ok(text) => write_out(&text, sink),
        Err(Memory) => Status::NoMemory,
    }
}

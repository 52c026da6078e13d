//! The purge of what is not live. It takes no memory and cannot fail.
ghost use Rattle.std.specs.Prelude.{◌≡◌, ◌≢◌, ◌≤◌, ℕ, false, map, filter, find, None};
ghost use Rattle.wb_custody.specs.SealedAnswers.{answers_of};
ghost use Rattle.wb_tables.specs.Places.{IsPlace, ArePlaces, is_tenant, gone_under, IsPurged, ArePurged};
ghost use Rattle.wb_tables.specs.Kept.{case_of, place_of, tables_of, tenancy_of, lives_on, live_place, purged_tenancy};
ghost use Rattle.wb_model.specs.Host.{purged};

use crate::cases::Cases;
use crate::reports::today_at;
use crate::tenancy::Tenancy;
use wb_base::{Day, Moment, Tenant};
use wb_custody::SealedTable;

// Drops the reports that are not live, and their identity answers, and says whether there were any. Each is found by the index of expiry days.
fn drop_dead(cases: &mut Cases, sealed: &mut SealedTable, tenant: Tenant, today: Day) -> bool
    ensures cases { map case_of cases.new.items ≡ filter (lives_on today) (map case_of cases.old.items) }
    ensures reports { cases.new.items ≡ filter (λ r. lives_on today (case_of r)) cases.old.items }
    ensures here { (n : ℕ) → answers_of sealed.new.items tenant n ≡ gone_under n today (map case_of cases.old.items) (answers_of sealed.old.items tenant n) }
    ensures others { (t n : ℕ) → t ≢ tenant → answers_of sealed.new.items t n ≡ answers_of sealed.old.items t n }
    ensures room { cases.old.spare ≤ cases.new.spare }
    ensures sealed_room { sealed.old.spare ≤ sealed.new.spare }
    ensures gone { result ≡ false → cases.new.items ≡ cases.old.items }
{
    let mut has_gone = false;
    while let Some(number) = cases.take_expired(today) {
        sealed.remove(tenant, number);
        has_gone = true;
    }
    has_gone
}

/// Purges a tenant.
pub fn purge(tenancy: &mut Tenancy, sealed: &mut SealedTable, time: Moment)
    requires { (turns : ℕ) × IsPlace turns sealed.old.items (place_of tenancy.old) }
    ensures place { place_of tenancy.new ≡ live_place time (place_of tenancy.old) }
    ensures here { (n : ℕ) → answers_of sealed.new.items (place_of tenancy.old).id n ≡ (purged time (tables_of sealed.old.items (place_of tenancy.old))).sealed n }
    ensures others { (t n : ℕ) → t ≢ (place_of tenancy.old).id → answers_of sealed.new.items t n ≡ answers_of sealed.old.items t n }
    ensures kept { IsPurged time tenancy.old tenancy.new }
    ensures sealed_room { sealed.old.spare ≤ sealed.new.spare }
{
    let today = today_at(tenancy, time);
    let tenant = tenancy.configuration.tenant();
    let has_gone = drop_dead(&mut tenancy.cases, sealed, tenant, today);
    tenancy.sessions.drop_ended(&tenancy.cases, has_gone, time);
}

// Purges these tenants.
fn purge_each(tenancies: &mut [Tenancy], sealed: &mut SealedTable, time: Moment)
    requires { (turns : ℕ) × ((k : ℕ) × ArePlaces turns k sealed.old.items (map place_of tenancies.old)) }
    ensures places { map place_of tenancies.new ≡ map (live_place time) (map place_of tenancies.old) }
    ensures hosts { map (tenancy_of sealed.new.items) (map place_of tenancies.new) ≡ map (purged_tenancy time) (map (tenancy_of sealed.old.items) (map place_of tenancies.old)) }
    ensures others { (t n : ℕ) → find (is_tenant t) (map place_of tenancies.old) ≡ None → answers_of sealed.new.items t n ≡ answers_of sealed.old.items t n }
    ensures kept { ArePurged time tenancies.old tenancies.new }
    ensures sealed_room { sealed.old.spare ≤ sealed.new.spare }
{
    match tenancies.split_first_mut() {
        None => {}
        Some((tenancy, rest)) => {
            purge(tenancy, sealed, time);
            purge_each(rest, sealed, time);
        }
    }
}

/// Purges all tenants: reports that are not live are dropped, with their identity answers and their sessions, and so are
/// sessions that have ended. It takes no memory, and leaves the room that was made.
pub fn purge_all(tenancies: &mut [Tenancy], sealed: &mut SealedTable, time: Moment)
    requires { (turns : ℕ) × ((k : ℕ) × ArePlaces turns k sealed.old.items (map place_of tenancies.old)) }
    ensures places { map place_of tenancies.new ≡ map (live_place time) (map place_of tenancies.old) }
    ensures hosts { map (tenancy_of sealed.new.items) (map place_of tenancies.new) ≡ map (purged_tenancy time) (map (tenancy_of sealed.old.items) (map place_of tenancies.old)) }
    ensures places_kept { (turns k : ℕ) → ArePlaces turns k sealed.old.items (map place_of tenancies.old) → ArePlaces turns k sealed.new.items (map place_of tenancies.new) }
    ensures others { (t n : ℕ) → find (is_tenant t) (map place_of tenancies.old) ≡ None → answers_of sealed.new.items t n ≡ answers_of sealed.old.items t n }
    ensures kept { ArePurged time tenancies.old tenancies.new }
    ensures sealed_room { sealed.old.spare ≤ sealed.new.spare }
{
    purge_each(tenancies, sealed, time);
}

//! What a host begins with: what is kept, and what a setup adds of other tenants.
ghost use Rattle.std.specs.Prelude.{◌≡◌, ◌==◌, ◌++◌, ◌∷◌, [], ℕ, true, find, map, All, List, IfOk, OnOk};
ghost use Rattle.std.specs.List.{list_all, list_any};
ghost use Rattle.std.specs.Option.{option_copied};
ghost use Rattle.wb_base.specs.KeptRows.{IsGoodChange};
ghost use Rattle.wb_base.specs.declared.rows.Row.{Row as RowData};
ghost use Rattle.wb_base.specs.declared.rows.Change.TheVariants.{Put};
ghost use Rattle.wb_model.specs.Legal.{ascends_from};
ghost use Rattle.wb_model.specs.Opened.{Apart};
ghost use Rattle.wb_model.specs.Openings.{empty_tables, registry_of};
ghost use Rattle.wb_model.specs.Rows.{converted};
ghost use Rattle.wb_model.specs.SetUps.{AreSetUp, tenant_ids};
ghost use Rattle.wb_model.specs.Tables.{Case, has_receipt};
ghost use Rattle.wb_rows.specs.Reports.{case_report};
ghost use Rattle.wb_rows.specs.Held.{held_by};
ghost use Rattle.wb_rows.specs.Openings.{cases_of, numbering_of as numbering_at, tenancies_of, time_of, with_setup};
ghost use Rattle.wb_rows.specs.Puts.{tenant_put};
ghost use Rattle.wb_rows.specs.ReportRules.{is_numbering_of};
ghost use Rattle.wb_rows.specs.TrailRule.{is_legal_report};
ghost use Rattle.wb_tables.specs.Kept.{place_of};
ghost use Rattle.wb_setup.specs.Keys.{AreInOrder};
ghost use Rattle.wb_tenants.specs.Sets.{HasTenant};
ghost use Rattle.wb_recovery.specs.HeldPlaces.{bare, HoldNoOthers, held_places, new_puts, new_tenancy, setup_puts, AreRowsIn, BecomeRowsOf, InKeyOrder};

use crate::moments::{first_moment, latest_kept};
use crate::reports::add_reports;
use std::alloc::Global;
use wb_base::{Change, Format, Memory, Moment, Row, Tenant};
use wb_custody::SealedTable;
use wb_list::Items;
use wb_model::{
    Numbering, TenantItem, rows_become_those_of_format_2, setups_and_kept_rows_make_openings,
};
use wb_rows::{NumberingItem, Tables, convert, new_tenants_put_their_rows, write_own};
use wb_setup::kept_rows_and_a_setup_make_an_opening;
use wb_tables::{Cases, Configuration, Sessions, Tenancy};
use wb_tenants::{Registry, Setup, a_kept_tenant_stays_whole};

// No number is drawn.
fn nothing_drawn() -> Numbering
    ensures { result ≡ record { at = 0; drawn = 0; last = 0 } }
{
    Numbering {
        at: first_moment(),
        drawn: 0,
        last: 0,
    }
}

// The numbering of a tenant, where one is kept. There are at most 64.
fn find_numbering(numberings: &[NumberingItem], tenant: Tenant) -> Option<&NumberingItem>
    ensures { option_copied result ≡ find (is_numbering_of tenant) numberings.now }
{
    numberings.iter().find(|item| item.tenant == tenant)
}

// The numbering of a tenant, of which no number is drawn where none is kept.
fn numbering_of(numberings: &[NumberingItem], tenant: Tenant) -> Numbering
    ensures { result ≡ numbering_at numberings.now tenant }
{
    match find_numbering(numberings, tenant) {
        Some(item) => item.numbering,
        None => nothing_drawn(),
    }
}

// ---- the tenants

// A tenant of a registry, with its numbering: no report, no session.
fn tenancy(
    alloc: Global,
    registry: &Registry,
    tenant: Tenant,
    numbering: Numbering,
) -> Result<Tenancy, Memory>
    requires { HasTenant registry.now.lists tenant }
    ensures { IfOk result (λ x. place_of x ≡ record { id = tenant; plain = record (empty_tables (registry_of registry.now.lists tenant)).plain { numbering = numbering } }) }
{
    let own = registry.part(tenant)?;
    Ok(Tenancy {
        configuration: Configuration::of(own, tenant),
        numbering,
        cases: Cases::new(alloc, tenant),
        sessions: Sessions::new(alloc, tenant),
    })
}

// The tenants of a registry with their numberings: no report, no session.
fn tenancies(
    alloc: Global,
    registry: &Registry,
    numberings: &[NumberingItem],
) -> Result<Vec<Tenancy>, Memory>
    ensures { IfOk result (λ xs. map place_of xs.items ≡ held_places (bare registry.now.lists numberings.now)) }
{
    let mut tenancies = Vec::new(alloc);
    for item in registry.lists().tenants.as_slice() {
        let numbering = numbering_of(numberings, item.tenant);
        tenancies.push(tenancy(alloc, registry, item.tenant, numbering)?)?;
    }
    Ok(tenancies)
}

// ---- the rows of those that a setup adds

// Rows are to be put.
fn put_rows(batch: &mut Vec<Change>, rows: Vec<Row>) -> Result<(), Memory>
    ensures { OnOk result (batch.new.items ≡ batch.old.items ++ map Put rows.items) }
{
    for row in rows {
        batch.push(Change::Put(row))?;
    }
    Ok(())
}

// The tables of a tenant of whom no number is drawn.
fn new_tables(alloc: Global, registry: Registry, tenant: Tenant) -> Result<Tables, Memory>
    ensures lists { IfOk result (λ tables. tables.registry.lists ≡ registry.lists) }
    ensures numberings { IfOk result (λ tables. tables.numberings ≡ record { tenant = tenant; numbering = record { at = 0; drawn = 0; last = 0 } } ∷ []) }
    ensures none { IfOk result (λ tables. tables.cases ≡ []) }
{
    let mut numberings = Items::new(alloc);
    numberings.push(NumberingItem {
        tenant,
        numbering: nothing_drawn(),
    })?;
    Ok(Tables {
        registry,
        numberings,
        cases: Items::new(alloc),
        sealed: SealedTable::new(alloc),
    })
}

// The rows of a tenant of whom nothing is kept are to be put.
fn put_tenant(
    alloc: Global,
    batch: &mut Vec<Change>,
    registry: &Registry,
    tenant: Tenant,
) -> Result<(), Memory>
    requires order { AreInOrder registry.now.lists }
    requires there { HasTenant registry.now.lists tenant }
    ensures { OnOk result (batch.new.items ≡ batch.old.items ++ tenant_put (new_tenancy registry.now.lists tenant)) }
{
    let own = registry.part(tenant)?;
    let tables = new_tables(alloc, own, tenant)?;
    put_rows(batch, write_own(alloc, &tables)?)
}

// Whether a tenant is one of these.
fn is_among(tenants: &[Tenant], tenant: Tenant) -> bool
    ensures { result ≡ list_any (λ t. t == tenant) tenants.now }
{
    tenants.iter().any(|other| other.id() == tenant.id())
}

// The rows of a tenant are to be put, where it is none of those that are kept.
fn put_new(
    alloc: Global,
    batch: &mut Vec<Change>,
    registry: &Registry,
    old: &[Tenant],
    tenant: Tenant,
) -> Result<(), Memory>
    requires order { AreInOrder registry.now.lists }
    requires there { HasTenant registry.now.lists tenant }
    ensures { OnOk result (batch.new.items ≡ batch.old.items ++ new_puts registry.now.lists (λ t. list_any (λ u. u == t) old.now) (tenant ∷ [])) }
{
    if is_among(old, tenant) {
        return Ok(());
    }
    put_tenant(alloc, batch, registry, tenant)
}

// The rows of the tenants of a registry that are none of those that are kept are to be put.
fn put_all_new(
    alloc: Global,
    batch: &mut Vec<Change>,
    registry: &Registry,
    old: &[Tenant],
) -> Result<(), Memory>
    ensures { OnOk result (batch.new.items ≡ batch.old.items ++ new_puts registry.now.lists (λ t. list_any (λ u. u == t) old.now) (tenant_ids registry.now.lists)) }
{
    for item in registry.lists().tenants.as_slice() {
        put_new(alloc, batch, registry, old, item.tenant)?;
    }
    Ok(())
}

// The ids of tenants.
fn ids_of(alloc: Global, tenants: &[TenantItem]) -> Result<Vec<Tenant>, Memory>
    ensures { IfOk result (λ ids. ids.items ≡ map (λ x. x.tenant) tenants.now) }
{
    let mut ids = Vec::new(alloc);
    for item in tenants {
        ids.push(item.tenant)?;
    }
    Ok(ids)
}

// ---- the whole

/// What a host begins with: its time, its tenants with their reports, the identity answers of these, and the rows that are
/// to be put: of rows that are not of format 2 that of the format and those of forms, and those of the tenants that the setup
/// adds.
#[derive(Drop)]
pub struct Opened {
    pub time: Moment,
    pub tenancies: Vec<Tenancy>,
    pub sealed: SealedTable,
    pub batch: Vec<Change>,
}

/// What a host over what is kept and a setup begins with. The rows that are kept are of a format.
pub fn begin(alloc: Global, setup: &Setup, format: Format, kept: Tables) -> Result<Opened, Memory>
    requires setup { AreSetUp setup.now.lists }
    requires lists { AreSetUp kept.registry.lists }
    requires keys { (t : ℕ) → ascends_from 0 (map (λ (c : Case). c.number) (cases_of (map case_report kept.cases) t)) ≡ true }
    requires receipts { (t : ℕ) → Apart has_receipt (cases_of (map case_report kept.cases) t) }
    requires legal { list_all (is_legal_report kept.registry.lists) (map case_report kept.cases) ≡ true }
    ensures time { IfOk result (λ x. x.time ≡ time_of (held_by kept)) }
    ensures places { IfOk result (λ x. map place_of x.tenancies.items ≡ held_places (with_setup setup.now.lists (held_by kept))) }
    ensures sealed { IfOk result (λ x. x.sealed ≡ kept.sealed) }
    ensures batch { IfOk result (λ x. x.batch.items ≡ converted format (tenancies_of (held_by kept)) ++ setup_puts setup.now.lists kept.registry.lists) }
    ensures good { IfOk result (λ x. All IsGoodChange x.batch.items) }
    // The rows that are kept become those of all tenants, in format 2. Nothing is held of a tenant that is not there.
    ensures rows { IfOk result (λ x. HoldNoOthers (held_by kept) → (rows : List RowData) → InKeyOrder rows → AreRowsIn format (held_by kept) rows → BecomeRowsOf (with_setup setup.now.lists (held_by kept)) rows x.batch.items) }
{
    kept_rows_and_a_setup_make_an_opening();
    setups_and_kept_rows_make_openings();
    a_kept_tenant_stays_whole();
    new_tenants_put_their_rows();
    rows_become_those_of_format_2();
    let time = latest_kept(&kept);
    let old = ids_of(alloc, kept.registry.lists().tenants.as_slice())?;
    let mut batch = convert(alloc, format, &kept)?;
    let Tables {
        registry,
        numberings,
        cases,
        sealed,
    } = kept;
    let registry = Registry::of(setup, registry)?;
    put_all_new(alloc, &mut batch, &registry, old.as_slice())?;
    let mut tenancies = tenancies(alloc, &registry, numberings.as_slice())?;
    add_reports(alloc, &mut tenancies, cases)?;
    Ok(Opened {
        time,
        tenancies,
        sealed,
        batch,
    })
}

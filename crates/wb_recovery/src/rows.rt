//! The rows of what a host holds: by kind, and in a kind by tenant.
ghost use Rattle.std.specs.Prelude.{◌≡◌, ◌==◌, ◌++◌, ◌∷◌, [], filter, map, IfOk, OnOk};
ghost use Rattle.wb_custody.specs.SealedAnswers.{answers_of};
ghost use Rattle.wb_model.specs.Rows.{rows_of, row, settings_data, numbering_data, entries_from, trail_rows, sealed_row as sealed_row_of, sealed_rows, of_tenants};
ghost use Rattle.wb_tables.specs.Kept.{case_of, place_of, tenancy_of, sealed_of};
ghost use Rattle.wb_recovery.specs.RowKinds.{rows_by};

use std::alloc::Global;
use wb_base::{Format, Memory, Number, Row, Tenant};
use wb_custody::SealedTable;
use wb_model::{ContextItem, Entry, FormItem, TenantItem, UserItem};
use wb_row_codec::{context_row, form_row, settings_row, user_row};
use wb_rows::{entry_row, format_row, numbering_row, sealed_row};
use wb_tables::{BoxedReport, Configuration, Tenancy};

/// What a tenant is set up with several of, each with its row.
trait Owned {
    ghost use Rattle.std.specs.Prelude.{ℕ};
    ghost use Rattle.wb_base.specs.declared.rows.Row.{Row as RowData};

    /// Its tenant.
    ghost owner_of: { Self → ℕ };

    /// Its row as a tenant's.
    ghost row_of: { ℕ → Self → RowData };

    /// Its tenant.
    fn tenant(&self) -> Tenant
        ensures { result ≡ owner_of self.now };

    /// Its row.
    fn row(&self, alloc: Global) -> Result<Row, Memory>
        ensures { IfOk result (λ row. row ≡ row_of (owner_of self.now) self.now) };
}

impl Owned for UserItem {
    ghost use Rattle.wb_model.specs.Rows.{row, user_data};

    ghost owner_of = { λ x. x.tenant };

    ghost row_of = { λ t x. row 3 t x.id 0 (user_data x) };

    fn tenant(&self) -> Tenant {
        self.tenant
    }

    fn row(&self, alloc: Global) -> Result<Row, Memory> {
        user_row(alloc, self)
    }
}

impl Owned for FormItem {
    ghost use Rattle.wb_base.specs.FormJson.{kept_data};
    ghost use Rattle.wb_model.specs.Rows.{row};

    ghost owner_of = { λ x. x.tenant };

    ghost row_of = { λ t x. row 4 t x.id x.version (kept_data x.form) };

    fn tenant(&self) -> Tenant {
        self.tenant
    }

    fn row(&self, alloc: Global) -> Result<Row, Memory> {
        form_row(
            alloc,
            Format::Weighed,
            self.tenant,
            self.id,
            self.version,
            &self.form,
        )
    }
}

impl Owned for ContextItem {
    ghost use Rattle.wb_model.specs.Rows.{row, context_data};

    ghost owner_of = { λ x. x.tenant };

    ghost row_of = { λ t x. row 5 t x.id 0 (context_data x) };

    fn tenant(&self) -> Tenant {
        self.tenant
    }

    fn row(&self, alloc: Global) -> Result<Row, Memory> {
        context_row(alloc, self)
    }
}

// Adds the rows of what a tenant has of a list.
fn add_own<T: Owned>(
    alloc: Global,
    rows: &mut Vec<Row>,
    items: &[T],
    tenant: Tenant,
) -> Result<(), Memory>
    ensures { OnOk result (rows.new.items ≡ rows.old.items ++ map (T.row_of tenant) (filter (λ x. T.owner_of x == tenant) items.now)) }
{
    for item in items {
        if item.tenant() == tenant {
            rows.push(item.row(alloc)?)?;
        }
    }
    Ok(())
}

// A tenant's settings, which are its own.
fn settings_of(configuration: &Configuration) -> &TenantItem
    ensures settings { result.now ≡ configuration.now.registry.settings }
    ensures own { result.now.tenant ≡ configuration.now.tenant }
{
    let _there = configuration.registry();
    configuration.settings()
}

// Adds the row of a tenant's settings.
fn add_settings(alloc: Global, rows: &mut Vec<Row>, tenancy: &Tenancy) -> Result<(), Memory>
    ensures { OnOk result (rows.new.items ≡ rows.old.items ++ row 1 (place_of tenancy.now).id 0 0 (settings_data (place_of tenancy.now).plain.registry.settings) ∷ []) }
{
    let settings = settings_of(&tenancy.configuration);
    rows.push(settings_row(alloc, settings)?)?;
    Ok(())
}

// Adds the row of a tenant's numbering.
fn add_numbering(alloc: Global, rows: &mut Vec<Row>, tenancy: &Tenancy) -> Result<(), Memory>
    ensures { OnOk result (rows.new.items ≡ rows.old.items ++ row 2 (place_of tenancy.now).id 0 0 (numbering_data (place_of tenancy.now).plain.numbering) ∷ []) }
{
    let tenant = tenancy.configuration.tenant();
    rows.push(numbering_row(alloc, tenant, &tenancy.numbering)?)?;
    Ok(())
}

// Adds the rows of a report's trail.
fn add_trail(
    alloc: Global,
    rows: &mut Vec<Row>,
    tenant: Tenant,
    number: Number,
    trail: &[Entry],
) -> Result<(), Memory>
    ensures { OnOk result (rows.new.items ≡ rows.old.items ++ entries_from tenant number 1 trail.now) }
{
    let mut place: u32 = 1;
    for entry in trail {
        rows.push(entry_row(alloc, tenant, number, place, entry)?)?;
        // No memory holds so many entries.
        let Some(next) = place.checked_add(1) else {
            return Err(Memory);
        };
        place = next;
    }
    Ok(())
}

// Adds the rows of the trails of a tenant's reports.
fn add_trails(
    alloc: Global,
    rows: &mut Vec<Row>,
    tenant: Tenant,
    reports: &[BoxedReport],
) -> Result<(), Memory>
    ensures { OnOk result (rows.new.items ≡ rows.old.items ++ trail_rows tenant (map case_of reports.now)) }
{
    for filed in reports {
        let report = filed.report();
        let trail = report.case.trail().as_slice();
        add_trail(alloc, rows, tenant, report.number, trail)?;
    }
    Ok(())
}

// Adds the row of a report's identity answers, where there are any.
fn add_answers(
    alloc: Global,
    rows: &mut Vec<Row>,
    tenant: Tenant,
    number: Number,
    sealed: &SealedTable,
) -> Result<(), Memory>
    ensures { OnOk result (rows.new.items ≡ rows.old.items ++ sealed_row_of tenant number (answers_of sealed.now.items tenant number)) }
{
    if let Some(answers) = sealed.get(tenant, number) {
        rows.push(sealed_row(alloc, tenant, number, answers)?)?;
    }
    Ok(())
}

// Adds the rows of the identity answers of a tenant's reports.
fn add_all_answers(
    alloc: Global,
    rows: &mut Vec<Row>,
    tenant: Tenant,
    reports: &[BoxedReport],
    sealed: &SealedTable,
) -> Result<(), Memory>
    ensures { OnOk result (rows.new.items ≡ rows.old.items ++ sealed_rows tenant (sealed_of sealed.now.items tenant) (map case_of reports.now)) }
{
    for filed in reports {
        add_answers(alloc, rows, tenant, filed.report().number, sealed)?;
    }
    Ok(())
}

/// What rows are of.
#[derive(Clone, Copy)]
pub enum Kind {
    Settings,
    Numbering,
    Users,
    Forms,
    Contexts,
    Entries,
    Answers,
}

// Adds a tenant's rows of a kind.
fn add_tenant(
    alloc: Global,
    rows: &mut Vec<Row>,
    kind: Kind,
    tenancy: &Tenancy,
    sealed: &SealedTable,
) -> Result<(), Memory>
    ensures { OnOk result (rows.new.items ≡ rows.old.items ++ rows_by kind (tenancy_of sealed.now.items (place_of tenancy.now))) }
{
    let tenant = tenancy.configuration.tenant();
    let lists = tenancy.configuration.registry().lists();
    let reports = tenancy.cases.as_slice();
    match kind {
        Kind::Settings => add_settings(alloc, rows, tenancy),
        Kind::Numbering => add_numbering(alloc, rows, tenancy),
        Kind::Users => add_own(alloc, rows, lists.users.as_slice(), tenant),
        Kind::Forms => add_own(alloc, rows, lists.forms.as_slice(), tenant),
        Kind::Contexts => add_own(alloc, rows, lists.contexts.as_slice(), tenant),
        Kind::Entries => add_trails(alloc, rows, tenant, reports),
        Kind::Answers => add_all_answers(alloc, rows, tenant, reports, sealed),
    }
}

// Adds the rows of a kind of all tenants.
fn add_kind(
    alloc: Global,
    rows: &mut Vec<Row>,
    kind: Kind,
    tenancies: &[Tenancy],
    sealed: &SealedTable,
) -> Result<(), Memory>
    ensures { OnOk result (rows.new.items ≡ rows.old.items ++ of_tenants (rows_by kind) (map (tenancy_of sealed.now.items) (map place_of tenancies.now))) }
{
    for tenancy in tenancies {
        add_tenant(alloc, rows, kind, tenancy, sealed)?;
    }
    Ok(())
}

/// The rows of what a host holds: that of their format, then by kind, and in a kind by tenant.
pub fn held_rows(
    alloc: Global,
    tenancies: &[Tenancy],
    sealed: &SealedTable,
) -> Result<Vec<Row>, Memory>
    ensures { IfOk result (λ rows. rows.items ≡ rows_of (map (tenancy_of sealed.now.items) (map place_of tenancies.now))) }
{
    let mut rows = Vec::new(alloc);
    rows.push(format_row(alloc)?)?;
    add_kind(alloc, &mut rows, Kind::Settings, tenancies, sealed)?;
    add_kind(alloc, &mut rows, Kind::Numbering, tenancies, sealed)?;
    add_kind(alloc, &mut rows, Kind::Users, tenancies, sealed)?;
    add_kind(alloc, &mut rows, Kind::Forms, tenancies, sealed)?;
    add_kind(alloc, &mut rows, Kind::Contexts, tenancies, sealed)?;
    add_kind(alloc, &mut rows, Kind::Entries, tenancies, sealed)?;
    add_kind(alloc, &mut rows, Kind::Answers, tenancies, sealed)?;
    Ok(rows)
}

//! Tables written as rows.
ghost use Rattle.std.specs.Prelude.{◌≡◌, ◌++◌, IfOk, OnOk, map};
ghost use Rattle.wb_custody.specs.SealedAnswers.{answers_of};
ghost use Rattle.wb_rows.specs.Reports.{case_report};
ghost use Rattle.wb_rows.specs.Held.{held_by};
ghost use Rattle.wb_rows.specs.HeldRows.{settings_row as settings_row_of, numbering_row as numbering_row_of, user_row as user_row_of, form_row as form_row_of, context_row as context_row_of, trail_rows, sealed_rows, list_rows, own_rows, rows_of};
ghost use Rattle.wb_base.specs.declared.form.Format.TheVariants.{Weighed};
ghost use Rattle.wb_base.specs.declared.rows.Change.TheVariants.{Put};
ghost use Rattle.wb_model.specs.Rows.{converted, entries_from, sealed_row as sealed_row_of};
ghost use Rattle.wb_model.specs.SetUps.{AreSetUp};
ghost use Rattle.wb_rows.specs.Openings.{tenancies_of};

use crate::CaseItem;
use crate::tables::Tables;
use std::alloc::Global;
use wb_base::{Change, Format, Memory, Row};
use wb_custody::SealedTable;
use wb_model::{ContextItem, FormItem, TenantItem, UserItem};
use wb_row_codec::{
    NumberingItem, context_row, entry_row, form_row, format_row, numbering_row, sealed_row,
    settings_row, user_row,
};

/// What has a row.
trait Rowed {
    ghost use Rattle.wb_base.specs.declared.rows.Row.{Row as RowData};

    /// Its row.
    ghost row_of: { Self → RowData };

    /// Its row.
    fn row(&self, alloc: Global) -> Result<Row, Memory>
        ensures { IfOk result (λ row. row ≡ row_of self.now) };
}

impl Rowed for TenantItem {
    ghost row_of = { settings_row_of };

    fn row(&self, alloc: Global) -> Result<Row, Memory> {
        settings_row(alloc, self)
    }
}

impl Rowed for NumberingItem {
    ghost row_of = { numbering_row_of };

    fn row(&self, alloc: Global) -> Result<Row, Memory> {
        numbering_row(alloc, self.tenant, &self.numbering)
    }
}

impl Rowed for UserItem {
    ghost row_of = { user_row_of };

    fn row(&self, alloc: Global) -> Result<Row, Memory> {
        user_row(alloc, self)
    }
}

impl Rowed for FormItem {
    ghost row_of = { form_row_of Weighed };

    fn row(&self, alloc: Global) -> Result<Row, Memory> {
        form_row(
            alloc,
            Format::Weighed,
            self.tenant,
            self.id,
            self.version,
            &self.form,
        )
    }
}

impl Rowed for ContextItem {
    ghost row_of = { context_row_of };

    fn row(&self, alloc: Global) -> Result<Row, Memory> {
        context_row(alloc, self)
    }
}

// Adds the rows of a list.
fn add_rows<T: Rowed>(alloc: Global, rows: &mut Vec<Row>, items: &[T]) -> Result<(), Memory>
    ensures { OnOk result (rows.new.items ≡ rows.old.items ++ map T.row_of items.now) }
{
    for item in items {
        rows.push(item.row(alloc)?)?;
    }
    Ok(())
}

// Adds the rows of a trail.
fn add_trail(alloc: Global, rows: &mut Vec<Row>, case: &CaseItem) -> Result<(), Memory>
    ensures { OnOk result (rows.new.items ≡ rows.old.items ++ entries_from case.now.tenant case.now.number 1 case.now.case.items) }
{
    let mut place: u32 = 1;
    for entry in case.case.trail().as_slice() {
        rows.push(entry_row(alloc, case.tenant, case.number, place, entry)?)?;
        // No memory holds so many entries.
        let Some(next) = place.checked_add(1) else {
            return Err(Memory);
        };
        place = next;
    }
    Ok(())
}

// Adds the rows of all trails.
fn add_trails(alloc: Global, rows: &mut Vec<Row>, cases: &[CaseItem]) -> Result<(), Memory>
    ensures { OnOk result (rows.new.items ≡ rows.old.items ++ trail_rows (map case_report cases.now)) }
{
    for case in cases {
        add_trail(alloc, rows, case)?;
    }
    Ok(())
}

// Adds the row of a report's identity answers, where there are any.
fn add_sealed(
    alloc: Global,
    rows: &mut Vec<Row>,
    case: &CaseItem,
    sealed: &SealedTable,
) -> Result<(), Memory>
    ensures { OnOk result (rows.new.items ≡ rows.old.items ++ sealed_row_of case.now.tenant case.now.number (answers_of sealed.now.items case.now.tenant case.now.number)) }
{
    if let Some(answers) = sealed.get(case.tenant, case.number) {
        rows.push(sealed_row(alloc, case.tenant, case.number, answers)?)?;
    }
    Ok(())
}

// Adds the rows of all identity answers.
fn add_all_sealed(
    alloc: Global,
    rows: &mut Vec<Row>,
    cases: &[CaseItem],
    sealed: &SealedTable,
) -> Result<(), Memory>
    ensures { OnOk result (rows.new.items ≡ rows.old.items ++ sealed_rows (answers_of sealed.now.items) (map case_report cases.now)) }
{
    for case in cases {
        add_sealed(alloc, rows, case, sealed)?;
    }
    Ok(())
}

// Adds the rows of what tenants are set up with, and of what they have drawn.
fn add_lists(alloc: Global, rows: &mut Vec<Row>, tables: &Tables) -> Result<(), Memory>
    ensures { OnOk result (rows.new.items ≡ rows.old.items ++ list_rows Weighed tables.now.registry.lists tables.now.numberings) }
{
    let lists = tables.registry.lists();
    add_rows(alloc, rows, lists.tenants.as_slice())?;
    add_rows(alloc, rows, tables.numberings.as_slice())?;
    add_rows(alloc, rows, lists.users.as_slice())?;
    add_rows(alloc, rows, lists.forms.as_slice())?;
    add_rows(alloc, rows, lists.contexts.as_slice())
}

// Adds the rows of tables, but for that of the format.
fn add_own(alloc: Global, rows: &mut Vec<Row>, tables: &Tables) -> Result<(), Memory>
    ensures { OnOk result (rows.new.items ≡ rows.old.items ++ own_rows Weighed (held_by tables.now)) }
{
    add_lists(alloc, rows, tables)?;
    add_trails(alloc, rows, tables.cases.as_slice())?;
    add_all_sealed(alloc, rows, tables.cases.as_slice(), &tables.sealed)
}

/// The rows of tables but for that of the format: by kind, and in a kind in the order of the tables.
pub fn write_own(alloc: Global, tables: &Tables) -> Result<Vec<Row>, Memory>
    ensures { IfOk result (λ rows. rows.items ≡ own_rows Weighed (held_by tables.now)) }
{
    let mut rows = Vec::new(alloc);
    add_own(alloc, &mut rows, tables)?;
    Ok(rows)
}

/// The rows of tables, in format 2.
pub fn write(alloc: Global, tables: &Tables) -> Result<Vec<Row>, Memory>
    ensures { IfOk result (λ rows. rows.items ≡ rows_of (held_by tables.now)) }
{
    let mut rows = Vec::new(alloc);
    rows.push(format_row(alloc)?)?;
    add_own(alloc, &mut rows, tables)?;
    Ok(rows)
}

// Rows of forms are put, in format 2.
fn put_forms(alloc: Global, batch: &mut Vec<Change>, forms: &[FormItem]) -> Result<(), Memory>
    ensures { OnOk result (batch.new.items ≡ batch.old.items ++ map Put (map (form_row_of Weighed) forms.now)) }
{
    for form in forms {
        batch.push(Change::Put(form.row(alloc)?))?;
    }
    Ok(())
}

/// What makes the rows of tables, which are of a format, those of format 2: nothing where they are of that; else the row of the
/// format is put, and each row of a form anew.
pub fn convert(alloc: Global, format: Format, tables: &Tables) -> Result<Vec<Change>, Memory>
    requires { AreSetUp tables.now.registry.lists }
    ensures { IfOk result (λ batch. batch.items ≡ converted format (tenancies_of (held_by tables.now))) }
{
    let mut batch = Vec::new(alloc);
    match format {
        Format::Weighed => Ok(batch),
        Format::Plain => {
            batch.push(Change::Put(format_row(alloc)?))?;
            put_forms(alloc, &mut batch, tables.registry.lists().forms.as_slice())?;
            Ok(batch)
        }
    }
}

//! A set of rows read as tables.
ghost use Rattle.std.specs.Prelude.{◌≡◌, ◌≢◌, ℕ, map, true, false, Ok, Err, IfOk, IfErr};
ghost use Rattle.std.specs.List.{list_all};
ghost use Rattle.std.specs.List.Sorted.{IsStrictlySortedBy};
ghost use Rattle.wb_base.specs.KeptRows.{key_cmp, key_of};
ghost use Rattle.wb_custody.specs.SealedAnswers.{answers_of, pair_cmp, sealed_place};
ghost use Rattle.wb_list.specs.Keyed.{IsAscending};
ghost use Rattle.wb_model.specs.KeptRules.{AreKept};
ghost use Rattle.wb_model.specs.Openings.{registry_of, empty_tables};
ghost use Rattle.wb_model.specs.Past.{Past};
ghost use Rattle.wb_model.specs.Pasts.{AllOpened};
ghost use Rattle.wb_model.specs.Readable.{AreReadable, are_stored};
ghost use Rattle.wb_model.specs.Rows.{own_rows_in as own_rows_of_tenants, rows as rows_left, rows_in as rows_in_of_tenants, format_row};
ghost use Rattle.wb_model.specs.SetUps.{AreSetUp, has_tenant, is_tenant_item, is_form_item};
ghost use Rattle.wb_rows.specs.declared.faults.RowFault.TheVariants as faults;
ghost use Rattle.wb_rows.specs.declared.items.ItemsByKind.{ItemsByKind as ItemsByKindData};
ghost use Rattle.wb_rows.specs.Growing.{IsTrailFault};
ghost use Rattle.wb_rows.specs.Good.{AreGood};
ghost use Rattle.wb_rows.specs.Reports.{case_report};
ghost use Rattle.wb_rows.specs.Held.{Held, held_by};
ghost use Rattle.wb_rows.specs.HeldItems.{items_of};
ghost use Rattle.wb_rows.specs.HeldRows.{own_rows, rows_in, rows_of};
ghost use Rattle.wb_rows.specs.Left.{left as left_by, IsReadBack};
ghost use Rattle.wb_rows.specs.Judged.{AreBlames, judged, judged_in, judged_kept, judged_reports, is_format_key as format_key, format_of as format_in, IsParted, AreJudged};
ghost use Rattle.wb_base.specs.AnswerList.{is_text};
ghost use Rattle.wb_base.specs.declared.form.Format.TheVariants.{Plain};
ghost use Rattle.wb_row_codec.specs.Items.{is_kept_in};
ghost use Rattle.wb_rows.specs.Openings.{tables_of, tenancies_of, time_of};
ghost use Rattle.wb_rows.specs.Places.{entry_key};
ghost use Rattle.wb_rows.specs.TrailRule.{is_legal_report, reports_of};
ghost use Rattle.wb_setup.specs.Keys.{AreInOrder};

use crate::items::{ItemsByKind, read_items, sort_items};
use crate::list_rules::list_fault;
use crate::report_rules::{Blames, find_blames, first_wrong_seal, report_fault};
use crate::tables::Tables;
use crate::{CaseItem, RowFault, reports};
use std::alloc::Global;
use wb_base::{Format, Key, Memory, Row, Text};
use wb_custody::{SealedItem, SealedTable};
use wb_list::{Items, Sorted};
use wb_row_codec::{EntryItem, NumberingItem};
use wb_tenants::Registry;

/// The text of the row of the format.
const FORMAT_TEXT: &str = "{\"format\":2}";

// Whether a key is that of the row of the format.
fn is_format_key(key: Key) -> bool
    ensures { result ≡ format_key key }
{
    key.kind == Key::FORMAT && key.tenant == 0 && key.a == 0 && key.b == 0
}

/// The format of rows that are read.
pub fn format_of(rows: &[Row]) -> Format
    ensures { result ≡ format_in rows.now }
{
    match rows.first() {
        Some(first) => {
            if is_format_key(first.key) {
                Format::Weighed
            } else {
                Format::Plain
            }
        }
        None => Format::Plain,
    }
}

// Whether a text is that of the row of the format.
fn is_format_text(text: &Text) -> bool
    ensures { result ≡ is_text text.now format_row.text }
{
    text.as_str() == FORMAT_TEXT
}

// The format of rows, and the rows but for the row that says it.
fn parted(rows: &[Row]) -> Result<(Format, &[Row]), RowFault>
    ensures ok { IfOk result (λ parts. IsParted rows.now parts.0 parts.1.now) }
    ensures err { IfErr result (λ fault. judged rows.now ≡ Err fault) }
{
    match rows.first() {
        Some(first) => {
            if !is_format_key(first.key) {
                return Ok((Format::Plain, rows));
            }
            if !is_format_text(&first.text) {
                return Err(RowFault::BadRow(first.key));
            }
            Ok((Format::Weighed, &rows[1..]))
        }
        None => Ok((Format::Plain, rows)),
    }
}

// The table of identity answers.
fn sealed_table(alloc: Global, sealed: Sorted<SealedItem>) -> Result<SealedTable, Memory>
    ensures { IfOk result (λ table. (t n : ℕ) → answers_of table.items t n ≡ answers_of sealed.items t n) }
{
    let mut table = SealedTable::new(alloc);
    for item in sealed.into_vec() {
        table.reserve()?;
        table.put(item.tenant, item.number, item.answers);
    }
    Ok(table)
}

// The tables of what is kept.
fn tables(
    alloc: Global,
    registry: Registry,
    numberings: Items<NumberingItem>,
    cases: Sorted<CaseItem>,
    sealed: Sorted<SealedItem>,
) -> Result<Tables, Memory>
    ensures { IfOk result (λ tables. held_by tables ≡ record { lists = registry.lists; numberings = numberings; reports = map case_report cases.items; sealed = answers_of sealed.items }) }
{
    let sealed = sealed_table(alloc, sealed)?;
    Ok(Tables {
        registry,
        numberings,
        cases: Items::of(cases.into_vec()),
        sealed,
    })
}

// The reports of entries, in order.
fn sorted_reports(
    alloc: Global,
    registry: &Registry,
    entries: Items<EntryItem>,
) -> Result<Sorted<CaseItem>, RowFault>
    requires tenants { list_all is_tenant_item registry.now.lists.tenants ≡ true }
    requires entries { IsStrictlySortedBy key_cmp (map entry_key entries) }
    ensures ok { IfOk result (λ cases. reports_of registry.now.lists entries ≡ Ok (map case_report cases.items)) }
    ensures err { IfErr result (IsTrailFault (reports_of registry.now.lists entries)) }
{
    let cases = reports(alloc, registry, entries.into_vec())?;
    Ok(Sorted::of(cases))
}

// The first of the rules of reports and numberings that is broken, or the tables.
fn judge_blames(
    alloc: Global,
    registry: Registry,
    numberings: Items<NumberingItem>,
    cases: Sorted<CaseItem>,
    sealed: Sorted<SealedItem>,
    blames: Blames,
) -> Result<Tables, RowFault>
    requires { list_all is_form_item registry.lists.forms ≡ true }
    ensures ok { IfOk result (λ tables. (k : ItemsByKindData) → k.lists ≡ registry.lists → k.numberings ≡ numberings → k.sealed ≡ sealed.items → AreBlames k blames → AreJudged k cases.items (Ok (held_by tables))) }
    ensures err { IfErr result (λ fault. fault ≢ faults.Memory → (k : ItemsByKindData) → k.lists ≡ registry.lists → k.numberings ≡ numberings → k.sealed ≡ sealed.items → AreBlames k blames → AreJudged k cases.items (Err fault)) }
{
    let seal = first_wrong_seal(alloc, &registry, &cases, sealed.as_slice())?;
    match report_fault(blames, seal) {
        Some(fault) => Err(fault),
        None => Ok(tables(alloc, registry, numberings, cases, sealed)?),
    }
}

// The tables of what is kept, where the rules of reports and numberings hold.
fn judge_reports(
    alloc: Global,
    registry: Registry,
    numberings: Items<NumberingItem>,
    entries: Items<EntryItem>,
    sealed: Items<SealedItem>,
) -> Result<Tables, RowFault>
    requires tenants { list_all is_tenant_item registry.lists.tenants ≡ true }
    requires forms { list_all is_form_item registry.lists.forms ≡ true }
    requires entries { IsStrictlySortedBy key_cmp (map entry_key entries) }
    requires sealed { IsAscending pair_cmp sealed_place sealed }
    ensures ok { IfOk result (λ tables. judged_reports (record { lists = registry.lists; numberings = numberings; entries = entries; sealed = sealed }) (reports_of registry.lists entries) ≡ Ok (held_by tables)) }
    ensures err { IfErr result (λ fault. fault ≢ faults.Memory → judged_reports (record { lists = registry.lists; numberings = numberings; entries = entries; sealed = sealed }) (reports_of registry.lists entries) ≡ Err fault) }
{
    let sealed = Sorted::of(sealed.into_vec());
    let blames = find_blames(
        alloc,
        &registry,
        numberings.as_slice(),
        entries.as_slice(),
        &sealed,
    )?;
    match sorted_reports(alloc, &registry, entries) {
        Ok(cases) => judge_blames(alloc, registry, numberings, cases, sealed, blames),
        Err(fault) => Err(fault),
    }
}

// The tables of what is kept, where the rules hold. All rows are handed in for the first.
fn judge(alloc: Global, rows: &[Row], kept: ItemsByKind) -> Result<Tables, RowFault>
    requires tenants { list_all is_tenant_item kept.lists.tenants ≡ true }
    requires forms { list_all is_form_item kept.lists.forms ≡ true }
    requires lists { AreInOrder kept.lists }
    requires entries { IsStrictlySortedBy key_cmp (map entry_key kept.entries) }
    requires sealed { IsAscending pair_cmp sealed_place kept.sealed }
    ensures ok { IfOk result (λ tables. judged_kept rows.now kept ≡ Ok (held_by tables)) }
    ensures err { IfErr result (λ fault. fault ≢ faults.Memory → judged_kept rows.now kept ≡ Err fault) }
{
    let ItemsByKind {
        lists,
        numberings,
        entries,
        sealed,
    } = kept;
    let registry = Registry::over(lists);
    if let Some(fault) = list_fault(alloc, rows, &registry, numberings.as_slice())? {
        return Err(fault);
    }
    judge_reports(alloc, registry, numberings, entries, sealed)
}

// The tables of rows of a format but for the row that says it, which stand in the order of their keys, each key once.
fn read_own(alloc: Global, format: Format, rows: &[Row]) -> Result<Tables, RowFault>
    requires { IsStrictlySortedBy key_cmp (map key_of rows.now) }
    ensures ok { IfOk result (λ tables. judged_in format rows.now ≡ Ok (held_by tables)) }
    ensures err { IfErr result (λ fault. fault ≢ faults.Memory → judged_in format rows.now ≡ Err fault) }
    ensures rows { IfOk result (λ tables. own_rows format (held_by tables) ≡ rows.now) }
    ensures set_up { IfOk result (λ tables. AreSetUp tables.registry.lists) }
    ensures legal { IfOk result (λ tables. list_all (is_legal_report tables.registry.lists) (map case_report tables.cases) ≡ true) }
    ensures kept { IfOk result (λ tables. (t : ℕ) → AreKept (time_of (held_by tables)) tables.registry.lists t (tables_of (held_by tables) t)) }
    ensures readable { IfOk result (λ tables. (t : ℕ) → has_tenant tables.registry.lists t ≡ true → AreReadable t (tables_of (held_by tables) t)) }
    ensures stored { IfOk result (λ tables. are_stored tables.registry.lists ≡ true) }
    ensures others { IfOk result (λ tables. (t : ℕ) → has_tenant tables.registry.lists t ≡ false → tables_of (held_by tables) t ≡ empty_tables (registry_of tables.registry.lists t)) }
    ensures whole { IfOk result (λ tables. own_rows_of_tenants format (tenancies_of (held_by tables)) ≡ rows.now) }
{
    let items = read_items(alloc, format, rows)?;
    let kept = sort_items(alloc, items)?;
    judge(alloc, rows, kept)
}

/// The tables of rows, which stand in the order of their keys, each key once, as a keeper loads them. They are of format 2 where the row of
/// the format is there, and else of format 1.
///
/// A fault but want of memory is exact: the least key whose row is not good, else the least rule that is broken and the
/// least key that breaks it. A look-up halves a list, or goes over what a tenant or a host has at most: 64 tenants.
pub fn read(alloc: Global, rows: Vec<Row>) -> Result<Tables, RowFault>
    requires { IsStrictlySortedBy key_cmp (map key_of rows.items) }
    ensures ok { IfOk result (λ tables. judged rows.items ≡ Ok (held_by tables)) }
    ensures err { IfErr result (λ fault. fault ≢ faults.Memory → judged rows.items ≡ Err fault) }
    // The rows of tables that keep the rules are read as these tables, and are refused for want of memory alone.
    ensures back { (at : ℕ) (h : Held) → AreGood at h → rows_of h ≡ rows.items → IfOk result (λ tables. held_by tables ≡ h) }
    ensures unrefused { (at : ℕ) (h : Held) → AreGood at h → rows_of h ≡ rows.items → IfErr result (λ fault. fault ≡ faults.Memory) }
    // So are the rows that hosts left.
    ensures left { (past : Past AllOpened) → IsReadBack past → rows_left past ≡ rows.items → IfOk result (λ tables. held_by tables ≡ left_by past) }
    ensures unrefused_left { (past : Past AllOpened) → IsReadBack past → rows_left past ≡ rows.items → IfErr result (λ fault. fault ≡ faults.Memory) }
    // So are the rows of format 1 of such tables without a scored form.
    ensures back_plain { (at : ℕ) (h : Held) → AreGood at h → list_all (is_kept_in Plain) (items_of h) ≡ true → rows_in Plain h ≡ rows.items → IfOk result (λ tables. held_by tables ≡ h) }
    ensures unrefused_plain { (at : ℕ) (h : Held) → AreGood at h → list_all (is_kept_in Plain) (items_of h) ≡ true → rows_in Plain h ≡ rows.items → IfErr result (λ fault. fault ≡ faults.Memory) }
    // What is read is all that the rows say.
    ensures rows { IfOk result (λ tables. rows_in (format_in rows.items) (held_by tables) ≡ rows.items) }
    // What tenants are set up with is such as an opening asks for.
    ensures set_up { IfOk result (λ tables. AreSetUp tables.registry.lists) }
    ensures legal { IfOk result (λ tables. list_all (is_legal_report tables.registry.lists) (map case_report tables.cases) ≡ true) }
    // The tables of each tenant keep the rules that an opening asks for.
    ensures kept { IfOk result (λ tables. (t : ℕ) → AreKept (time_of (held_by tables)) tables.registry.lists t (tables_of (held_by tables) t)) }
    // They are such that their rows are read back after turns.
    ensures readable { IfOk result (λ tables. (t : ℕ) → has_tenant tables.registry.lists t ≡ true → AreReadable t (tables_of (held_by tables) t)) }
    ensures stored { IfOk result (λ tables. are_stored tables.registry.lists ≡ true) }
    // Nothing is held of a tenant that is not there.
    ensures others { IfOk result (λ tables. (t : ℕ) → has_tenant tables.registry.lists t ≡ false → tables_of (held_by tables) t ≡ empty_tables (registry_of tables.registry.lists t)) }
    // The rows of the tenants that are there, in the format of the rows read, are the rows read.
    ensures whole { IfOk result (λ tables. rows_in_of_tenants (format_in rows.items) (tenancies_of (held_by tables)) ≡ rows.items) }
{
    match parted(rows.as_slice()) {
        Ok((format, own)) => read_own(alloc, format, own),
        Err(fault) => Err(fault),
    }
}

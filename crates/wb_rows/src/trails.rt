//! The rule of trails: the reports of entries, each trail from 1 without a gap, each entry legal after those before it.
ghost use Rattle.std.specs.Prelude.{◌≡◌, ◌+◌, ◌==◌, ◌∷◌, List, length, map, true, Ok, IfOk, IfErr, OnOk};
ghost use Rattle.std.specs.List.{list_all};
ghost use Rattle.wb_base.specs.Calendars.{plain as plain_one};
ghost use Rattle.wb_base.specs.Days.{IsOffset};
ghost use Rattle.wb_row_codec.specs.declared.item.EntryItem.{EntryItem as EntryData};
ghost use Rattle.wb_custody.specs.Desks.{HasRoom};
ghost use Rattle.wb_model.specs.declared.registry.Lists.{Lists};
ghost use Rattle.wb_model.specs.Legal.{is_next, is_first as is_first_of};
ghost use Rattle.wb_model.specs.SetUps.{is_tenant_item};
ghost use Rattle.wb_rows.specs.Growing.{rest_of, with_all, IsOpenIn, AreReady, IsBlame, IsTrailFault, after_all};
ghost use Rattle.wb_rows.specs.Reports.{case_report};
ghost use Rattle.wb_rows.specs.OpenReports.{report_of, IsOpen, IsStill};
ghost use Rattle.wb_rows.specs.Places.{entry_key as entry_key_of};
ghost use Rattle.wb_rows.specs.Reckoned.{reckoned};
ghost use Rattle.wb_rows.specs.TrailRule.{days as days_at, begun, continued, is_of as is_of_report, begins, goes_on, reports_after, reports_of};

use crate::cases::CaseItem;
use crate::days::Days;
use crate::faults::RowFault;
use crate::keys::entry_key;
use crate::legal::is_first;
use crate::open::Open;
use std::alloc::Global;
use wb_base::{Calendar, Memory, Tenant};
use wb_case::Case;
use wb_row_codec::EntryItem;
use wb_tenants::Registry;

// How a tenant reckons days: at UTC and on a plain calendar where the tenant is not there.
fn days_of<'a>(registry: &'a Registry, plain: &'a Calendar, tenant: Tenant) -> Days<'a>
    requires tenants { list_all is_tenant_item registry.now.lists.tenants ≡ true }
    requires plain { plain.now ≡ plain_one }
    ensures days { reckoned result ≡ days_at registry.now.lists tenant }
    ensures range { IsOffset result.offset }
{
    match registry.tenant(tenant) {
        Some(item) => Days {
            offset: item.offset,
            calendar: &item.calendar,
        },
        None => Days {
            offset: 0,
            calendar: plain,
        },
    }
}

// Whether a place is the next one of a trail.
fn is_next_place(case: &Case, place: u32) -> bool
    ensures { result ≡ (place == length case.now.items + 1) }
{
    0 < place && (place - 1) as usize == case.trail().len()
}

// Whether an entry is of a report.
fn is_of(report: &Open, item: &EntryItem) -> bool
    ensures { result ≡ is_of_report (report_of report.now) item.now }
{
    report.tenant == item.tenant && report.number == item.number
}

// Whether an entry begins a trail.
#[tactic(auto, unfolding(crate::specs::TrailRule::begins))]
fn may_begin(days: &Days, item: &EntryItem) -> bool
    requires { IsOffset days.now.offset }
    ensures begins { (lists : Lists) → days_at lists item.now.tenant ≡ reckoned days.now → result ≡ begins lists item.now }
    ensures first { result ≡ true → is_first_of (reckoned days.now) item.now.entry ≡ true }
{
    item.place == 1 && is_first(days, &item.entry)
}

// The report that an entry begins.
fn begin(alloc: Global, registry: &Registry, item: EntryItem) -> Result<Open, RowFault>
    requires { list_all is_tenant_item registry.now.lists.tenants ≡ true }
    ensures begins { OnOk result (begins registry.now.lists item ≡ true) }
    ensures report { IfOk result (λ o. report_of o ≡ begun item) }
    ensures ready { IfOk result (IsOpenIn registry.now.lists) }
    ensures err { IfErr result (IsBlame (begins registry.now.lists item) (entry_key_of item)) }
{
    let plain = Calendar::plain(alloc);
    let days = days_of(registry, &plain, item.tenant);
    if !may_begin(&days, &item) {
        return Err(RowFault::BadSet(5, entry_key(&item)));
    }
    let report = Open::start(alloc, &days, item.tenant, item.number, item.entry)?;
    Ok(report)
}

// Whether an entry goes on with a report. Then there is room for it.
#[tactic(auto, unfolding(crate::specs::TrailRule::goes_on))]
fn may_go_on(
    alloc: Global,
    days: &Days,
    report: &mut Open,
    item: &EntryItem,
) -> Result<bool, Memory>
    requires offset { IsOffset days.now.offset }
    requires ready { IsOpen (reckoned days.now) report.old }
    ensures goes_on { IfOk result (λ may. (lists : Lists) → days_at lists report.old.tenant ≡ reckoned days.now → may ≡ goes_on lists (report_of report.old) item.now) }
    ensures next { result ≡ Ok true → is_next (reckoned days.now) report.old.last report.old.case.items item.now.entry ≡ true }
    ensures still { IsStill report.old report.new }
    ensures room { result ≡ Ok true → HasRoom report.new.desk item.now.entry.deed }
{
    if !is_next_place(&report.case, item.place) {
        return Ok(false);
    }
    report.judge(alloc, days, &item.entry)
}

// A report with one more entry of its own.
fn go_on(
    alloc: Global,
    registry: &Registry,
    report: Open,
    item: EntryItem,
) -> Result<Open, RowFault>
    requires tenants { list_all is_tenant_item registry.now.lists.tenants ≡ true }
    requires ready { IsOpenIn registry.now.lists report }
    ensures goes_on { OnOk result (goes_on registry.now.lists (report_of report) item ≡ true) }
    ensures report { IfOk result (λ o. report_of o ≡ continued (report_of report) item) }
    ensures ready { IfOk result (IsOpenIn registry.now.lists) }
    ensures err { IfErr result (IsBlame (goes_on registry.now.lists (report_of report) item) (entry_key_of item)) }
{
    let mut report = report;
    let plain = Calendar::plain(alloc);
    let days = days_of(registry, &plain, report.tenant);
    if !may_go_on(alloc, &days, &mut report, &item)? {
        return Err(RowFault::BadSet(5, entry_key(&item)));
    }
    report.put(&days, item.entry)?;
    Ok(report)
}

// A report whose trail is read.
fn close(report: Open) -> CaseItem
    ensures { case_report result ≡ report_of report }
{
    CaseItem {
        tenant: report.tenant,
        number: report.number,
        case: report.case,
    }
}

// The report that is read so far after one more entry. Where the entry begins another report, the one before is done.
fn next(
    alloc: Global,
    registry: &Registry,
    done: &mut Vec<CaseItem>,
    report: Option<Open>,
    item: EntryItem,
) -> Result<Open, RowFault>
    requires tenants { list_all is_tenant_item registry.now.lists.tenants ≡ true }
    requires ready { AreReady registry.now.lists report }
    ensures ready { IfOk result (IsOpenIn registry.now.lists) }
    ensures ok { IfOk result (λ o. (left : List EntryData) → after_all done.old.items (rest_of registry.now.lists report (item ∷ left)) ≡ after_all done.new.items (reports_after registry.now.lists (report_of o) left)) }
    ensures err { IfErr result (λ fault. (left : List EntryData) → IsTrailFault (with_all (map case_report done.old.items) (rest_of registry.now.lists report (item ∷ left))) fault) }
{
    match report {
        None => begin(alloc, registry, item),
        Some(report) => {
            if is_of(&report, &item) {
                return go_on(alloc, registry, report, item);
            }
            done.push(close(report))?;
            begin(alloc, registry, item)
        }
    }
}

/// The reports of entries, or the key of the first entry that breaks the rule.
pub fn reports(
    alloc: Global,
    registry: &Registry,
    entries: Vec<EntryItem>,
) -> Result<Vec<CaseItem>, RowFault>
    requires { list_all is_tenant_item registry.now.lists.tenants ≡ true }
    ensures ok { IfOk result (λ cases. reports_of registry.now.lists entries.items ≡ Ok (map case_report cases.items)) }
    ensures err { IfErr result (IsTrailFault (reports_of registry.now.lists entries.items)) }
{
    let mut done = Vec::new(alloc);
    let mut report = None;
    for entry in entries {
        match next(alloc, registry, &mut done, report, entry) {
            Ok(open) => report = Some(open),
            Err(fault) => return Err(fault),
        }
    }
    if let Some(report) = report {
        done.push(close(report))?;
    }
    Ok(done)
}

//! A user's register.
ghost use Rattle.std.specs.Prelude.{◌≡◌, ◌++◌, ◌∷◌, [], if◌then◌else◌, codes, OnOk, IfOk};
ghost use Rattle.std.specs.Prelude.{Some, true, not, length, ◌==◌, ◌&&◌, int_lt};
ghost use Rattle.std.specs.List.{list_all};
ghost use Rattle.wb_model.specs.Openings.{registry_of};
ghost use Rattle.wb_model.specs.SetUps.{is_tenant_item};
ghost use Rattle.wb_model.specs.Trails.{expires, reads as reads_by};
ghost use Rattle.wb_tenants.specs.Sets.{HasTenant};
ghost use Rattle.wb_rows.specs.Held.{held_by};
ghost use Rattle.wb_rows.specs.Openings.{tables_of};
ghost use Rattle.wb_export.specs.Csv.{IsCsvLine, CsvLine};
ghost use Rattle.wb_export.specs.Registers.{day_field, register_line, register_text};

use crate::lines::{add, add_day, add_number, begin, end, put};
use csv::ByteRecord;
use std::alloc::Global;
use wb_base::{Day, Memory, Moment, Number, Tenant, UserId};
use wb_case::Case;
use wb_json::status_name;
use wb_rows::{CaseItem, Tables};
use wb_terms::day_of;

const HEADER: [&[u8]; 10] = [
    b"number",
    b"context",
    b"label",
    b"status",
    b"received",
    b"ack_due",
    b"acknowledged",
    b"feedback_due",
    b"expires",
    b"identity",
];

// Puts a day that may be missing at the end of a line.
fn add_day_or_none(line: &mut ByteRecord, day: Option<Day>) -> Result<(), Memory>
    ensures { OnOk result ((before : CsvLine) → IsCsvLine line.old before → IsCsvLine line.new (before ++ day_field day ∷ [])) }
{
    match day {
        Some(day) => add_day(line, day),
        None => add(line, &[]),
    }
}

// Whether there is an identity answer, as a field.
fn identity_field(has_identity: bool) -> &'static str
    ensures { result.now ≡ (if has_identity then codes "sealed" else codes "none") }
{
    if has_identity { "sealed" } else { "none" }
}

// The line of a report.
fn line_of(alloc: Global, number: Number, case: &Case) -> Result<ByteRecord, Memory>
    ensures { IfOk result (λ line. IsCsvLine line (register_line (record { number = number; trail = case.now.items }))) }
{
    let summary = case.summary();
    let mut line = ByteRecord::new(alloc);
    add_number(&mut line, number.get())?;
    add_number(&mut line, summary.context)?;
    add(&mut line, case.label().as_bytes())?;
    add(&mut line, status_name(summary.status).as_bytes())?;
    add_day(&mut line, summary.received)?;
    add_day(&mut line, summary.ack_due)?;
    add_day_or_none(&mut line, summary.acknowledged)?;
    add_day(&mut line, summary.feedback_due)?;
    add_day(&mut line, summary.expires)?;
    add(&mut line, identity_field(summary.has_identity).as_bytes())?;
    Ok(line)
}

// Whether a report is live on its tenant's day.
fn lives(case: &Case, today: Day) -> bool
    ensures { result ≡ (not (length case.now.items == 0) && int_lt today (expires case.now.items)) }
{
    case.trail().len() != 0 && today < case.summary().expires
}

// Whether a user reads a report.
fn reads(case: &Case, user: UserId) -> bool
    ensures { result ≡ reads_by user case.now.items }
{
    case.summary().readers.contains(user)
}

// Whether a report is a tenant's, live on its day, and read by a user.
fn is_in(item: &CaseItem, tenant: Tenant, today: Day, user: UserId) -> bool
    ensures { result ≡ ((item.now.tenant == tenant) && ((not (length item.now.case.items == 0) && int_lt today (expires item.now.case.items)) && reads_by user item.now.case.items)) }
{
    item.tenant == tenant && lives(&item.case, today) && reads(&item.case, user)
}

/// The live reports of a tenant that a user reads, a line a report, in the order of the tables: by number, where they are those of kept rows. The
/// header is `number,context,label,status,received,ack_due,acknowledged,feedback_due,expires,identity`. Days are the tenant's. Of identity answers
/// it tells whether there are any.
pub fn register(
    alloc: Global,
    tables: &Tables,
    tenant: Tenant,
    user: UserId,
    now: Moment,
) -> Result<Vec<u8>, Memory>
    requires there { HasTenant tables.now.registry.lists tenant }
    requires tenants { list_all is_tenant_item tables.now.registry.lists.tenants ≡ true }
    ensures { IfOk result (λ text. text.items ≡ register_text (registry_of tables.now.registry.lists tenant) now user (tables_of (held_by tables.now) tenant).plain.cases) }
{
    let Some(settings) = tables.registry.tenant(tenant) else {
        unreachable!()
    };
    let today = day_of(now, settings.offset);
    let mut lines = begin(alloc, &HEADER)?;
    for item in tables.cases.as_slice() {
        if is_in(item, tenant, today, user) {
            put(&mut lines, &line_of(alloc, item.number, &item.case)?)?;
        }
    }
    Ok(end(lines)?)
}

//! What expires by a day.
ghost use Rattle.std.specs.Prelude.{◌≡◌, ℤ, filter, map, List, IfOk, OnOk};
ghost use Rattle.std.specs.List.Sorted.{IsSortedBy};
ghost use Rattle.wb_export.specs.Csv.{IsCsvLine};
ghost use Rattle.wb_export.specs.Forecasts.{IsForecast, expires_before, expires_by, expires_on, expiring, forecast_line, forecast_text};
ghost use Rattle.wb_export.specs.declared.forecasts.Expiring.{Expiring as Row};
ghost use Rattle.wb_rows.specs.Reports.{case_report};
ghost use Rattle.wb_rows.specs.Held.{held_by};
ghost use Rattle.wb_rows.specs.Openings.{cases_of, tables_of};

use crate::lines::{add_day, add_number, begin, end, put};
use csv::ByteRecord;
use std::alloc::Global;
use wb_base::{Day, Memory, Number, Tenant};
use wb_rows::{CaseItem, Tables};

/// A report that expires, and the day on which it does.
#[derive(Clone, Copy, Debug, PartialEq, Eq)]
pub struct Expiring {
    pub number: Number,
    pub expires: Day,
}

// The reports of a tenant that expire by a day, in the order in which they stand.
fn expiring_by(
    alloc: Global,
    cases: &[CaseItem],
    tenant: Tenant,
    day: Day,
) -> Result<Vec<Expiring>, Memory>
    ensures { IfOk result (λ rows. rows.items ≡ map expiring (filter (expires_by day) (cases_of (map case_report cases.now) tenant))) }
{
    let mut rows = Vec::new(alloc);
    for item in cases {
        let expires = item.case.summary().expires;
        if item.tenant == tenant && expires <= day {
            rows.push(Expiring {
                number: item.number,
                expires,
            })?;
        }
    }
    Ok(rows)
}

// Sorts by expiry; what expires on one day stays in its order.
fn sort(rows: &mut Vec<Expiring>) -> Result<(), Memory>
    ensures by_expiry { OnOk result (IsSortedBy expires_before rows.new.items) }
    ensures of_each_day { OnOk result ((d : ℤ) → filter (expires_on d) rows.new.items ≡ filter (expires_on d) rows.old.items) }
{
    rows.sort_by_key(|row| row.expires.days())?;
    Ok(())
}

// The line of a report that expires.
fn line_of(alloc: Global, row: &Expiring) -> Result<ByteRecord, Memory>
    ensures { IfOk result (λ line. IsCsvLine line (forecast_line row.now)) }
{
    let mut line = ByteRecord::new(alloc);
    add_number(&mut line, row.number.get())?;
    add_day(&mut line, row.expires)?;
    Ok(line)
}

// The text of these rows.
fn text_of(alloc: Global, rows: &[Expiring]) -> Result<Vec<u8>, Memory>
    ensures { IfOk result (λ text. text.items ≡ forecast_text rows.now) }
{
    let mut lines = begin(alloc, &[b"number".as_slice(), b"expires".as_slice()])?;
    for row in rows {
        put(&mut lines, &line_of(alloc, row)?)?;
    }
    Ok(end(lines)?)
}

/// The reports of a tenant that expire by a day, by expiry, and of one day in the order of the tables, with a header: `number,expires`. That they are
/// what goes in a turn on that day is the law `a_forecast_is_what_goes`.
pub fn forecast(alloc: Global, tables: &Tables, tenant: Tenant, day: Day) -> Result<Vec<u8>, Memory>
    ensures { IfOk result (λ text. (found : List Row) × IsForecast day (tables_of (held_by tables.now) tenant).plain.cases found × (text.items ≡ forecast_text found)) }
{
    let mut rows = expiring_by(alloc, tables.cases.as_slice(), tenant, day)?;
    sort(&mut rows)?;
    Ok(text_of(alloc, rows.as_slice())?)
}

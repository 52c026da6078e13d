//! The reports that are live at a time.
ghost use Rattle.std.specs.Prelude.{◌≡◌, None, Some, if◌then◌else◌, option_and_then, option_map, IfSome};
ghost use Rattle.std.specs.Option.{option_copied};
ghost use Rattle.wb_base.specs.Days.{day_of as day_at};
ghost use Rattle.wb_model.specs.Access.{requests};
ghost use Rattle.wb_model.specs.Tables.{report as report_by, with_receipt};
ghost use Rattle.wb_model.specs.Trails.{reads as reads_by};
ghost use Rattle.wb_tables.specs.Kept.{case_of, plain_of, live_plain, lives_on};
ghost use Rattle.wb_tables.specs.Places.{IsLookedUp};

use crate::noting::expires;
use crate::tenancy::{Report, Tenancy};
use wb_base::{Day, Digest, Moment, UserId};
use wb_terms::day_of;

/// Whether a report is live on its tenant's day.
pub fn lives(report: &Report, today: Day) -> bool
    ensures { result ≡ lives_on today (case_of report.now) }
{
    report.case.trail().len() != 0 && today < expires(report)
}

/// Whether a user reads a report.
pub fn reads(report: &Report, user: UserId) -> bool
    ensures { result ≡ reads_by user report.now.case.items }
{
    report.case.summary().readers.contains(user)
}

/// The tenant's day.
pub fn today_at(tenancy: &Tenancy, time: Moment) -> Day
    requires place { IsLookedUp (plain_of tenancy.now) }
    ensures { result ≡ day_at time tenancy.now.configuration.registry.settings.offset }
{
    day_of(time, tenancy.configuration.settings().offset)
}

// What was found, where it lives on a day.
fn living(found: Option<&Report>, today: Day) -> Option<&Report>
    ensures { result ≡ option_and_then (λ report. if lives_on today (case_of report.now) then Some report else None) found.entry }
{
    match found {
        Some(report) if lives(report, today) => Some(report),
        _ => None,
    }
}

/// The report of a number, where it is live.
pub fn live_report(tenancy: &Tenancy, time: Moment, number: u32) -> Option<&Report>
    requires place { IsLookedUp (plain_of tenancy.now) }
    ensures found { option_map case_of (option_copied result) ≡ report_by number (live_plain time (plain_of tenancy.now)).cases }
    ensures custodied { IfSome result (λ report. report.now.desk.items ≡ requests report.now.case.items) }
{
    living(tenancy.cases.find(number), today_at(tenancy, time))
}

/// The live report whose receipt has this digest.
pub fn report_of_receipt<'a>(
    tenancy: &'a Tenancy,
    time: Moment,
    digest: &Digest,
) -> Option<&'a Report>
    requires place { IsLookedUp (plain_of tenancy.now) }
    ensures found { option_map case_of (option_copied result) ≡ with_receipt digest.now (live_plain time (plain_of tenancy.now)).cases }
    ensures custodied { IfSome result (λ report. report.now.desk.items ≡ requests report.now.case.items) }
{
    living(tenancy.cases.with_receipt(digest), today_at(tenancy, time))
}

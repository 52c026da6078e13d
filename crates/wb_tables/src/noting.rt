//! What is planned and done on a report in its place in the table.
ghost use Rattle.std.specs.Prelude.{◌≡◌};
ghost use Rattle.wb_model.specs.Trails.{expires as expires_by};
ghost use Rattle.wb_tables.specs.Indexed.{has_dues as has_dues_by};
ghost use Rattle.wb_tables.specs.Lives.{case_of};

use crate::boxed_report::BoxedReport;
use crate::tenancy::Report;
use wb_base::{Calendar, Day, Moment};
use wb_list::ItemChange;
use wb_model::{Act, Actor, CaseFault, CustodyFault, Entry, Move, Status};

/// An act that is planned on a tenant's calendar.
#[derive(Drop)]
pub(crate) struct Acting<'a> {
    pub(crate) at: Moment,
    pub(crate) by: Actor,
    pub(crate) act: Act,
    pub(crate) calendar: &'a Calendar,
}

impl ItemChange<BoxedReport> for Acting<'_> {
    type Answer = Result<Entry, CaseFault>;

    ghost use Rattle.wb_case.specs.Plans.{IsInRange};
    ghost use Rattle.wb_tables.specs.Noted.{IsActed};

    ghost asks = { λ acting report. IsInRange report.case.items acting.act };

    ghost makes = { λ acting old new answer. IsActed acting.calendar.now acting.at acting.by acting.act old new answer };

    fn change(self, filed: &mut BoxedReport) -> Result<Entry, CaseFault> {
        let case = &mut filed.report.case;
        case.plan(self.at, self.by, self.act, self.calendar)
    }
}

/// A move with the requests for a report's identity that is planned.
#[derive(Drop)]
pub(crate) struct Moving {
    pub(crate) at: Moment,
    pub(crate) by: Actor,
    pub(crate) move_: Move,
}

impl ItemChange<BoxedReport> for Moving {
    type Answer = Result<Entry, CustodyFault>;

    ghost use Rattle.std.specs.Prelude.{◌≡◌, ◌≤◌, length, false};
    ghost use Rattle.wb_model.specs.Legal.{is_reporter};
    ghost use Rattle.wb_tables.specs.Noted.{IsMoved};

    ghost asks = { λ moving report. (length report.desk.items ≤ 100) × (is_reporter moving.by ≡ false) };

    ghost makes = { λ moving old new answer. IsMoved moving.at moving.by moving.move_ old new answer };

    fn change(self, filed: &mut BoxedReport) -> Result<Entry, CustodyFault> {
        let report = &mut filed.report;
        let entries = report.case.trail().len();
        let mark = report.case.summary().has_identity;
        match report
            .desk
            .plan(entries, mark, self.at, self.by, self.move_)
        {
            Ok(entry) => match report.case.reserve() {
                Ok(()) => Ok(entry),
                Err(_) => Err(CustodyFault::Memory),
            },
            Err(fault) => Err(fault),
        }
    }
}

/// One more entry.
#[derive(Drop)]
pub(crate) struct Noting(pub(crate) Entry);

/// What the indexes have of a report and an entry: the days on which it expired before the entry and expires after it,
/// and whether it has requests after it, and something is due on it.
#[derive(Clone, Copy)]
pub(crate) struct NotedEntry {
    pub(crate) before: Day,
    pub(crate) after: Day,
    pub(crate) has_requests: bool,
    pub(crate) has_dues: bool,
}

// The day on which a report expires.
pub(crate) fn expires(report: &Report) -> Day
    ensures { result ≡ expires_by report.now.case.items }
{
    report.case.summary().expires
}

// Whether something is due on a report: it is open, and was not acknowledged or got no feedback.
pub(crate) fn has_dues(report: &Report) -> bool
    ensures { result ≡ has_dues_by (case_of report.now) }
{
    let summary = report.case.summary();
    summary.status != Status::Closed && (summary.acknowledged.is_none() || !summary.feedback_given)
}

impl ItemChange<BoxedReport> for Noting {
    type Answer = NotedEntry;

    ghost use Rattle.wb_tables.specs.Noted.{HasRoomToNote, IsNoted};

    ghost asks = { λ noting report. HasRoomToNote noting.0 report };

    ghost makes = { λ noting old new answer. IsNoted noting.0 old new answer };

    fn change(self, filed: &mut BoxedReport) -> NotedEntry {
        let report = &mut filed.report;
        let before = expires(report);
        report.desk.take(&self.0);
        report.case.take(self.0);
        NotedEntry {
            before,
            after: expires(report),
            has_requests: report.desk.len() != 0,
            has_dues: has_dues(report),
        }
    }
}

//! Reports on the heap, where a table moves each at the cost of a pointer.
ghost use Rattle.std.specs.Prelude.{◌≡◌, [], IfOk};
ghost use Rattle.std.specs.Option.{option_copied};

use crate::tenancy::Report;
use std::alloc::Global;
use std::cmp::Ordering;
use std::marker::Model;
use wb_base::{Memory, Number};
use wb_case::Case;
use wb_custody::AccessDesk;
use wb_list::Keyed;

/// A report in its table, seen as the report.
#[derive(Drop)]
pub struct BoxedReport {
    pub(crate) report: Box<Report>,
}

impl Model for BoxedReport {
    ghost use Rattle.wb_tables.specs.declared.tenancy.Report.{Report as ReportData};

    ghost Value = { ReportData };

    ghost view = { λ filed. filed.report.value };
}

impl BoxedReport {
    /// Puts a report on the heap.
    pub fn new(alloc: Global, report: Report) -> Result<BoxedReport, Memory>
        ensures { IfOk result (λ filed. filed ≡ report) }
    {
        match Box::new(alloc, report) {
            Ok(report) => Ok(BoxedReport { report }),
            Err(_) => Err(Memory),
        }
    }

    /// The report.
    pub fn report(&self) -> &Report
        ensures { result.now ≡ self.now }
    {
        &self.report
    }
}

impl Keyed for BoxedReport {
    type Key = u32;

    ghost key_of = { λ report. report.number };

    fn compare(&self, key: &u32) -> Ordering {
        self.report.number.get().cmp(key)
    }

    fn compare_to(&self, other: &BoxedReport) -> Ordering {
        self.report.number.cmp(&other.report.number)
    }
}

/// The report in what was found.
pub(crate) fn report_in(found: Option<&BoxedReport>) -> Option<&Report>
    ensures { option_copied result ≡ option_copied found.entry }
{
    match found {
        Some(filed) => Some(filed.report()),
        None => None,
    }
}

/// A report whose number is not drawn yet, and for whose identity nobody asked, seen as its trail and the room that it has
/// for more. It is made before a turn is kept, so that nothing takes memory after that.
#[derive(Drop)]
pub struct UnnumberedReport {
    report: Box<Report>,
}

impl Model for UnnumberedReport {
    ghost use Rattle.std.specs.Prelude.{◌≡◌, []};
    ghost use Rattle.wb_list.specs.Room.{Room};
    ghost use Rattle.wb_model.specs.declared.entry.Entry.{Entry};

    ghost Value = { Room Entry };

    ghost view = { λ begun. begun.report.value.case };

    ghost invariant = { λ begun. begun.report.value.desk.items ≡ [] };
}

// What stands for the number of a report until that is drawn.
fn first_number() -> Number {
    match Number::try_new(1) {
        Some(number) => number,
        None => unreachable!(),
    }
}

impl UnnumberedReport {
    /// The report that begins with a trail.
    pub fn new(alloc: Global, case: Case) -> Result<UnnumberedReport, Memory>
        ensures { IfOk result (λ begun. begun.items ≡ case.items) }
    {
        let report = Report {
            number: first_number(),
            case,
            desk: AccessDesk::new(alloc),
        };
        match Box::new(alloc, report) {
            Ok(report) => Ok(UnnumberedReport { report }),
            Err(_) => Err(Memory),
        }
    }

    /// Its trail, with what that says.
    pub fn case(&self) -> &Case
        ensures { result.now.items ≡ self.now.items }
    {
        &self.report.case
    }

    /// The report with its number. It takes no memory.
    pub fn numbered(self, number: Number) -> BoxedReport
        ensures number { result.number ≡ number }
        ensures trail { result.case.items ≡ self.items }
        ensures requests { result.desk.items ≡ [] }
    {
        let UnnumberedReport { mut report } = self;
        report.number = number;
        BoxedReport { report }
    }
}

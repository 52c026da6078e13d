//! Moments: the later of two, and the greatest that is kept, to which a host is opened.
ghost use Rattle.std.specs.Prelude.{◌≡◌, ◌≤◌, map, max};
ghost use Rattle.wb_model.specs.Reopened.{latest};
ghost use Rattle.wb_rows.specs.Reports.{case_report};
ghost use Rattle.wb_rows.specs.Held.{held_by};
ghost use Rattle.wb_rows.specs.Openings.{report_moments, time_of};

use wb_base::Moment;
use wb_model::Entry;
use wb_rows::{CaseItem, NumberingItem, Tables};

/// The moment before all others.
pub fn first_moment() -> Moment
    ensures { result ≡ 0 }
{
    let Some(first) = Moment::try_new(0) else {
        unreachable!();
    };
    first
}

/// The later of two moments.
pub fn later(time: Moment, moment: Moment) -> Moment
    ensures later { result ≡ max time moment }
    ensures most { result ≤ 99_999_999_999 }
{
    let last = if time < moment { moment } else { time };
    let _bounded = last.seconds();
    last
}

// The latest of the last draws.
fn latest_draw(numberings: &[NumberingItem]) -> Moment
    ensures { result ≡ latest (map (λ item. item.numbering.at) numberings.now) }
{
    let mut last = first_moment();
    for item in numberings {
        last = later(last, item.numbering.at);
    }
    last
}

// The latest of a moment and a trail's entries.
fn latest_entry(time: Moment, trail: &[Entry]) -> Moment
    ensures { result ≡ max time (latest (map (λ entry. entry.at) trail.now)) }
{
    let mut last = time;
    for entry in trail {
        last = later(last, entry.at);
    }
    last
}

// The latest of a moment and the entries of reports.
fn latest_of_reports(time: Moment, cases: &[CaseItem]) -> Moment
    ensures { result ≡ max time (latest (report_moments (map case_report cases.now))) }
{
    let mut last = time;
    for item in cases {
        last = latest_entry(last, item.case.trail().as_slice());
    }
    last
}

/// The greatest moment that is kept, of the last draws and of the entries.
pub fn latest_kept(tables: &Tables) -> Moment
    ensures { result ≡ time_of (held_by tables.now) }
{
    let drawn = latest_draw(tables.numberings.as_slice());
    latest_of_reports(drawn, tables.cases.as_slice())
}

//! The reports that are live.
ghost use Rattle.std.specs.Prelude.{◌≡◌, ◌&&◌, ℕ, true, IfOk};
ghost use Rattle.std.specs.List.{list_all};
ghost use Rattle.wb_model.specs.Openings.{registry_of};
ghost use Rattle.wb_model.specs.SetUps.{has_tenant, is_tenant_item};
ghost use Rattle.wb_model.specs.Tables as tables;
ghost use Rattle.wb_rows.specs.Reports.{case_report};
ghost use Rattle.wb_rows.specs.Held.{held_by};
ghost use Rattle.wb_rows.specs.Openings.{case_of};
ghost use Rattle.wb_notice.specs.Outbox as outbox;
ghost use Rattle.wb_notice.specs.Owed.{is_live_on, unsealed};
ghost use Rattle.wb_notice.specs.LiveReports.{has_report};

use std::alloc::Global;
use std::cmp::Ordering;
use wb_base::{Day, Memory, Moment, Number, Tenant};
use wb_case::Case;
use wb_list::{Keyed, Sorted};
use wb_rows::{CaseItem, Tables};
use wb_tenants::Registry;
use wb_terms::day_of;

/// Whether a report is live on its tenant's day.
pub(crate) fn lives(case: &Case, today: Day) -> bool
    ensures { (number : ℕ) → result ≡ is_live_on today (record { number = number; trail = case.now.items }) }
{
    case.trail().len() != 0 && today < case.summary().expires
}

/// A live report of a tenant.
#[derive(Clone, Copy, Debug, PartialEq, Eq)]
pub(crate) struct LiveReport {
    tenant: Tenant,
    number: Number,
}

impl Keyed for LiveReport {
    type Key = (Tenant, Number);

    ghost key_of = { λ report. (report.tenant, report.number) };

    fn compare(&self, key: &(Tenant, Number)) -> Ordering {
        self.tenant.cmp(&key.0).then(self.number.cmp(&key.1))
    }

    fn compare_to(&self, other: &LiveReport) -> Ordering {
        self.tenant
            .cmp(&other.tenant)
            .then(self.number.cmp(&other.number))
    }
}

// Whether a report is live at a moment, and its tenant is there.
fn is_live_report(registry: &Registry, item: &CaseItem, now: Moment) -> bool
    requires { list_all is_tenant_item registry.now.lists.tenants ≡ true }
    ensures { result ≡ (has_tenant registry.now.lists item.now.tenant && tables.is_live (registry_of registry.now.lists item.now.tenant).settings now (case_of (case_report item.now))) }
{
    match registry.tenant(item.tenant) {
        Some(settings) => lives(&item.case, day_of(now, settings.offset)),
        None => false,
    }
}

/// The reports of all tenants that are live at a moment.
pub(crate) fn live_reports(
    alloc: Global,
    tables: &Tables,
    now: Moment,
) -> Result<Sorted<LiveReport>, Memory>
    requires { list_all is_tenant_item tables.now.registry.lists.tenants ≡ true }
    ensures { IfOk result (λ reports. (t n : ℕ) → has_report reports.items t n ≡ outbox.lives (unsealed (held_by tables.now)) now t n) }
{
    let mut reports = Sorted::new(alloc);
    for item in tables.cases.as_slice() {
        if is_live_report(&tables.registry, item, now) {
            reports.reserve(1)?;
            reports.set(LiveReport {
                tenant: item.tenant,
                number: item.number,
            });
        }
    }
    Ok(reports)
}

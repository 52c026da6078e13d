//! The reports that are kept, each under its tenant.
ghost use Rattle.std.specs.Prelude.{◌≡◌, ◌<◌, ℕ, true, find, map, Some, IfOk, OnOk};
ghost use Rattle.std.specs.List.{AllByRecursion, list_all};
ghost use Rattle.wb_model.specs.Access.{requests};
ghost use Rattle.wb_model.specs.Legal.{Reckoning, ascends_from, is_legal};
ghost use Rattle.wb_model.specs.Opened.{AtMost};
ghost use Rattle.wb_model.specs.declared.registry.Lists.{Lists};
ghost use Rattle.wb_rows.specs.Reports.{case_report};
ghost use Rattle.wb_rows.specs.TrailRule.{is_legal_report};
ghost use Rattle.wb_tables.specs.Kept.{PlainTenancy, place_of, plain_of};
ghost use Rattle.wb_tables.specs.Places.{is_tenant};
ghost use Rattle.wb_tables.specs.Receipted.{HasOwnReceipt};
ghost use Rattle.wb_recovery.specs.HeldPlaces.{AreToCome, with_case, with_report, with_reports};

use std::alloc::Global;
use wb_base::Memory;
use wb_case::Case;
use wb_custody::{AccessDesk, what_legal_trails_say_of_requests};
use wb_list::Items;
use wb_rows::CaseItem;
use wb_tables::{BoxedReport, Report, Tenancy, place_at};

// The requests for an identity that a legal trail tells.
fn requests_of(alloc: Global, case: &Case) -> Result<AccessDesk, Memory>
    requires { (days : Reckoning) × (is_legal days case.now.items ≡ true) }
    ensures { IfOk result (λ desk. desk.items ≡ requests case.now.items) }
{
    what_legal_trails_say_of_requests();
    match AccessDesk::rebuild(alloc, case.trail()) {
        Ok(desk) => Ok(desk),
        Err(_) => Err(Memory),
    }
}

// Adds a report to its tenant, whose reports have lower numbers and other receipts.
fn add_case(alloc: Global, tenancy: &mut Tenancy, item: CaseItem) -> Result<(), Memory>
    requires above { (last : ℕ) × (AtMost last (plain_of tenancy.old).cases × (last < item.number)) }
    requires own { HasOwnReceipt item.case.items (plain_of tenancy.old).cases }
    requires legal { (days : Reckoning) × (is_legal days item.case.items ≡ true) }
    ensures { OnOk result (place_of tenancy.new ≡ with_case (case_report item) (place_of tenancy.old)) }
{
    let desk = requests_of(alloc, &item.case)?;
    let report = Report {
        number: item.number,
        case: item.case,
        desk,
    };
    let filed = BoxedReport::new(alloc, report)?;
    tenancy.cases.reserve()?;
    tenancy.cases.add(filed);
    Ok(())
}

// Adds a report to its tenant, where that is there.
fn add_report(alloc: Global, tenancies: &mut [Tenancy], item: CaseItem) -> Result<(), Memory>
    requires ids { ascends_from 0 (map (λ (x : PlainTenancy). x.id) (map place_of tenancies.old)) ≡ true }
    requires above { (x : PlainTenancy) → find (is_tenant item.tenant) (map place_of tenancies.old) ≡ Some x → (last : ℕ) × (AtMost last x.plain.cases × (last < item.number)) }
    requires own { (x : PlainTenancy) → find (is_tenant item.tenant) (map place_of tenancies.old) ≡ Some x → HasOwnReceipt item.case.items x.plain.cases }
    requires legal { (days : Reckoning) × (is_legal days item.case.items ≡ true) }
    ensures { OnOk result (map place_of tenancies.new ≡ map (with_report (case_report item)) (map place_of tenancies.old)) }
{
    match place_at(tenancies, item.tenant.id() as u32) {
        Some(at) => {
            let tenancy = &mut tenancies[at];
            add_case(alloc, tenancy, item)
        }
        None => Ok(()),
    }
}

/// Adds the reports that are kept to their tenants. A report of a tenant that is not there is left out.
pub fn add_reports(
    alloc: Global,
    tenancies: &mut [Tenancy],
    cases: Items<CaseItem>,
) -> Result<(), Memory>
    requires ids { ascends_from 0 (map (λ (x : PlainTenancy). x.id) (map place_of tenancies.old)) ≡ true }
    requires to_come { AllByRecursion (AreToCome (map case_report cases)) (map place_of tenancies.old) }
    requires legal { (lists : Lists) × (list_all (is_legal_report lists) (map case_report cases) ≡ true) }
    ensures { OnOk result (map place_of tenancies.new ≡ map (with_reports (map case_report cases)) (map place_of tenancies.old)) }
{
    for item in cases.into_vec() {
        add_report(alloc, tenancies, item)?;
    }
    Ok(())
}

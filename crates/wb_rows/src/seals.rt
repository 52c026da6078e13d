//! Whether identity answers stand where a trail says so, and are valid.
ghost use Rattle.std.specs.Prelude.{◌≡◌, ◌==◌, ◌&&◌, not, length, is_some, is_none, true, find, map, IfOk, Some};
ghost use Rattle.std.specs.List.{list_all};
ghost use Rattle.std.specs.Option.{option_copied, option_map};
ghost use Rattle.wb_base.specs.FormFaults.{is_good};
ghost use Rattle.wb_model.specs.Openings.{registry_of};
ghost use Rattle.wb_model.specs.Requests.{late_fault};
ghost use Rattle.wb_model.specs.SetUps.{is_form_item};
ghost use Rattle.wb_model.specs.Trails.{is_marked as is_marked_by};
ghost use Rattle.wb_rows.specs.Reports.{case_report};
ghost use Rattle.wb_rows.specs.ReportRules.{has_its_seal as has_its_seal_in, is_late_after as is_late_after_in, are_late_answers as are_late_answers_in, is_right_seal as is_right_seal_in, is_report};

use crate::cases::CaseItem;
use std::alloc::Global;
use wb_base::{AnswerFault, Answers, Form, Memory, Tenant};
use wb_custody::SealedItem;
use wb_list::Sorted;
use wb_model::{Deed, Entry};
use wb_row_codec::EntryItem;
use wb_tenants::Registry;
use wb_trigger::check_identity;

// Whether a deed says that identity answers were given.
fn is_marked(deed: &Deed) -> bool
    ensures { result ≡ is_marked_by deed.now }
{
    match deed {
        Deed::Submitted { mark, .. } => *mark,
        Deed::Identity => true,
        _ => false,
    }
}

/// Whether identity answers are there, where an entry says that they were given.
#[tactic(auto, using(crate::proofs::Lookups::sealed_there), unfolding(crate::specs::ReportRules::has_its_seal))]
pub fn has_its_seal(sealed: &Sorted<SealedItem>, item: &EntryItem) -> bool
    ensures { result ≡ has_its_seal_in sealed.now.items item.now }
{
    if is_marked(&item.entry.deed) {
        sealed.find(&(item.tenant, item.number)).is_some()
    } else {
        true
    }
}

// Whether identity answers are some, and valid for a form after public ones.
#[tactic(auto, unfolding(wb_model::specs::Requests::late_fault))]
fn are_valid(alloc: Global, form: &Form, public: &Answers, given: &Answers) -> Result<bool, Memory>
    requires { is_good form.now ≡ true }
    ensures { IfOk result (λ are. are ≡ (not (length given.now == 0) && is_none (late_fault form.now public.now given.now))) }
{
    if given.len() == 0 {
        return Ok(false);
    }
    match check_identity(alloc, form, public, given) {
        Ok(()) => Ok(true),
        Err(fault) => {
            if fault.code == AnswerFault::MEMORY {
                Err(Memory)
            } else {
                Ok(false)
            }
        }
    }
}

// Whether identity answers are some, and valid after the public answers of a submission.
#[tactic(auto, using(crate::proofs::Lookups::none_valid), unfolding(crate::specs::ReportRules::is_late_after))]
fn is_late_after(
    alloc: Global,
    registry: &Registry,
    tenant: Tenant,
    entry: &Entry,
    given: &Answers,
) -> Result<bool, Memory>
    requires { list_all is_form_item registry.now.lists.forms ≡ true }
    ensures { IfOk result (λ is. is ≡ is_late_after_in (registry_of registry.now.lists tenant).forms given.now entry.now) }
{
    match &entry.deed {
        Deed::Submitted {
            answers,
            form,
            version,
            ..
        } => match registry.form(tenant, *form, *version) {
            Some(item) => are_valid(alloc, &item.form, answers, given),
            None => Ok(false),
        },
        _ => Ok(false),
    }
}

// Whether they are that after the submission with which a trail begins.
fn are_late_answers(
    alloc: Global,
    registry: &Registry,
    tenant: Tenant,
    trail: &[Entry],
    given: &Answers,
) -> Result<bool, Memory>
    requires { list_all is_form_item registry.now.lists.forms ≡ true }
    ensures { IfOk result (λ are. are ≡ are_late_answers_in (registry_of registry.now.lists tenant).forms given.now trail.now) }
{
    match trail.first() {
        Some(first) => is_late_after(alloc, registry, tenant, first, given),
        None => Ok(false),
    }
}

// The report of a number.
#[tactic(auto, using(crate::proofs::Lookups::report_there))]
fn find_report<'a>(cases: &'a Sorted<CaseItem>, item: &SealedItem) -> Option<&'a CaseItem>
    ensures { option_map case_report (option_copied result) ≡ find (is_report item.now.tenant item.now.number) (map case_report cases.now.items) }
{
    cases.find(&(item.tenant, item.number))
}

/// Whether identity answers are of a report whose trail says that they were given, and valid.
#[tactic(auto, unfolding(crate::specs::ReportRules::is_right_seal))]
pub fn is_right_seal(
    alloc: Global,
    registry: &Registry,
    cases: &Sorted<CaseItem>,
    item: &SealedItem,
) -> Result<bool, Memory>
    requires { list_all is_form_item registry.now.lists.forms ≡ true }
    ensures { IfOk result (λ is. is ≡ is_right_seal_in registry.now.lists (map case_report cases.now.items) item.now) }
{
    let Some(report) = find_report(cases, item) else {
        return Ok(false);
    };
    if !report.case.summary().has_identity {
        return Ok(false);
    }
    let trail = report.case.trail().as_slice();
    are_late_answers(alloc, registry, item.tenant, trail, &item.answers)
}

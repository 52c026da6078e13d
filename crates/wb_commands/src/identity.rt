//! Identity answers that a reporter gives later.
ghost use Rattle.std.specs.Prelude.{◌≡◌, ◌≢◌, [], Some, true, IfOk, OnOk};
ghost use Rattle.std.specs.Option.{option_copied};
ghost use Rattle.wb_model.specs.Refusals.{faulty as faulty_told};
ghost use Rattle.wb_model.specs.AskingForms.{form_of_trail};
ghost use Rattle.wb_model.specs.Trails as trails;
ghost use Rattle.wb_base.specs.FormFaults.{is_good};
ghost use Rattle.wb_model.specs.Json.{told};
ghost use Rattle.wb_model.specs.ShortViews.{done_view as done_data};
ghost use Rattle.wb_commands.specs.Steps.{GivesAfter, GivesIdentity, WritesDown};
ghost use Rattle.wb_tables.specs.Kept.{plain_of};
ghost use Rattle.wb_tables.specs.Places.{IsLookedUp};

use crate::draft::{Doing, Draft, Writing, refusing, telling};
use crate::sessions::done;
use std::alloc::Global;
use wb_base::{AnswerFault, Answers, Form, Memory};
use wb_list::TryClone;
use wb_model::{Act, Deed, Entry, FormItem, Told};
use wb_tables::{Report, Tenancy, Who};
use wb_trigger::check_identity;
use wb_views::{Refusal, form, refuse_answers, version};

// The public answers of a trail's submission, or these where it has none.
fn public_answers<'a>(trail: &'a [Entry], none: &'a Answers) -> &'a Answers
    requires none { none.now ≡ [] }
    ensures { result.now ≡ trails.answers trail.now }
{
    let mut found = none;
    for entry in trail {
        if let Deed::Submitted { answers, .. } = &entry.deed {
            found = answers;
        }
    }
    found
}

// The form in which a report was made.
fn form_of<'a>(tenancy: &'a Tenancy, report: &Report) -> Option<&'a FormItem>
    ensures { option_copied result ≡ form_of_trail report.now.case.items tenancy.now.configuration.registry.forms }
{
    let trail = report.case.trail().as_slice();
    tenancy.configuration.form(form(trail), version(trail))
}

/// The reply that refuses answers for a fault, which may be want of memory.
pub fn faulty(alloc: Global, fault: AnswerFault) -> Result<Told, Memory>
    ensures code { OnOk result (fault.code ≢ AnswerFault.MEMORY) }
    ensures told { IfOk result (λ told. told ≡ faulty_told fault) }
{
    if fault.code == AnswerFault::MEMORY {
        Err(Memory)
    } else {
        refuse_answers(alloc, fault)
    }
}

// The step of right identity answers: they are written on the report.
fn given(report: &Report, answers: &Answers) -> Result<Draft, Memory>
    ensures { IfOk result (WritesDown (Who.Reporter report.now.number) report.now (Doing.Acts Act.Identity) (Some answers.now) (told 200 done_data)) }
{
    Ok(Draft::Writes(Writing {
        who: Who::Reporter(report.number),
        number: report.number,
        doing: Doing::Acts(Act::Identity),
        given: Some(answers.try_clone()?),
        told: done(200),
    }))
}

// The step of identity answers to a form that asked for them.
fn give_after(
    alloc: Global,
    form: &Form,
    report: &Report,
    answers: &Answers,
) -> Result<Draft, Memory>
    requires good { is_good form.now ≡ true }
    ensures { IfOk result (GivesAfter form.now report.now answers.now) }
{
    let none = Answers::new(alloc);
    let public = public_answers(report.case.trail().as_slice(), &none);
    match check_identity(alloc, form, public, answers) {
        Ok(()) => given(report, answers),
        Err(fault) => Ok(telling(faulty(alloc, fault)?)),
    }
}

/// The step of identity answers that the reporter of a report gives: the report's form must be there.
pub fn give_identity(
    alloc: Global,
    tenancy: &Tenancy,
    report: &Report,
    answers: &Answers,
) -> Result<Draft, Memory>
    requires place { IsLookedUp (plain_of tenancy.now) }
    ensures { IfOk result (GivesIdentity tenancy.now.configuration.registry report.now answers.now) }
{
    match form_of(tenancy, report) {
        Some(item) => give_after(alloc, &item.form, report, answers),
        None => refusing(alloc, Refusal::NotFound),
    }
}

//! What is shown of a report: to a user who finds it, to its reporter, and its identity answers under a grant.
ghost use Rattle.std.specs.Prelude.{◌≡◌, [], false, Ok, if◌then◌else◌, unwrap_or, IfOk};
ghost use Rattle.wb_custody.specs.SealedAnswers.{answers_of};
ghost use Rattle.wb_model.specs.Access.{requests, in_force};
ghost use Rattle.wb_model.specs.Json.{told};
ghost use Rattle.wb_model.specs.Refusals.{not_found as not_found_told};
ghost use Rattle.wb_model.specs.Views.{recipient_view as recipient_data, reporter_view as reporter_data, identity_view as identity_data};
ghost use Rattle.wb_tables.specs.Kept.{case_of};
ghost use Rattle.wb_queries.specs.Looks.{is_granted, identity_told};

use std::alloc::Global;
use wb_base::{Answers, Memory, Tenant, UserId};
use wb_custody::SealedTable;
use wb_model::{Body, Told};
use wb_tables::{Report, Tenancy, TurnContext};
use wb_views::{identity_view, not_found, recipient_view, reporter_view};

/// The reply to a user's read of a report.
pub fn read(
    alloc: Global,
    tenancy: &Tenancy,
    at: &TurnContext,
    user: UserId,
    report: &Report,
) -> Result<Told, Memory>
    requires custodied { report.now.desk.items ≡ requests report.now.case.items }
    ensures { IfOk result (λ t. t ≡ told 200 (recipient_data tenancy.now.configuration.registry.users user at.now.time (case_of report.now))) }
{
    let configuration = &tenancy.configuration;
    let body = recipient_view(
        alloc,
        &report.case,
        &report.desk,
        configuration.tenant(),
        report.number,
        user,
        configuration.registry(),
        at.time,
    )?;
    Ok(Told {
        status: 200,
        body: Body::of(body),
    })
}

/// The reply to a reporter's read of the own report.
pub fn read_own(
    alloc: Global,
    sealed: &SealedTable,
    tenant: Tenant,
    report: &Report,
) -> Result<Told, Memory>
    ensures { IfOk result (λ t. t ≡ told 200 (reporter_data (case_of report.now) (answers_of sealed.now.items tenant report.now.number))) }
{
    let answers = sealed.get(tenant, report.number);
    Ok(Told {
        status: 200,
        body: Body::of(reporter_view(alloc, &report.case, answers, report.number)?),
    })
}

// The reply that shows the identity answers of a report.
fn show_identity(
    alloc: Global,
    sealed: &SealedTable,
    tenant: Tenant,
    report: &Report,
) -> Result<Told, Memory>
    ensures { IfOk result (λ t. t ≡ told 200 (identity_data report.now.number (unwrap_or (answers_of sealed.now.items tenant report.now.number) []))) }
{
    let none = Answers::new(alloc);
    let answers = match sealed.get(tenant, report.number) {
        Some(answers) => answers,
        None => &none,
    };
    Ok(Told {
        status: 200,
        body: Body::of(identity_view(alloc, report.number, answers)?),
    })
}

/// The reply to a user's request for the identity answers of a report: a grant of the user's must be in force. Where none is, the
/// answer is the same whatever stands in the sealed table, and takes no memory.
pub fn read_identity(
    alloc: Global,
    tenancy: &Tenancy,
    sealed: &SealedTable,
    at: &TurnContext,
    user: UserId,
    report: &Report,
) -> Result<Told, Memory>
    requires custodied { report.now.desk.items ≡ requests report.now.case.items }
    ensures shown { IfOk result (λ t. t ≡ (if is_granted tenancy.now at.now.time user report.now then identity_told tenancy.now sealed.now.items report.now else not_found_told)) }
    ensures hidden { is_granted tenancy.now at.now.time user report.now ≡ false → result ≡ Ok not_found_told }
{
    let configuration = &tenancy.configuration;
    if report
        .desk
        .in_force(user, configuration.disablings(user), at.time)
    {
        show_identity(alloc, sealed, configuration.tenant(), report)
    } else {
        Ok(not_found())
    }
}

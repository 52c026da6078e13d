//! What is shown that is no single report: a tenant, a context, and to users lists and what the tenant is set up with.
ghost use Rattle.std.specs.Prelude.{◌≡◌, ◌≤◌, ◌++◌, ◌&&◌, [], Some, None, true, is_some, length, map, filter, IfOk, OnOk};
ghost use Rattle.wb_base.specs.Days.{day_of as day_at};
ghost use Rattle.wb_base.specs.declared.callers.Presented.{Presented as Shown};
ghost use Rattle.wb_model.specs.Access.{requests as asked_on};
ghost use Rattle.wb_model.specs.Commands.{effect_of};
ghost use Rattle.wb_model.specs.Json.{told};
ghost use Rattle.wb_model.specs.ListViews as lists;
ghost use Rattle.wb_model.specs.Requests.{outline};
ghost use Rattle.wb_model.specs.AskingForms.{open_form};
ghost use Rattle.wb_model.specs.Tables.{context as context_by};
ghost use Rattle.wb_model.specs.TenantViews as tenants;
ghost use Rattle.wb_model.specs.Trails.{reads as reads_by};
ghost use Rattle.wb_model.specs.ViewRows as rows_of;
ghost use Rattle.wb_tables.specs.TurnContexts.{at_of};
ghost use Rattle.wb_queries.specs.Looks.{effect_for, seen_by};
ghost use Rattle.wb_queries.specs.Looks.{IsLook, ShowsOpen, is_shown_to_all, is_shown_to_users, seen};
ghost use Rattle.wb_tables.specs.Indexed.{AreFewRequests};
ghost use Rattle.wb_tables.specs.Kept.{case_of, plain_of, live_plain, lives_on};
ghost use Rattle.wb_tables.specs.Places.{IsLookedUp};

use crate::health::healthy;
use std::alloc::Global;
use wb_base::{Day, Memory, Text, UserId};
use wb_model::{Body, Command, Custodied, Due, Listed, Told};
use wb_tables::{
    BoxedReport, Cases, Configuration, Report, Tenancy, TurnContext, lives, reads, today_at,
};
use wb_views::{
    Refusal, admin_view, context_view, custody_view, due_view, list_view, listed, public_view,
    push_custodied, push_dues, refuse, sort_dues,
};

// The reply with a body.
fn ok(text: Text) -> Told
    ensures status { result.status ≡ 200 }
    ensures body { result.body ≡ text }
{
    Told {
        status: 200,
        body: Body::of(text),
    }
}

// The reply that shows a tenant to everyone.
fn public(alloc: Global, tenancy: &Tenancy) -> Result<Told, Memory>
    ensures { IfOk result (λ t. t ≡ told 200 (tenants.public_view tenancy.now.configuration.registry)) }
{
    let configuration = &tenancy.configuration;
    let text = public_view(alloc, configuration.registry(), configuration.tenant())?;
    Ok(ok(text))
}

// The reply that shows an open context with its form.
fn context(alloc: Global, tenancy: &Tenancy, id: u32) -> Result<Told, Memory>
    requires place { IsLookedUp (plain_of tenancy.now) }
    requires open { is_some (open_form (context_by id tenancy.now.configuration.registry.contexts) tenancy.now.configuration.registry.forms) ≡ true }
    ensures { IfOk result (ShowsOpen tenancy.now.configuration.registry id) }
{
    let configuration = &tenancy.configuration;
    let text = context_view(alloc, configuration.registry(), configuration.tenant(), id)?;
    Ok(ok(text))
}

// Whether a context is open and has a form.
fn is_open(configuration: &Configuration, id: u32) -> bool
    ensures { result ≡ is_some (open_form (context_by id configuration.now.registry.contexts) configuration.now.registry.forms) }
{
    match configuration.context(id) {
        Some(context) => context.is_open && configuration.newest_form(context.form).is_some(),
        None => false,
    }
}

// The reply that shows all that a tenant is set up with, and the last number drawn.
fn admin(alloc: Global, tenancy: &Tenancy) -> Result<Told, Memory>
    ensures { IfOk result (λ t. t ≡ told 200 (tenants.admin_view tenancy.now.configuration.registry tenancy.now.numbering.last)) }
{
    let configuration = &tenancy.configuration;
    let text = admin_view(
        alloc,
        configuration.registry(),
        configuration.tenant(),
        tenancy.numbering.last,
    )?;
    Ok(ok(text))
}

// Whether a report lives on a day and a user reads it.
fn is_listed(report: &Report, today: Day, user: UserId) -> bool
    ensures { result ≡ (lives_on today (case_of report.now) && reads_by user report.now.case.items) }
{
    lives(report, today) && reads(report, user)
}

// The rows of the live reports that a user reads.
fn listed_rows(
    alloc: Global,
    cases: &[BoxedReport],
    today: Day,
    user: UserId,
) -> Result<Vec<Listed>, Memory>
    ensures { IfOk result (λ rows. rows.items ≡ rows_of.all_listed (rows_of.readable user (filter (lives_on today) (map case_of cases.now)))) }
{
    let mut rows = Vec::new(alloc);
    for filed in cases {
        let report = filed.report();
        if is_listed(report, today, user) {
            rows.push(listed(alloc, report.number, &report.case)?)?;
        }
    }
    Ok(rows)
}

// The reply that lists the reports that a user reads.
fn list(alloc: Global, tenancy: &Tenancy, at: &TurnContext, user: UserId) -> Result<Told, Memory>
    requires place { IsLookedUp (plain_of tenancy.now) }
    ensures { IfOk result (λ t. t ≡ told 200 (lists.list_view (rows_of.all_listed (rows_of.readable user (live_plain at.now.time (plain_of tenancy.now)).cases)))) }
{
    let today = today_at(tenancy, at.time);
    let rows = listed_rows(alloc, tenancy.cases.as_slice(), today, user)?;
    Ok(ok(list_view(alloc, rows.as_slice())?))
}

// What is due on the live reports that a user reads, report by report. It looks at those alone on which something is due.
fn dues_of(alloc: Global, cases: &Cases, today: Day, user: UserId) -> Result<Vec<Due>, Memory>
    ensures { IfOk result (λ rows. rows.items ≡ rows_of.dues (rows_of.readable user (filter (lives_on today) (map case_of cases.now.items)))) }
{
    let mut rows = Vec::new(alloc);
    for at in 0..cases.due_len() {
        let report = cases.due_at(at);
        if is_listed(report, today, user) {
            push_dues(&mut rows, report.number, &report.case)?;
        }
    }
    Ok(rows)
}

// The reply that lists what is due on the reports that a user reads.
fn dues(alloc: Global, tenancy: &Tenancy, at: &TurnContext, user: UserId) -> Result<Told, Memory>
    requires place { IsLookedUp (plain_of tenancy.now) }
    ensures { IfOk result (λ t. t ≡ told 200 (lists.due_view (rows_of.all_due (rows_of.readable user (live_plain at.now.time (plain_of tenancy.now)).cases)) (day_at at.now.time tenancy.now.configuration.registry.settings.offset))) }
{
    let today = today_at(tenancy, at.time);
    let mut rows = dues_of(alloc, &tenancy.cases, today, user)?;
    sort_dues(&mut rows)?;
    Ok(ok(due_view(alloc, rows.as_slice(), today)?))
}

// Puts the requests for the identity of a report at the end.
fn push_requests(
    rows: &mut Vec<Custodied>,
    configuration: &Configuration,
    report: &Report,
) -> Result<(), Memory>
    requires custodied { report.now.desk.items ≡ asked_on report.now.case.items }
    requires few { length (asked_on report.now.case.items) ≤ 100 }
    ensures { OnOk result (rows.new.items ≡ rows.old.items ++ rows_of.custodied configuration.now.registry.users report.now.number (asked_on report.now.case.items)) }
{
    push_custodied(
        rows,
        configuration.registry(),
        configuration.tenant(),
        report.number,
        &report.desk,
    )
}

// The requests for the identities of live reports.
fn custodied_rows(
    alloc: Global,
    configuration: &Configuration,
    cases: &Cases,
    today: Day,
) -> Result<Vec<Custodied>, Memory>
    requires few { AreFewRequests (map case_of cases.now.items) }
    ensures { IfOk result (λ rows. rows.items ≡ rows_of.all_custodied configuration.now.registry.users (filter (lives_on today) (map case_of cases.now.items))) }
{
    let mut rows = Vec::new(alloc);
    for at in 0..cases.asked_len() {
        let report = cases.asked_at(at);
        if lives(report, today) {
            push_requests(&mut rows, configuration, report)?;
        }
    }
    Ok(rows)
}

// The reply that lists all requests for an identity.
fn requests(alloc: Global, tenancy: &Tenancy, at: &TurnContext) -> Result<Told, Memory>
    requires place { IsLookedUp (plain_of tenancy.now) }
    requires few { AreFewRequests (map case_of tenancy.now.cases.items) }
    ensures { IfOk result (λ t. t ≡ told 200 (lists.custody_view (rows_of.all_custodied tenancy.now.configuration.registry.users (live_plain at.now.time (plain_of tenancy.now)).cases))) }
{
    let today = today_at(tenancy, at.time);
    let rows = custodied_rows(alloc, &tenancy.configuration, &tenancy.cases, today)?;
    Ok(ok(custody_view(alloc, rows.as_slice())?))
}

/// The reply to a request that anyone may make and that looks at something.
pub fn look(
    alloc: Global,
    tenancy: &Tenancy,
    at: &TurnContext,
    command: &Command,
) -> Result<Told, Memory>
    requires place { IsLookedUp (plain_of tenancy.now) }
    requires shown { is_shown_to_all command.now ≡ true }
    ensures look { (s : Shown) → IsLook (effect_of (at_of at.now) tenancy.now.configuration.registry None s [] (outline command.now)) }
    ensures told { IfOk result (λ told. (s : Shown) → told ≡ seen (at_of at.now) (live_plain at.now.time (plain_of tenancy.now)) None (effect_of (at_of at.now) tenancy.now.configuration.registry None s [] (outline command.now))) }
{
    match command {
        Command::Health => Ok(healthy()),
        Command::Public { .. } => public(alloc, tenancy),
        Command::ContextOf { c, .. } => if is_open(&tenancy.configuration, *c) {
            context(alloc, tenancy, *c)
        } else {
            refuse(alloc, Refusal::NotFound)
        },
        _ => unreachable!(),
    }
}

/// The reply to a user's request that looks at something.
pub fn look_as(
    alloc: Global,
    tenancy: &Tenancy,
    at: &TurnContext,
    user: UserId,
    command: &Command,
) -> Result<Told, Memory>
    requires place { IsLookedUp (plain_of tenancy.now) }
    requires few { AreFewRequests (map case_of tenancy.now.cases.items) }
    requires shown { is_shown_to_users command.now ≡ true }
    ensures look { (s : Shown) → IsLook (effect_for tenancy.now at.now user s command.now) }
    ensures told { IfOk result (λ told. (s : Shown) → told ≡ seen_by tenancy.now at.now user (effect_for tenancy.now at.now user s command.now)) }
{
    match command {
        Command::List { .. } => list(alloc, tenancy, at, user),
        Command::DueList { .. } => dues(alloc, tenancy, at, user),
        Command::Requests { .. } => requests(alloc, tenancy, at),
        Command::Admin { .. } => admin(alloc, tenancy),
        _ => unreachable!(),
    }
}

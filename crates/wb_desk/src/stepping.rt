//! What is left to do for the plan of a request, by its target.
ghost use Rattle.std.specs.Prelude.{◌≡◌, ◌≤◌, length, Some, None, true, map, option_map, IfOk};
ghost use Rattle.wb_base.specs.Days.{day_of as day_at};
ghost use Rattle.wb_model.specs.Access.{requests};
ghost use Rattle.wb_model.specs.Host.{purged};
ghost use Rattle.wb_model.specs.Requests.{outline};
ghost use Rattle.wb_model.specs.Tables.{TheUser, TheReporter, user as user_by, report as report_by};
ghost use Rattle.wb_model.specs.Targets as targets;
ghost use Rattle.wb_tables.specs.TurnContexts.{at_of};
ghost use Rattle.wb_commands.specs.Steps.{EntersAs, IsFitStep, IsDraftOf, Leaves, StepsTo, DraftsOver};
ghost use Rattle.wb_desk.specs.Suited.{suits};
ghost use Rattle.wb_desk.specs.Turns.{MayPlan};
ghost use Rattle.wb_tables.specs.Kept.{case_of, live_plain, lives_on, place_of, plain_of, tables_of};
ghost use Rattle.wb_tables.specs.Logins.{AreEarlier, session_of, who_seen};
ghost use Rattle.wb_tables.specs.Places.{IsLookedUp};

use crate::authorize::{Target, find_target};
use std::alloc::Global;
use wb_base::{Memory, Presented, Role, UserId};
use wb_commands::{
    Draft, acting, asking, commenting, deciding, enter, erasing, give_identity, leave, refusing,
    set_context, set_form, set_settings, set_user, submit, telling, write_down,
};
use wb_custody::SealedTable;
use wb_model::{Asked, Command};
use wb_queries::{look, look_as, read, read_identity, read_own};
use wb_tables::{Report, Tenancy, TurnContext, Who};
use wb_views::Refusal;

// The step of a request that anyone may make.
fn by_anyone(
    alloc: Global,
    tenancy: &Tenancy,
    at: &TurnContext,
    asked: &Asked,
) -> Result<Draft, Memory>
    requires place { IsLookedUp (plain_of tenancy.now) }
    requires suits { suits (targets.Alone None) asked.now.command ≡ true }
    ensures step { IfOk result (StepsTo tenancy.now at.now asked.now (targets.Alone None)) }
    ensures fit { IfOk result (IsFitStep at.now.time tenancy.now) }
{
    match &asked.command {
        Command::Submit {
            context,
            answers,
            ..
        } => Ok(Draft::Done(submit(alloc, tenancy, at, *context, answers)?)),
        command => Ok(telling(look(alloc, tenancy, at, command)?)),
    }
}

// The step of a login by name: a session of the user begins.
fn enter_user(
    alloc: Global,
    tenancy: &Tenancy,
    at: &TurnContext,
    user: UserId,
) -> Result<Draft, Memory>
    ensures { IfOk result (EntersAs (at_of at.now) tenancy.now.configuration.registry user (user_by user tenancy.now.configuration.registry.users)) }
{
    match tenancy.configuration.user(user) {
        Some(item) => {
            let plan = enter(alloc, tenancy, at, item.role, Who::User(user))?;
            Ok(Draft::Done(plan))
        }
        None => refusing(alloc, Refusal::NotFound),
    }
}

// The step of a logout: the session that is presented ends.
fn leave_session(alloc: Global, presented: &Presented, who: Who) -> Result<Draft, Memory>
    ensures { IfOk result (Leaves presented.now who) }
{
    match presented {
        Presented::Token { turn, .. } => Ok(Draft::Done(leave(*turn, who))),
        Presented::None | Presented::Bad => refusing(alloc, Refusal::NotFound),
    }
}

// The step of a user's request on no report.
fn by_staff(
    alloc: Global,
    tenancy: &Tenancy,
    at: &TurnContext,
    asked: &Asked,
    user: UserId,
) -> Result<Draft, Memory>
    requires may_plan { MayPlan tenancy.now at.now asked.now }
    requires suits { suits (targets.Alone (Some (TheUser user))) asked.now.command ≡ true }
    ensures step { IfOk result (StepsTo tenancy.now at.now asked.now (targets.Alone (Some (TheUser user)))) }
    ensures fit { IfOk result (IsFitStep at.now.time tenancy.now) }
{
    match &asked.command {
        Command::Login { .. } => enter_user(alloc, tenancy, at, user),
        Command::Logout { .. } => leave_session(alloc, &asked.session, Who::User(user)),
        Command::SetSettings { next, .. } => set_settings(next),
        Command::SetUser { u, next, .. } => set_user(alloc, *u, next),
        Command::SetContext { c, next, .. } => set_context(*c, next),
        Command::SetForm { f, form, .. } => set_form(alloc, tenancy, *f, form),
        command => Ok(telling(look_as(alloc, tenancy, at, user, command)?)),
    }
}

// The step of a reporter's request on the own report.
fn by_reporter(
    alloc: Global,
    tenancy: &Tenancy,
    sealed: &SealedTable,
    at: &TurnContext,
    asked: &Asked,
    report: &Report,
) -> Result<Draft, Memory>
    requires place { IsLookedUp (plain_of tenancy.now) }
    requires earlier { AreEarlier at.now.turn (map session_of tenancy.now.sessions.items) }
    requires custodied { report.now.desk.items ≡ requests report.now.case.items }
    requires few { length report.now.desk.items ≤ 100 }
    requires there { report_by report.now.number (live_plain at.now.time (plain_of tenancy.now)).cases ≡ Some (case_of report.now) }
    requires suits { suits (targets.On (TheReporter report.now.number) (case_of report.now)) asked.now.command ≡ true }
    ensures step { IfOk result (IsDraftOf tenancy.now.configuration.tenant (purged at.now.time (tables_of sealed.now.items (place_of tenancy.now))) (at_of at.now) asked.now (targets.On (TheReporter report.now.number) (case_of report.now))) }
    ensures fit { IfOk result (IsFitStep at.now.time tenancy.now) }
{
    let who = Who::Reporter(report.number);
    match &asked.command {
        Command::ReceiptLogin { .. } => {
            let plan = enter(alloc, tenancy, at, Role::Reporter, who)?;
            Ok(Draft::Done(plan))
        }
        Command::Logout { .. } => leave_session(alloc, &asked.session, who),
        Command::OwnReport { .. } => {
            let tenant = tenancy.configuration.tenant();
            Ok(telling(read_own(alloc, sealed, tenant, report)?))
        }
        Command::OwnComment { text, .. } => write_down(alloc, who, report, commenting(text)?),
        Command::GiveIdentity { answers, .. } => give_identity(alloc, tenancy, report, answers),
        _ => unreachable!(),
    }
}

// The step of a user's request on a report that the user finds.
fn by_reader(
    alloc: Global,
    tenancy: &Tenancy,
    sealed: &SealedTable,
    at: &TurnContext,
    asked: &Asked,
    user: UserId,
    report: &Report,
) -> Result<Draft, Memory>
    requires place { IsLookedUp (plain_of tenancy.now) }
    requires custodied { report.now.desk.items ≡ requests report.now.case.items }
    requires few { length report.now.desk.items ≤ 100 }
    requires live { lives_on (day_at at.now.time tenancy.now.configuration.registry.settings.offset) (case_of report.now) ≡ true }
    requires there { report_by report.now.number (live_plain at.now.time (plain_of tenancy.now)).cases ≡ Some (case_of report.now) }
    requires suits { suits (targets.On (TheUser user) (case_of report.now)) asked.now.command ≡ true }
    ensures step { IfOk result (IsDraftOf tenancy.now.configuration.tenant (purged at.now.time (tables_of sealed.now.items (place_of tenancy.now))) (at_of at.now) asked.now (targets.On (TheUser user) (case_of report.now))) }
    ensures fit { IfOk result (IsFitStep at.now.time tenancy.now) }
{
    let who = Who::User(user);
    match &asked.command {
        Command::ReadReport { .. } => Ok(telling(read(alloc, tenancy, at, user, report)?)),
        Command::ReadIdentity { .. } => {
            let told = read_identity(alloc, tenancy, sealed, at, user, report)?;
            Ok(telling(told))
        }
        Command::Delete { .. } => Ok(erasing(report)),
        Command::Ask { reason, .. } => write_down(
            alloc,
            who,
            report,
            asking(tenancy, user, reason)?,
        ),
        Command::Decide {
            k,
            decision,
            reason,
            withhold,
            ..
        } => {
            let asks = deciding(tenancy, report, *k, *decision, reason, withhold)?;
            write_down(alloc, who, report, asks)
        }
        command => write_down(alloc, who, report, acting(tenancy, at, report, command)?),
    }
}

// The step of a request on no report.
fn alone(
    alloc: Global,
    tenancy: &Tenancy,
    at: &TurnContext,
    asked: &Asked,
    who: Option<Who>,
) -> Result<Draft, Memory>
    requires may_plan { MayPlan tenancy.now at.now asked.now }
    requires suits { suits (targets.Alone (option_map who_seen who)) asked.now.command ≡ true }
    ensures step { IfOk result (StepsTo tenancy.now at.now asked.now (targets.Alone (option_map who_seen who))) }
    ensures fit { IfOk result (IsFitStep at.now.time tenancy.now) }
{
    match who {
        None => by_anyone(alloc, tenancy, at, asked),
        Some(who) => match who {
            Who::User(user) => by_staff(alloc, tenancy, at, asked, user),
            Who::Reporter(_) => unreachable!(),
        },
    }
}

// The step of a request on a report.
fn on(
    alloc: Global,
    tenancy: &Tenancy,
    sealed: &SealedTable,
    at: &TurnContext,
    asked: &Asked,
    who: Who,
    report: &Report,
) -> Result<Draft, Memory>
    requires may_plan { MayPlan tenancy.now at.now asked.now }
    requires custodied { report.now.desk.items ≡ requests report.now.case.items }
    requires target { targets.target (live_plain at.now.time (plain_of tenancy.now)) asked.now.session (outline asked.now.command) ≡ targets.On (who_seen who) (case_of report.now) }
    ensures step { IfOk result (IsDraftOf tenancy.now.configuration.tenant (purged at.now.time (tables_of sealed.now.items (place_of tenancy.now))) (at_of at.now) asked.now (targets.On (who_seen who) (case_of report.now))) }
    ensures fit { IfOk result (IsFitStep at.now.time tenancy.now) }
{
    match who {
        Who::User(user) => by_reader(alloc, tenancy, sealed, at, asked, user, report),
        Who::Reporter(_) => by_reporter(alloc, tenancy, sealed, at, asked, report),
    }
}

/// What is left to do for the plan of a request over the tables that are purged at the turn's time.
pub fn step_of(
    alloc: Global,
    tenancy: &Tenancy,
    sealed: &SealedTable,
    at: &TurnContext,
    asked: &Asked,
) -> Result<Draft, Memory>
    requires may_plan { MayPlan tenancy.now at.now asked.now }
    ensures step { IfOk result (DraftsOver tenancy.now sealed.now.items at.now asked.now) }
    ensures fit { IfOk result (IsFitStep at.now.time tenancy.now) }
{
    match find_target(tenancy, at.time, &asked.session, &asked.command) {
        Target::Nobody(why) => refusing(alloc, why),
        Target::Alone(who) => alone(alloc, tenancy, at, asked, who),
        Target::On(who, report) => on(alloc, tenancy, sealed, at, asked, who, report),
    }
}

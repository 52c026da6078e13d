//! Whom and what a request is about: session, role, right and thing, in this order.
ghost use Rattle.std.specs.Prelude.{◌≡◌, Some};
ghost use Rattle.wb_model.specs.Commands.{has_right as has_right_by};
ghost use Rattle.wb_model.specs.Tables.{report as report_by, user_named as user_called, with_receipt};
ghost use Rattle.wb_model.specs.Targets.{finds as finds_by, target as target_by, named_case as named_case_by, user_target as user_target_by, reporter_target as reporter_target_by, session_target as session_target_by, by_password as by_password_by, by_receipt as by_receipt_by, anonymous as anonymous_by};
ghost use Rattle.wb_base.specs.Secrets.{digest as digest_of};
ghost use Rattle.wb_desk.specs.Needs.{need_of, right_of};
ghost use Rattle.wb_desk.specs.Targeted.{IsCustodied, target_of};
ghost use Rattle.wb_tables.specs.Kept.{case_of, plain_of, live_plain};
ghost use Rattle.wb_tables.specs.Logins.{login_of};
ghost use Rattle.wb_tables.specs.Places.{IsLookedUp};

use crate::needs::{Need, Right, columns_of};
use wb_access::digest;
use wb_base::{Moment, Number, Presented, Role, Text, UserId};
use wb_model::{Command, Rights, UserItem};
use wb_tables::{Login, Report, Tenancy, Who, live_report, live_session, reads, report_of_receipt};
use wb_views::Refusal;

/// What a request is about.
#[derive(Drop)]
pub enum Target<'a> {
    /// It is refused.
    Nobody(Refusal),
    /// No report, by this caller.
    Alone(Option<Who>),
    /// A live report that the caller finds.
    On(Who, &'a Report),
}

// Whether a user has a right.
fn has_right(right: Right, may: Rights) -> bool
    ensures { result ≡ has_right_by (right_of right) may }
{
    match right {
        Right::Free => true,
        Right::ToDelete => may.delete,
        Right::ToPostpone => may.postpone,
        Right::ToShare => may.share,
        Right::ToTransfer => may.transfer,
    }
}

// Whether a user of this role finds a report: a recipient finds those that it reads, a custodian every live one.
fn finds(role: Role, user: UserId, report: &Report) -> bool
    ensures { result ≡ finds_by role user (case_of report.now) }
{
    match role {
        Role::Custodian => true,
        Role::Reporter | Role::Recipient | Role::Admin => reads(report, user),
    }
}

// The report of a number, where the user finds it.
fn named<'a>(
    tenancy: &'a Tenancy,
    time: Moment,
    role: Role,
    user: &UserItem,
    number: u32,
) -> Target<'a>
    requires place { IsLookedUp (plain_of tenancy.now) }
    ensures target { target_of result ≡ named_case_by role user.now.id (report_by number (live_plain time (plain_of tenancy.now)).cases) }
    ensures custodied { IsCustodied result }
{
    match live_report(tenancy, time, number) {
        Some(report) => if finds(role, user.id, report) {
            Target::On(Who::User(user.id), report)
        } else {
            Target::Nobody(Refusal::NotFound)
        },
        None => Target::Nobody(Refusal::NotFound),
    }
}

// The target of a user whose session has a role: the role, then the right, then the thing.
fn user_target<'a>(
    tenancy: &'a Tenancy,
    time: Moment,
    has: Role,
    user: &UserItem,
    need: Need,
) -> Target<'a>
    requires place { IsLookedUp (plain_of tenancy.now) }
    ensures target { target_of result ≡ user_target_by (live_plain time (plain_of tenancy.now)) has user.now (need_of need) }
    ensures custodied { IsCustodied result }
{
    let alone = Target::Alone(Some(Who::User(user.id)));
    match need {
        Need::Anyone | Need::AnySession => alone,
        Need::Own => Target::Nobody(Refusal::WrongRole),
        Need::Staff(role) => if has == role {
            alone
        } else {
            Target::Nobody(Refusal::WrongRole)
        },
        Need::Names(role, right, number) => if has != role {
            Target::Nobody(Refusal::WrongRole)
        } else if has_right(right, user.may) {
            named(tenancy, time, role, user, number)
        } else {
            Target::Nobody(Refusal::WrongRight)
        },
    }
}

// The target of a reporter.
fn reporter_target(tenancy: &Tenancy, time: Moment, number: Number, need: Need) -> Target<'_>
    requires place { IsLookedUp (plain_of tenancy.now) }
    ensures target { target_of result ≡ reporter_target_by (live_plain time (plain_of tenancy.now)) number (need_of need) }
    ensures custodied { IsCustodied result }
{
    match need {
        Need::AnySession | Need::Own => match live_report(tenancy, time, number.get()) {
            Some(report) => Target::On(Who::Reporter(number), report),
            None => Target::Nobody(Refusal::NoSession),
        },
        Need::Anyone | Need::Staff(_) | Need::Names(..) => Target::Nobody(Refusal::WrongRole),
    }
}

// The target of a session.
fn session_target<'a>(tenancy: &'a Tenancy, time: Moment, need: Need, session: &Login) -> Target<'a>
    requires place { IsLookedUp (plain_of tenancy.now) }
    ensures target { target_of result ≡ session_target_by (live_plain time (plain_of tenancy.now)) (need_of need) (Some (login_of session.now)) }
    ensures custodied { IsCustodied result }
{
    match session.who {
        Who::User(id) => match tenancy.configuration.user(id) {
            Some(user) => user_target(tenancy, time, session.role, user, need),
            None => Target::Nobody(Refusal::NoSession),
        },
        Who::Reporter(number) => reporter_target(tenancy, time, number, need),
    }
}

// The target of a login by a name and a password: an enabled user.
fn by_password<'a>(tenancy: &'a Tenancy, name: &Text, password: &Text) -> Target<'a>
    ensures target { target_of result ≡ by_password_by tenancy.now.configuration.registry.settings.salt password.now (user_called name.now tenancy.now.configuration.registry.users) }
    ensures custodied { IsCustodied result }
{
    let salt = &tenancy.configuration.settings().salt;
    match tenancy.configuration.user_named(name) {
        Some(user) => {
            if user.enabled && user.secret == digest(salt, password.as_bytes()) {
                Target::Alone(Some(Who::User(user.id)))
            } else {
                Target::Nobody(Refusal::BadLogin)
            }
        }
        None => Target::Nobody(Refusal::BadLogin),
    }
}

// The target of a login by a receipt: the reporter of a live report.
fn by_receipt<'a>(tenancy: &'a Tenancy, time: Moment, receipt: &Text) -> Target<'a>
    requires place { IsLookedUp (plain_of tenancy.now) }
    ensures target { target_of result ≡ by_receipt_by (with_receipt (digest_of tenancy.now.configuration.registry.settings.salt receipt.now) (live_plain time (plain_of tenancy.now)).cases) }
    ensures custodied { IsCustodied result }
{
    let salt = &tenancy.configuration.settings().salt;
    match report_of_receipt(tenancy, time, &digest(salt, receipt.as_bytes())) {
        Some(report) => Target::On(Who::Reporter(report.number), report),
        None => Target::Nobody(Refusal::BadLogin),
    }
}

// The target of a request that needs no session.
fn anonymous<'a>(tenancy: &'a Tenancy, time: Moment, command: &Command) -> Target<'a>
    requires place { IsLookedUp (plain_of tenancy.now) }
    ensures target { target_of result ≡ anonymous_by (live_plain time (plain_of tenancy.now)) command.now }
    ensures custodied { IsCustodied result }
{
    match command {
        Command::Login { user, password, .. } => by_password(tenancy, user, password),
        Command::ReceiptLogin { receipt, .. } => by_receipt(tenancy, time, receipt),
        _ => Target::Alone(None),
    }
}

/// The target of a request over the tables that are purged at a time.
pub fn find_target<'a>(
    tenancy: &'a Tenancy,
    time: Moment,
    presented: &Presented,
    command: &Command,
) -> Target<'a>
    requires place { IsLookedUp (plain_of tenancy.now) }
    ensures target { target_of result ≡ target_by (live_plain time (plain_of tenancy.now)) presented.now command.now }
    ensures custodied { IsCustodied result }
{
    let need = columns_of(command).need;
    if need == Need::Anyone {
        return anonymous(tenancy, time, command);
    }
    match live_session(tenancy, time, presented) {
        Some(session) => session_target(tenancy, time, need, &session),
        None => Target::Nobody(Refusal::NoSession),
    }
}

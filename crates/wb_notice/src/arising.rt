//! What there is to tell of a report on a day.
ghost use Rattle.std.specs.Prelude.{◌≡◌, ◌++◌, ◌∷◌, [], true, if◌then◌else◌, IfOk, OnOk};
ghost use Rattle.wb_custody.specs.Desks.{have_right_actors};
ghost use Rattle.wb_model.specs.Openings.{registry_of};
ghost use Rattle.wb_model.specs.Trails.{reads as reads_by};
ghost use Rattle.wb_notice.specs.Owed as owed;

use crate::NoticeKind;
use crate::users::{Addressee, disablings};
use std::alloc::Global;
use wb_base::{Day, Memory, Role, Tenant, UserId};
use wb_case::Case;
use wb_custody::AccessDesk;
use wb_model::{AccessRequest, State, Status};
use wb_tenants::Registry;

/// Within how many days a report that expires is told of.
const EXPIRING_DAYS: i32 = 7;

// Whether the day for the acknowledgement is over.
fn is_ack_over(case: &Case, today: Day) -> bool
    ensures { result ≡ owed.is_ack_over today case.now.items }
{
    let summary = case.summary();
    summary.status != Status::Closed && summary.acknowledged.is_none() && summary.ack_due < today
}

// Whether the day for feedback is over.
fn is_feedback_over(case: &Case, today: Day) -> bool
    ensures { result ≡ owed.is_feedback_over today case.now.items }
{
    let summary = case.summary();
    summary.status != Status::Closed && !summary.feedback_given && summary.feedback_due < today
}

// Whether a report goes in seven days at most.
fn is_expiring(case: &Case, today: Day) -> bool
    ensures { result ≡ owed.is_expiring today case.now.items }
{
    case.summary().expires.days() <= today.days() + EXPIRING_DAYS
}

// Whether a request waits, whose asker was disabled so often by now.
fn is_waiting(request: &AccessRequest, stamp: u32) -> bool
    ensures { result ≡ owed.waits stamp request.now }
{
    request.stamp == stamp && request.state == State::Waiting
}

// Whether a request for the identity of a report's reporter waits.
fn is_asked(alloc: Global, registry: &Registry, tenant: Tenant, case: &Case) -> Result<bool, Memory>
    requires { have_right_actors case.now.items ≡ true }
    ensures { IfOk result (λ asked. asked ≡ owed.is_asked (registry_of registry.now.lists tenant).users case.now.items) }
{
    let Ok(desk) = AccessDesk::rebuild(alloc, case.trail()) else {
        return Err(Memory);
    };
    for request in desk.as_slice() {
        if is_waiting(request, disablings(registry, tenant, request.by)) {
            return Ok(true);
        }
    }
    Ok(false)
}

// One kind more, where it arises.
fn push_where(kinds: &mut Vec<NoticeKind>, arises: bool, kind: NoticeKind) -> Result<(), Memory>
    ensures { OnOk result (kinds.new.items ≡ kinds.old.items ++ (if arises then kind ∷ [] else [])) }
{
    if arises {
        kinds.push(kind)?;
    }
    Ok(())
}

/// The kinds of notices that arise on a report, in the order of their codes.
pub(crate) fn arising(
    alloc: Global,
    registry: &Registry,
    tenant: Tenant,
    case: &Case,
    today: Day,
) -> Result<Vec<NoticeKind>, Memory>
    requires { have_right_actors case.now.items ≡ true }
    ensures { IfOk result (λ kinds. kinds.items ≡ owed.arising (registry_of registry.now.lists tenant).users today case.now.items) }
{
    let asked = is_asked(alloc, registry, tenant, case)?;
    let mut kinds = Vec::new(alloc);
    push_where(&mut kinds, true, NoticeKind::New)?;
    push_where(&mut kinds, is_ack_over(case, today), NoticeKind::AckOver)?;
    push_where(
        &mut kinds,
        is_feedback_over(case, today),
        NoticeKind::FeedbackOver,
    )?;
    push_where(&mut kinds, is_expiring(case, today), NoticeKind::Expiring)?;
    push_where(&mut kinds, asked, NoticeKind::Asked)?;
    Ok(kinds)
}

// Whether a user reads a report.
fn reads(case: &Case, user: UserId) -> bool
    ensures { result ≡ reads_by user case.now.items }
{
    case.summary().readers.contains(user)
}

/// Whether a kind of notice on a report is for a user.
pub(crate) fn is_for(case: &Case, user: &Addressee, kind: NoticeKind) -> bool
    ensures { result ≡ owed.is_for case.now.items user.now kind }
{
    match kind {
        NoticeKind::Asked => user.role == Role::Custodian,
        _ => reads(case, user.user),
    }
}

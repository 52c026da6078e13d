//! Refusals.
ghost use Rattle.std.specs.Prelude.{◌≡◌, IfOk};
ghost use Rattle.wb_model.specs.Faults.{was_detail as was_detail_of};
ghost use Rattle.wb_model.specs.Refusals.{answer_code as answer_code_of, form_code as form_code_of, faulty, form_faulty, not_found as not_found_told, refused};
ghost use Rattle.wb_views.specs.RefusalBodies.{detail_of};
ghost use Rattle.wb_views.specs.Refused.{told_of};

use crate::refusals::{Detail, refusal};
use std::alloc::Global;
use wb_base::{AnswerFault, FormFault, Memory, Text, limits};
use wb_json::{role_name, state_name, status_name};
use wb_list::TryClone;
use wb_model::{AdminFault, Body, CaseFault, CustodyFault, Told, Was};

/// Why a request is refused, but for a fault of its answers or of a form.
#[derive(Clone, Copy)]
pub enum Refusal {
    NotFound,
    NoSession,
    WrongRole,
    WrongRight,
    /// No user has this name and password, or no live report this receipt.
    BadLogin,
    /// The tenant's last number is drawn.
    NumbersSpent,
    /// So many numbers were drawn on this day.
    QuotaSpent(u32),
    /// A live report has the receipt that was drawn.
    ReceiptTaken,
    /// A rule bars an act on the report.
    OfAct(CaseFault),
    /// A rule bars a move with the requests for the report's identity.
    OfMove(CustodyFault),
    /// A rule bars a setting, with how many there may be.
    OfSetting(u32, AdminFault),
}

// The word for what is wrong with an answer.
fn answer_code(code: u8) -> &'static str
    ensures { result.now ≡ answer_code_of code }
{
    match code {
        AnswerFault::UNKNOWN => "unknown",
        AnswerFault::MISSING => "missing",
        AnswerFault::HIDDEN => "hidden",
        AnswerFault::WRONG_KIND => "wrong_kind",
        AnswerFault::TOO_LONG => "too_long",
        _ => "no_such_option",
    }
}

// The word for what is wrong with a form.
fn form_code(code: u8) -> &'static str
    ensures { result.now ≡ form_code_of code }
{
    match code {
        FormFault::SHAPE => "form_shape",
        FormFault::DOUBLE_ID => "double_id",
        FormFault::LATE_TRIGGER => "late_trigger",
        FormFault::SEALED_TRIGGER => "sealed_trigger",
        FormFault::NO_OPTION => "no_option",
        _ => "too_many",
    }
}

// The reply of a status, a code and a detail.
fn reply(alloc: Global, status: u16, code: &'static str, detail: &Detail) -> Result<Told, Memory>
    ensures { IfOk result (λ t. t ≡ refused status code.now (detail_of detail.now)) }
{
    Ok(Told {
        status,
        body: Body::of(refusal(alloc, code, detail)?),
    })
}

/// The reply that nothing is found. It takes no memory.
pub fn not_found() -> Told
    ensures { result ≡ not_found_told }
{
    Told {
        status: 404,
        body: Body::short(b"{\"code\":\"not_found\"}"),
    }
}

// What was there already.
fn was_detail(was: Was) -> Detail
    ensures { detail_of result ≡ was_detail_of was }
{
    match was {
        Was::Day(day) => Detail::Date(day),
        Was::User(user) => Detail::Whole(user.id() as u64),
        Was::Status(status) => Detail::Word(status_name(status)),
    }
}

// The reply that refuses an act.
#[tactic(auto, unfolding(wb_model::specs::Faults::case_told, wb_model::specs::Faults::trail_full))]
fn refuse_act(alloc: Global, fault: CaseFault) -> Result<Told, Memory>
    ensures { IfOk result (λ told. told ≡ told_of (Refusal.OfAct fault)) }
{
    match fault {
        CaseFault::Already(was) => reply(alloc, 409, "already", &was_detail(was)),
        CaseFault::Closed => reply(alloc, 409, "closed", &Detail::Null),
        CaseFault::SameContext => reply(alloc, 409, "same_context", &Detail::Null),
        CaseFault::ContextClosed => reply(alloc, 409, "context_closed", &Detail::Null),
        CaseFault::NotReader => reply(alloc, 409, "not_reader", &Detail::Null),
        CaseFault::LastReader => reply(alloc, 409, "last_reader", &Detail::Null),
        CaseFault::PostponeSpent => reply(
            alloc,
            409,
            "postpone_spent",
            &Detail::Whole(limits::POSTPONEMENTS as u64),
        ),
        CaseFault::NotExternal => reply(alloc, 409, "not_external", &Detail::Null),
        CaseFault::TrailFull => reply(
            alloc,
            409,
            "trail_full",
            &Detail::Whole(limits::TRAIL_ENTRIES as u64),
        ),
        CaseFault::Memory => Err(Memory),
    }
}

// The reply that refuses a move.
#[tactic(auto, unfolding(wb_model::specs::Faults::custody_told, wb_model::specs::Faults::trail_full, wb_model::specs::Refusals::not_found))]
fn refuse_move(alloc: Global, fault: CustodyFault) -> Result<Told, Memory>
    ensures { IfOk result (λ told. told ≡ told_of (Refusal.OfMove fault)) }
{
    match fault {
        CustodyFault::NoIdentity => reply(alloc, 409, "no_identity", &Detail::Null),
        CustodyFault::Pending(request) => {
            reply(alloc, 409, "pending", &Detail::Whole(request as u64))
        }
        CustodyFault::Decided(state) => {
            reply(alloc, 409, "decided", &Detail::Word(state_name(state)))
        }
        CustodyFault::NotGranted(state) => {
            reply(alloc, 409, "not_granted", &Detail::Word(state_name(state)))
        }
        CustodyFault::NoSuchRequest => reply(alloc, 404, "not_found", &Detail::Bare),
        CustodyFault::DeskFull => reply(
            alloc,
            409,
            "desk_full",
            &Detail::Whole(limits::REQUESTS as u64),
        ),
        CustodyFault::TrailFull => reply(
            alloc,
            409,
            "trail_full",
            &Detail::Whole(limits::TRAIL_ENTRIES as u64),
        ),
        CustodyFault::Memory => Err(Memory),
    }
}

// The reply that refuses a setting, of which there may be so many.
#[tactic(auto, unfolding(wb_model::specs::Faults::admin_told, wb_model::specs::Refusals::not_found))]
fn refuse_setting(alloc: Global, most: u32, fault: AdminFault) -> Result<Told, Memory>
    ensures { IfOk result (λ told. told ≡ told_of (Refusal.OfSetting most fault)) }
{
    match fault {
        AdminFault::NotFound => reply(alloc, 404, "not_found", &Detail::Bare),
        AdminFault::NoPassword => {
            let field = Detail::Field(Text::from_str(alloc, "password")?);
            reply(alloc, 422, "missing", &field)
        }
        AdminFault::NameTaken(user) => {
            reply(alloc, 409, "name_taken", &Detail::Whole(user.id() as u64))
        }
        AdminFault::RoleFixed(role) => {
            reply(alloc, 409, "role_fixed", &Detail::Word(role_name(role)))
        }
        AdminFault::Full => reply(alloc, 409, "full", &Detail::Whole(most as u64)),
        AdminFault::Memory => Err(Memory),
    }
}

/// The reply that refuses.
#[tactic(auto, unfolding(wb_model::specs::Refusals::not_found, wb_model::specs::Refusals::no_session, wb_model::specs::Refusals::wrong_role, wb_model::specs::Refusals::wrong_right, wb_model::specs::Refusals::bad_login, wb_model::specs::Refusals::numbers_spent, wb_model::specs::Refusals::quota_spent, wb_model::specs::Refusals::receipt_taken))]
pub fn refuse(alloc: Global, why: Refusal) -> Result<Told, Memory>
    ensures { IfOk result (λ told. told ≡ told_of why) }
{
    match why {
        Refusal::NotFound => Ok(not_found()),
        Refusal::NoSession => reply(alloc, 401, "no_session", &Detail::Bare),
        Refusal::WrongRole => reply(alloc, 403, "role", &Detail::Bare),
        Refusal::WrongRight => reply(alloc, 403, "right", &Detail::Bare),
        Refusal::BadLogin => reply(alloc, 401, "bad_login", &Detail::Bare),
        Refusal::NumbersSpent => {
            reply(alloc, 429, "numbers_spent", &Detail::Whole(4_294_967_295))
        }
        Refusal::QuotaSpent(quota) => reply(alloc, 429, "quota", &Detail::Whole(quota as u64)),
        Refusal::ReceiptTaken => reply(alloc, 409, "receipt_taken", &Detail::Null),
        Refusal::OfAct(fault) => refuse_act(alloc, fault),
        Refusal::OfMove(fault) => refuse_move(alloc, fault),
        Refusal::OfSetting(most, fault) => refuse_setting(alloc, most, fault),
    }
}

/// The reply that refuses answers for a fault.
#[tactic(auto, unfolding(wb_model::specs::Refusals::faulty))]
pub fn refuse_answers(alloc: Global, fault: AnswerFault) -> Result<Told, Memory>
    ensures { IfOk result (λ told. told ≡ faulty fault) }
{
    let code = answer_code(fault.code);
    reply(alloc, 422, code, &Detail::Field(fault.field))
}

/// The reply that refuses a form for a fault.
#[tactic(auto, unfolding(wb_model::specs::Refusals::form_faulty))]
pub fn refuse_form(alloc: Global, fault: &FormFault) -> Result<Told, Memory>
    ensures { IfOk result (λ told. told ≡ form_faulty fault.now) }
{
    let code = form_code(fault.code);
    reply(alloc, 422, code, &Detail::Field(fault.field.try_clone()?))
}

//! The bodies of the routes that act on reports and sessions.
ghost use Rattle.serde_json.specs.View.{view};
ghost use Rattle.wb_model.specs.Bodies as bodies;
ghost use Rattle.wb_json.specs.Gives.{Gives};

use crate::members::{decision_under, some_answers_under};
use serde_json::Value;
use std::alloc::Global;
use wb_base::{Text, limits};
use wb_form::{flag_at, has_only, size};
use wb_json::{
    ReadError, answers_under, status_under, text_if_under, text_under, user_under, whole_under,
};
use wb_model::{Command, Decision};

// `{"receipt"}`.
fn by_receipt(alloc: Global, t: u32, value: &Value) -> Result<Command, ReadError>
    ensures { Gives (bodies.by_receipt t (view value.now)) result }
{
    let receipt = text_under(alloc, value, "receipt", 1, 64)?;
    Ok(Command::ReceiptLogin { t, receipt })
}

// `{"user", "password"}`.
fn by_password(alloc: Global, t: u32, value: &Value) -> Result<Command, ReadError>
    ensures { Gives (bodies.by_password t (view value.now)) result }
{
    if size(value) != 2 {
        return Err(ReadError::Other);
    }
    let user = text_under(alloc, value, "user", 1, limits::USER_NAME_BYTES)?;
    let password = text_under(alloc, value, "password", 1, limits::NAME_BYTES)?;
    Ok(Command::Login { t, user, password })
}

/// `{"user", "password"}` or `{"receipt"}`.
pub fn login(alloc: Global, t: u32, value: &Value) -> Result<Command, ReadError>
    ensures { Gives (bodies.login t (view value.now)) result }
{
    if size(value) == 1 {
        by_receipt(alloc, t, value)
    } else {
        by_password(alloc, t, value)
    }
}

/// `{"context", "answers"}`.
pub fn submission(alloc: Global, t: u32, value: &Value) -> Result<Command, ReadError>
    ensures { Gives (bodies.submission t (view value.now)) result }
{
    if size(value) != 2 {
        return Err(ReadError::Other);
    }
    let context = whole_under(value, "context", 1, limits::CONTEXTS)?;
    let answers = answers_under(alloc, value, "answers")?;
    Ok(Command::Submit {
        t,
        context,
        answers,
    })
}

/// `{"text"}`.
pub fn own_comment(alloc: Global, t: u32, value: &Value) -> Result<Command, ReadError>
    ensures { Gives (bodies.own_comment t (view value.now)) result }
{
    if size(value) != 1 {
        return Err(ReadError::Other);
    }
    let text = text_under(alloc, value, "text", 1, limits::TEXT_BYTES)?;
    Ok(Command::OwnComment { t, text })
}

/// `{"answers"}`.
pub fn identity(alloc: Global, t: u32, value: &Value) -> Result<Command, ReadError>
    ensures { Gives (bodies.identity t (view value.now)) result }
{
    if size(value) != 1 {
        return Err(ReadError::Other);
    }
    let answers = some_answers_under(alloc, value, "answers")?;
    Ok(Command::GiveIdentity { t, answers })
}

/// `{"text", "internal"}`, of which `internal` may be left out.
pub fn comment(alloc: Global, t: u32, n: u32, value: &Value) -> Result<Command, ReadError>
    ensures { Gives (bodies.comment t n (view value.now)) result }
{
    if !has_only(value, &["internal", "text"]) {
        return Err(ReadError::Other);
    }
    let text = text_under(alloc, value, "text", 1, limits::TEXT_BYTES)?;
    match flag_at(value, "internal") {
        Some(internal) => Ok(Command::Comment {
            t,
            n,
            text,
            internal,
        }),
        None => Err(ReadError::Other),
    }
}

/// `{"label"}`.
pub fn label(alloc: Global, t: u32, n: u32, value: &Value) -> Result<Command, ReadError>
    ensures { Gives (bodies.label t n (view value.now)) result }
{
    if size(value) != 1 {
        return Err(ReadError::Other);
    }
    let label = text_under(alloc, value, "label", 0, limits::LABEL_BYTES)?;
    Ok(Command::Label { t, n, label })
}

/// `{"status"}`.
pub fn new_status(t: u32, n: u32, value: &Value) -> Result<Command, ReadError>
    ensures { Gives (bodies.new_status t n (view value.now)) result }
{
    if size(value) != 1 {
        return Err(ReadError::Other);
    }
    let status = status_under(value, "status")?;
    Ok(Command::SetStatus { t, n, status })
}

/// `{"text"}`.
pub fn feedback(alloc: Global, t: u32, n: u32, value: &Value) -> Result<Command, ReadError>
    ensures { Gives (bodies.feedback t n (view value.now)) result }
{
    if size(value) != 1 {
        return Err(ReadError::Other);
    }
    let text = text_under(alloc, value, "text", 1, limits::TEXT_BYTES)?;
    Ok(Command::Feedback { t, n, text })
}

/// `{"user"}`.
pub fn share(t: u32, n: u32, value: &Value) -> Result<Command, ReadError>
    ensures { Gives (bodies.share t n (view value.now)) result }
{
    if size(value) != 1 {
        return Err(ReadError::Other);
    }
    let user = user_under(value, "user")?;
    Ok(Command::Share { t, n, user })
}

/// `{"context"}`.
pub fn transfer(t: u32, n: u32, value: &Value) -> Result<Command, ReadError>
    ensures { Gives (bodies.transfer t n (view value.now)) result }
{
    if size(value) != 1 {
        return Err(ReadError::Other);
    }
    let context = whole_under(value, "context", 1, limits::CONTEXTS)?;
    Ok(Command::Transfer { t, n, context })
}

/// `{"reason"}`, of an extension.
pub fn extend(alloc: Global, t: u32, n: u32, value: &Value) -> Result<Command, ReadError>
    ensures { Gives (bodies.extend t n (view value.now)) result }
{
    if size(value) != 1 {
        return Err(ReadError::Other);
    }
    let reason = text_under(alloc, value, "reason", 1, limits::REASON_BYTES)?;
    Ok(Command::Extend { t, n, reason })
}

/// `{"reason"}`, of a request for the identity.
pub fn ask(alloc: Global, t: u32, n: u32, value: &Value) -> Result<Command, ReadError>
    ensures { Gives (bodies.ask t n (view value.now)) result }
{
    if size(value) != 1 {
        return Err(ReadError::Other);
    }
    let reason = text_under(alloc, value, "reason", 1, limits::REASON_BYTES)?;
    Ok(Command::Ask { t, n, reason })
}

// A text under `withhold`, which may stand with a grant alone.
fn withheld(alloc: Global, decision: Decision, value: &Value) -> Result<Option<Text>, ReadError>
    ensures { Gives (bodies.withheld decision (view value.now)) result }
{
    let withhold = text_if_under(alloc, value, "withhold", 1, 1_024)?;
    match (decision, &withhold) {
        (Decision::Grant, _) => Ok(withhold),
        (_, None) => Ok(withhold),
        (_, Some(_)) => Err(ReadError::Other),
    }
}

/// `{"decision", "reason", "withhold"}`, of which `withhold` may be left out.
pub fn decide(alloc: Global, t: u32, n: u32, k: u32, value: &Value) -> Result<Command, ReadError>
    ensures { Gives (bodies.decide t n k (view value.now)) result }
{
    if !has_only(value, &["decision", "reason", "withhold"]) {
        return Err(ReadError::Other);
    }
    let decision = decision_under(value, "decision")?;
    let reason = text_under(alloc, value, "reason", 1, limits::REASON_BYTES)?;
    let withhold = withheld(alloc, decision, value)?;
    Ok(Command::Decide {
        t,
        n,
        k,
        decision,
        reason,
        withhold,
    })
}

//! The body that shows a report to a recipient.
ghost use Rattle.std.specs.Prelude.{◌≡◌, ◌<◌, ◌≤◌, length, Some, option_map, IfOk};
ghost use Rattle.serde_json.specs.View.{view};
ghost use Rattle.serde_json.specs.Written.{compact_text};
ghost use Rattle.wb_model.specs.Access as access;
ghost use Rattle.wb_model.specs.Json.{list_of};
ghost use Rattle.wb_model.specs.Openings.{registry_of};
ghost use Rattle.wb_model.specs.Trails as trails;
ghost use Rattle.wb_model.specs.ViewRows as rows;
ghost use Rattle.wb_model.specs.Views as views;
ghost use Rattle.wb_views.specs.Seen.{request_shown};

use crate::asked::{disablings, state_of};
use crate::remarks::dialogue;
use crate::submitted::{answers, form, version};
use serde_json::{Map, Value};
use std::alloc::Global;
use wb_base::{Memory, Moment, Number, Tenant, Text, UserId};
use wb_case::Case;
use wb_custody::AccessDesk;
use wb_json::{
    answers_value, list_value, put_date, put_date_or_null, put_flag, put_text, put_value,
    put_whole, put_whole_or_null, state_name, status_name, text_of,
};
use wb_tenants::Registry;

// Whether the identity is shown to the user.
fn identity_word(
    case: &Case,
    desk: &AccessDesk,
    registry: &Registry,
    tenant: Tenant,
    user: UserId,
    now: Moment,
) -> &'static str
    requires { desk.now.items ≡ access.requests case.now.items }
    ensures { result.now ≡ views.identity_word (registry_of registry.now.lists tenant).users user now case.now.items }
{
    if !case.summary().has_identity {
        "none"
    } else if desk.in_force(user, disablings(registry, tenant, user), now) {
        "open"
    } else {
        "sealed"
    }
}

// The object of the request of a number, counted from 1.
fn request_value(
    alloc: Global,
    desk: &AccessDesk,
    registry: &Registry,
    tenant: Tenant,
    id: usize,
) -> Result<Value, Memory>
    requires low { 0 < id }
    requires high { id ≤ length desk.now.items }
    ensures { IfOk result (λ value.
        option_map (request_shown (registry_of registry.now.lists tenant).users id) (access.request_at id desk.now.items)
        ≡ Some (view value)) }
{
    let request = desk.get(id);
    let state = state_of(desk, registry, tenant, id);
    let mut map = Map::new(alloc);
    put_text(&mut map, alloc, "state", state_name(state))?;
    put_text(&mut map, alloc, "reason", request.reason.as_str())?;
    put_whole(&mut map, alloc, "id", id as u64)?;
    put_whole_or_null(&mut map, alloc, "effective", request.effective)?;
    put_whole(&mut map, alloc, "by", request.by.id() as u64)?;
    Ok(Value::Object(map))
}

// The array of a report's requests.
fn requests_value(
    alloc: Global,
    desk: &AccessDesk,
    registry: &Registry,
    tenant: Tenant,
    number: Number,
) -> Result<Value, Memory>
    ensures { IfOk result (λ value. view value
        ≡ list_of views.request_data (rows.custodied (registry_of registry.now.lists tenant).users number desk.now.items)) }
{
    let mut values = Vec::new(alloc);
    for at in 0..desk.len() {
        values.push(request_value(alloc, desk, registry, tenant, at + 1)?)?;
    }
    Ok(Value::Array(values))
}

// The array of the remarks on a report.
fn dialogue_value(alloc: Global, case: &Case) -> Result<Value, Memory>
    ensures { IfOk result (λ value. view value ≡ list_of views.remark_data (trails.dialogue case.now.items)) }
{
    let remarks = dialogue(alloc, case)?;
    list_value(alloc, remarks.as_slice())
}

// The JSON value of the body.
fn recipient_value(
    alloc: Global,
    case: &Case,
    desk: &AccessDesk,
    tenant: Tenant,
    number: Number,
    user: UserId,
    registry: &Registry,
    now: Moment,
) -> Result<Value, Memory>
    requires { desk.now.items ≡ access.requests case.now.items }
    ensures { IfOk result (λ value. view value
        ≡ views.recipient_view (registry_of registry.now.lists tenant).users user now (record { number = number; trail = case.now.items })) }
{
    let summary = case.summary();
    let trail = case.trail().as_slice();
    let identity = identity_word(case, desk, registry, tenant, user, now);
    let requests = requests_value(alloc, desk, registry, tenant, number)?;
    let readers = list_value(alloc, summary.readers.as_slice())?;
    let dialogue = dialogue_value(alloc, case)?;
    let answers = answers_value(alloc, answers(trail))?;
    let mut map = Map::new(alloc);
    put_whole(&mut map, alloc, "version", version(trail) as u64)?;
    put_text(&mut map, alloc, "status", status_name(summary.status))?;
    put_value(&mut map, alloc, "requests", requests)?;
    put_date(&mut map, alloc, "received", summary.received)?;
    put_value(&mut map, alloc, "readers", readers)?;
    put_whole(&mut map, alloc, "number", number.get() as u64)?;
    put_text(&mut map, alloc, "label", case.label())?;
    put_text(&mut map, alloc, "identity", identity)?;
    put_whole(&mut map, alloc, "form", form(trail) as u64)?;
    put_flag(&mut map, alloc, "feedback_given", summary.feedback_given)?;
    put_date(&mut map, alloc, "feedback_due", summary.feedback_due)?;
    put_date(&mut map, alloc, "expires", summary.expires)?;
    put_value(&mut map, alloc, "dialogue", dialogue)?;
    put_whole(&mut map, alloc, "context", summary.context as u64)?;
    put_value(&mut map, alloc, "answers", answers)?;
    put_date_or_null(&mut map, alloc, "acknowledged", summary.acknowledged)?;
    put_date(&mut map, alloc, "ack_due", summary.ack_due)?;
    Ok(Value::Object(map))
}

/// The body that shows a report to a recipient at a moment. The desk has the requests of the report's trail.
pub fn recipient_view(
    alloc: Global,
    case: &Case,
    desk: &AccessDesk,
    tenant: Tenant,
    number: Number,
    user: UserId,
    registry: &Registry,
    now: Moment,
) -> Result<Text, Memory>
    requires { desk.now.items ≡ access.requests case.now.items }
    ensures { IfOk result (λ text. text
        ≡ compact_text (views.recipient_view (registry_of registry.now.lists tenant).users user now (record { number = number; trail = case.now.items }))) }
{
    let value = recipient_value(alloc, case, desk, tenant, number, user, registry, now)?;
    text_of(alloc, &value)
}

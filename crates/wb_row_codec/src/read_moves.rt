//! The deeds of a report's follow-up and of requests for its identity, as rows have them.
ghost use Rattle.serde_json.specs.View.{view};
ghost use Rattle.wb_model.specs.Bodies.{under};
ghost use Rattle.wb_model.specs.DeedFields as table;
ghost use Rattle.wb_row_codec.specs.SaidDeeds as said;
ghost use Rattle.wb_json.specs.Gives.{Gives};

use crate::members::day_under;
use serde_json::Value;
use std::alloc::Global;
use wb_base::{Text, limits};
use wb_json::{ReadError, list_under, long_under, read_text, text_under, user_under, whole_under};
use wb_model::Deed;

fn acknowledged(value: &Value) -> Result<Deed, ReadError>
    ensures { Gives (said.of_shape table.acknowledged (view value.now)) result }
{
    let day = day_under(value, "day")?;
    let feedback_due = day_under(value, "feedback_due")?;
    Ok(Deed::Acknowledged { day, feedback_due })
}

fn feedback(alloc: Global, value: &Value) -> Result<Deed, ReadError>
    ensures { Gives (said.of_shape table.feedback (view value.now)) result }
{
    let text = text_under(alloc, value, "text", 1, limits::TEXT_BYTES)?;
    Ok(Deed::Feedback { text })
}

fn shared(value: &Value) -> Result<Deed, ReadError>
    ensures { Gives (said.of_shape table.shared (view value.now)) result }
{
    let user = user_under(value, "user")?;
    Ok(Deed::Shared { user })
}

fn unshared(value: &Value) -> Result<Deed, ReadError>
    ensures { Gives (said.of_shape table.unshared (view value.now)) result }
{
    let user = user_under(value, "user")?;
    Ok(Deed::Unshared { user })
}

fn transferred(alloc: Global, value: &Value) -> Result<Deed, ReadError>
    ensures { Gives (said.of_shape table.transferred (view value.now)) result }
{
    let context = whole_under(value, "context", 1, limits::CONTEXTS)?;
    let readers = list_under(alloc, value, "readers")?;
    Ok(Deed::Transferred { context, readers })
}

fn postponed(value: &Value) -> Result<Deed, ReadError>
    ensures { Gives (said.of_shape table.postponed (view value.now)) result }
{
    let expires = day_under(value, "expires")?;
    Ok(Deed::Postponed { expires })
}

fn extended(alloc: Global, value: &Value) -> Result<Deed, ReadError>
    ensures { Gives (said.of_shape table.extended (view value.now)) result }
{
    let feedback_due = day_under(value, "feedback_due")?;
    let reason = text_under(alloc, value, "reason", 1, limits::REASON_BYTES)?;
    Ok(Deed::Extended {
        feedback_due,
        reason,
    })
}

fn asked(alloc: Global, value: &Value) -> Result<Deed, ReadError>
    ensures { Gives (said.of_shape table.asked (view value.now)) result }
{
    let reason = text_under(alloc, value, "reason", 1, limits::REASON_BYTES)?;
    let stamp = whole_under(value, "stamp", 0, limits::DISABLINGS)?;
    Ok(Deed::Asked { reason, stamp })
}

// A text, or none for null.
fn read_withheld(alloc: Global, value: &Value) -> Result<Option<Text>, ReadError>
    ensures { Gives (said.text_or_null 1 1_024 (view value.now)) result }
{
    match value {
        Value::Null => Ok(None),
        Value::String(_) => Ok(Some(read_text(alloc, value, 1, 1_024)?)),
        _ => Err(ReadError::Other),
    }
}

fn withheld_under(alloc: Global, value: &Value, key: &str) -> Result<Option<Text>, ReadError>
    ensures { Gives (under key.now (said.text_or_null 1 1_024) (view value.now)) result }
{
    match value.get(key) {
        Some(found) => read_withheld(alloc, found),
        None => Err(ReadError::Other),
    }
}

fn granted(alloc: Global, value: &Value) -> Result<Deed, ReadError>
    ensures { Gives (said.of_shape table.granted (view value.now)) result }
{
    let effective = long_under(value, "effective", 0, 100_002_591_999)?;
    let reason = text_under(alloc, value, "reason", 1, limits::REASON_BYTES)?;
    let request = whole_under(value, "request", 0, u32::MAX)?;
    let withheld = withheld_under(alloc, value, "withheld")?;
    Ok(Deed::Granted {
        effective,
        reason,
        request,
        withheld,
    })
}

fn denied(alloc: Global, value: &Value) -> Result<Deed, ReadError>
    ensures { Gives (said.of_shape table.denied (view value.now)) result }
{
    let reason = text_under(alloc, value, "reason", 1, limits::REASON_BYTES)?;
    let request = whole_under(value, "request", 0, u32::MAX)?;
    Ok(Deed::Denied { reason, request })
}

fn revoked(alloc: Global, value: &Value) -> Result<Deed, ReadError>
    ensures { Gives (said.of_shape table.revoked (view value.now)) result }
{
    let reason = text_under(alloc, value, "reason", 1, limits::REASON_BYTES)?;
    let request = whole_under(value, "request", 0, u32::MAX)?;
    Ok(Deed::Revoked { reason, request })
}

// The deed of this name on a request for the identity.
fn request_deed(alloc: Global, name: &str, value: &Value) -> Result<Deed, ReadError>
    ensures { Gives (said.by_name said.request_deeds name.now (view value.now)) result }
{
    if name == "asked" {
        asked(alloc, value)
    } else if name == "granted" {
        granted(alloc, value)
    } else if name == "denied" {
        denied(alloc, value)
    } else if name == "revoked" {
        revoked(alloc, value)
    } else {
        Err(ReadError::Other)
    }
}

/// The deed of this name in the follow-up of a report, or on a request for its identity.
pub fn follow_deed(alloc: Global, name: &str, value: &Value) -> Result<Deed, ReadError>
    ensures { Gives (said.by_name said.follow_deeds name.now (view value.now)) result }
{
    if name == "acknowledged" {
        acknowledged(value)
    } else if name == "feedback" {
        feedback(alloc, value)
    } else if name == "shared" {
        shared(value)
    } else if name == "unshared" {
        unshared(value)
    } else if name == "transferred" {
        transferred(alloc, value)
    } else if name == "postponed" {
        postponed(value)
    } else if name == "extended" {
        extended(alloc, value)
    } else {
        request_deed(alloc, name, value)
    }
}

//! The entry of a trail, as a row has it.
ghost use Rattle.std.specs.Prelude.{option_map};
ghost use Rattle.serde_json.specs.View.{view};
ghost use Rattle.wb_model.specs.Bodies.{under, whole};
ghost use Rattle.wb_model.specs.DeedFields as table;
ghost use Rattle.wb_row_codec.specs.SaidDeeds as said;
ghost use Rattle.wb_json.specs.Gives.{Gives};

use crate::members::{day_under, digest_under};
use crate::numberings::moment_under;
use crate::read_moves::follow_deed;
use serde_json::Value;
use std::alloc::Global;
use wb_base::{UserId, limits};
use wb_json::{
    ReadError, answers_under, flag_under, list_under, status_under, str_under, text_under,
    whole_under,
};
use wb_model::{Actor, Deed, Entry};

fn submitted(alloc: Global, value: &Value) -> Result<Deed, ReadError>
    ensures { Gives (said.of_shape table.submitted (view value.now)) result }
{
    let ack_due = day_under(value, "ack_due")?;
    let answers = answers_under(alloc, value, "answers")?;
    let context = whole_under(value, "context", 1, limits::CONTEXTS)?;
    let expires = day_under(value, "expires")?;
    let feedback_due = day_under(value, "feedback_due")?;
    let form = whole_under(value, "form", 1, limits::FORMS)?;
    let mark = flag_under(value, "mark")?;
    let readers = list_under(alloc, value, "readers")?;
    let receipt = digest_under(value, "receipt")?;
    let received = day_under(value, "received")?;
    let version = whole_under(value, "version", 1, limits::VERSIONS)?;
    Ok(Deed::Submitted {
        ack_due,
        answers,
        context,
        expires,
        feedback_due,
        form,
        mark,
        readers,
        receipt,
        received,
        version,
    })
}

fn comment(alloc: Global, value: &Value) -> Result<Deed, ReadError>
    ensures { Gives (said.of_shape table.comment (view value.now)) result }
{
    let internal = flag_under(value, "internal")?;
    let text = text_under(alloc, value, "text", 1, limits::TEXT_BYTES)?;
    Ok(Deed::Comment { internal, text })
}

fn label(alloc: Global, value: &Value) -> Result<Deed, ReadError>
    ensures { Gives (said.of_shape table.label (view value.now)) result }
{
    let text = text_under(alloc, value, "text", 0, limits::LABEL_BYTES)?;
    Ok(Deed::Label { text })
}

fn set_status(value: &Value) -> Result<Deed, ReadError>
    ensures { Gives (said.of_shape table.set_status (view value.now)) result }
{
    let status = status_under(value, "status")?;
    Ok(Deed::SetStatus { status })
}

// The deed of this name.
fn deed_named(alloc: Global, name: &str, value: &Value) -> Result<Deed, ReadError>
    ensures { Gives (said.by_name said.all_deeds name.now (view value.now)) result }
{
    if name == "submitted" {
        submitted(alloc, value)
    } else if name == "identity" {
        Ok(Deed::Identity)
    } else if name == "comment" {
        comment(alloc, value)
    } else if name == "label" {
        label(alloc, value)
    } else if name == "status" {
        set_status(value)
    } else {
        follow_deed(alloc, name, value)
    }
}

fn read_deed(alloc: Global, value: &Value) -> Result<Deed, ReadError>
    ensures { Gives (said.deed (view value.now)) result }
{
    match str_under(value, "deed") {
        Some(name) => deed_named(alloc, name, value),
        None => Err(ReadError::Other),
    }
}

// Who acts under a key: 0 is the reporter.
fn actor_under(value: &Value, key: &str) -> Result<Actor, ReadError>
    ensures { Gives (option_map said.actor (under key.now (whole 0 256) (view value.now))) result }
{
    let number = whole_under(value, key, 0, 256)?;
    if number == 0 {
        return Ok(Actor::Reporter);
    }
    match UserId::try_new(number as u16) {
        Some(user) => Ok(Actor::User(user)),
        None => Err(ReadError::Other),
    }
}

/// The entry that a value is.
pub fn read_entry(alloc: Global, value: &Value) -> Result<Entry, ReadError>
    ensures { Gives (said.entry (view value.now)) result }
{
    let at = moment_under(value, "at")?;
    let by = actor_under(value, "by")?;
    let deed = read_deed(alloc, value)?;
    Ok(Entry { at, by, deed })
}

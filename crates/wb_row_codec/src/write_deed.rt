//! The name of a deed and its keys in the object of its entry.
ghost use Rattle.std.specs.Prelude.{◌≡◌, OnOk};
ghost use Rattle.hex.specs.Hex.{encode_lower};
ghost use Rattle.serde_json.specs.Data.{put, string};
ghost use Rattle.serde_json.specs.View.{members_view};
ghost use Rattle.wb_model.specs.DeedFields as table;
ghost use Rattle.wb_model.specs.Json.{answers_data, list_of, or_null, whole};
ghost use Rattle.wb_row_codec.specs.Members.{puts};

use serde_json::{Map, Value};
use std::alloc::Global;
use wb_base::{Answers, Digest, Memory, Text, UserId};
use wb_json::{
    answers_value, list_value, put_date, put_flag, put_null, put_text, put_value, put_whole,
    status_name,
};
use wb_list::Items;
use wb_model::Deed;

/// The name of a deed.
pub fn deed_name(deed: &Deed) -> &'static str
    ensures { result.now ≡ table.deed_name deed.now }
{
    match deed {
        Deed::Submitted { .. } => "submitted",
        Deed::Identity => "identity",
        Deed::Comment { .. } => "comment",
        Deed::Label { .. } => "label",
        Deed::SetStatus { .. } => "status",
        Deed::Acknowledged { .. } => "acknowledged",
        Deed::Feedback { .. } => "feedback",
        Deed::Shared { .. } => "shared",
        Deed::Unshared { .. } => "unshared",
        Deed::Transferred { .. } => "transferred",
        Deed::Postponed { .. } => "postponed",
        Deed::Extended { .. } => "extended",
        Deed::Asked { .. } => "asked",
        Deed::Granted { .. } => "granted",
        Deed::Denied { .. } => "denied",
        Deed::Revoked { .. } => "revoked",
    }
}

// Puts a digest in lower-case hexadecimal digits.
fn put_digest(
    map: &mut Map<String, Value>,
    alloc: Global,
    key: &str,
    digest: &Digest,
) -> Result<(), Memory>
    ensures { OnOk result (members_view map.new.entries
        ≡ put key.now (string (encode_lower digest.now.0)) (members_view map.old.entries)) }
{
    let digits = hex::encode(alloc, digest.0.as_slice())?;
    put_text(map, alloc, key, digits.as_str())
}

// Puts a text, or null where there is none.
fn put_text_or_null(
    map: &mut Map<String, Value>,
    alloc: Global,
    key: &str,
    text: &Option<Text>,
) -> Result<(), Memory>
    ensures { OnOk result (members_view map.new.entries
        ≡ put key.now (or_null string text.now) (members_view map.old.entries)) }
{
    match text {
        Some(text) => put_text(map, alloc, key, text.as_str()),
        None => put_null(map, alloc, key),
    }
}

// Puts the ids of users.
fn put_users(
    map: &mut Map<String, Value>,
    alloc: Global,
    key: &str,
    users: &Items<UserId>,
) -> Result<(), Memory>
    ensures { OnOk result (members_view map.new.entries
        ≡ put key.now (list_of whole users.now) (members_view map.old.entries)) }
{
    put_value(map, alloc, key, list_value(alloc, users.as_slice())?)
}

// Puts answers.
fn put_answers(
    map: &mut Map<String, Value>,
    alloc: Global,
    key: &str,
    answers: &Answers,
) -> Result<(), Memory>
    ensures { OnOk result (members_view map.new.entries
        ≡ put key.now (answers_data answers.now) (members_view map.old.entries)) }
{
    put_value(map, alloc, key, answers_value(alloc, answers.as_slice())?)
}

/// Puts the keys of a deed, the last in byte order first.
pub fn put_deed(map: &mut Map<String, Value>, alloc: Global, deed: &Deed) -> Result<(), Memory>
    ensures { OnOk result (members_view map.new.entries
        ≡ puts (table.deed_members deed.now) (members_view map.old.entries)) }
{
    match deed {
        Deed::Submitted {
            ack_due,
            answers,
            context,
            expires,
            feedback_due,
            form,
            mark,
            readers,
            receipt,
            received,
            version,
        } => {
            put_whole(map, alloc, "version", *version as u64)?;
            put_date(map, alloc, "received", *received)?;
            put_digest(map, alloc, "receipt", receipt)?;
            put_users(map, alloc, "readers", readers)?;
            put_flag(map, alloc, "mark", *mark)?;
            put_whole(map, alloc, "form", *form as u64)?;
            put_date(map, alloc, "feedback_due", *feedback_due)?;
            put_date(map, alloc, "expires", *expires)?;
            put_whole(map, alloc, "context", *context as u64)?;
            put_answers(map, alloc, "answers", answers)?;
            put_date(map, alloc, "ack_due", *ack_due)?;
            Ok(())
        }
        Deed::Identity => Ok(()),
        Deed::Comment { internal, text } => {
            put_text(map, alloc, "text", text.as_str())?;
            put_flag(map, alloc, "internal", *internal)?;
            Ok(())
        }
        Deed::Label { text } | Deed::Feedback { text } => {
            put_text(map, alloc, "text", text.as_str())?;
            Ok(())
        }
        Deed::SetStatus { status } => {
            put_text(map, alloc, "status", status_name(*status))?;
            Ok(())
        }
        Deed::Acknowledged { day, feedback_due } => {
            put_date(map, alloc, "feedback_due", *feedback_due)?;
            put_date(map, alloc, "day", *day)?;
            Ok(())
        }
        Deed::Shared { user } | Deed::Unshared { user } => {
            put_whole(map, alloc, "user", user.id() as u64)?;
            Ok(())
        }
        Deed::Transferred { context, readers } => {
            put_users(map, alloc, "readers", readers)?;
            put_whole(map, alloc, "context", *context as u64)?;
            Ok(())
        }
        Deed::Postponed { expires } => {
            put_date(map, alloc, "expires", *expires)?;
            Ok(())
        }
        Deed::Extended {
            feedback_due,
            reason,
        } => {
            put_text(map, alloc, "reason", reason.as_str())?;
            put_date(map, alloc, "feedback_due", *feedback_due)?;
            Ok(())
        }
        Deed::Asked { reason, stamp } => {
            put_whole(map, alloc, "stamp", *stamp as u64)?;
            put_text(map, alloc, "reason", reason.as_str())?;
            Ok(())
        }
        Deed::Granted {
            effective,
            reason,
            request,
            withheld,
        } => {
            put_text_or_null(map, alloc, "withheld", withheld)?;
            put_whole(map, alloc, "request", *request as u64)?;
            put_text(map, alloc, "reason", reason.as_str())?;
            put_whole(map, alloc, "effective", *effective)?;
            Ok(())
        }
        Deed::Denied { reason, request } | Deed::Revoked { reason, request } => {
            put_whole(map, alloc, "request", *request as u64)?;
            put_text(map, alloc, "reason", reason.as_str())?;
            Ok(())
        }
    }
}

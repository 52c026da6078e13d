//! The two bodies that show identity answers: a report to its reporter, and an identity to who was granted it.
ghost use Rattle.std.specs.Prelude.{◌≡◌, not, filter, map as map_over, codes, IfOk, OnOk};
ghost use Rattle.std.specs.Option.{option_copied};
ghost use Rattle.serde_json.specs.Data.{put};
ghost use Rattle.serde_json.specs.View.{view, members_view};
ghost use Rattle.serde_json.specs.Written.{compact_text};
ghost use Rattle.wb_model.specs.Json.{list_of, or_null, answers_data};
ghost use Rattle.wb_model.specs.Trails as trails;
ghost use Rattle.wb_model.specs.Trails.{Remark as RemarkData};
ghost use Rattle.wb_model.specs.Views as views;
ghost use Rattle.wb_views.specs.Seen.{remark_seen};

use crate::remarks::{Remark, dialogue};
use crate::submitted::{answers, form, version};
use serde_json::{Map, Value};
use std::alloc::Global;
use wb_base::{Answers, Memory, Number, Text};
use wb_case::Case;
use wb_json::{
    answers_value, put_date, put_date_or_null, put_null, put_text, put_value, put_whole,
    status_name, text_of,
};

// The object of a remark as its report's reporter sees it.
fn own_remark_value(alloc: Global, remark: &Remark<'_>) -> Result<Value, Memory>
    ensures { IfOk result (λ value. view value ≡ views.own_remark_data (remark_seen remark.now)) }
{
    let mut map = Map::new(alloc);
    put_text(&mut map, alloc, "text", remark.text)?;
    put_text(&mut map, alloc, "kind", remark.kind)?;
    put_text(&mut map, alloc, "from", remark.from)?;
    put_whole(&mut map, alloc, "at", remark.at.seconds())?;
    Ok(Value::Object(map))
}

// The array of those remarks that are not internal.
fn own_remarks_value(alloc: Global, remarks: &[Remark<'_>]) -> Result<Value, Memory>
    ensures { IfOk result (λ value. view value
        ≡ list_of views.own_remark_data (filter (λ (r : RemarkData). not r.internal) (map_over remark_seen remarks.now))) }
{
    let mut values = Vec::new(alloc);
    for remark in remarks {
        if !remark.internal {
            values.push(own_remark_value(alloc, remark)?)?;
        }
    }
    Ok(Value::Array(values))
}

// The array of what the reporter sees of the dialogue.
fn own_dialogue_value(alloc: Global, case: &Case) -> Result<Value, Memory>
    ensures { IfOk result (λ value. view value
        ≡ list_of views.own_remark_data (filter (λ (r : RemarkData). not r.internal) (trails.dialogue case.now.items))) }
{
    let remarks = dialogue(alloc, case)?;
    own_remarks_value(alloc, remarks.as_slice())
}

// Puts the identity answers, or null where there are none.
fn put_identity(
    map: &mut Map<String, Value>,
    alloc: Global,
    sealed: Option<&Answers>,
) -> Result<(), Memory>
    ensures { OnOk result (members_view map.new.entries
        ≡ put (codes "identity") (or_null answers_data (option_copied sealed.entry)) (members_view map.old.entries)) }
{
    match sealed {
        Some(answers) => {
            let answers = answers_value(alloc, answers.as_slice())?;
            put_value(map, alloc, "identity", answers)
        }
        None => put_null(map, alloc, "identity"),
    }
}

// The JSON value of the reporter's body.
fn reporter_value(
    alloc: Global,
    case: &Case,
    sealed: Option<&Answers>,
    number: Number,
) -> Result<Value, Memory>
    ensures { IfOk result (λ value. view value
        ≡ views.reporter_view (record { number = number; trail = case.now.items }) (option_copied sealed.entry)) }
{
    let summary = case.summary();
    let trail = case.trail().as_slice();
    let dialogue = own_dialogue_value(alloc, case)?;
    let answers = answers_value(alloc, answers(trail))?;
    let mut map = Map::new(alloc);
    put_whole(&mut map, alloc, "version", version(trail) as u64)?;
    put_text(&mut map, alloc, "status", status_name(summary.status))?;
    put_date(&mut map, alloc, "received", summary.received)?;
    put_whole(&mut map, alloc, "number", number.get() as u64)?;
    put_identity(&mut map, alloc, sealed)?;
    put_whole(&mut map, alloc, "form", form(trail) as u64)?;
    put_date(&mut map, alloc, "feedback_due", summary.feedback_due)?;
    put_date(&mut map, alloc, "expires", summary.expires)?;
    put_value(&mut map, alloc, "dialogue", dialogue)?;
    put_value(&mut map, alloc, "answers", answers)?;
    put_date_or_null(&mut map, alloc, "acknowledged", summary.acknowledged)?;
    Ok(Value::Object(map))
}

/// The body that shows a report to its reporter, with the identity answers where there are any.
pub fn reporter_view(
    alloc: Global,
    case: &Case,
    sealed: Option<&Answers>,
    number: Number,
) -> Result<Text, Memory>
    ensures { IfOk result (λ text. text
        ≡ compact_text (views.reporter_view (record { number = number; trail = case.now.items }) (option_copied sealed.entry))) }
{
    let value = reporter_value(alloc, case, sealed, number)?;
    text_of(alloc, &value)
}

// The JSON value of an identity.
#[tactic(auto, unfolding(wb_model::specs::Views::identity_view))]
fn identity_value(alloc: Global, number: Number, answers: &Answers) -> Result<Value, Memory>
    ensures { IfOk result (λ value. view value ≡ views.identity_view number answers.now) }
{
    let answers = answers_value(alloc, answers.as_slice())?;
    let mut map = Map::new(alloc);
    put_whole(&mut map, alloc, "number", number.get() as u64)?;
    put_value(&mut map, alloc, "answers", answers)?;
    Ok(Value::Object(map))
}

/// The body that shows the identity answers of a report.
pub fn identity_view(alloc: Global, number: Number, answers: &Answers) -> Result<Text, Memory>
    ensures { IfOk result (λ text. text ≡ compact_text (views.identity_view number answers.now)) }
{
    let value = identity_value(alloc, number, answers)?;
    text_of(alloc, &value)
}

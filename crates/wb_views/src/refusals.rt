//! The bodies of refusals.
ghost use Rattle.std.specs.Prelude.{◌≡◌, IfOk};
ghost use Rattle.serde_json.specs.View.{view};
ghost use Rattle.serde_json.specs.Written.{compact_text};
ghost use Rattle.wb_model.specs.Refusals.{refusal as refusal_data};
ghost use Rattle.wb_views.specs.RefusalBodies.{detail_of};

use serde_json::{Map, Value};
use std::alloc::Global;
use wb_base::{Day, Memory, Text};
use wb_json::{put_date, put_null, put_text, put_whole, text_of};

/// What the body of a refusal has besides its code.
#[derive(Drop)]
pub enum Detail {
    /// Nothing.
    Bare,
    /// The id of the field at fault.
    Field(Text),
    /// Nothing that is kept.
    Null,
    /// The number that is kept.
    Whole(u64),
    /// The day that is kept.
    Date(Day),
    /// The word that is kept.
    Word(&'static str),
}

// The JSON value of a refusal.
#[tactic(auto, unfolding(wb_model::specs::Refusals::refusal))]
fn refusal_value(alloc: Global, code: &str, detail: &Detail) -> Result<Value, Memory>
    ensures { IfOk result (λ value. view value ≡ refusal_data code.now (detail_of detail.now)) }
{
    let mut map = Map::new(alloc);
    match detail {
        Detail::Bare => (),
        Detail::Field(id) => put_text(&mut map, alloc, "field", id.as_str())?,
        Detail::Null => put_null(&mut map, alloc, "kept")?,
        Detail::Whole(whole) => put_whole(&mut map, alloc, "kept", *whole)?,
        Detail::Date(day) => put_date(&mut map, alloc, "kept", *day)?,
        Detail::Word(word) => put_text(&mut map, alloc, "kept", word)?,
    }
    put_text(&mut map, alloc, "code", code)?;
    Ok(Value::Object(map))
}

/// The body of a refusal: its code, and the field at fault or what is kept.
pub fn refusal(alloc: Global, code: &'static str, detail: &Detail) -> Result<Text, Memory>
    ensures { IfOk result (λ text. text ≡ compact_text (refusal_data code.now (detail_of detail.now))) }
{
    let value = refusal_value(alloc, code, detail)?;
    text_of(alloc, &value)
}

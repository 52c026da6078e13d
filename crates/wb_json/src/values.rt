//! The JSON of values that several bodies and rows share: lists, ids and answers.
ghost use Rattle.std.specs.Prelude.{◌≡◌, IfOk};
ghost use Rattle.serde_json.specs.Data.{Data, string};
ghost use Rattle.serde_json.specs.View.{view};
ghost use Rattle.wb_base.specs.declared.answers.Given.TheVariants as given;
ghost use Rattle.wb_model.specs.Json.{date, list_of, whole, given_data, answers_data};

use crate::members::{date_value, put_text, put_value};
use serde_json::{Map, Value};
use std::alloc::Global;
use wb_base::{Day, Given, Memory, Text, UserId};

/// What has a JSON value.
pub trait Showing {
    ghost json: { Self → Data };

    /// Its JSON value.
    fn value(&self, alloc: Global) -> Result<Value, Memory>
        ensures { IfOk result (λ value. view value ≡ json self.now) };
}

impl Showing for Text {
    ghost json = { string };

    fn value(&self, alloc: Global) -> Result<Value, Memory> {
        Ok(Value::try_from_str(alloc, self.as_str())?)
    }
}

impl Showing for UserId {
    ghost json = { whole };

    fn value(&self, _alloc: Global) -> Result<Value, Memory> {
        Ok(Value::from(self.id()))
    }
}

impl Showing for Day {
    ghost json = { date };

    fn value(&self, alloc: Global) -> Result<Value, Memory> {
        date_value(alloc, *self)
    }
}

/// The array of what is shown of each item.
pub fn list_value<T: Showing>(alloc: Global, items: &[T]) -> Result<Value, Memory>
    ensures { IfOk result (λ value. view value ≡ list_of T.json items.now) }
{
    let mut values = Vec::new(alloc);
    for item in items {
        values.push(item.value(alloc)?)?;
    }
    Ok(Value::Array(values))
}

// The object of a file.
fn file_value(alloc: Global, name: &Text, content: &Text) -> Result<Value, Memory>
    ensures { IfOk result (λ value. view value ≡ given_data (given.File name.now content.now)) }
{
    let mut map = Map::new(alloc);
    put_text(&mut map, alloc, "name", name.as_str())?;
    put_text(&mut map, alloc, "data", content.as_str())?;
    Ok(Value::Object(map))
}

// The value that was given.
fn given_value(alloc: Global, given: &Given) -> Result<Value, Memory>
    ensures { IfOk result (λ value. view value ≡ given_data given.now) }
{
    match given {
        Given::Text(text) => text.value(alloc),
        Given::List(texts) => list_value(alloc, texts.as_slice()),
        Given::Flag(flag) => Ok(Value::Bool(*flag)),
        Given::Whole(whole) => Ok(Value::from(*whole)),
        Given::File { name, content } => file_value(alloc, name, content),
    }
}

/// The object of answers, from field id to what was given.
pub fn answers_value(alloc: Global, answers: &[(Text, Given)]) -> Result<Value, Memory>
    ensures { IfOk result (λ value. view value ≡ answers_data answers.now) }
{
    let mut map = Map::new(alloc);
    for (id, given) in answers.iter().rev() {
        put_value(&mut map, alloc, id.as_str(), given_value(alloc, given)?)?;
    }
    Ok(Value::Object(map))
}

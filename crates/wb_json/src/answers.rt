//! Answers read: an object from field id to answer.
ghost use Rattle.std.specs.Prelude.{◌≡◌, ◌++◌, [], OnOk};
ghost use Rattle.serde_json.specs.Find.{as_str};
ghost use Rattle.serde_json.specs.View.{view, members_view};
ghost use Rattle.wb_model.specs.Bodies.{under, answer, file as file_of, entries as entries_of, answers as answers_of, with_entry};
ghost use Rattle.wb_json.specs.Entries.{AreBelow};
ghost use Rattle.wb_json.specs.Gives.{Gives};

use crate::ReadError;
use crate::read_lists::{Part, read_all};
use serde_json::{Map, Value};
use std::alloc::Global;
use wb_base::{Answers, Given, Memory, Text};
use wb_form::size;

impl Part for Text {
    ghost reading = { as_str };

    fn read(alloc: Global, value: &Value) -> Result<Text, ReadError> {
        match value.as_str() {
            Some(text) => Ok(Text::from_str(alloc, text)?),
            None => Err(ReadError::Other),
        }
    }
}

// The text under a key of a file.
fn part(alloc: Global, value: &Value, key: &str) -> Result<Text, ReadError>
    ensures { Gives (under key.now as_str (view value.now)) result }
{
    match value.get(key) {
        Some(found) => match found.as_str() {
            Some(text) => Ok(Text::from_str(alloc, text)?),
            None => Err(ReadError::Other),
        },
        None => Err(ReadError::Other),
    }
}

// The file that an object is.
fn read_file(alloc: Global, value: &Value) -> Result<Given, ReadError>
    ensures { Gives (file_of (view value.now)) result }
{
    if size(value) != 2 {
        return Err(ReadError::Other);
    }
    let name = part(alloc, value, "name")?;
    let content = part(alloc, value, "data")?;
    Ok(Given::File { name, content })
}

// What a value gives for a field, which is nothing for `null` and the empty text.
fn read_answer(alloc: Global, value: &Value) -> Result<Option<Given>, ReadError>
    ensures { Gives (answer (view value.now)) result }
{
    match value {
        Value::Null => Ok(None),
        Value::Bool(flag) => Ok(Some(Given::Flag(*flag))),
        Value::Number(number) => match number.as_i64() {
            Some(whole) => Ok(Some(Given::Whole(whole))),
            None => Err(ReadError::Other),
        },
        Value::String(text) => {
            if text.is_empty() {
                Ok(None)
            } else {
                Ok(Some(Given::Text(Text::from_str(alloc, text.as_str())?)))
            }
        }
        Value::Array(values) => Ok(Some(Given::List(read_all(alloc, values)?))),
        Value::Object(_) => Ok(Some(read_file(alloc, value)?)),
    }
}

// Puts what was given for a key after the answers of lesser keys.
fn push_entry(
    alloc: Global,
    answers: &mut Answers,
    key: &str,
    given: Option<Given>,
) -> Result<(), Memory>
    requires { AreBelow answers.old key.now }
    ensures { OnOk result (answers.new ≡ answers.old ++ with_entry key.now given []) }
{
    match given {
        Some(given) => {
            answers.insert(Text::from_str(alloc, key)?, given)?;
            Ok(())
        }
        None => Ok(()),
    }
}

// The answers of an object's members.
fn read_entries(alloc: Global, members: &Map<String, Value>) -> Result<Answers, ReadError>
    ensures { Gives (entries_of (members_view members.now.entries)) result }
{
    let mut answers = Answers::new(alloc);
    for (key, value) in members.iter() {
        let given = read_answer(alloc, value)?;
        push_entry(alloc, &mut answers, key.as_str(), given)?;
    }
    Ok(answers)
}

/// The answers that a value is.
pub fn read_answers(alloc: Global, value: &Value) -> Result<Answers, ReadError>
    ensures { Gives (answers_of (view value.now)) result }
{
    match value.as_object() {
        Some(members) => read_entries(alloc, members),
        None => Err(ReadError::Other),
    }
}

/// The answers under a key.
pub fn answers_under(alloc: Global, value: &Value, key: &str) -> Result<Answers, ReadError>
    ensures { Gives (under key.now answers_of (view value.now)) result }
{
    match value.get(key) {
        Some(found) => read_answers(alloc, found),
        None => Err(ReadError::Other),
    }
}

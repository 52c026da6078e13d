//! Lists read, each value of one form.
ghost use Rattle.std.specs.Prelude.{[], Option};
ghost use Rattle.serde_json.specs.Data.{Data};
ghost use Rattle.serde_json.specs.Find.{get};
ghost use Rattle.serde_json.specs.View.{view, items_view};
ghost use Rattle.wb_base.specs.FormShape.{all_of, list_of, optional};
ghost use Rattle.wb_model.specs.Bodies.{under};
ghost use Rattle.wb_json.specs.Gives.{Gives};

use crate::ReadError;
use serde_json::Value;
use std::alloc::Global;
use wb_list::Items;

/// What a value of a list may be read as.
pub trait Part: Drop {
    /// What a value is read as, if it is of that form.
    ghost reading: { Data → Option Self };

    /// What the value is read as.
    fn read(alloc: Global, value: &Value) -> Result<Self, ReadError>
    where
        Self: Sized,
        ensures { Gives (reading (view value.now)) result };
}

/// Values that are each of that form.
pub fn read_all<T: Part>(alloc: Global, values: &Vec<Value>) -> Result<Items<T>, ReadError>
    ensures { Gives (all_of T.reading (items_view values.now.items)) result }
{
    let mut found = Items::new(alloc);
    for value in values {
        found.push(T::read(alloc, value)?)?;
    }
    Ok(found)
}

/// A list of values that are each of that form.
pub fn read_list<T: Part>(alloc: Global, value: &Value) -> Result<Items<T>, ReadError>
    ensures { Gives (list_of T.reading (view value.now)) result }
{
    match value.as_array() {
        Some(values) => read_all(alloc, values),
        None => Err(ReadError::Other),
    }
}

/// The list under a key.
pub fn list_under<T: Part>(alloc: Global, value: &Value, key: &str) -> Result<Items<T>, ReadError>
    ensures { Gives (under key.now (list_of T.reading) (view value.now)) result }
{
    match value.get(key) {
        Some(found) => read_list(alloc, found),
        None => Err(ReadError::Other),
    }
}

/// The list under a key, which is empty where it is left out.
pub fn list_if_under<T: Part>(
    alloc: Global,
    value: &Value,
    key: &str,
) -> Result<Items<T>, ReadError>
    ensures { Gives (optional [] (list_of T.reading) (get key.now (view value.now))) result }
{
    match value.get(key) {
        Some(found) => read_list(alloc, found),
        None => Ok(Items::new(alloc)),
    }
}

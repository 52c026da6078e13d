//! Lists in a setup.
ghost use Rattle.std.specs.Prelude.{Some, None, Option};
ghost use Rattle.toml.specs.Data.{Data};
ghost use Rattle.toml.specs.View.{view, items_view};
ghost use Rattle.wb_setup.specs.TomlValues.{under, all_of, list_of, if_listed};
ghost use Rattle.wb_json.specs.Gives.{Gives};

use std::alloc::Global;
use toml::Value;
use wb_json::ReadError;
use wb_list::Items;

/// What a value of a setup may be read as.
pub trait Part: Drop {
    /// What a value is read as, if it is of that form.
    ghost reading: { Data → Option Self };

    /// What the value is read as.
    fn read(alloc: Global, value: &Value) -> Result<Self, ReadError>
    where
        Self: Sized,
        ensures { Gives (reading (view value.now)) result };
}

fn read_all<T: Part>(alloc: Global, values: &Vec<Value>) -> Result<Items<T>, ReadError>
    ensures { Gives (all_of T.reading (items_view values.now.items)) result }
{
    let mut found = Items::new(alloc);
    for value in values {
        found.push(T::read(alloc, value)?)?;
    }
    Ok(found)
}

/// A list of values that are each of that form.
pub fn read_list<T: Part>(alloc: Global, value: &Value) -> Result<Items<T>, ReadError>
    ensures { Gives (list_of T.reading (view value.now)) result }
{
    match value.as_array() {
        Some(values) => read_all(alloc, values),
        None => Err(ReadError::Other),
    }
}

/// The list under a key.
pub fn list_under<T: Part>(alloc: Global, value: &Value, key: &str) -> Result<Items<T>, ReadError>
    ensures { Gives (under key.now (list_of T.reading) (view value.now)) result }
{
    match value.get(key) {
        Some(found) => read_list(alloc, found),
        None => Err(ReadError::Other),
    }
}

/// The list under a key, which is empty where it is left out.
pub fn list_if_under<T: Part>(
    alloc: Global,
    value: &Value,
    key: &str,
) -> Result<Items<T>, ReadError>
    ensures { Gives (if_listed key.now T.reading (view value.now)) result }
{
    match value.get(key) {
        Some(found) => read_list(alloc, found),
        None => Ok(Items::new(alloc)),
    }
}

//! The JSON of an entry.
ghost use Rattle.std.specs.Prelude.{◌≡◌, IfOk};
ghost use Rattle.serde_json.specs.View.{view};
ghost use Rattle.wb_model.specs.Access.{user_by};
ghost use Rattle.wb_model.specs.Rows.{entry_data};

use crate::write_deed::{deed_name, put_deed};
use serde_json::{Map, Value};
use std::alloc::Global;
use wb_base::Memory;
use wb_json::{put_text, put_whole};
use wb_model::{Actor, Entry};

// The number of who acts: 0 for the reporter, else the user's.
fn number_by(by: Actor) -> u64
    ensures { result ≡ user_by by }
{
    match by {
        Actor::Reporter => 0,
        Actor::User(user) => user.id() as u64,
    }
}

/// The JSON value of an entry.
pub fn entry_value(alloc: Global, entry: &Entry) -> Result<Value, Memory>
    ensures { IfOk result (λ value. view value ≡ entry_data entry.now) }
{
    let mut map = Map::new(alloc);
    put_deed(&mut map, alloc, &entry.deed)?;
    put_text(&mut map, alloc, "deed", deed_name(&entry.deed))?;
    put_whole(&mut map, alloc, "by", number_by(entry.by))?;
    put_whole(&mut map, alloc, "at", entry.at.seconds())?;
    Ok(Value::Object(map))
}

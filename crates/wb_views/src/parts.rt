//! The JSON of a remark in a dialogue.
ghost use Rattle.wb_model.specs.Views.{remark_data};
ghost use Rattle.wb_views.specs.Seen.{remark_seen};

use crate::remarks::Remark;
use serde_json::{Map, Value};
use std::alloc::Global;
use wb_base::Memory;
use wb_json::{Showing, put_flag, put_null, put_text, put_whole};

impl Showing for Remark<'_> {
    ghost json = { λ remark. remark_data (remark_seen remark) };

    fn value(&self, alloc: Global) -> Result<Value, Memory> {
        let mut map = Map::new(alloc);
        match self.user {
            Some(user) => put_whole(&mut map, alloc, "user", user.id() as u64)?,
            None => put_null(&mut map, alloc, "user")?,
        }
        put_text(&mut map, alloc, "text", self.text)?;
        put_text(&mut map, alloc, "kind", self.kind)?;
        put_flag(&mut map, alloc, "internal", self.internal)?;
        put_text(&mut map, alloc, "from", self.from)?;
        put_whole(&mut map, alloc, "at", self.at.seconds())?;
        Ok(Value::Object(map))
    }
}

//! The body of the reply to a submission.
ghost use Rattle.std.specs.Prelude.{◌≡◌, IfOk};
ghost use Rattle.std.specs.Str.{IsUtf8};
ghost use Rattle.serde_json.specs.View.{view};
ghost use Rattle.serde_json.specs.Written.{compact_text};
ghost use Rattle.wb_model.specs.ShortViews.{submission_view as submission_data};

use serde_json::{Map, Value};
use std::alloc::Global;
use std::str;
use wb_base::{Memory, Text};
use wb_json::{put_text, put_whole, text_of};

// The JSON value of a submission.
#[tactic(auto, unfolding(wb_model::specs::ShortViews::submission_view))]
fn submission_value(alloc: Global, number: u32, receipt: &str) -> Result<Value, Memory>
    ensures { IfOk result (λ value. view value ≡ submission_data number receipt.now) }
{
    let mut map = Map::new(alloc);
    put_text(&mut map, alloc, "receipt", receipt)?;
    put_whole(&mut map, alloc, "number", number as u64)?;
    Ok(Value::Object(map))
}

/// The body of the reply to a submission: the report's number, and its receipt, a text in UTF-8.
pub fn submission_view(alloc: Global, number: u32, receipt: &[u8; 16]) -> Result<Text, Memory>
    requires { IsUtf8 receipt.now }
    ensures { IfOk result (λ text. text ≡ compact_text (submission_data number receipt.now)) }
{
    match str::from_utf8(receipt.as_slice()) {
        Ok(receipt) => {
            let value = submission_value(alloc, number, receipt)?;
            text_of(alloc, &value)
        }
        Err(_) => unreachable!(),
    }
}

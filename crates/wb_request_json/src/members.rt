//! The members that the bodies of requests alone have.
ghost use Rattle.std.specs.Prelude.{◌≡◌};
ghost use Rattle.serde_json.specs.View.{view};
ghost use Rattle.wb_json.specs.Gives.{Gives};
ghost use Rattle.wb_model.specs.Bodies.{under, some_answers, decision_named as decision_by, decision as decision_of};

use serde_json::Value;
use std::alloc::Global;
use wb_base::Answers;
use wb_json::{ReadError, read_answers};
use wb_model::Decision;

// The decision of a name.
fn decision_named(name: &str) -> Option<Decision>
    ensures { result ≡ decision_by name.now }
{
    if name == "grant" {
        Some(Decision::Grant)
    } else if name == "deny" {
        Some(Decision::Deny)
    } else if name == "revoke" {
        Some(Decision::Revoke)
    } else {
        None
    }
}

/// The decision under a key.
pub fn decision_under(value: &Value, key: &str) -> Result<Decision, ReadError>
    ensures { Gives (under key.now decision_of (view value.now)) result }
{
    match value.get(key) {
        Some(found) => match found.as_str() {
            Some(name) => decision_named(name).ok_or(ReadError::Other),
            None => Err(ReadError::Other),
        },
        None => Err(ReadError::Other),
    }
}

/// The answers under a key, of which there are some.
pub fn some_answers_under(alloc: Global, value: &Value, key: &str) -> Result<Answers, ReadError>
    ensures { Gives (under key.now some_answers (view value.now)) result }
{
    match value.get(key) {
        Some(found) => {
            let answers = read_answers(alloc, found)?;
            if answers.len() == 0 {
                return Err(ReadError::Other);
            }
            Ok(answers)
        }
        None => Err(ReadError::Other),
    }
}

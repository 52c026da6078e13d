//! The numbers that a tenant has drawn, as a row has them.
ghost use Rattle.serde_json.specs.View.{view};
ghost use Rattle.wb_model.specs.Bodies.{under, whole};
ghost use Rattle.wb_row_codec.specs.Shapes.{numbering as numbering_of};
ghost use Rattle.wb_json.specs.Gives.{Gives};

use serde_json::Value;
use wb_base::{Moment, limits};
use wb_json::{ReadError, long_under, whole_under};
use wb_model::Numbering;

/// The moment under a key.
pub fn moment_under(value: &Value, key: &str) -> Result<Moment, ReadError>
    ensures { Gives (under key.now (whole 0 99_999_999_999) (view value.now)) result }
{
    let seconds = long_under(value, key, 0, limits::LAST_MOMENT)?;
    match Moment::try_new(seconds) {
        Some(moment) => Ok(moment),
        None => Err(ReadError::Other),
    }
}

/// The numbering that a value is.
pub fn read_numbering(value: &Value) -> Result<Numbering, ReadError>
    ensures { Gives (numbering_of (view value.now)) result }
{
    let at = moment_under(value, "at")?;
    let drawn = whole_under(value, "drawn", 0, u32::MAX)?;
    let last = whole_under(value, "last", 0, u32::MAX)?;
    Ok(Numbering { at, drawn, last })
}

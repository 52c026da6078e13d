//! Rows that come in order.
ghost use Rattle.std.specs.Prelude.{◌≡◌, ◌++◌, ◌∷◌, [], OnOk};

use wb_base::{KeepErr, Row};
use wb_list::Sorted;

/// Puts a row behind all others, where its key is above theirs.
pub(crate) fn add(rows: &mut Sorted<Row>, row: Row) -> Result<(), KeepErr>
    ensures { OnOk result (rows.new.items ≡ rows.old.items ++ row ∷ []) }
{
    if !rows.ends_below(&row) {
        return Err(KeepErr::Failed);
    }
    rows.reserve(1)?;
    rows.push(row);
    Ok(())
}

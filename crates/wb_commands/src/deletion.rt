//! A report that is deleted.
ghost use Rattle.std.specs.Prelude.{◌≡◌, ◌++◌, ◌∷◌, [], OnOk};
ghost use Rattle.wb_base.specs.declared.rows.Change.TheVariants.{DropReport};

use wb_base::{Change, Memory, Number, Tenant};

/// The rows of a report are to be dropped: its entries and its identity answers.
pub fn put_deletion(batch: &mut Vec<Change>, tenant: Tenant, number: Number) -> Result<(), Memory>
    ensures { OnOk result (batch.new.items ≡ batch.old.items ++ DropReport tenant number ∷ []) }
{
    batch.push(Change::DropReport(tenant, number))?;
    Ok(())
}

//! What a report that begins and an entry that comes to one have in common: an entry and identity answers.
ghost use Rattle.std.specs.Prelude.{◌≡◌, ◌≢◌, ◌<◌, ◌++◌, ◌∷◌, [], ℕ, OnOk};
ghost use Rattle.wb_base.specs.declared.rows.Change.TheVariants.{Put};
ghost use Rattle.wb_custody.specs.SealedAnswers.{answers_of};
ghost use Rattle.wb_model.specs.Host.{sealed_under};
ghost use Rattle.wb_model.specs.Rows.{row, entry_data};
ghost use Rattle.wb_rows.specs.Puts.{sealed_put};
ghost use Rattle.wb_tables.specs.Kept.{sealed_of};

use std::alloc::Global;
use wb_base::{Answers, Change, Memory, Number, Tenant};
use wb_custody::SealedTable;
use wb_model::Entry;
use wb_rows::{entry_row, sealed_row};

/// The entry at a place of a report's trail is to be put.
pub fn put_entry(
    alloc: Global,
    batch: &mut Vec<Change>,
    tenant: Tenant,
    number: Number,
    place: u32,
    entry: &Entry,
) -> Result<(), Memory>
    ensures { OnOk result (batch.new.items ≡ batch.old.items ++ Put (row 6 tenant number place (entry_data entry.now)) ∷ []) }
{
    let row = entry_row(alloc, tenant, number, place, entry)?;
    batch.push(Change::Put(row))?;
    Ok(())
}

/// The identity answers of a report are to be put, where there are any.
pub fn put_sealed(
    alloc: Global,
    batch: &mut Vec<Change>,
    tenant: Tenant,
    number: Number,
    secret: &Option<Answers>,
) -> Result<(), Memory>
    ensures { OnOk result (batch.new.items ≡ batch.old.items ++ sealed_put tenant number secret.now) }
{
    if let Some(answers) = secret {
        let row = sealed_row(alloc, tenant, number, answers)?;
        batch.push(Change::Put(row))?;
    }
    Ok(())
}

/// Puts the identity answers of a report into room that was made, where there are any. It takes no memory.
pub fn put_secret(sealed: &mut SealedTable, tenant: Tenant, number: Number, secret: Option<Answers>)
    requires { 0 < sealed.old.spare }
    ensures here { (n : ℕ) → answers_of sealed.new.items tenant n ≡ sealed_under number secret (sealed_of sealed.old.items tenant) n }
    ensures others { (t n : ℕ) → t ≢ tenant → answers_of sealed.new.items t n ≡ answers_of sealed.old.items t n }
{
    if let Some(secret) = secret {
        sealed.put(tenant, number, secret);
    }
}

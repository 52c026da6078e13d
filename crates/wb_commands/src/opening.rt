//! A report that begins.
ghost use Rattle.std.specs.Prelude.{◌≡◌, ◌≢◌, ◌<◌, ◌++◌, ◌∷◌, [], ℕ, true, OnOk};
ghost use Rattle.wb_base.specs.declared.rows.Change.TheVariants.{Put};
ghost use Rattle.wb_custody.specs.SealedAnswers.{answers_of};
ghost use Rattle.wb_model.specs.Access.{requests};
ghost use Rattle.wb_model.specs.Changes.{Begins};
ghost use Rattle.wb_model.specs.Host.{plain_after, sealed_under};
ghost use Rattle.wb_model.specs.Rows.{row, numbering_data};
ghost use Rattle.wb_model.specs.declared.entry.Entry.{Entry as EntryValue};
ghost use Rattle.wb_commands.specs.Plans.{IsDraw};
ghost use Rattle.wb_commands.specs.Puts.{first_puts};
ghost use Rattle.wb_tables.specs.Kept.{plain_of, place_of, sealed_of};
ghost use Rattle.wb_tables.specs.Places.{IsPlace};
ghost use Rattle.wb_tables.specs.Receipted.{HasOwnReceipt, is_submitted};

use crate::parts::{put_entry, put_sealed, put_secret};
use std::alloc::Global;
use wb_base::{Answers, Change, Memory, Number, Tenant};
use wb_custody::SealedTable;
use wb_model::Numbering;
use wb_rows::numbering_row;
use wb_tables::{Tenancy, UnnumberedReport};

/// A report that begins: its number with the numbering after that was drawn, its first entry, and its identity answers where there are any.
#[derive(Drop)]
pub struct Opening {
    pub number: Number,
    pub numbering: Numbering,
    pub case: UnnumberedReport,
    pub secret: Option<Answers>,
}

impl Opening {
    /// Puts its rows at the end of a batch: the numbering after its draw, its first entry and its identity answers.
    pub fn rows(&self, alloc: Global, batch: &mut Vec<Change>, tenant: Tenant) -> Result<(), Memory>
        requires begun { (entry : EntryValue) × (self.now.case.items ≡ entry ∷ []) }
        ensures { OnOk result (batch.new.items ≡ batch.old.items ++ first_puts tenant self.now.number self.now.numbering self.now.case.items self.now.secret) }
    {
        put_numbering(alloc, batch, tenant, &self.numbering)?;
        let first = self.case.case().trail().get(0);
        put_entry(alloc, batch, tenant, self.number, 1, first)?;
        put_sealed(alloc, batch, tenant, self.number, &self.secret)
    }

    /// The report begins under its number, and it and its identity answers are put into room that was made.
    pub fn apply(self, tenancy: &mut Tenancy, sealed: &mut SealedTable)
        requires place { (turns : ℕ) × IsPlace turns sealed.old.items (place_of tenancy.old) }
        requires drawn { (time : ℕ) × IsDraw time (plain_of tenancy.old) self }
        requires room { 0 < tenancy.old.cases.spare }
        requires sealed_room { 0 < sealed.old.spare }
        requires begun { (entry : EntryValue) × (self.case.items ≡ entry ∷ []) }
        requires none { requests self.case.items ≡ [] }
        requires submitted { is_submitted self.case.items ≡ true }
        requires own { HasOwnReceipt self.case.items (plain_of tenancy.old).cases }
        ensures id { (place_of tenancy.new).id ≡ (place_of tenancy.old).id }
        ensures plain { (time : ℕ) (entry : EntryValue) → IsDraw time (plain_of tenancy.old) self → self.case.items ≡ entry ∷ [] → plain_of tenancy.new ≡ plain_after time (Begins entry) (plain_of tenancy.old) }
        ensures here { (n : ℕ) → answers_of sealed.new.items (place_of tenancy.old).id n ≡ sealed_under self.number self.secret (sealed_of sealed.old.items (place_of tenancy.old).id) n }
        ensures others { (t n : ℕ) → t ≢ (place_of tenancy.old).id → answers_of sealed.new.items t n ≡ answers_of sealed.old.items t n }
    {
        let Opening {
            number,
            numbering,
            case,
            secret,
        } = self;
        tenancy.cases.add(case.numbered(number));
        tenancy.numbering = numbering;
        put_secret(sealed, tenancy.configuration.tenant(), number, secret);
    }
}

// The numbering is to be put.
fn put_numbering(
    alloc: Global,
    batch: &mut Vec<Change>,
    tenant: Tenant,
    numbering: &Numbering,
) -> Result<(), Memory>
    ensures { OnOk result (batch.new.items ≡ batch.old.items ++ Put (row 2 tenant 0 0 (numbering_data numbering.now)) ∷ []) }
{
    let row = numbering_row(alloc, tenant, numbering)?;
    batch.push(Change::Put(row))?;
    Ok(())
}

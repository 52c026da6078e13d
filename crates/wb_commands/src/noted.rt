//! An entry that comes to a report.
ghost use Rattle.std.specs.Prelude.{◌≡◌, ◌≢◌, ◌<◌, ◌+◌, ◌++◌, ℕ, true, length, IfOk, OnOk};
ghost use Rattle.wb_custody.specs.SealedAnswers.{answers_of};
ghost use Rattle.wb_model.specs.Changes.{Notes};
ghost use Rattle.wb_model.specs.Host.{plain_after, sealed_under};
ghost use Rattle.wb_model.specs.Tables.{is_there, report as report_by};
ghost use Rattle.wb_commands.specs.Puts.{noted_puts};
ghost use Rattle.wb_tables.specs.Kept.{plain_of, place_of, sealed_of};
ghost use Rattle.wb_tables.specs.Noted.{IsReadyNote};

use crate::parts::{put_entry, put_sealed, put_secret};
use std::alloc::Global;
use wb_base::{Answers, Change, Memory, Number};
use wb_custody::SealedTable;
use wb_model::Entry;
use wb_tables::{Report, Tenancy};

/// An entry that comes to a report, and the identity answers that it gives.
#[derive(Drop)]
pub struct Noted {
    pub number: Number,
    pub entry: Entry,
    pub secret: Option<Answers>,
}

// The next place of a report's trail.
fn next_place(report: &Report) -> Result<u32, Memory>
    ensures { IfOk result (λ place. place ≡ length report.now.case.items + 1) }
{
    // No memory holds so many entries.
    match u32::try_from(report.case.trail().len()) {
        Ok(last) => last.checked_add(1).ok_or(Memory),
        Err(_) => Err(Memory),
    }
}

impl Noted {
    /// Puts its rows at the end of a batch: the entry, and the identity answers that come with it.
    pub fn rows(
        &self,
        alloc: Global,
        batch: &mut Vec<Change>,
        tenancy: &Tenancy,
    ) -> Result<(), Memory>
        requires { is_there self.now.number (place_of tenancy.now).plain.cases ≡ true }
        ensures { OnOk result (batch.new.items ≡ batch.old.items ++ noted_puts (place_of tenancy.now).id self.now.number self.now.entry self.now.secret (report_by self.now.number (place_of tenancy.now).plain.cases)) }
    {
        let Some(report) = tenancy.cases.find(self.number.get()) else {
            unreachable!();
        };
        let tenant = tenancy.configuration.tenant();
        let place = next_place(report)?;
        put_entry(alloc, batch, tenant, self.number, place, &self.entry)?;
        put_sealed(alloc, batch, tenant, self.number, &self.secret)
    }

    /// The report gets the entry, and the identity answers that come with it are put, into room that was made.
    pub fn apply(self, tenancy: &mut Tenancy, sealed: &mut SealedTable)
        requires ready { IsReadyNote self.number self.entry tenancy.old.cases.items }
        requires room { 0 < tenancy.old.cases.spare }
        requires sealed_room { 0 < sealed.old.spare }
        ensures id { (place_of tenancy.new).id ≡ (place_of tenancy.old).id }
        ensures plain { (time : ℕ) → plain_of tenancy.new ≡ plain_after time (Notes self.number self.entry) (plain_of tenancy.old) }
        ensures here { (n : ℕ) → answers_of sealed.new.items (place_of tenancy.old).id n ≡ sealed_under self.number self.secret (sealed_of sealed.old.items (place_of tenancy.old).id) n }
        ensures others { (t n : ℕ) → t ≢ (place_of tenancy.old).id → answers_of sealed.new.items t n ≡ answers_of sealed.old.items t n }
    {
        let Noted {
            number,
            entry,
            secret,
        } = self;
        tenancy.cases.note(number, entry);
        put_secret(sealed, tenancy.configuration.tenant(), number, secret);
    }
}

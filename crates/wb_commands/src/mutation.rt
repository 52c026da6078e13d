//! What a turn is going to change: the room that it takes, the rows that it has to keep, and how it is made.
ghost use Rattle.std.specs.Prelude.{◌≡◌, ◌≢◌, ◌++◌, ℕ, OnOk};
ghost use Rattle.wb_custody.specs.SealedAnswers.{answers_of};
ghost use Rattle.wb_model.specs.Host.{changed};
ghost use Rattle.wb_commands.specs.Made.{IsOwnMutation, planned_change};
ghost use Rattle.wb_commands.specs.Plans.{HasRoomFor, IsFit, IsReady, given_of};
ghost use Rattle.wb_commands.specs.Puts.{puts_of};
ghost use Rattle.wb_tables.specs.Kept.{place_of, plain_of, tables_of};
ghost use Rattle.wb_tables.specs.Places.{IsPlace};

use crate::configuring::Configuring;
use crate::deletion::put_deletion;
use crate::login::{log_in, log_out};
use crate::noted::Noted;
use crate::opening::Opening;
use std::alloc::Global;
use wb_base::{Change, Memory, Number};
use wb_custody::SealedTable;
use wb_tables::{Login, Tenancy, Who, delete_report};

/// What a turn is going to change.
#[derive(Drop)]
pub enum Mutation {
    Nothing,
    /// A report begins.
    Begins(Opening),
    /// A report gets an entry.
    Notes(Noted),
    /// The report of a number goes.
    Deletes(Number),
    /// A session begins.
    LogsIn(Login),
    /// The session of a turn ends, which is of this caller.
    LogsOut(u64, Who),
    /// A setting is put in.
    Configures(Configuring),
}

impl Mutation {
    /// Makes room for it in a tenant's tables, and among the identity answers. A report that an entry comes to has its own room already, and
    /// what a tenant is set up with has it for a setting.
    pub fn reserve(&self, tenancy: &mut Tenancy, sealed: &mut SealedTable) -> Result<(), Memory>
        ensures place { place_of tenancy.new ≡ place_of tenancy.old }
        ensures sealed { sealed.new.items ≡ sealed.old.items }
        ensures room { OnOk result (IsReady tenancy.old self.now → HasRoomFor tenancy.new sealed.new.spare self.now) }
    {
        match self {
            Mutation::Begins(_) | Mutation::Notes(_) => {
                tenancy.cases.reserve()?;
                sealed.reserve()
            }
            Mutation::LogsIn(_) => tenancy.sessions.reserve(),
            Mutation::Nothing
            | Mutation::Deletes(_)
            | Mutation::LogsOut(..)
            | Mutation::Configures(_) => Ok(()),
        }
    }

    /// Puts what it has to keep at the end of a batch.
    pub fn rows(
        &self,
        alloc: Global,
        batch: &mut Vec<Change>,
        tenancy: &Tenancy,
    ) -> Result<(), Memory>
        requires fit { (time : ℕ) × IsFit time tenancy.now self.now }
        ensures { OnOk result (batch.new.items ≡ batch.old.items ++ puts_of (place_of tenancy.now) self.now) }
    {
        let tenant = tenancy.configuration.tenant();
        match self {
            Mutation::Begins(opening) => opening.rows(alloc, batch, tenant),
            Mutation::Notes(noted) => noted.rows(alloc, batch, tenancy),
            Mutation::Deletes(number) => put_deletion(batch, tenant, *number),
            Mutation::Configures(next) => next.rows(batch),
            Mutation::Nothing | Mutation::LogsIn(_) | Mutation::LogsOut(..) => Ok(()),
        }
    }

    /// Makes it, over purged tables, in room that was made. It takes no memory and cannot fail.
    pub fn apply(self, tenancy: &mut Tenancy, sealed: &mut SealedTable)
        requires place { (turns : ℕ) × IsPlace turns sealed.old.items (place_of tenancy.old) }
        requires fit { (time : ℕ) × IsFit time tenancy.old self }
        requires room { HasRoomFor tenancy.old sealed.old.spare self }
        requires own { IsOwnMutation (plain_of tenancy.old) self }
        ensures tables { (time : ℕ) → IsFit time tenancy.old self → tables_of sealed.new.items (place_of tenancy.new)
            ≡ changed time (planned_change tenancy.old self) (given_of self) (tables_of sealed.old.items (place_of tenancy.old)) }
        ensures id { (place_of tenancy.new).id ≡ (place_of tenancy.old).id }
        ensures others { (t n : ℕ) → t ≢ (place_of tenancy.old).id → answers_of sealed.new.items t n ≡ answers_of sealed.old.items t n }
    {
        match self {
            Mutation::Nothing => {}
            Mutation::Begins(opening) => opening.apply(tenancy, sealed),
            Mutation::Notes(noted) => noted.apply(tenancy, sealed),
            Mutation::Deletes(number) => delete_report(tenancy, sealed, number),
            Mutation::LogsIn(login) => log_in(tenancy, login),
            Mutation::LogsOut(turn, _) => log_out(tenancy, turn),
            Mutation::Configures(next) => next.apply(tenancy),
        }
    }
}

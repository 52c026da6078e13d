//! A setting that is put in.
ghost use Rattle.std.specs.Prelude.{◌≡◌, ◌++◌, ◌∷◌, [], ℕ, false, not, filter, map, OnOk};
ghost use Rattle.std.specs.Option.{option_map_or};
ghost use Rattle.wb_base.specs.declared.rows.Change.TheVariants.{Put};
ghost use Rattle.wb_model.specs.Changes.{Configures};
ghost use Rattle.wb_model.specs.Host.{is_user, ends_of, plain_after};
ghost use Rattle.wb_model.specs.Tables.{Registry, Who as WhoValue};
ghost use Rattle.wb_tables.specs.Configured.{IsReadyToSet, setting_of};
ghost use Rattle.wb_tables.specs.Kept.{place_of, plain_of};
ghost use Rattle.wb_tables.specs.Logins.{session_of};

use wb_base::{Change, Memory, Row, UserId};
use wb_list::TryClone;
use wb_tables::{Proposal, Sessions, Tenancy};

/// A setting, and the kept row that it has.
#[derive(Drop)]
pub struct Configuring {
    pub proposal: Proposal,
    pub row: Row,
}

// The user whose sessions a setting ends: one who is disabled or given a password.
fn ended_by(next: &Proposal) -> Option<UserId>
    ensures { (t : ℕ) (g : Registry) (who : WhoValue) → ends_of (setting_of t g next.now) who ≡ option_map_or (λ u. is_user u who) result false }
{
    match next {
        Proposal::ToUser(user, next) => {
            if !next.enabled || next.password.is_some() {
                Some(*user)
            } else {
                None
            }
        }
        _ => None,
    }
}

// Drops the sessions of a user, where one is given.
fn end_sessions(sessions: &mut Sessions, ended: Option<UserId>)
    ensures tenant { sessions.new.tenant ≡ sessions.old.tenant }
    ensures items { map session_of sessions.new.items ≡ filter (λ s. not (option_map_or (λ u. is_user u s.who) ended false)) (map session_of sessions.old.items) }
{
    if let Some(user) = ended {
        sessions.drop_of(user);
    }
}

impl Configuring {
    /// Puts its row at the end of a batch.
    pub fn rows(&self, batch: &mut Vec<Change>) -> Result<(), Memory>
        ensures { OnOk result (batch.new.items ≡ batch.old.items ++ Put self.now.row ∷ []) }
    {
        batch.push(Change::Put(self.row.try_clone()?))?;
        Ok(())
    }

    /// The setting is put in, and the sessions that it ends go. It takes no memory.
    pub fn apply(self, tenancy: &mut Tenancy)
        requires ready { IsReadyToSet tenancy.old.configuration self.proposal }
        ensures id { (place_of tenancy.new).id ≡ (place_of tenancy.old).id }
        ensures plain { (time : ℕ) → plain_of tenancy.new ≡ plain_after time (Configures (setting_of tenancy.old.configuration.tenant tenancy.old.configuration.registry self.proposal)) (plain_of tenancy.old) }
    {
        let Configuring { proposal, .. } = self;
        let ended = ended_by(&proposal);
        tenancy.configuration.set(proposal);
        end_sessions(&mut tenancy.sessions, ended);
    }
}

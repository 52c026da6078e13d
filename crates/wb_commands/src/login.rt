//! A session that begins or ends. It takes no memory.
ghost use Rattle.std.specs.Prelude.{◌≡◌, ◌<◌, ℕ, map};
ghost use Rattle.wb_model.specs.Changes.{LogsIn, LogsOut};
ghost use Rattle.wb_model.specs.Host.{plain_after};
ghost use Rattle.wb_model.specs.Tables.{Who as WhoValue};
ghost use Rattle.wb_commands.specs.Made.{AreBy};
ghost use Rattle.wb_tables.specs.Kept.{plain_of, place_of};
ghost use Rattle.wb_tables.specs.Logins.{AreEarlier, login_of, session_of};

use wb_tables::{Login, Tenancy};

/// A session begins, in room that was made.
pub fn log_in(tenancy: &mut Tenancy, login: Login)
    requires room { 0 < tenancy.old.sessions.spare }
    requires later { AreEarlier login.turn (map session_of tenancy.old.sessions.items) }
    ensures id { (place_of tenancy.new).id ≡ (place_of tenancy.old).id }
    ensures plain { (time : ℕ) → plain_of tenancy.new ≡ plain_after time (LogsIn (login_of login)) (plain_of tenancy.old) }
{
    tenancy.sessions.open(login);
}

/// The session that was made at a turn ends.
pub fn log_out(tenancy: &mut Tenancy, turn: u64)
    ensures id { (place_of tenancy.new).id ≡ (place_of tenancy.old).id }
    ensures plain { (time : ℕ) (who : WhoValue) → AreBy turn who (plain_of tenancy.old).sessions → plain_of tenancy.new ≡ plain_after time (LogsOut turn who) (plain_of tenancy.old) }
{
    tenancy.sessions.close(turn);
}

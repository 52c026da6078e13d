//! The standing sessions of all tenants.
ghost use Rattle.std.specs.Prelude.{◌≡◌, ◌+◌, ◌<◌, ◌≤◌, [], All, IsOk, OnOk, IfErr, find, filter, not, count_by, nat_lt, ◌==◌, if◌then◌else◌};
ghost use Rattle.std.specs.Option.{ok_or, option_copied};
ghost use Rattle.std.specs.Ordering.{nat_cmp};
ghost use Rattle.wb_list.specs.Keyed.{IsAscending, without_first};
ghost use Rattle.wb_access.specs.SessionCounts.{AreCounted};
ghost use Rattle.wb_access.specs.Sessions.{is_of, is_shown, is_standing, lasts as lasts_at, session_shown, opened};

use crate::session_counts::SessionCounts;
use crate::{AccessFault, digest};
use std::alloc::Global;
use std::cmp::Ordering;
use std::marker::Model;
use wb_base::{Digest, Moment, Presented, Principal, Role, Salt, Tenant, limits};
use wb_list::{ItemTest, Keyed, Sorted};

/// A login that stands.
#[derive(Clone, Copy, Debug, PartialEq, Eq)]
pub struct Session {
    /// The number of the turn that made it.
    pub turn: u64,
    pub tenant: Tenant,
    pub principal: Principal,
    pub role: Role,
    /// The digest of its secret under the tenant's salt.
    pub digest: Digest,
    /// The moment of the login.
    pub at: Moment,
}

impl Session {
    // Whether it has not ended.
    fn lasts(&self, now: Moment) -> bool
        ensures { result ≡ lasts_at now self.now }
    {
        now.seconds() < self.at.seconds() + limits::SESSION_SECONDS
    }

    // Whether it is the tenant's, has the digest, and has not ended.
    fn is_shown(&self, tenant: Tenant, digest: &Digest, now: Moment) -> bool
        ensures { result ≡ is_shown tenant digest.now now self.now }
    {
        self.tenant == tenant && self.digest == *digest && self.lasts(now)
    }

    // Whether it is of a principal.
    fn is_of(&self, principal: Principal) -> bool
        ensures { result ≡ is_of principal self.now }
    {
        match (&self.principal, &principal) {
            (Principal::User(t, u), Principal::User(s, v)) => t == s && u == v,
            (Principal::Report(t, n), Principal::Report(s, m)) => t == s && n == m,
            _ => false,
        }
    }
}

impl Keyed for Session {
    type Key = u64;

    ghost key_of = { λ session. session.turn };

    fn compare(&self, key: &u64) -> Ordering {
        self.turn.cmp(key)
    }

    fn compare_to(&self, other: &Session) -> Ordering {
        self.turn.cmp(&other.turn)
    }
}

/// The sessions of a principal.
#[derive(Drop)]
struct OfPrincipal(Principal);

impl ItemTest<Session> for OfPrincipal {
    ghost use Rattle.wb_access.specs.Sessions.{is_of};

    ghost passes = { λ test session. is_of test.0 session };

    fn passes(&self, session: &Session) -> bool {
        session.is_of(self.0)
    }
}

/// The sessions that have ended by a moment.
#[derive(Drop)]
struct EndedBy(Moment);

impl ItemTest<Session> for EndedBy {
    ghost use Rattle.std.specs.Prelude.{not};
    ghost use Rattle.wb_access.specs.Sessions.{lasts};

    ghost passes = { λ test session. not (lasts test.0 session) };

    fn passes(&self, session: &Session) -> bool {
        !session.lasts(self.0)
    }
}

/// The standing sessions by ascending turn, each turn once, seen as their list and its spare room. How many each principal has is
/// counted beside them.
#[derive(Drop)]
pub struct SessionTable {
    sessions: Sorted<Session>,
    counts: SessionCounts,
}

impl Model for SessionTable {
    ghost use Rattle.std.specs.Prelude.{min};
    ghost use Rattle.wb_list.specs.Room.{Room};
    ghost use Rattle.wb_access.specs.SessionCounts.{AreCounted};
    ghost use Rattle.wb_access.specs.declared.sessions.Session.{Session as Item};

    ghost Value = { Room Item };

    ghost view = { λ table. record { items = table.sessions.items; spare = min table.sessions.spare table.counts.spare } };

    ghost invariant = { λ table. AreCounted table.sessions.items table.counts.items };
}

// Counts the sessions that pass a test no more.
fn uncount_passing<X: ItemTest<Session>>(counts: &mut SessionCounts, sessions: &[Session], test: &X)
    requires counted { AreCounted sessions.now counts.old.items }
    ensures counted { AreCounted (filter (λ session. not (X.passes test.now session)) sessions.now) counts.new.items }
    ensures kept { counts.old.spare ≤ counts.new.spare }
{
    for session in sessions {
        if test.passes(session) {
            counts.take(&session.principal);
        }
    }
}

impl SessionTable {
    /// No session. It takes no memory.
    pub fn new(alloc: Global) -> SessionTable
        ensures { result.items ≡ [] }
    {
        SessionTable {
            sessions: Sorted::new(alloc),
            counts: SessionCounts::new(alloc),
        }
    }

    /// All sessions, by ascending turn.
    pub fn as_slice(&self) -> &[Session]
        ensures all { result.now ≡ self.now.items }
        ensures ascending { IsAscending nat_cmp (λ session. session.turn) self.now.items }
    {
        self.sessions.as_slice()
    }

    /// Makes room for one more.
    pub fn reserve(&mut self) -> Result<(), AccessFault>
        ensures items { self.new.items ≡ self.old.items }
        ensures room { OnOk result (1 ≤ self.new.spare) }
        ensures enough { 1 ≤ self.old.spare → IsOk result }
        ensures kept { self.old.spare ≤ self.new.spare }
        ensures memory { IfErr result (λ fault. fault ≡ AccessFault.Memory) }
    {
        self.sessions.reserve(1)?;
        self.counts.reserve()
    }

    // Where eight of a principal's sessions stand, drops the oldest.
    fn make_way(&mut self, principal: &Principal)
        ensures items { self.new.items ≡ (if nat_lt (count_by (is_of principal.now) self.old.items) 8 then self.old.items else without_first (is_of principal.now) self.old.items) }
        ensures kept { self.old.spare ≤ self.new.spare }
    {
        if self.counts.of(principal) < limits::SESSIONS {
            return;
        }
        match self.sessions.take_first(&OfPrincipal(*principal)) {
            Some(oldest) => self.counts.take(&oldest.principal),
            None => {}
        }
    }

    /// Adds the session of a login, into room that was made. Of eight sessions of its principal the oldest goes
    /// first. It takes no memory, and looks at other principals' sessions only to find that oldest.
    pub fn open(&mut self, session: Session)
        requires room { 0 < self.old.spare }
        requires later { All (λ other. other.turn < session.turn) self.old.items }
        ensures items { self.new.items ≡ opened self.old.items session }
        ensures room { self.old.spare ≤ self.new.spare + 1 }
    {
        self.make_way(&session.principal);
        self.sessions.push(session);
        let _count = self.sessions.as_slice().len();
        self.counts.add(&session.principal);
    }

    // The session of a turn, if it is the tenant's, has the digest, and has not ended.
    fn standing(&self, tenant: Tenant, turn: u64, digest: &Digest, now: Moment) -> Option<&Session>
        ensures { option_copied result ≡ find (is_standing tenant turn digest.now now) self.now.items }
    {
        match self.sessions.find(&turn) {
            Some(session) => {
                if session.is_shown(tenant, digest, now) {
                    Some(session)
                } else {
                    None
                }
            }
            None => None,
        }
    }

    /// The session of a tenant that a caller shows, found by binary search for its turn.
    pub fn find(
        &self,
        tenant: Tenant,
        salt: &Salt,
        shown: &Presented,
        now: Moment,
    ) -> Result<Session, AccessFault>
        ensures { result ≡ ok_or (session_shown tenant salt.now shown.now now self.now.items) AccessFault.NoSession }
    {
        match shown {
            Presented::Token { turn, secret } => {
                let digest = digest(salt, secret.as_slice());
                match self.standing(tenant, *turn, &digest, now) {
                    Some(session) => Ok(*session),
                    None => Err(AccessFault::NoSession),
                }
            }
            Presented::None | Presented::Bad => Err(AccessFault::NoSession),
        }
    }

    /// Drops the session of a turn, found by binary search: a logout.
    pub fn close(&mut self, turn: u64)
        ensures items { self.new.items ≡ filter (λ session. not (session.turn == turn)) self.old.items }
        ensures kept { self.old.spare ≤ self.new.spare }
    {
        match self.sessions.take(&turn) {
            Some(closed) => self.counts.take(&closed.principal),
            None => {}
        }
    }

    /// Drops the sessions of a principal: of a user who is disabled or given a password, or of the reporter of a
    /// report that is purged.
    pub fn drop_of(&mut self, principal: Principal)
        ensures items { self.new.items ≡ filter (λ session. not (is_of principal session)) self.old.items }
        ensures kept { self.old.spare ≤ self.new.spare }
    {
        self.drop_passing(&OfPrincipal(principal));
    }

    /// Drops the sessions that pass a test. It looks at all of them once.
    pub fn drop_passing<X: ItemTest<Session>>(&mut self, test: &X)
        ensures items { self.new.items ≡ filter (λ session. not (X.passes test.now session)) self.old.items }
        ensures kept { self.old.spare ≤ self.new.spare }
    {
        uncount_passing(&mut self.counts, self.sessions.as_slice(), test);
        self.sessions.drop_passing(test);
    }

    /// Drops the sessions that have ended. It looks at all of them: they are the first in the table where the
    /// moments of logins do not fall, but nothing here rests on that.
    pub fn drop_ended(&mut self, now: Moment)
        ensures items { self.new.items ≡ filter (lasts_at now) self.old.items }
        ensures kept { self.old.spare ≤ self.new.spare }
    {
        self.drop_passing(&EndedBy(now));
    }
}

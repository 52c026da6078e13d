//! The sessions of a tenant, and the one that a request presents at a time.
ghost use Rattle.std.specs.Prelude.{◌≡◌, ◌+◌, ◌<◌, ◌≤◌, ◌==◌, List, [], length, map, filter, not, false, option_map, OnOk, nat_lt};
ghost use Rattle.wb_access.specs.Sessions.{session_shown};
ghost use Rattle.wb_model.specs.Changes.{LogsIn};
ghost use Rattle.wb_model.specs.Host.{is_user, sessions_after};
ghost use Rattle.wb_model.specs.Tables.{Case, is_there, lasts as lasts_at, session as session_by, sessions_but, stays as stays_by};
ghost use Rattle.wb_tables.specs.Kept.{case_of, plain_of, live_plain};
ghost use Rattle.wb_model.specs.Past.{who_of};
ghost use Rattle.wb_tables.specs.Logins.{AreEarlier, AreOf, AreThere, NeverFall, IsOf, login_of, session_of, tenant_in, who_seen};
ghost use Rattle.wb_tables.specs.Places.{IsLookedUp};

use crate::cases::Cases;
use crate::reports::live_report;
use crate::tenancy::{Login, Tenancy, Who};
use std::alloc::Global;
use std::marker::Model;
use wb_access::{Session, SessionTable};
use wb_base::{Memory, Moment, Number, Presented, Principal, Salt, Tenant, UserId, limits};
use wb_list::ItemTest;

/// The sessions of a tenant, by ascending turn, seen as their list and the room for more.
#[derive(Drop)]
pub struct Sessions {
    tenant: Tenant,
    table: SessionTable,
}

impl Model for Sessions {
    ghost use Rattle.wb_tables.specs.Logins.{Logins, AreOf, AreFew};

    ghost Value = { Logins };

    ghost view = { λ s. record { tenant = s.tenant; items = s.table.items; spare = s.table.spare } };

    ghost invariant = { λ s. AreOf s.tenant s.table.items × AreFew s.table.items };
}

// Whether a session's time is not over.
fn is_timely(session: &Session, time: Moment) -> bool
    ensures { result ≡ nat_lt time (session.now.at + 14_400) }
{
    time.seconds() < session.at.seconds() + limits::SESSION_SECONDS
}

// Whether the report of a number is there.
fn is_kept(cases: &Cases, number: Number) -> bool
    ensures { result ≡ is_there number (map case_of cases.now.items) }
{
    cases.find(number.get()).is_some()
}

// Whether a session lasts where these reports are there.
fn lasts(session: &Session, cases: &Cases, time: Moment) -> bool
    ensures { result ≡ lasts_at time (map case_of cases.now.items) (session_of session.now) }
{
    is_timely(session, time)
        && match session.principal {
            Principal::User(..) => true,
            Principal::Report(_, number) => is_kept(cases, number),
        }
}

/// A session that does not last at this time, where these reports are there.
#[derive(Drop)]
struct Ended<'a> {
    time: Moment,
    cases: &'a Cases,
}

impl ItemTest<Session> for Ended<'_> {
    ghost use Rattle.std.specs.Prelude.{not, map};
    ghost use Rattle.wb_model.specs.Tables.{lasts};
    ghost use Rattle.wb_tables.specs.Kept.{case_of};
    ghost use Rattle.wb_tables.specs.Logins.{session_of};

    ghost passes = { λ ended session. not (lasts ended.time (map case_of ended.cases.now.items) (session_of session)) };

    fn passes(&self, session: &Session) -> bool {
        !lasts(session, self.cases, self.time)
    }
}

// Who logs in at a tenant.
fn principal(tenant: Tenant, who: Who) -> Principal
    ensures who { who_of result ≡ who_seen who }
    ensures tenant { tenant_in result ≡ tenant }
{
    match who {
        Who::User(user) => Principal::User(tenant, user),
        Who::Reporter(number) => Principal::Report(tenant, number),
    }
}

// The session of a login at a tenant, as it is kept.
fn kept_session(tenant: Tenant, login: &Login) -> Session
    ensures is { session_of result ≡ login_of login.now }
    ensures own { IsOf tenant result }
{
    Session {
        turn: login.turn,
        tenant,
        principal: principal(tenant, login.who),
        role: login.role,
        digest: login.digest,
        at: login.at,
    }
}

impl Sessions {
    /// No session. It takes no memory.
    pub fn new(alloc: Global, tenant: Tenant) -> Sessions
        ensures tenant { result.tenant ≡ tenant }
        ensures items { result.items ≡ [] }
    {
        Sessions {
            tenant,
            table: SessionTable::new(alloc),
        }
    }

    /// How many there are.
    pub fn len(&self) -> usize
        ensures { result ≡ length self.now.items }
    {
        self.table.as_slice().len()
    }

    /// Makes room for one more.
    pub fn reserve(&mut self) -> Result<(), Memory>
        ensures tenant { self.new.tenant ≡ self.old.tenant }
        ensures items { self.new.items ≡ self.old.items }
        ensures room { OnOk result (0 < self.new.spare) }
        ensures kept { self.old.spare ≤ self.new.spare }
    {
        match self.table.reserve() {
            Ok(()) => Ok(()),
            Err(_) => Err(Memory),
        }
    }

    // The session that a caller shows, by the time alone.
    fn shown(&self, salt: &Salt, presented: &Presented, time: Moment) -> Option<Session>
        ensures shown { result ≡ session_shown self.now.tenant salt.now presented.now time self.now.items }
        ensures own { AreOf self.now.tenant self.now.items }
    {
        match self.table.find(self.tenant, salt, presented, time) {
            Ok(session) => Some(session),
            Err(_) => None,
        }
    }

    /// Adds the session of a login, made at a later turn than all others, into room that was made. Of eight sessions of its
    /// caller the oldest goes first. It takes no memory.
    pub fn open(&mut self, login: Login)
        requires room { 0 < self.old.spare }
        requires later { AreEarlier login.turn (map session_of self.old.items) }
        ensures tenant { self.new.tenant ≡ self.old.tenant }
        ensures items { map session_of self.new.items ≡ sessions_after (LogsIn (login_of login)) (map session_of self.old.items) }
    {
        let session = kept_session(self.tenant, &login);
        let _ascending = self.table.as_slice();
        self.table.open(session);
    }

    /// Drops the session of a turn: a logout.
    pub fn close(&mut self, turn: u64)
        ensures tenant { self.new.tenant ≡ self.old.tenant }
        ensures items { map session_of self.new.items ≡ filter (λ s. not (s.turn == turn)) (map session_of self.old.items) }
    {
        self.table.close(turn);
    }

    /// Drops the sessions of a user, who is disabled or given a password.
    pub fn drop_of(&mut self, user: UserId)
        ensures tenant { self.new.tenant ≡ self.old.tenant }
        ensures items { map session_of self.new.items ≡ filter (λ s. not (is_user user s.who)) (map session_of self.old.items) }
    {
        self.table.drop_of(Principal::User(self.tenant, user));
    }

    /// Drops the sessions of the reporter of a report that is deleted. It looks at each once.
    pub fn drop_reporter(&mut self, number: Number)
        ensures tenant { self.new.tenant ≡ self.old.tenant }
        ensures items { map session_of self.new.items ≡ sessions_but number (map session_of self.old.items) }
    {
        self.table.drop_of(Principal::Report(self.tenant, number));
    }

    // Drops the sessions that do not last at a time, where these reports are there. It looks at each, and for its report.
    fn drop_each(&mut self, cases: &Cases, time: Moment)
        ensures tenant { self.new.tenant ≡ self.old.tenant }
        ensures items { map session_of self.new.items ≡ filter (lasts_at time (map case_of cases.now.items)) (map session_of self.old.items) }
        ensures kept { self.old.spare ≤ self.new.spare }
    {
        self.table.drop_passing(&Ended { time, cases });
    }

    // Drops the sessions whose time is over.
    fn drop_late(&mut self, time: Moment)
        ensures tenant { self.new.tenant ≡ self.old.tenant }
        ensures items { self.new.items ≡ filter (λ s. nat_lt time (s.at + 14_400)) self.old.items }
        ensures kept { self.old.spare ≤ self.new.spare }
    {
        self.table.drop_ended(time);
    }

    // Whether the time of the first session is over. Where it is not, that of none is, if moments do not fall.
    fn is_first_late(&self, time: Moment) -> bool
        ensures { result ≡ false → (cases : List Case) → AreThere cases (map session_of self.now.items) → NeverFall 0 (map session_of self.now.items)
            → filter (lasts_at time cases) (map session_of self.now.items) ≡ map session_of self.now.items }
    {
        match self.table.as_slice().first() {
            Some(first) => !is_timely(first, time),
            None => false,
        }
    }

    /// Drops the sessions that do not last at a time, where these reports are there. It looks at the first alone, unless that one's time
    /// is over or a report has gone.
    pub fn drop_ended(&mut self, cases: &Cases, has_gone: bool, time: Moment)
        requires there { has_gone ≡ false → AreThere (map case_of cases.now.items) (map session_of self.old.items) }
        requires moments { NeverFall 0 (map session_of self.old.items) }
        ensures tenant { self.new.tenant ≡ self.old.tenant }
        ensures items { map session_of self.new.items ≡ filter (lasts_at time (map case_of cases.now.items)) (map session_of self.old.items) }
        ensures kept { self.old.spare ≤ self.new.spare }
    {
        if has_gone {
            self.drop_each(cases, time);
            return;
        }
        if !self.is_first_late(time) {
            return;
        }
        self.drop_late(time);
    }
}

// The login that a session is of.
fn login(session: &Session) -> Login
    ensures { login_of result ≡ session_of session.now }
{
    let who = match session.principal {
        Principal::User(_, user) => Who::User(user),
        Principal::Report(_, number) => Who::Reporter(number),
    };
    Login {
        turn: session.turn,
        digest: session.digest,
        role: session.role,
        who,
        at: session.at,
    }
}

// Whether the report of a session's reporter is live.
fn stays(tenancy: &Tenancy, session: &Session, time: Moment) -> bool
    requires place { IsLookedUp (plain_of tenancy.now) }
    ensures { result ≡ stays_by (live_plain time (plain_of tenancy.now)).cases (session_of session.now).who }
{
    match session.principal {
        Principal::User(..) => true,
        Principal::Report(_, number) => live_report(tenancy, time, number.get()).is_some(),
    }
}

/// The session that a request presents, where it stands.
pub fn live_session(tenancy: &Tenancy, time: Moment, presented: &Presented) -> Option<Login>
    requires place { IsLookedUp (plain_of tenancy.now) }
    ensures { option_map login_of result ≡ session_by tenancy.now.configuration.registry.settings.salt presented.now (live_plain time (plain_of tenancy.now)).sessions }
{
    let salt = &tenancy.configuration.settings().salt;
    match tenancy.sessions.shown(salt, presented, time) {
        Some(session) => {
            if stays(tenancy, &session, time) {
                Some(login(&session))
            } else {
                None
            }
        }
        None => None,
    }
}

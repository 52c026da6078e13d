//! The requests of one report.
ghost use Rattle.std.specs.Prelude.{◌≡◌, ◌<◌, ◌≤◌, ◌++◌, ◌∷◌, [], List, length, false, true, Some, None, OnOk, IfOk, IfErr};
ghost use Rattle.std.specs.Option.{option_map};
ghost use Rattle.wb_model.specs.declared.access.State.TheVariants as states;
ghost use Rattle.wb_model.specs.declared.act.CustodyFault.TheVariants as faults;
ghost use Rattle.wb_model.specs.declared.entry.Entry.{Entry as EntryData};
ghost use Rattle.wb_model.specs.Access as access;
ghost use Rattle.wb_model.specs.Legal.{is_reporter, right_actor};
ghost use Rattle.wb_custody.specs.Desks.{HasRoom, have_right_actors};

use crate::requests::{end_all, end_of, grant, in_force, settle, state_now};
use std::alloc::Global;
use std::marker::Model;
use wb_base::{Memory, Moment, Text, UserId};
use wb_list::TryClone;
use wb_model::{AccessRequest, Actor, CustodyFault, Deed, Entry, State, Trail};

/// The requests of readers for the identity of one report's reporter, the first asked first (after Directive (EU)
/// 2019/1937, Article 16), seen as their list and the room that was made for one more. A request's number is counted
/// from 1.
#[derive(Drop)]
pub struct AccessDesk {
    requests: Vec<AccessRequest>,
    ready: Option<Text>,
}

impl Model for AccessDesk {
    ghost use Rattle.std.specs.Prelude.{◌-◌};
    ghost use Rattle.std.specs.Vec.{vec_len, vec_capacity};
    ghost use Rattle.wb_custody.specs.Desks.{Desk};

    ghost Value = { Desk };

    ghost view = { λ desk. record { items = desk.requests.items; spare = vec_capacity desk.requests - vec_len desk.requests; ready = desk.ready } };
}

impl AccessDesk {
    /// No request. It takes no memory.
    pub fn new(alloc: Global) -> AccessDesk
        ensures { result.items ≡ [] }
    {
        AccessDesk {
            requests: Vec::new(alloc),
            ready: None,
        }
    }

    // The requests of these entries.
    fn of(alloc: Global, entries: &[Entry]) -> Result<AccessDesk, Memory>
        requires { have_right_actors entries.now ≡ true }
        ensures { IfOk result (λ desk. desk.items ≡ access.requests entries.now) }
    {
        let mut desk = AccessDesk::new(alloc);
        for entry in entries {
            desk.reserve(&entry.deed)?;
            desk.take(entry);
        }
        Ok(desk)
    }

    /// The requests of a trail that was kept. Each entry is by whom it may be, as in each legal trail.
    pub fn rebuild(alloc: Global, trail: &Trail) -> Result<AccessDesk, CustodyFault>
        requires actors { have_right_actors trail.now.items ≡ true }
        ensures requests { IfOk result (λ desk. desk.items ≡ access.requests trail.now.items) }
        ensures fault { IfErr result (λ fault. fault ≡ faults.Memory) }
    {
        match AccessDesk::of(alloc, trail.as_slice()) {
            Ok(desk) => Ok(desk),
            Err(_) => Err(CustodyFault::Memory),
        }
    }

    /// How many requests there are.
    pub fn len(&self) -> usize
        ensures { result ≡ length self.now.items }
    {
        self.requests.len()
    }

    /// All of them, the first asked first.
    pub fn as_slice(&self) -> &[AccessRequest]
        ensures { result.now ≡ self.now.items }
    {
        self.requests.as_slice()
    }

    /// The request of a number.
    pub fn get(&self, request: usize) -> &AccessRequest
        requires low { 0 < request }
        requires high { request ≤ length self.now.items }
        ensures { access.request_at request self.now.items ≡ Some result.now }
    {
        &self.requests[request - 1]
    }

    /// The state of the request of a number, whose asker was disabled so often by now.
    pub fn state(&self, request: usize, stamp: u32) -> State
        requires low { 0 < request }
        requires high { request ≤ length self.now.items }
        ensures { option_map (access.state_now stamp) (access.request_at request self.now.items) ≡ Some result }
    {
        state_now(stamp, self.get(request))
    }

    /// Whether a grant of this user, disabled so often by now, is in force.
    pub fn in_force(&self, user: UserId, stamp: u32, now: Moment) -> bool
        ensures { result ≡ access.in_force_of user stamp now self.now.items }
    {
        in_force(self.as_slice(), user, stamp, now)
    }

    // Makes room for one more request with this reason.
    fn make_room(&mut self, reason: &Text) -> Result<(), Memory>
        ensures items { self.new.items ≡ self.old.items }
        ensures place { OnOk result (0 < self.new.spare) }
        ensures ready { OnOk result (self.new.ready ≡ Some reason.now) }
    {
        self.requests.reserve(1)?;
        self.ready = Some(reason.try_clone()?);
        Ok(())
    }

    // Makes room for a deed.
    pub(crate) fn reserve(&mut self, deed: &Deed) -> Result<(), Memory>
        ensures items { self.new.items ≡ self.old.items }
        ensures room { OnOk result (HasRoom self.new deed.now) }
    {
        match deed {
            Deed::Asked { reason, .. } => self.make_room(reason),
            _ => Ok(()),
        }
    }

    // Puts a request that waits at the end, with the reason that is ready.
    fn add(&mut self, by: UserId, reason: Text, stamp: u32)
        requires { 0 < self.old.spare }
        ensures { self.new.items ≡ self.old.items ++ record { by = by; reason = reason; stamp = stamp; state = states.Waiting; effective = None } ∷ [] }
    {
        let pushed = self.requests.push(AccessRequest {
            by,
            reason,
            stamp,
            state: State::Waiting,
            effective: None,
        });
        pushed.unwrap()
    }

    // Puts the request of a user at the end.
    fn ask(&mut self, by: Actor, reason: &Text, stamp: u32)
        requires user { is_reporter by ≡ false }
        requires place { 0 < self.old.spare }
        requires ready { self.old.ready ≡ Some reason.now }
        ensures { self.new.items ≡ self.old.items ++ record { by = access.user_by by; reason = reason.now; stamp = stamp; state = states.Waiting; effective = None } ∷ [] }
    {
        if let Actor::User(user) = by {
            if let Some(ready) = self.ready.take() {
                self.add(user, ready, stamp)
            }
        }
    }

    /// Notes an entry of the report's trail: an ask comes to the requests, into room that was made; a decision changes
    /// its own; a transfer ends all that wait or are granted, and the removal of a reader that reader's. It takes no memory.
    pub fn take(&mut self, entry: &Entry)
        requires actor { right_actor entry.now.deed entry.now.by ≡ true }
        requires room { HasRoom self.old entry.now.deed }
        ensures requests { self.new.items ≡ access.requests_by self.old.items entry.now }
        ensures trail { (before : List EntryData) → self.old.items ≡ access.requests before → self.new.items ≡ access.requests (before ++ entry.now ∷ []) }
    {
        let requests = self.requests.as_mut_slice();
        match &entry.deed {
            Deed::Asked { reason, stamp } => self.ask(entry.by, reason, *stamp),
            Deed::Granted {
                effective,
                request,
                ..
            } => grant(requests, *request, *effective),
            Deed::Denied { request, .. } => settle(requests, *request, State::Denied),
            Deed::Revoked { request, .. } => settle(requests, *request, State::Revoked),
            Deed::Transferred { .. } => end_all(requests),
            Deed::Unshared { user } => end_of(requests, *user),
            _ => (),
        }
    }
}

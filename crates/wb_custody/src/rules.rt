//! The rules of moves: each refuses one, or does not.
ghost use Rattle.std.specs.Prelude.{◌≡◌, ◌==◌, ◌&&◌, ◌≤◌, not, length};
ghost use Rattle.std.specs.Option.{option_or, option_copied};
ghost use Rattle.wb_model.specs.Access as access;
ghost use Rattle.wb_model.specs.Moves as moves;
ghost use Rattle.wb_model.specs.declared.act.CustodyFault.TheVariants as faults;
ghost use Rattle.wb_model.specs.Refusing.{refuses_where};

use crate::AccessDesk;
use crate::requests::state_now;
use wb_base::limits;
use wb_model::{AccessRequest, Actor, CustodyFault, Move, State};

/// The id of who acts, 0 for the reporter.
pub(crate) fn id_of(actor: &Actor) -> u16
    ensures { result ≡ access.user_by actor.now }
{
    match actor {
        Actor::Reporter => 0,
        Actor::User(user) => user.id(),
    }
}

// No identity answer was given.
fn no_identity(mark: bool) -> Option<CustodyFault>
    ensures { result ≡ refuses_where (not mark) faults.NoIdentity }
{
    if mark {
        None
    } else {
        Some(CustodyFault::NoIdentity)
    }
}

// Whether a request of this user waits.
fn waits(request: &AccessRequest, user: u16, stamp: u32) -> bool
    ensures { result ≡ ((request.now.by == user) && access.is_waiting (access.state_now stamp request.now)) }
{
    request.by.id() == user && state_now(stamp, request) == State::Waiting
}

// The user has a request that waits.
fn pending(requests: &[AccessRequest], user: u16, stamp: u32) -> Option<CustodyFault>
    requires { length requests.now ≤ 100 }
    ensures { result ≡ moves.pending user stamp requests.now }
{
    for (at, request) in requests.iter().enumerate() {
        if waits(request, user, stamp) {
            return Some(CustodyFault::Pending(at as u32 + 1));
        }
    }
    None
}

// There are as many requests as there may be.
fn desk_full(requests: &[AccessRequest]) -> Option<CustodyFault>
    ensures { result ≡ moves.desk_full requests.now }
{
    if limits::REQUESTS <= requests.len() {
        Some(CustodyFault::DeskFull)
    } else {
        None
    }
}

// The trail has room for no ask and no grant.
fn trail_full(entries: usize) -> Option<CustodyFault>
    ensures { result ≡ moves.full entries }
{
    if entries < limits::TRAIL_ENTRIES {
        None
    } else {
        Some(CustodyFault::TrailFull)
    }
}

// The request of a number, counted from 1.
fn request_at(requests: &[AccessRequest], number: u32) -> Option<&AccessRequest>
    ensures { option_copied result ≡ access.request_at number requests.now }
{
    let number = number as usize;
    if 0 < number && number <= requests.len() {
        Some(&requests[number - 1])
    } else {
        None
    }
}

// The request does not wait.
fn decided(requests: &[AccessRequest], number: u32, stamp: u32) -> Option<CustodyFault>
    ensures { result ≡ moves.decided number stamp requests.now }
{
    match request_at(requests, number) {
        None => Some(CustodyFault::NoSuchRequest),
        Some(request) => match state_now(stamp, request) {
            State::Waiting => None,
            state => Some(CustodyFault::Decided(state)),
        },
    }
}

// The request is not granted.
fn not_granted(requests: &[AccessRequest], number: u32, stamp: u32) -> Option<CustodyFault>
    ensures { result ≡ moves.not_granted number stamp requests.now }
{
    match request_at(requests, number) {
        None => Some(CustodyFault::NoSuchRequest),
        Some(request) => match state_now(stamp, request) {
            State::Granted => None,
            state => Some(CustodyFault::NotGranted(state)),
        },
    }
}

// What refuses an ask.
fn ask_fault(
    requests: &[AccessRequest],
    trail: usize,
    mark: bool,
    user: u16,
    stamp: u32,
) -> Option<CustodyFault>
    requires { length requests.now ≤ 100 }
    ensures { result ≡ option_or (refuses_where (not mark) faults.NoIdentity) (option_or (moves.pending user stamp requests.now) (option_or (moves.desk_full requests.now) (moves.full trail))) }
{
    no_identity(mark).or(pending(requests, user, stamp).or(desk_full(requests).or(trail_full(
        trail,
    ))))
}

impl AccessDesk {
    /// What refuses a move of a user: the first of its rules that does.
    pub(crate) fn fault(
        &self,
        trail: usize,
        mark: bool,
        user: u16,
        move_: &Move,
    ) -> Option<CustodyFault>
        requires { length self.now.items ≤ 100 }
        ensures { result ≡ moves.custody_fault trail mark self.now.items user move_.now }
    {
        let requests = self.as_slice();
        match move_ {
            Move::Ask { stamp, .. } => ask_fault(requests, trail, mark, user, *stamp),
            Move::Grant { request, stamp, .. } => {
                decided(requests, *request, *stamp).or(trail_full(trail))
            }
            Move::Deny { request, stamp, .. } => decided(requests, *request, *stamp),
            Move::Revoke { request, stamp, .. } => not_granted(requests, *request, *stamp),
        }
    }
}

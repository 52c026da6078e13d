//! Requests in a list: the states that they have by now, and what an entry makes of them.
ghost use Rattle.std.specs.Prelude.{◌≡◌, ◌==◌, ◌&&◌, map, Some};
ghost use Rattle.wb_model.specs.Access as access;
ghost use Rattle.wb_model.specs.declared.access.State.TheVariants.{Granted};

use wb_base::{Moment, UserId};
use wb_model::{AccessRequest, State};

// The state of a request that ends.
fn ended(state: State) -> State
    ensures { result ≡ access.ended_state state }
{
    match state {
        State::Waiting | State::Granted | State::Ended => State::Ended,
        State::Denied => State::Denied,
        State::Revoked => State::Revoked,
    }
}

/// The state of a request whose asker was disabled so often by now: another disabling ends it.
pub(crate) fn state_now(stamp: u32, request: &AccessRequest) -> State
    ensures { result ≡ access.state_now stamp request.now }
{
    if request.stamp == stamp {
        request.state
    } else {
        ended(request.state)
    }
}

// Whether a request is a grant of this user that is in force.
fn is_in_force(request: &AccessRequest, user: UserId, stamp: u32, now: Moment) -> bool
    ensures { result ≡ ((request.now.by == user) && access.is_granted (access.state_now stamp request.now)
        && access.is_reached now request.now.effective) }
{
    request.by == user
        && state_now(stamp, request) == State::Granted
        && request
            .effective
            .is_some_and(|effective| effective <= now.seconds())
}

/// Whether a grant of this user, disabled so often by now, is in force.
pub(crate) fn in_force(requests: &[AccessRequest], user: UserId, stamp: u32, now: Moment) -> bool
    ensures { result ≡ access.in_force_of user stamp now requests.now }
{
    for request in requests {
        if is_in_force(request, user, stamp, now) {
            return true;
        }
    }
    false
}

/// Ends all requests that wait or are granted.
pub(crate) fn end_all(requests: &mut [AccessRequest])
    ensures { requests.new ≡ map access.ended requests.old }
{
    for request in requests.iter_mut() {
        request.state = ended(request.state);
    }
}

/// Ends those of a user.
pub(crate) fn end_of(requests: &mut [AccessRequest], user: UserId)
    ensures { requests.new ≡ map (access.ended_of user) requests.old }
{
    for request in requests.iter_mut() {
        if request.by == user {
            request.state = ended(request.state);
        }
    }
}

/// Puts the request of a number, counted from 1, into a state.
pub(crate) fn settle(requests: &mut [AccessRequest], number: u32, state: State)
    ensures { requests.new ≡ access.with_request number (λ r. record r { state = state }) requests.old }
{
    let number = number as usize;
    if 0 < number && number <= requests.len() {
        requests[number - 1].state = state;
    }
}

/// Grants the request of a number, counted from 1, from a moment on, in seconds.
pub(crate) fn grant(requests: &mut [AccessRequest], number: u32, effective: u64)
    ensures { requests.new
        ≡ access.with_request number (λ r. record r { state = Granted; effective = Some effective }) requests.old }
{
    let number = number as usize;
    if 0 < number && number <= requests.len() {
        let request = &mut requests[number - 1];
        request.state = State::Granted;
        request.effective = Some(effective);
    }
}

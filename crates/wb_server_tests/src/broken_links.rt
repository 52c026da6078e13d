//! Links that fail: at each of their calls in turn, and at a write that does not fit.

use crate::connecting::{Connected, End, connect};
use crate::connections::{BOTH, REPLIES};
use crate::hosts::{ROOM, link, replies, ticker};
use std::alloc::Global;
use std::sync::Wait;
use std::test::Fail;
use wb_transport::Link;

/// How a connection ends whose link fails at its first call, at its second and so on, up to a call that it does not make.
const IN_ONE_PIECE: &[End] = &[
    End::ReadFault,
    End::WriteFault,
    End::WriteFault,
    End::Closed,
];

/// The same where the requests come in pieces of 64 bytes, of which the second has the end of the first request.
const IN_PIECES: &[End] = &[
    End::ReadFault,
    End::ReadFault,
    End::WriteFault,
    End::ReadFault,
    End::ReadFault,
    End::WriteFault,
    End::Closed,
];

// How many replies were begun. A link takes nothing at a write that is to fail, so the reply of that write is not in what it got.
fn begun(connected: &Connected) -> u64 {
    let sent = replies(connected.link.got()) as u64;
    if connected.ended == End::WriteFault {
        return u64::saturating_add(sent, 1);
    }
    sent
}

// Whether a connection ended so, with a turn for each reply that was begun, and by a failure of its link, unless it closed after both.
fn is_broken(connected: &Connected, ended: End) -> bool {
    let failed = connected.link.faults();
    connected.ended == ended
        && connected.turns == begun(connected)
        && if ended == End::Closed {
            failed == 0 && connected.turns == 2
        } else {
            failed == 1
        }
}

// Whether the connection ends so whose link gives both requests in pieces of a size and fails at a call.
fn is_broken_at<R: Wait>(
    rt: &R,
    alloc: Global,
    piece: usize,
    call: u64,
    ended: End,
) -> Result<bool, Fail> {
    let link = link(alloc, BOTH.as_bytes(), piece, ROOM, &[call])?;
    let connected = connect(rt, alloc, link, ticker(alloc, 1, 2, &[])?)?;
    Ok(is_broken(&connected, ended))
}

// Whether the connections end so whose links fail at the first call, at the second and so on.
fn are_broken<R: Wait>(rt: &R, alloc: Global, piece: usize, ends: &[End]) -> Result<bool, Fail> {
    let mut call = 0;
    for ended in ends {
        call = u64::saturating_add(call, 1);
        if !is_broken_at(rt, alloc, piece, call, *ended)? {
            return Ok(false);
        }
    }
    Ok(true)
}

#[test]
fn a_connection_ends_at_whichever_call_its_link_fails(rt: HostRuntime) -> Result<(), Fail> {
    assert!(rt; are_broken(&rt, rt.alloc(), 0, IN_ONE_PIECE)?);
    assert!(rt; are_broken(&rt, rt.alloc(), 64, IN_PIECES)?);
    Ok(())
}

// Whether a link that takes so many bytes got so many of the replies' first bytes, in so many turns.
fn is_filled(connected: &Connected, room: usize, turns: u64) -> bool {
    connected.ended == End::WriteFault
        && connected.turns == turns
        && connected.link.got().len() == room
        && REPLIES.as_bytes().starts_with(connected.link.got())
}

// Whether both requests are answered over a link with little room until it is full.
fn is_full<R: Wait>(rt: &R, alloc: Global, room: usize, turns: u64) -> Result<bool, Fail> {
    let link = link(alloc, BOTH.as_bytes(), 0, room, &[])?;
    let connected = connect(rt, alloc, link, ticker(alloc, 1, 2, &[])?)?;
    Ok(is_filled(&connected, room, turns))
}

#[test]
fn a_reply_is_cut_off_where_its_link_takes_no_more(rt: HostRuntime) -> Result<(), Fail> {
    for (room, turns) in [(0, 1), (1, 1), (141, 1), (142, 2), (143, 2), (300, 2)] {
        assert!(rt; is_full(&rt, rt.alloc(), room, turns)?);
    }
    Ok(())
}

//! The requests of a connection and their replies, by what comes over its link and where the ticker fails.

use crate::connecting::{Connected, End, connect};
use crate::hosts::{HEALTH, ROOM, link, often, replies, ticker};
use std::alloc::Global;
use std::sync::Wait;
use std::test::Fail;

/// A submission, and a login that closes the connection.
pub const BOTH: &str =
    "POST /t/1/reports HTTP/1.1\r\nHost: h\r\nContent-Length: 53\r\n\r\n{\"context\":1,\"answers\":{\"what\":\"Bribe\",\"name\":\"Eve\"}}POST /t/1/sessions HTTP/1.1\r\nHost: h\r\nConnection: close\r\nContent-Length: 36\r\n\r\n{\"user\":\"ada\",\"password\":\"ada-pass\"}";

/// Their replies.
pub const REPLIES: &str =
    "HTTP/1.1 201 Created\r\nContent-Type: application/json\r\nCache-Control: no-store\r\nContent-Length: 41\r\n\r\n{\"number\":1,\"receipt\":\"0000000000000001\"}HTTP/1.1 201 Created\r\nContent-Type: application/json\r\nCache-Control: no-store\r\nContent-Length: 67\r\nConnection: close\r\n\r\n{\"role\":\"recipient\",\"session\":\"2-00000000000000000000000000000002\"}";

const NO_NAME: &str = "GET /health HTTP/1.1\r\n: h\r\n\r\n";

const CHUNKED: &str = "GET /health HTTP/1.1\r\nTransfer-Encoding: chunked\r\n\r\n";

const NO_LENGTH: &str = "POST /t/1/sessions HTTP/1.1\r\n\r\n";

const TWO_LENGTHS: &str = "GET /health HTTP/1.1\r\nContent-Length: 0\r\nContent-Length: 0\r\n\r\n";

const TOO_LARGE: &str = "POST /t/1/sessions HTTP/1.1\r\nContent-Length: 262145\r\n\r\n";

const NOTHING: &str = "GET /t/1/nothing HTTP/1.1\r\n\r\n";

const NO_JSON: &str = "POST /t/1/reports HTTP/1.1\r\nContent-Length: 15\r\n\r\n{\"context\":1.0}";

/// The reply to what has no head.
const BAD_HEAD: &str =
    "HTTP/1.1 400 Bad Request\r\nContent-Type: application/json\r\nCache-Control: no-store\r\nContent-Length: 19\r\nConnection: close\r\n\r\n{\"code\":\"bad_head\"}";

/// How the reply to a good request begins.
const FOUND: &str = "HTTP/1.1 200 ";

/// A text, how often it is sent, and how many of the last bytes are not; how the connection ends; how many replies there are, and how many
/// of them say that it closes; the turns; and how the first reply begins.
type Case<'a> = (&'a str, u32, usize, End, usize, usize, u64, &'a str);

const CASES: &[Case] = &[
    (BOTH, 1, 0, End::Closed, 2, 1, 2, REPLIES),
    (BOTH, 1, 1, End::CutShort, 1, 0, 1, "HTTP/1.1 201 "),
    ("abcdefgh", 1_024, 1, End::CutShort, 0, 0, 0, ""),
    (HEALTH, 0, 0, End::Closed, 0, 0, 0, ""),
    (HEALTH, 3, 0, End::Closed, 3, 0, 3, FOUND),
    (HEALTH, 3, 1, End::CutShort, 2, 0, 2, FOUND),
    (HEALTH, 999, 0, End::Closed, 999, 0, 999, FOUND),
    (HEALTH, 1_000, 0, End::Spent, 1_000, 1, 1_000, FOUND),
    (HEALTH, 1_001, 0, End::Spent, 1_000, 1, 1_000, FOUND),
    // What is no request ends its connection, and what is refused for what it asks leaves it open. Neither is a turn.
    ("abcdefgh", 1_024, 0, End::BadHead, 1, 1, 0, BAD_HEAD),
    (NO_NAME, 2, 0, End::BadHead, 1, 1, 0, BAD_HEAD),
    (CHUNKED, 2, 0, End::NoLength, 1, 1, 0, "HTTP/1.1 411 "),
    (NO_LENGTH, 2, 0, End::NoLength, 1, 1, 0, "HTTP/1.1 411 "),
    (TWO_LENGTHS, 2, 0, End::BadLength, 1, 1, 0, "HTTP/1.1 400 "),
    (TOO_LARGE, 2, 0, End::TooLarge, 1, 1, 0, "HTTP/1.1 413 "),
    (NOTHING, 2, 0, End::Closed, 2, 0, 0, "HTTP/1.1 404 "),
    (NO_JSON, 2, 0, End::Closed, 2, 0, 0, "HTTP/1.1 400 "),
];

// A text so many times, without its last so many bytes.
fn sent(alloc: Global, text: &str, times: u32, cut: usize) -> Result<Vec<u8>, Fail> {
    let mut bytes = Vec::new(alloc);
    for _ in 0..times {
        bytes.extend_from_slice(text.as_bytes())?;
    }
    let left = usize::saturating_sub(bytes.len(), cut);
    bytes.truncate(left);
    Ok(bytes)
}

// Whether a connection ended so, with so many replies, those that close, and turns.
fn is_ended(connected: &Connected, ended: End, replied: usize, closing: usize, turns: u64) -> bool {
    let got = connected.link.got();
    connected.ended == ended
        && connected.turns == turns
        && replies(got) == replied
        && often(got, b"Connection: close\r\n") == closing
}

// Whether the connection of a case ends as it is to.
fn is_right<R: Wait>(rt: &R, alloc: Global, case: &Case) -> Result<bool, Fail> {
    let (text, times, cut, ended, replied, closing, turns, begins) = *case;
    let bytes = sent(alloc, text, times, cut)?;
    let link = link(alloc, bytes.as_slice(), 0, ROOM, &[])?;
    let connected = connect(rt, alloc, link, ticker(alloc, 1, 1_001, &[])?)?;
    Ok(
        is_ended(&connected, ended, replied, closing, turns)
            && connected.link.got().starts_with(begins.as_bytes()),
    )
}

#[test]
fn a_connection_ends_as_its_bytes_say(rt: HostRuntime) -> Result<(), Fail> {
    for case in CASES {
        assert!(rt; is_right(&rt, rt.alloc(), case)?);
    }
    Ok(())
}

// Whether both requests were answered, each by its reply, and nothing else was sent.
fn is_answered(connected: &Connected) -> bool {
    connected.ended == End::Closed
        && connected.turns == 2
        && connected.link.got() == REPLIES.as_bytes()
}

// Whether both requests are answered where they come in pieces of a size.
fn is_answered_in_pieces<R: Wait>(rt: &R, alloc: Global, piece: usize) -> Result<bool, Fail> {
    let link = link(alloc, BOTH.as_bytes(), piece, ROOM, &[])?;
    let connected = connect(rt, alloc, link, ticker(alloc, 1, 2, &[])?)?;
    Ok(is_answered(&connected))
}

// Whether a connection over whose link both requests come has so many replies and turns where its ticker fails at a call.
fn is_ended_by_its_ticker<R: Wait>(
    rt: &R,
    alloc: Global,
    call: u64,
    replied: usize,
) -> Result<bool, Fail> {
    let link = link(alloc, BOTH.as_bytes(), 0, ROOM, &[])?;
    let connected = connect(rt, alloc, link, ticker(alloc, 1, 2, &[call])?)?;
    Ok(is_ended(&connected, End::ClockFault, replied, 0, replied as u64))
}

#[test]
fn each_request_has_one_reply_in_whatever_pieces_it_comes_until_the_ticker_fails(
    rt: HostRuntime,
) -> Result<(), Fail> {
    for piece in [0, 1, 7] {
        assert!(rt; is_answered_in_pieces(&rt, rt.alloc(), piece)?);
    }
    assert!(rt; is_ended_by_its_ticker(&rt, rt.alloc(), 1, 0)?);
    assert!(rt; is_ended_by_its_ticker(&rt, rt.alloc(), 2, 1)?);
    Ok(())
}

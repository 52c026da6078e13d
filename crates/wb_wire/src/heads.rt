//! Heads of requests (RFC 9112), and where they stand in the bytes.
ghost use Rattle.std.specs.Prelude.{◌≡◌, ◌==◌, ◌≤◌, nat_lt, if◌then◌else◌, length, take, drop, position};
ghost use Rattle.wb_model.specs.Heads.{path_of as path_of_target};
ghost use Rattle.wb_wire.specs.HeadReading.{IsHeadRead};

use crate::WireFault;
use crate::closing::closes;
use crate::fields::declared_length;
use httparse::spans::{EMPTY_HEADER_SPAN, parse_request};
use httparse::{Error, Status};

/// How a connection's bytes begin.
#[derive(Clone, Copy, Debug, PartialEq, Eq)]
pub enum HeadRead {
    /// With a head of so many bytes, whose body is to have so many, and after which the connection closes or stays.
    Whole {
        head: usize,
        body: usize,
        close: bool,
    },
    /// With what may become a head.
    More,
    /// With what ends the connection.
    No(WireFault),
}

// The first `?`.
fn mark(target: &[u8]) -> Option<usize>
    ensures { result ≡ position (λ c. c == 63) target.now }
{
    target.iter().position(|c| *c == b'?')
}

/// The first bytes, as many as a head may have.
pub fn window(bytes: &[u8]) -> &[u8]
    ensures front { result.now ≡ take 8_192 bytes.now }
    ensures short { length result.now ≤ length bytes.now }
{
    if bytes.len() < 8_192 {
        bytes
    } else {
        &bytes[..8_192]
    }
}

/// What follows the first bytes.
pub fn rest_after(bytes: &[u8], at: usize) -> &[u8]
    requires { at ≤ length bytes.now }
    ensures { result.now ≡ drop at bytes.now }
{
    &bytes[at..]
}

/// The target up to the first `?`.
pub fn path_of(target: &[u8]) -> &[u8]
    ensures { result.now ≡ path_of_target target.now }
{
    match mark(target) {
        Some(at) => &target[..at],
        None => target,
    }
}

// What bytes without a head may become.
fn headless(window: usize) -> HeadRead
    ensures { result ≡ (if nat_lt window 8_192 then HeadRead.More else HeadRead.No WireFault.BadHead) }
{
    if window < 8_192 {
        HeadRead::More
    } else {
        HeadRead::No(WireFault::BadHead)
    }
}

/// How a connection's bytes begin. It takes no memory.
pub fn read_head(bytes: &[u8]) -> HeadRead
    ensures { IsHeadRead bytes.now result }
{
    let front = window(bytes);
    let mut spans = [EMPTY_HEADER_SPAN; 64];
    let head = match parse_request(front, &mut spans) {
        Ok(Status::Complete(head)) => head,
        Ok(Status::Partial) => return headless(front.len()),
        Err(Error::TooManyHeaders) => return headless(front.len()),
        Err(_) => return HeadRead::No(WireFault::BadHead),
    };
    let fields = &spans[..head.headers];
    match declared_length(front, fields) {
        Ok(said) => HeadRead::Whole {
            head: head.len,
            body: said.unwrap_or(0) as usize,
            close: closes(head.version, front, fields),
        },
        Err(fault) => HeadRead::No(fault),
    }
}

//! Requests read from their bytes (RFC 9112).
ghost use Rattle.std.specs.Prelude.{◌≡◌, ◌≢◌, ◌==◌, ◌||◌, length, true, false, All, IfOk, IfErr, Ok, Err, Some, None, option_map};
ghost use Rattle.httparse.specs.Spans.{IsHeaderWithin};
ghost use Rattle.wb_model.specs.declared.command.Asked.{Asked as AskedOf};
ghost use Rattle.wb_model.specs.declared.command.Command.{Command as CommandOf};
ghost use Rattle.wb_model.specs.RouteBodies.{bare as bare_of};
ghost use Rattle.wb_model.specs.Commands.{fits, is_health};
ghost use Rattle.wb_model.specs.Readings.{Reads, Closes, Asks, Refuses, sized as sized_of, located, body_by, command as command_of, closes_always as closes_always_of};
ghost use Rattle.wb_wire.specs.Places.{place_value, at_place};
ghost use Rattle.wb_wire.specs.RequestParts.{fields_in, asks_of, GivesOrWants, GivesBody};

use crate::closing::closes;
use crate::commands::{Numbers, bare, shaped};
use crate::fields::{declared_length, session};
use crate::heads::{path_of, rest_after, window};
use crate::laws::what_is_asked_fits;
use crate::paths::{Path, route, row};
use crate::router::Routes;
use crate::segments::are_numbers;
use crate::{WireFault, fault_closes};
use httparse::Status;
use httparse::spans::{EMPTY_HEADER_SPAN, HeaderSpan, parse_request};
use serde_json::Value;
use std::alloc::Global;
use wb_form::good_forms_are_those_that_are_read;
use wb_json::{ReadError, read_json};
use wb_model::{Asked, Command, PathNo, Route, answers_that_are_read_stand_in_order};

/// Why a request is not read, and whether the connection closes after the reply.
#[derive(Clone, Copy, Debug, PartialEq, Eq)]
pub struct WireNo {
    pub fault: WireFault,
    pub close: bool,
}

// The parts of a request: those of its head, whose fields stand in the bytes, and what follows it.
#[derive(Drop)]
struct Parts<'a> {
    method: &'a [u8],
    target: &'a [u8],
    minor: u8,
    bytes: &'a [u8],
    fields: &'a [HeaderSpan],
    rest: &'a [u8],
}

// A path of the table that a request is on.
#[derive(Drop)]
struct Located<'a> {
    number: PathNo,
    row: &'static Path,
    path: &'a [u8],
}

impl<'a> Located<'a> {
    // The numbers that stand in it.
    fn numbers(&self) -> Numbers<'a>
        ensures { at_place result ≡ (place_value self.now).at }
    {
        Numbers {
            pattern: self.row.pattern.as_bytes(),
            path: self.path,
        }
    }
}

// The length that is said, which is that of what follows the head.
fn sized(parts: &Parts) -> Result<Option<u64>, WireFault>
    requires { All (IsHeaderWithin (length parts.now.bytes.now)) parts.now.fields.now }
    ensures { result ≡ sized_of (fields_in parts.now) parts.now.rest.now }
{
    match declared_length(parts.bytes, parts.fields) {
        Ok(said) => if parts.rest.len() as u64 == said.unwrap_or(0) {
            Ok(said)
        } else {
            Err(WireFault::BadLength)
        },
        Err(fault) => Err(fault),
    }
}

// The path of the table that a path is, where its numbers are numbers.
fn find_place<'a>(routes: &Routes, path: &'a [u8]) -> Option<Located<'a>>
    ensures { option_map place_value result ≡ located path.now }
{
    let Some(number) = routes.number_of(path) else {
        return None;
    };
    let Some(row) = row(number) else {
        return None;
    };
    if are_numbers(row.pattern.as_bytes(), path) {
        Some(Located { number, row, path })
    } else {
        None
    }
}

// The value of a body, which needs a length.
fn body(alloc: Global, said: Option<u64>, rest: &[u8]) -> Result<Value, WireFault>
    ensures { GivesBody (body_by rest.now said) result }
{
    if said.is_none() {
        return Err(WireFault::NoLength);
    }
    match read_json(alloc, rest) {
        Ok(value) => Ok(value),
        Err(ReadError::Other) => Err(WireFault::BadJson),
        Err(ReadError::Memory) => Err(WireFault::Memory),
    }
}

// What a route asks. Only one with a body wants memory.
fn route_command(
    alloc: Global,
    route: Route,
    numbers: &Numbers,
    said: Option<u64>,
    rest: &[u8],
) -> Result<Command, WireFault>
    ensures asked { GivesOrWants (command_of (at_place numbers.now) rest.now said route) result }
    ensures memory { result ≡ Err WireFault.Memory → bare_of route (at_place numbers.now) ≡ None }
{
    if let Some(command) = bare(route, numbers) {
        return Ok(command);
    }
    let value = body(alloc, said, rest)?;
    match shaped(alloc, route, numbers, &value) {
        Ok(command) => Ok(command),
        Err(ReadError::Other) => Err(WireFault::BadShape),
        Err(ReadError::Memory) => Err(WireFault::Memory),
    }
}

// What the parts ask. A request for the host's health takes no memory.
fn read_command(alloc: Global, routes: &Routes, parts: &Parts) -> Result<Command, WireFault>
    requires { All (IsHeaderWithin (length parts.now.bytes.now)) parts.now.fields.now }
    ensures asked { GivesOrWants (asks_of parts.now) result }
    ensures health { result ≡ Err WireFault.Memory → (command : CommandOf) → asks_of parts.now ≡ Ok command → is_health command ≡ false }
{
    let said = sized(parts)?;
    let Some(place) = find_place(routes, path_of(parts.target)) else {
        return Err(WireFault::NoRoute);
    };
    let Some(route) = route(parts.method, place.row.methods) else {
        return Err(WireFault::NoMethod(place.number));
    };
    good_forms_are_those_that_are_read();
    answers_that_are_read_stand_in_order();
    route_command(alloc, route, &place.numbers(), said, parts.rest)
}

// The refusal for a fault, of a request whose head asks for this closing.
fn refusal(close: bool, fault: WireFault) -> WireNo
    ensures fault { result.fault ≡ fault }
    ensures close { result.close ≡ (close || closes_always_of fault) }
{
    WireNo {
        fault,
        close: close || fault_closes(&fault),
    }
}

/// What a whole request asks, or the first fault. The caller answers the fault by its status and body, and closes the
/// connection where it says so; for want of memory the closing is the one that the head asks for.
pub fn read_request(alloc: Global, routes: &Routes, bytes: &[u8]) -> Result<Asked, WireNo>
    ensures ok { IfOk result (λ asked. Reads bytes.now (Asks asked)) }
    ensures fits { IfOk result (λ asked. fits asked ≡ true) }
    ensures refused { IfErr result (λ no. no.fault ≢ WireFault.Memory → Reads bytes.now (Refuses no.fault no.close)) }
    ensures memory { IfErr result (λ no. no.fault ≡ WireFault.Memory → Closes bytes.now no.close) }
    // A request for the host's health takes no memory.
    ensures health { IfErr result (λ no. no.fault ≡ WireFault.Memory → (asked : AskedOf) → Reads bytes.now (Asks asked) → is_health asked.command ≡ false) }
{
    let bad_head = WireNo {
        fault: WireFault::BadHead,
        close: true,
    };
    what_is_asked_fits();
    let front = window(bytes);
    let mut spans = [EMPTY_HEADER_SPAN; 64];
    let head = match parse_request(front, &mut spans) {
        Ok(Status::Complete(head)) => head,
        Ok(Status::Partial) => return Err(bad_head),
        Err(_) => return Err(bad_head),
    };
    let parts = Parts {
        method: head.method.of(front),
        target: head.path.of(front),
        minor: head.version,
        bytes: front,
        fields: &spans[..head.headers],
        rest: rest_after(bytes, head.len),
    };
    let close = closes(parts.minor, parts.bytes, parts.fields);
    match read_command(alloc, routes, &parts) {
        Ok(command) => Ok(Asked {
            command,
            session: session(parts.bytes, parts.fields),
            close,
        }),
        Err(fault) => Err(refusal(close, fault)),
    }
}

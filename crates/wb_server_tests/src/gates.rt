//! A host whose turns are booked, and a gate through which two passes share it.
ghost use Rattle.std.specs.Prelude.{◌≡◌, true, IfOk};
ghost use Rattle.wb_model.specs.Commands.{fits};
ghost use Rattle.wb_desk.specs.Jobs.{IsAsked};
ghost use Rattle.wb_server_tests.specs.NewHosts.{IsOpenedAt};

use crate::hosts::moment;
use crate::new_hosts::NewHost;
use std::alloc::Global;
use std::marker::Brand;
use std::process::Abort;
use std::sync::Wait;
use std::sync::ledger::Ledger;
use std::test::Fail;
use wb_base::{MemKeeper, Words};
use wb_desk::{Gate, Origin, Pass, Tally, Turn};
use wb_gate::{LockGate, close};
use wb_model::{Asked, Told};
use wb_wire::{Routes, read_request};

/// A submission with an identity answer.
pub const SUBMISSION: &str =
    "POST /t/1/reports HTTP/1.1\r\nHost: h\r\nContent-Length: 53\r\n\r\n{\"context\":1,\"answers\":{\"what\":\"Bribe\",\"name\":\"Eve\"}}";

const LOGIN: &str =
    "POST /t/1/sessions HTTP/1.1\r\nHost: h\r\nContent-Length: 36\r\n\r\n{\"user\":\"ada\",\"password\":\"ada-pass\"}";

const READ: &str =
    "GET /t/1/reports/1 HTTP/1.1\r\nHost: h\r\nX-Session: 2-00000000000000000000000000000002\r\n\r\n";

const RECEIPT: &str = r#"{"number":1,"receipt":"0000000000000042"}"#;

const SESSION: &str = r#"{"role":"recipient","session":"2-00000000000000000000000000000002"}"#;

const REPORT: &str =
    r#"{"ack_due":"2025-01-08","acknowledged":null,"answers":{"what":"Bribe"},"context":1,"dialogue":[],"expires":"2025-01-31","feedback_due":"2025-04-08","feedback_given":false,"form":1,"identity":"sealed","label":"","number":1,"readers":[1],"received":"2025-01-01","requests":[],"status":"new","version":1}"#;

// What a request asks.
fn asked(alloc: Global, routes: &Routes, text: &str) -> Result<Asked, Fail>
    ensures fits { IfOk result (λ asked. fits asked ≡ true) }
    ensures asked { IfOk result (λ asked. IsAsked asked) }
{
    match read_request(alloc, routes, text.as_bytes()) {
        Ok(asked) => Ok(asked),
        Err(_) => Err("a request".into()),
    }
}

/// The turn of a request, so many seconds after the start of 2025 in UTC.
pub fn turn(
    alloc: Global,
    routes: &Routes,
    text: &str,
    seconds: u32,
    words: [u64; 4],
) -> Result<Turn, Fail> {
    let moment = moment(seconds)?;
    let asked = asked(alloc, routes, text)?;
    Ok(Turn::new(asked, moment, Words(words)))
}

// Whether a reply has this status and body.
fn is_told(told: &Told, status: u16, body: &str) -> bool {
    told.status == status && told.body.as_bytes() == body.as_bytes()
}

// What a turn is told behind a gate.
fn enter<A: Origin, B: Ledger, R: Wait>(
    rt: &R,
    gate: &LockGate<MemKeeper, A, B>,
    pass: &mut Pass<A, B>,
    turn: Turn,
) -> Told {
    gate.enter(rt, pass, turn)
}

// One pass submits a report. The other logs in, and reads it.
fn take_turns<A: Origin, B: Ledger, R: Wait + Abort>(
    rt: &R,
    alloc: Global,
    gate: &LockGate<MemKeeper, A, B>,
    first: &mut Pass<A, B>,
    second: &mut Pass<A, B>,
) -> Result<(), Fail> {
    let routes = Routes::new(alloc)?;
    let submits = turn(alloc, &routes, SUBMISSION, 0, [0, 42, 0, 0])?;
    assert!(rt; is_told(&enter(rt, gate, first, submits), 201, RECEIPT));
    let logs_in = turn(alloc, &routes, LOGIN, 10, [0, 2, 0, 2])?;
    assert!(rt; is_told(&enter(rt, gate, second, logs_in), 201, SESSION));
    let reads = turn(alloc, &routes, READ, 20, [0, 3, 0, 3])?;
    assert!(rt; is_told(&enter(rt, gate, second, reads), 200, REPORT));
    assert!(rt; first.turns() == 1 && first.numbers() == 1);
    assert!(rt; second.turns() == 2 && second.numbers() == 0);
    Ok(())
}

// The host is not taken apart with the second pass alone, and is with both.
fn close_with_both<A: Origin, B: Ledger, R: Abort>(
    rt: &R,
    alloc: Global,
    gate: LockGate<MemKeeper, A, B>,
    first: Pass<A, B>,
    second: Pass<A, B>,
) -> Result<(), Fail> {
    let mut passes = Vec::new(alloc);
    passes.push(second)?;
    let Err(back) = close(gate, passes) else {
        return Err("closed with one pass".into());
    };
    assert!(rt; back.book == tally(3, 1) && back.sum == tally(2, 0));
    let mut passes = back.passes;
    passes.push(first)?;
    let Ok(closed) = close(back.gate, passes) else {
        return Err("not closed with both".into());
    };
    assert!(rt; closed.turns == 3 && closed.numbers == 1);
    Ok(())
}

// So many turns, and so many numbers.
fn tally(turns: u64, numbers: u64) -> Tally {
    Tally { turns, numbers }
}

// A host behind a gate has two passes.
fn share<A: Origin, B: Ledger, R: Wait + Abort>(
    rt: &R,
    alloc: Global,
    host: NewHost,
) -> Result<(), Fail>
    requires at { IsOpenedAt host A.desk A.honest A.name A.parts B.name B.parts }
{
    let (kept, mut first) = host.open::<A, B>();
    let mut second = first.split();
    assert!(rt; kept.book() == 0 && first.parts() == 1 && second.parts() == 1);
    let gate = LockGate::over(kept);
    take_turns(rt, alloc, &gate, &mut first, &mut second)?;
    close_with_both(rt, alloc, gate, first, second)
}

#[test]
fn a_host_is_taken_apart_with_all_passes_that_took_turns(rt: HostRuntime) -> Result<(), Fail> {
    let host = NewHost::new(rt.alloc())?;
    share::<Brand, Brand, HostRuntime>(&rt, rt.alloc(), host)
}

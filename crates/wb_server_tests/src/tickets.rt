//! Two seats take turns at a host behind a lock with tickets.
ghost use Rattle.std.specs.Prelude.{◌≡◌};
ghost use Rattle.wb_server_tests.specs.NewHosts.{IsOpenedAt};

use crate::gates::turn;
use crate::hosts::HEALTH;
use crate::new_hosts::NewHost;
use std::alloc::Global;
use std::marker::Brand;
use std::process::Abort;
use std::sync::Wait;
use std::sync::ledger::Ledger;
use std::test::Fail;
use wb_base::MemKeeper;
use wb_desk::{Gate, Origin};
use wb_ticket::{ClosingRoom, TicketGate, TicketSeat, Tickets, close_tickets};
use wb_wire::Routes;

// So many questions for the host's health at a seat.
fn ask<A: Origin, B: Ledger, R: Wait>(
    rt: &R,
    alloc: Global,
    gate: &TicketGate<MemKeeper, A, B>,
    seat: &mut TicketSeat<MemKeeper, A, B>,
    times: u32,
) -> Result<bool, Fail>
    requires { seat.old.gate ≡ gate.now.id }
    ensures { seat.new.gate ≡ gate.now.id }
{
    let routes = Routes::new(alloc)?;
    let mut all = true;
    for second in 0..times {
        let told = gate.enter(rt, seat, turn(alloc, &routes, HEALTH, second, [0; 4])?);
        all = all && told.status == 200;
    }
    Ok(all)
}

// A gate is not closed with one seat alone, and with both it tells all turns.
fn closes<A: Origin, B: Ledger>(
    alloc: Global,
    gate: TicketGate<MemKeeper, A, B>,
    first: TicketSeat<MemKeeper, A, B>,
    second: TicketSeat<MemKeeper, A, B>,
    room: ClosingRoom<MemKeeper, A, B>,
) -> Result<u64, Fail>
    requires here { (first.gate ≡ gate.id) × (second.gate ≡ gate.id) }
    requires room { room ≡ 2 }
{
    let mut seats = Vec::new(alloc);
    seats.push(second)?;
    let Err(out) = close_tickets(gate, seats, room) else {
        return Err("closed with one seat".into());
    };
    let mut seats = out.seats;
    seats.push(first)?;
    let Ok(closed) = close_tickets(out.gate, seats, out.room) else {
        return Err("not closed with both".into());
    };
    Ok(closed.turns)
}

// Three turns at one seat of a host, and one at the other.
fn take_turns<A: Origin, B: Ledger, R: Wait + Abort>(
    rt: &R,
    alloc: Global,
    host: NewHost,
) -> Result<(), Fail>
    requires at { IsOpenedAt host A.desk A.honest A.name A.parts B.name B.parts }
{
    let (kept, pass) = host.open::<A, B>();
    let Ok(tickets) = TicketGate::over(alloc, kept, pass, 2) else {
        return Err("no memory".into());
    };
    let Tickets {
        gate,
        mut seats,
        room,
    } = tickets;
    let Some(mut second) = seats.pop() else {
        return Err("no second seat".into());
    };
    let Some(mut first) = seats.pop() else {
        return Err("no first seat".into());
    };
    assert!(rt; ask(rt, alloc, &gate, &mut first, 3)?);
    assert!(rt; ask(rt, alloc, &gate, &mut second, 1)?);
    assert_eq!(rt; closes(alloc, gate, first, second, room)?, 4);
    Ok(())
}

#[test]
fn a_gate_is_closed_with_all_its_seats_and_tells_all_turns(rt: HostRuntime) -> Result<(), Fail> {
    let host = NewHost::new(rt.alloc())?;
    take_turns::<Brand, Brand, HostRuntime>(&rt, rt.alloc(), host)
}

//! One connection to a host of its own.
ghost use Rattle.wb_server_tests.specs.NewHosts.{IsOpenedAt};

use crate::new_hosts::NewHost;
use std::alloc::Global;
use std::marker::Brand;
use std::sync::Wait;
use std::sync::ledger::Ledger;
use std::test::Fail;
use wb_base::MemKeeper;
use wb_desk::{Origin, Pass};
use wb_front::{Ended, serve_connection};
use wb_gate::LockGate;
use wb_transport::{MemLink, MemTicker};
use wb_wire::{Routes, WireFault};

/// How a connection ended, with the fault for which it was refused.
#[derive(Clone, Copy, PartialEq, Eq)]
pub enum End {
    Closed,
    ReadFault,
    WriteFault,
    ClockFault,
    CutShort,
    Spent,
    BadHead,
    BadLength,
    NoLength,
    TooLarge,
    Other,
}

fn end_of(ended: Ended) -> End {
    match ended {
        Ended::Closed => End::Closed,
        Ended::ReadFault => End::ReadFault,
        Ended::WriteFault => End::WriteFault,
        Ended::ClockFault => End::ClockFault,
        Ended::CutShort => End::CutShort,
        Ended::Spent => End::Spent,
        Ended::Refused(WireFault::BadHead) => End::BadHead,
        Ended::Refused(WireFault::BadLength) => End::BadLength,
        Ended::Refused(WireFault::NoLength) => End::NoLength,
        Ended::Refused(WireFault::TooLarge) => End::TooLarge,
        Ended::Refused(_) => End::Other,
        Ended::Memory => End::Other,
    }
}

/// How a connection ended, its link as it is then, and in how many turns its pass took part.
#[derive(Drop)]
pub struct Connected {
    pub ended: End,
    pub link: MemLink,
    pub turns: u64,
}

/// A gate to a new host, and the pass with all the parts.
pub fn gate_of<A: Origin, B: Ledger>(host: NewHost) -> (LockGate<MemKeeper, A, B>, Pass<A, B>)
    requires at { IsOpenedAt host A.desk A.honest A.name A.parts B.name B.parts }
{
    let (kept, pass) = host.open::<A, B>();
    (LockGate::over(kept), pass)
}

// Serves a connection over a link.
fn ends<A: Origin, B: Ledger, R: Wait>(
    rt: &R,
    alloc: Global,
    routes: &Routes,
    gate: &LockGate<MemKeeper, A, B>,
    pass: &mut Pass<A, B>,
    link: &mut MemLink,
    ticker: &mut MemTicker,
) -> End {
    end_of(serve_connection(rt, alloc, gate, routes, pass, link, ticker))
}

// Serves a connection over a link, on a new host whose books are of two ledgers.
fn connect_on<A: Origin, B: Ledger, R: Wait>(
    rt: &R,
    alloc: Global,
    host: NewHost,
    link: MemLink,
    ticker: MemTicker,
) -> Result<Connected, Fail>
    requires at { IsOpenedAt host A.desk A.honest A.name A.parts B.name B.parts }
{
    let mut link = link;
    let mut ticker = ticker;
    let routes = Routes::new(alloc)?;
    let (gate, mut pass) = gate_of::<A, B>(host);
    let ended = ends(rt, alloc, &routes, &gate, &mut pass, &mut link, &mut ticker);
    Ok(Connected {
        ended,
        link,
        turns: pass.turns(),
    })
}

/// Serves a connection over a link, on a new host over the setup.
pub fn connect<R: Wait>(
    rt: &R,
    alloc: Global,
    link: MemLink,
    ticker: MemTicker,
) -> Result<Connected, Fail> {
    connect_on::<Brand, Brand, R>(rt, alloc, NewHost::new(alloc)?, link, ticker)
}

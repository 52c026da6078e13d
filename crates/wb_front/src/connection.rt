//! A connection: request after request is taken from its link, and each has its reply.
ghost use Rattle.std.specs.Prelude.{◌≡◌, ◌≢◌, ◌≤◌, ◌||◌, nat_eq, true, Some, None};
ghost use Rattle.wb_base.specs.Outside.{Rose};
ghost use Rattle.wb_model.specs.declared.wire.WireFault.{WireFault as FaultData};
ghost use Rattle.wb_front.specs.Served.{sides_at};
ghost use Rattle.wb_front.specs.Endings.{IsEnded, SendsRefusal};

use crate::answers::{Replied, reply_to, send};
use crate::inbox::{Arrived, Inbox};
use std::alloc::Global;
use std::sync::Wait;
use std::sync::ledger::Ledger;
use wb_base::Keeper;
use wb_desk::{Gate, Origin, Turn};
use wb_transport::{Link, Ticker};
use wb_wire::{Routes, WireFault, WireNo, refusal};

// How many replies a connection has at most.
const REPLIES: u32 = 1_000;

/// How a connection ended.
#[derive(Clone, Copy, Debug, PartialEq, Eq)]
pub enum Ended {
    /// Its bytes ended between two requests, or the reply to a request that closes was sent.
    Closed,
    /// Its link failed at a read.
    ReadFault,
    /// Its link failed at a write.
    WriteFault,
    /// The ticker failed.
    ClockFault,
    /// Its bytes ended inside a request.
    CutShort,
    /// It had as many replies as a connection has.
    Spent,
    /// Its bytes were refused, and the refusal was sent.
    Refused(WireFault),
    /// There was no memory for its bytes. Nothing was read.
    Memory,
}

// How a connection ends after a reply that closes.
fn closed(replied: &Replied) -> Ended
    ensures some { (fault : FaultData) → replied.now.fatal ≡ Some fault → result ≡ Ended.Refused fault }
    ensures none { replied.now.fatal ≡ None → result ≡ Ended.Closed }
{
    match replied.fatal {
        Some(fault) => Ended::Refused(fault),
        None => Ended::Closed,
    }
}

// Whether the reply to a request says that the connection closes, after so many replies: where the request closes it, or with the
// last that a connection has.
fn closes_after(close: bool, before: u32) -> bool
    ensures { result ≡ (close || nat_eq before 999) }
{
    close || before == REPLIES - 1
}

// Sends the refusal of bytes that are no request, after which the connection closes.
fn refuse<L: Link>(link: &mut L, no: &WireNo) -> Ended
    ensures sent { SendsRefusal (L.end link.old) (L.end link.new) no.now.fault result }
    ensures left { (L.end link.new).left ≡ (L.end link.old).left }
    ensures later { (L.end link.old).count ≤ (L.end link.new).count }
    ensures stayed { result ≢ Ended.WriteFault → (L.end link.new).count ≡ (L.end link.old).count }
{
    match send(link, &refusal(no), true) {
        Ok(()) => Ended::Refused(no.fault),
        Err(_) => Ended::WriteFault,
    }
}

/// Serves one connection: each request that comes over its link has its reply, in order, and bytes that follow one are kept. It takes
/// memory for its bytes once, before it reads.
pub fn serve_connection<
    R: Wait,
    K: Keeper,
    A: Origin,
    B: Ledger,
    G: Gate<K, A, B, Turn>,
    L: Link,
    T: Ticker,
>(
    rt: &R,
    alloc: Global,
    gate: &G,
    routes: &Routes,
    own: &mut G::Own,
    link: &mut L,
    ticker: &mut T,
) -> Ended
    requires of { G.of gate.now own.old }
    ensures of { G.of gate.now own.new }
    ensures ended { IsEnded (λ own frame told own'. G.ran own frame told own') (sides_at (L.end link.old) (T.end ticker.old) own.old) (sides_at (L.end link.new) (T.end ticker.new) own.new) result }
    ensures parts { G.parts own.new ≡ G.parts own.old }
    ensures later { ((L.end link.old).count ≤ (L.end link.new).count) × ((T.end ticker.old).count ≤ (T.end ticker.new).count) }
    ensures read_fault { result ≡ Ended.ReadFault → Rose (L.end link.old).count (L.end link.new).count }
    ensures write_fault { result ≡ Ended.WriteFault → Rose (L.end link.old).count (L.end link.new).count }
    ensures clock_fault { result ≡ Ended.ClockFault → Rose (T.end ticker.old).count (T.end ticker.new).count }
    ensures link_stayed { result ≢ Ended.ReadFault → result ≢ Ended.WriteFault → (L.end link.new).count ≡ (L.end link.old).count }
    ensures clock_stayed { result ≢ Ended.ClockFault → (T.end ticker.new).count ≡ (T.end ticker.old).count }
{
    let Ok(inbox) = Inbox::new(alloc) else {
        return Ended::Memory;
    };
    let mut inbox = inbox;
    for before in 0..REPLIES {
        let Ok(arrived) = inbox.next(link) else {
            return Ended::ReadFault;
        };
        let size = match arrived {
            Arrived::Request(size) => size,
            Arrived::End => return Ended::Closed,
            Arrived::Part => return Ended::CutShort,
            Arrived::No(fault) => return refuse(link, &WireNo { fault, close: true }),
        };
        let Ok(replied) = reply_to(rt, alloc, gate, routes, own, ticker, inbox.first(size)) else {
            return Ended::ClockFault;
        };
        let Ok(()) = send(
            link,
            &replied.response,
            closes_after(replied.response.close, before),
        ) else {
            return Ended::WriteFault;
        };
        if replied.response.close {
            return closed(&replied);
        }
        inbox.drop_first(size);
    }
    Ended::Spent
}

//! The reply to one request: a turn of the host behind the gate, or the refusal of bytes that ask nothing.
ghost use Rattle.std.specs.Prelude.{◌≡◌, ◌++◌, Some, None, Option, IfOk, OnOk, OnErr, if◌then◌else◌};
ghost use Rattle.std.specs.Io.KnownBytes.{Appends};
ghost use Rattle.wb_base.specs.Outside.{AppendsFront, HasCause};
ghost use Rattle.wb_model.specs.declared.command.Asked.{Asked as AskedOf};
ghost use Rattle.wb_model.specs.Readings.{Asks, Reads, closes_always};
ghost use Rattle.wb_transport.specs.Lines.{Tick};
ghost use Rattle.wb_wire.specs.Responses.{refusal as refusal_of, reply_of};
ghost use Rattle.wb_front.specs.Served.{closing, reply_bytes};
ghost use Rattle.wb_front.specs.Answers.{IsRepliedTo};

use std::alloc::Global;
use std::sync::Wait;
use std::sync::ledger::Ledger;
use wb_base::{Failed, Keeper};
use wb_desk::{Gate, Origin, Turn};
use wb_transport::{Link, Ticker};
use wb_wire::{
    Response, Routes, WireFault, WireNo, Written, fault_closes, read_request, refusal, reply_head,
};

/// The response to a request, and the fault that ends the connection, where it is such a fault.
#[derive(Drop)]
pub struct Replied {
    pub response: Response,
    pub fatal: Option<WireFault>,
}

// The response to bytes that ask nothing. It takes no memory.
fn refused(no: &WireNo) -> Replied
    ensures reply { reply_of result.response ≡ refusal_of no.now.fault no.now.close }
    ensures fatal { result.fatal ≡ (if closes_always no.now.fault then Some no.now.fault else None) }
{
    Replied {
        response: refusal(no),
        fatal: if fault_closes(&no.fault) {
            Some(no.fault)
        } else {
            None
        },
    }
}

/// The reply to a request, which is a turn of the host where it asks something. The ticker's failure makes none.
pub fn reply_to<R: Wait, K: Keeper, A: Origin, B: Ledger, G: Gate<K, A, B, Turn>, T: Ticker>(
    rt: &R,
    alloc: Global,
    gate: &G,
    routes: &Routes,
    own: &mut G::Own,
    ticker: &mut T,
    bytes: &[u8],
) -> Result<Replied, Failed>
    requires of { G.of gate.now own.old }
    ensures of { G.of gate.now own.new }
    ensures answered { IfOk result (λ a. (tick : Option Tick) × IsRepliedTo (λ own frame told own'. G.ran own frame told own') own.old own.new (T.end ticker.old).left (T.end ticker.new).left bytes.now a tick) }
    ensures failed { OnErr result ((own.new ≡ own.old) × ((T.end ticker.new).left ≡ (T.end ticker.old).left) × ((asked : AskedOf) × Reads bytes.now (Asks asked))) }
    ensures parts { G.parts own.new ≡ G.parts own.old }
    ensures cause { HasCause (T.end ticker.old).count (T.end ticker.new).count result }
{
    match read_request(alloc, routes, bytes) {
        Ok(asked) => {
            let Ok(tick) = ticker.tick() else {
                return Err(Failed);
            };
            let close = asked.close;
            let response = Response {
                told: gate.enter(rt, own, Turn::new(asked, tick.0, tick.1)),
                allow: None,
                close,
            };
            Ok(Replied {
                response,
                fatal: None,
            })
        }
        Err(no) => Ok(refused(&no)),
    }
}

/// The most bytes that are sent by one write of head and body together.
const PIECE: usize = 4_096;

// Sends a head and a body, by one write where they are short.
fn send_both<L: Link>(link: &mut L, head: &[u8], body: &[u8]) -> Result<(), Failed>
    ensures ok { OnOk result (Appends (L.end link.old).got (L.end link.new).got (head.now ++ body.now)) }
    ensures err { OnErr result (AppendsFront (L.end link.old).got (L.end link.new).got (head.now ++ body.now)) }
    ensures left { (L.end link.new).left ≡ (L.end link.old).left }
    ensures cause { HasCause (L.end link.old).count (L.end link.new).count result }
{
    if body.len() <= PIECE && head.len() <= PIECE - body.len() {
        let mut both = Written::<PIECE>::new();
        both.put(head);
        both.put(body);
        return link.write_all(both.as_bytes());
    }
    match link.write_all(head) {
        Ok(()) => {}
        Err(no) => return Err(no),
    }
    match link.write_all(body) {
        Ok(()) => Ok(()),
        Err(no) => Err(no),
    }
}

/// Sends a response, with this closing. It takes no memory.
pub fn send<L: Link>(link: &mut L, response: &Response, close: bool) -> Result<(), Failed>
    ensures ok { OnOk result (Appends (L.end link.old).got (L.end link.new).got (reply_bytes (closing (reply_of response.now) close))) }
    ensures err { OnErr result (AppendsFront (L.end link.old).got (L.end link.new).got (reply_bytes (closing (reply_of response.now) close))) }
    ensures left { (L.end link.new).left ≡ (L.end link.old).left }
    ensures cause { HasCause (L.end link.old).count (L.end link.new).count result }
{
    let body = response.told.body.as_bytes();
    let head = reply_head(response.told.status, response.allow, body.len(), close);
    send_both(link, head.as_bytes(), body)
}

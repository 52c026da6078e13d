//! A worker: it attends link after link, until its listener has none.
ghost use Rattle.std.specs.Prelude.{◌≡◌};
ghost use Rattle.wb_front.specs.Attended.{RoseOften, AttendsLinks, HasNone};

use crate::connection::serve_connection;
use std::alloc::Global;
use std::sync::Wait;
use std::sync::ledger::Ledger;
use wb_base::Keeper;
use wb_desk::{Gate, Origin, Turn};
use wb_transport::{Listener, Ticker};
use wb_wire::Routes;

/// What a worker has for itself: what brings its links, and what tells it the time.
#[derive(Drop)]
pub struct Station<Li: Listener, T: Ticker> {
    pub listener: Li,
    pub ticker: T,
}

/// How a worker ended.
#[derive(Clone, Copy, Debug, PartialEq, Eq)]
pub enum Worked {
    /// Its listener has no more links.
    End,
    /// Its listener failed at 16 calls.
    ListenFault,
}

/// Attends link after link, and hands each back to its listener as it is then. It ends where the listener has no more, or failed often.
pub fn work<
    R: Wait,
    K: Keeper,
    A: Origin,
    B: Ledger,
    G: Gate<K, A, B, Turn>,
    Li: Listener,
    T: Ticker,
>(
    rt: &R,
    alloc: Global,
    gate: &G,
    routes: &Routes,
    own: &mut G::Own,
    station: &mut Station<Li, T>,
) -> Worked
    requires of { G.of gate.now own.old }
    ensures of { G.of gate.now own.new }
    ensures attended { AttendsLinks (λ own frame told own'. G.ran own frame told own') (Li.end station.old.listener) (Li.end station.new.listener) own.old own.new (T.end station.old.ticker) (T.end station.new.ticker) }
    ensures ended { result ≡ Worked.End → HasNone (Li.end station.new.listener) }
    ensures failed { result ≡ Worked.ListenFault → RoseOften 16 (Li.end station.old.listener).count (Li.end station.new.listener).count }
    ensures parts { G.parts own.new ≡ G.parts own.old }
{
    let mut failed = 0u32;
    for _ in rt.forever() {
        match station.listener.next() {
            Err(_) => {
                failed += 1;
                if failed == 16 {
                    return Worked::ListenFault;
                }
            }
            Ok(None) => return Worked::End,
            Ok(Some(link)) => {
                let mut link = link;
                serve_connection(rt, alloc, gate, routes, own, &mut link, &mut station.ticker);
                station.listener.back(link);
            }
        }
    }
    unreachable!()
}

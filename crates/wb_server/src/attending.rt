//! The stations of a host are attended, each by a worker of its own.
ghost use Rattle.std.specs.Prelude.{◌≡◌, ◌<◌, All, true, false, vec_len, IfOk, IfErr};
ghost use Rattle.wb_server.specs.Workers.{AllHaveNone, OneFailed, EachServed};

use crate::placing::{place, unplace};
use crate::worker::attend_all;
use std::alloc::Global;
use std::sync::Wait;
use std::sync::ledger::Ledger;
use std::thread::Threads;
use wb_base::{Keeper, Memory};
use wb_desk::{Gate, Origin, Turn};
use wb_front::Station;
use wb_transport::{Listener, Ticker};
use wb_wire::Routes;

/// Attends all stations, each in a thread of its own, with what there is of the gate for each. Stations and these come back in their order.
/// Says whether each station had no more links. Memory is wanted before the first link is taken.
pub(crate) fn attend_stations<
    R: Threads + Wait + Sync,
    K: Keeper + Send,
    A: Origin + Send + Sync,
    B: Ledger + Send + Sync,
    G: Gate<K, A, B, Turn> + Sync,
    Li: Listener + Send,
    T: Ticker + Send,
>(
    rt: &R,
    alloc: Global,
    gate: &G,
    routes: &Routes,
    owns: &mut Vec<G::Own>,
    stations: &mut Vec<Station<Li, T>>,
) -> Result<bool, Memory>
where
    G::Own: Send,
    Li::End: Send,
    requires some { (0 < vec_len stations.old) × (vec_len owns.old ≡ vec_len stations.old) }
    requires of { All (λ own. G.of gate.now own) owns.old.items }
    ensures stations { (vec_len stations.new ≡ vec_len stations.old) × (vec_len owns.new ≡ vec_len stations.old) }
    ensures of { IfOk result (λ _. All (λ own. G.of gate.now own) owns.new.items) }
    ensures parts { IfOk result (λ _. All (λ own. G.parts own ≡ 1) owns.old.items → All (λ own. G.parts own ≡ 1) owns.new.items) }
    ensures served { IfOk result (λ _. EachServed (λ own frame told own'. G.ran own frame told own') Li.end T.end stations.old.items stations.new.items owns.old.items owns.new.items) }
    ensures left { IfOk result (λ all. all ≡ true → AllHaveNone Li.end stations.new.items) }
    ensures failed { IfOk result (λ all. all ≡ false → OneFailed Li.end stations.old.items stations.new.items) }
    ensures none { IfErr result (λ _. stations.new.items ≡ stations.old.items) }
{
    let mut workers = Vec::with_capacity(alloc, stations.len())?;
    place(owns, stations, &mut workers);
    attend_all(rt, alloc, gate, routes, workers.as_mut_slice());
    Ok(unplace(workers, stations, owns))
}

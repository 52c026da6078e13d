//! A worker: a station, what it has of the gate, and how it ended.
ghost use Rattle.std.specs.Prelude.{◌≡◌, ◌<◌, ℕ, All, length, slice_index_or};
ghost use Rattle.wb_server.specs.Workers.{HasEnded, WorkerServed, WorkerFailed};

use std::alloc::Global;
use std::sync::Wait;
use std::sync::ledger::Ledger;
use std::thread;
use std::thread::Threads;
use wb_base::Keeper;
use wb_desk::{Gate, Origin, Turn};
use wb_front::{Station, Worked, work};
use wb_transport::{Listener, Ticker};
use wb_wire::Routes;

/// A worker at its station, with what it has of the gate.
#[derive(Drop)]
pub struct Worker<Li: Listener, T: Ticker, O: Drop> {
    pub own: O,
    pub station: Station<Li, T>,
    pub worked: Worked,
}

/// A worker at a station that has not begun.
pub fn make_worker<Li: Listener, T: Ticker, O: Drop>(
    own: O,
    station: Station<Li, T>,
) -> Worker<Li, T, O>
    ensures station { result.station ≡ station }
    ensures own { result.own ≡ own }
{
    Worker {
        own,
        station,
        worked: Worked::ListenFault,
    }
}

// Attends one worker's station.
fn attend<
    R: Wait,
    K: Keeper,
    A: Origin,
    B: Ledger,
    G: Gate<K, A, B, Turn>,
    Li: Listener,
    T: Ticker,
>(rt: &R, alloc: Global, gate: &G, routes: &Routes, worker: &mut Worker<Li, T, G::Own>)
    requires of { G.of gate.now worker.old.own }
    ensures of { G.of gate.now worker.new.own }
    ensures parts { G.parts worker.new.own ≡ G.parts worker.old.own }
    ensures served { WorkerServed (λ own frame told own'. G.ran own frame told own') Li.end T.end worker.old worker.new }
    ensures ended { HasEnded (Li.end worker.new.station.listener) worker.new.worked }
    ensures failed { WorkerFailed Li.end worker.old worker.new }
{
    let Worker {
        own,
        station,
        worked,
    } = worker;
    *worked = work(rt, alloc, gate, routes, own, station);
}

/// Attends all stations, each in a thread of its own.
pub fn attend_all<
    R: Threads + Wait + Sync,
    K: Keeper + Send,
    A: Origin + Send + Sync,
    B: Ledger + Send + Sync,
    G: Gate<K, A, B, Turn> + Sync,
    Li: Listener + Send,
    T: Ticker + Send,
>(rt: &R, alloc: Global, gate: &G, routes: &Routes, workers: &mut [Worker<Li, T, G::Own>])
where
    G::Own: Send,
    Li::End: Send,
    requires some { 0 < length workers.old }
    requires of { All (λ w. G.of gate.now w.own) workers.old }
    ensures len { length workers.new ≡ length workers.old }
    ensures of { All (λ w. G.of gate.now w.own) workers.new }
    ensures parts { (i : ℕ) (d : _) → i < length workers.old → G.parts (slice_index_or workers.new i d).own ≡ G.parts (slice_index_or workers.old i d).own }
    ensures served { (i : ℕ) (d : _) → i < length workers.old → WorkerServed (λ own frame told own'. G.ran own frame told own') Li.end T.end (slice_index_or workers.old i d) (slice_index_or workers.new i d) }
    ensures ended { All (λ w. HasEnded (Li.end w.station.listener) w.worked) workers.new }
    ensures failed { (i : ℕ) (d : _) → i < length workers.old → WorkerFailed Li.end (slice_index_or workers.old i d) (slice_index_or workers.new i d) }
{
    let threads = workers.len();
    thread::for_each_mut(
        rt,
        workers,
        threads,
        &|_, worker|
            requires of { G.of gate.now worker.old.own }
            ensures of { G.of gate.entry.now worker.new.own }
            ensures parts { G.parts worker.new.own ≡ G.parts worker.old.own }
            ensures served { WorkerServed (λ own frame told own'. G.ran own frame told own') Li.end T.end worker.old worker.new }
            ensures ended { HasEnded (Li.end worker.new.station.listener) worker.new.worked }
            ensures failed { WorkerFailed Li.end worker.old worker.new }
        { attend(rt, alloc, gate, routes, worker) },
    );
}

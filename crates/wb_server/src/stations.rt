//! A host is served at its stations, by workers that take turns by a mutex or by a lock with tickets, and taken apart at the end.
ghost use Rattle.std.specs.Prelude.{◌≡◌, ◌<◌, ◌≤◌, All, vec_len, vec_capacity, IfOk, IfErr};
ghost use Rattle.wb_model.specs.Rows.{rows_of};
ghost use Rattle.wb_tables.specs.Standing.{hosts_of};
ghost use Rattle.wb_desk.specs.Hosted.{fresh};
ghost use Rattle.wb_server.specs.Ended.{HasServed, ServedBy};

use crate::attending::attend_stations;
use std::alloc::Global;
use std::marker::Brand;
use std::sync::Wait;
use std::sync::ledger::{Blank, Ledger};
use std::thread::Threads;
use wb_base::{Keeper, Memory};
use wb_cli::Lock;
use wb_desk::{Closed, Desk, Kept, Origin, Pass};
use wb_front::Station;
use wb_gate::{LockGate, close};
use wb_ticket::{TicketGate, Tickets, close_tickets};
use wb_transport::{Listener, Ticker};
use wb_wire::Routes;

/// How a host ended: whether each station had no more links, and what is left of the host.
#[derive(Drop)]
pub struct ServeEnd<K: Keeper> {
    pub all: bool,
    pub closed: Closed<K>,
}

// Splits a pass into passes of one part each.
fn split<A: Ledger, B: Ledger>(all: Pass<A, B>, passes: &mut Vec<Pass<A, B>>)
    requires all { (0 < all.parts) × (all.turns ≡ 0) × (all.numbers ≡ 0) }
    requires room { (vec_len passes.old ≡ 0) × (all.parts ≤ vec_capacity passes.old) }
    ensures many { vec_len passes.new ≡ all.parts }
    ensures each { All (λ p. p ≡ fresh) passes.new.items }
{
    let mut all = all;
    while all.parts() > 1 {
        passes.push_reserved(all.split());
    }
    passes.push_reserved(all);
}

// Serves over two ledgers of as many parts as there are stations. Memory is wanted before the first link is taken.
fn serve_on<
    K: Keeper + Send,
    A: Origin + Send + Sync,
    B: Ledger + Send + Sync,
    Li: Listener + Send,
    T: Ticker + Send,
    R: Threads + Wait + Sync,
>(
    rt: &R,
    alloc: Global,
    lock: Lock,
    routes: &Routes,
    desk: Desk,
    keeper: K,
    turns: Blank,
    numbers: Blank,
    stations: &mut Vec<Station<Li, T>>,
) -> Result<ServeEnd<K>, Memory>
where
    Li::End: Send,
    requires some { (0 < vec_len stations.old) × (lock ≡ Lock.Ticket → vec_len stations.old ≤ 64) }
    requires kept { (K.end keeper).honest → (K.end keeper).holds (rows_of (hosts_of desk).list) }
    requires opened { A.desk ≡ desk }
    requires honest { ((K.end keeper).honest → A.honest) × (A.honest → (K.end keeper).honest) }
    requires turns { (turns.name ≡ A.name) × (turns.parts ≡ A.parts) × (turns.parts ≡ vec_len stations.old) }
    requires numbers { (numbers.name ≡ B.name) × (numbers.parts ≡ B.parts) × (numbers.parts ≡ vec_len stations.old) }
    ensures stations { vec_len stations.new ≡ vec_len stations.old }
    ensures served { IfOk result (λ e. ServedBy K.end Li.end T.end stations.old.items stations.new.items desk keeper lock e.closed) }
    ensures ended { IfOk result (λ e. HasServed K.end Li.end T.end stations.old.items stations.new.items desk keeper e) }
    ensures none { IfErr result (λ _. stations.new.items ≡ stations.old.items) }
{
    let count = stations.len();
    let (kept, all) = Kept::<K, A, B>::new(desk, keeper, count as u64, turns, numbers);
    match lock {
        Lock::Mutex => {
            let mut passes = Vec::with_capacity(alloc, count)?;
            split(all, &mut passes);
            let gate = LockGate::over(kept);
            let all = attend_stations(rt, alloc, &gate, routes, &mut passes, stations)?;
            let Ok(closed) = close(gate, passes) else {
                unreachable!()
            };
            Ok(ServeEnd { all, closed })
        }
        Lock::Ticket => {
            let Ok(tickets) = TicketGate::over(alloc, kept, all, count as u32) else {
                return Err(Memory);
            };
            let Tickets {
                gate,
                mut seats,
                room,
            } = tickets;
            let all = attend_stations(rt, alloc, &gate, routes, &mut seats, stations)?;
            let Ok(closed) = close_tickets(gate, seats, room) else {
                unreachable!()
            };
            Ok(ServeEnd { all, closed })
        }
    }
}

/// Serves a host at these stations, each by a worker in a thread of its own, until each worker ends; then the host is taken apart. The
/// workers take turns by this lock. The stations come back in their order.
pub fn serve_by<K: Keeper + Send, Li: Listener + Send, T: Ticker + Send, R: Threads + Wait + Sync>(
    rt: &R,
    alloc: Global,
    lock: Lock,
    routes: &Routes,
    desk: Desk,
    keeper: K,
    stations: &mut Vec<Station<Li, T>>,
) -> Result<ServeEnd<K>, Memory>
where
    Li::End: Send,
    requires some { (0 < vec_len stations.old) × (lock ≡ Lock.Ticket → vec_len stations.old ≤ 64) }
    requires kept { (K.end keeper).honest → (K.end keeper).holds (rows_of (hosts_of desk).list) }
    ensures stations { vec_len stations.new ≡ vec_len stations.old }
    // By a mutex, the passes, one a station, took part in all turns of the host that was given. By tickets there is one history from that host, and
    // what is left is its last state. It is split into lists, one a station: what came over the links of the station and was a turn is an entry of
    // its list, in order.
    ensures served { IfOk result (λ e. ServedBy K.end Li.end T.end stations.old.items stations.new.items desk keeper lock e.closed) }
    ensures ended { IfOk result (λ e. HasServed K.end Li.end T.end stations.old.items stations.new.items desk keeper e) }
    ensures none { IfErr result (λ _. stations.new.items ≡ stations.old.items) }
{
    let parts = stations.len() as u64;
    let (turns, numbers) = (Blank::new(parts), Blank::new(parts));
    serve_on::<K, Brand, Brand, Li, T, R>(
        rt, alloc, lock, routes, desk, keeper, turns, numbers, stations,
    )
}

//! Stations are given to workers, and come back from them in their order.
ghost use Rattle.std.specs.Prelude.{◌≡◌, ◌⊎◌, ◌<◌, ◌≤◌, ◌-◌, ℕ, true, false, All, vec_len, vec_capacity, slice_index_or};
ghost use Rattle.wb_server.specs.Workers.{HasEnded, AllHaveNone};

use crate::worker::{Worker, make_worker};
use wb_front::{Station, Worked};
use wb_transport::{Listener, Ticker};

/// Moves the stations, the last first, into workers, each with what it has of the gate.
pub(crate) fn place<Li: Listener, T: Ticker, O: Drop>(
    owns: &mut Vec<O>,
    stations: &mut Vec<Station<Li, T>>,
    workers: &mut Vec<Worker<Li, T, O>>,
)
    requires many { vec_len owns.old ≡ vec_len stations.old }
    requires room { (vec_len workers.old ≡ 0) × (vec_len stations.old ≤ vec_capacity workers.old) }
    ensures workers { vec_len workers.new ≡ vec_len stations.old }
    ensures stations { (vec_len stations.new ≡ 0) × (vec_capacity stations.new ≡ vec_capacity stations.old) }
    ensures owns { (vec_len owns.new ≡ 0) × (vec_capacity owns.new ≡ vec_capacity owns.old) }
    ensures order { (k : ℕ) (d : _) (e : _) → k < vec_len stations.old → (slice_index_or workers.new.items k d).station ≡ slice_index_or stations.old.items (vec_len stations.old - 1 - k) e }
    ensures given { (k : ℕ) (d : _) (e : _) → k < vec_len stations.old → (slice_index_or workers.new.items k d).own ≡ slice_index_or owns.old.items (vec_len stations.old - 1 - k) e }
{
    while let Some(station) = stations.pop() {
        let Some(own) = owns.pop() else {
            unreachable!()
        };
        workers.push_reserved(make_worker(own, station));
    }
}

// Whether all had no more links, one more worker among them that ended so.
fn and_ended(all: bool, worked: Worked) -> bool
    ensures left { result ≡ true → (all ≡ true) × (worked ≡ Worked.End) }
    ensures failed { result ≡ false → (all ≡ false) ⊎ (worked ≡ Worked.ListenFault) }
{
    all && worked == Worked::End
}

/// Moves the stations, and what each had of the gate, back in their order. Says whether each station had no more links.
pub(crate) fn unplace<Li: Listener, T: Ticker, O: Drop>(
    mut workers: Vec<Worker<Li, T, O>>,
    stations: &mut Vec<Station<Li, T>>,
    owns: &mut Vec<O>,
) -> bool
    requires empty { (vec_len stations.old ≡ 0) × (vec_len owns.old ≡ 0) }
    requires room { (vec_len workers ≤ vec_capacity stations.old) × (vec_len workers ≤ vec_capacity owns.old) }
    requires ended { All (λ w. HasEnded (Li.end w.station.listener) w.worked) workers.items }
    ensures stations { vec_len stations.new ≡ vec_len workers }
    ensures owns { vec_len owns.new ≡ vec_len workers }
    ensures order { (k : ℕ) (d : _) (e : _) → k < vec_len workers → slice_index_or stations.new.items k e ≡ (slice_index_or workers.items (vec_len workers - 1 - k) d).station }
    ensures given { (k : ℕ) (d : _) (e : _) → k < vec_len workers → slice_index_or owns.new.items k e ≡ (slice_index_or workers.items (vec_len workers - 1 - k) d).own }
    ensures left { result ≡ true → AllHaveNone Li.end stations.new.items }
    ensures failed { result ≡ false → (k : ℕ) × (k < vec_len workers) × ((d : _) → (slice_index_or workers.items k d).worked ≡ Worked.ListenFault) }
{
    let mut all = true;
    while let Some(next) = workers.pop() {
        let Worker {
            own,
            station,
            worked,
        } = next;
        all = and_ended(all, worked);
        owns.push_reserved(own);
        stations.push_reserved(station);
    }
    all
}

//! The program: serves a whistleblowing host, plays scripts on one, and makes scripts for trying one.
#![tactic(auto)]

ghost use Rattle.std.specs.Prelude.{◌≡◌, ℕ, List, Option};
ghost use Rattle.wb_cli.specs.declared.plans.Lock.{Lock as LockOf};
ghost use Rattle.wb_cli.specs.declared.plans.Plan.TheVariants.{Serve};
ghost use Rattle.wb_cli.specs.CommandLine.{Asks};

mod answering;
mod counting;
mod exits;
mod generated;
mod listening;
mod opening;
mod playing;
mod running;
mod sample_setup;
mod setup_file;
mod tally_lines;
mod tallying;

pub use exits::{end, run_to_end, words_of};
pub use generated::make;
use listening::listen;
pub use running::run;
use std::alloc::Global;
use std::env;
use std::io::{BufReader, ErrorKind};
use std::net::{Net, TcpListener, TcpStream};
use std::process::ExitCode;
use std::sync::Wait;
use std::thread::Threads;
use wb_base::{Keeper, StdSink, StdSource, Text};
use wb_cli::{Place, Plan, PlanFault, StoreWord, plan};
pub use wb_cli::{Status, exit_line};
use wb_etcd::{EtcdKeeper, Store};
use wb_memory::RowsInMemory;
use wb_notice::notify;
pub use wb_server::serve;
use wb_sqlite::PathKeeper;
use wb_system::TcpDial;

// The words after the program's name. Words that are not UTF-8 are no form of any call.
fn words(rt: &HostRuntime) -> Result<Vec<Text>, Status> {
    match env::args(rt) {
        Ok(all) => words_of(rt.alloc(), all).map_err(|_| Status::NoMemory),
        Err(error) => match error.kind() {
            ErrorKind::OutOfMemory => Err(Status::NoMemory),
            _ => Err(Status::Usage),
        },
    }
}

// A keeper of no rows yet.
fn rows_in_memory(alloc: Global) -> RowsInMemory {
    RowsInMemory::new(alloc)
}

// A keeper of the rows in a store of etcd, which is reached over TCP.
fn rows_in_etcd<'a, R: Net<Listener = TcpListener, Stream = TcpStream>>(
    handle: &'a R,
    rt: &'a HostRuntime,
    store: Store,
) -> EtcdKeeper<TcpDial<'a, R, HostRuntime>> {
    EtcdKeeper::new(rt.alloc(), TcpDial::new(handle, rt), store)
}

// Runs the words over standard input, output and error, and a keeper.
fn run_over<K: Keeper>(rt: &HostRuntime, words: &[Text], mut keeper: K) -> u8 {
    let alloc = rt.alloc();
    let mut errors = StdSink::new(rt.stderr());
    let Ok(input) = BufReader::new(alloc, rt.stdin()) else {
        return end(&Status::NoMemory, &mut errors);
    };
    let mut source = StdSource::new(input);
    let mut sink = StdSink::new(rt.stdout());
    run_to_end(
        alloc,
        words,
        &mut source,
        &mut sink,
        &mut keeper,
        &mut errors,
    )
}

// Runs the words over the rows that are kept at a place.
fn run_at<'x, R: Net<Listener = TcpListener, Stream = TcpStream>>(
    handle: &'x R,
    rt: &'x HostRuntime,
    words: &[Text],
    place: Place,
) -> u8 {
    match place {
        Place::File(path) => run_over(rt, words, PathKeeper::new(rt, path)),
        Place::Etcd(store) => run_over(rt, words, rows_in_etcd(handle, rt, store)),
    }
}

// Serves the host that the words ask for over the rows that are kept where a word says, or in memory.
fn serve_at<'x, R: Threads + Wait + Net<Listener = TcpListener, Stream = TcpStream> + Sync>(
    handle: &'x R,
    rt: &'x HostRuntime,
    words: &[Text],
    setup: &str,
    address: &str,
    workers: u32,
    store: Option<StoreWord>,
) -> u8
    requires asked { (text at : List ℕ) (count : ℕ) (lock : LockOf) (store : _) → Asks words.now (Serve text at count lock store) → (text ≡ setup.now) × (at ≡ address.now) × (count ≡ workers) }
{
    match store.map(StoreWord::place) {
        Some(Place::File(path)) => {
            let keeper = PathKeeper::new(rt, path);
            listen(handle, rt, words, setup, address, workers, keeper)
        }
        Some(Place::Etcd(store)) => {
            let keeper = rows_in_etcd(handle, rt, store);
            listen(handle, rt, words, setup, address, workers, keeper)
        }
        None => {
            let keeper = rows_in_memory(rt.alloc());
            listen(handle, rt, words, setup, address, workers, keeper)
        }
    }
}

// Does what the words of `notices` ask, over standard output and error.
fn notify_over<K: Keeper, B: Keeper>(
    rt: &HostRuntime,
    words: &[Text],
    keeper: &mut K,
    outbox: &mut B,
) -> u8 {
    let mut sink = StdSink::new(rt.stdout());
    let status = notify(rt.alloc(), words, keeper, outbox, &mut sink);
    end(&status, &mut StdSink::new(rt.stderr()))
}

// Does what the words ask. Rows are kept where they say, or else in memory. Where there is no memory to read the words,
// nothing is done: rows that were to be kept in a file would be lost. What it calls reads the words again: its promise is of words.
fn run_words<'x, R: Threads + Wait + Net<Listener = TcpListener, Stream = TcpStream> + Sync>(
    handle: &'x R,
    rt: &'x HostRuntime,
    words: &[Text],
) -> u8 {
    match plan(rt.alloc(), words) {
        Ok(
            Plan::Serve {
                setup,
                listen: address,
                workers,
                lock: _,
                store,
            },
        ) => {
            let setup = setup.as_str();
            let address = address.as_str();
            serve_at(handle, rt, words, setup, address, workers, store)
        }
        Ok(Plan::Play { store: Some(store) }) => run_at(handle, rt, words, store.place()),
        Ok(
            Plan::Register {
                store: Some(path),
                ..
            }
            | Plan::Forecast {
                store: Some(path),
                ..
            },
        ) => run_over(rt, words, PathKeeper::new(rt, path)),
        Ok(Plan::Notices { store, outbox, .. }) => {
            let mut keeper = PathKeeper::new(rt, store);
            notify_over(rt, words, &mut keeper, &mut PathKeeper::new(rt, outbox))
        }
        Err(PlanFault::Memory) => end(&Status::NoMemory, &mut StdSink::new(rt.stderr())),
        _ => run_over(rt, words, rows_in_memory(rt.alloc())),
    }
}

fn main(rt: HostRuntime) -> ExitCode {
    ExitCode::from(match words(&rt) {
        Ok(words) => run_words(&rt, &rt, &words),
        Err(status) => end(&status, &mut StdSink::new(rt.stderr())),
    })
}

#[cfg(test)]
mod serving_tests;
#[cfg(test)]
mod tally_tests;
#[cfg(test)]
mod tests;

//! The host that links over TCP reach: its stations, and its end.
ghost use Rattle.std.specs.Prelude.{◌≡◌, ℕ, List, Option, All, IfOk, is_some, vec_len};
ghost use Rattle.wb_base.specs.declared.rows.Row.{Row as KeptRow};
ghost use Rattle.wb_cli.specs.declared.plans.Lock.{Lock as LockOf};
ghost use Rattle.wb_cli.specs.declared.plans.Plan.TheVariants.{Serve};
ghost use Rattle.wb_cli.specs.CommandLine.{Asks};

use crate::exits::end;
use crate::setup_file::SetupFile;
use std::alloc::{AllocError, Global};
use std::net::{Net, TcpListener, TcpStream};
use std::sync::Wait;
use std::thread::Threads;
use wb_base::{Keeper, StdSink, StdSource, Text};
use wb_cli::Status;
use wb_front::Station;
use wb_server::{Served, serve};
use wb_system::{RealTicker, TcpLinks};

// A station over links of TCP, the system's clock and its random bytes.
type RealStation<'a> = Station<TcpLinks<'a, HostRuntime>, RealTicker<'a, HostRuntime>>;

// As many stations as there are workers. They share the one socket.
fn stations_at<'a>(
    rt: &'a HostRuntime,
    alloc: Global,
    listener: Option<&'a TcpListener>,
    workers: u32,
) -> Result<Vec<RealStation<'a>>, AllocError>
    ensures count { IfOk result (λ stations. vec_len stations ≡ workers) }
    ensures bound { IfOk result (λ stations. All (λ s. s.listener ≡ record { is_bound = is_some listener.entry; faults = 0 }) stations.items) }
{
    let mut stations = Vec::new(alloc);
    for _ in 0..workers {
        stations.push(Station {
            listener: TcpLinks::new(rt, listener),
            ticker: RealTicker::new(rt),
        })?;
    }
    Ok(stations)
}

/// Serves the host that the words ask for at an address, which is bound once, over a keeper, until its listeners fail. Gives the number
/// that the program ends with.
pub fn listen<
    R: Threads + Wait + Net<Listener = TcpListener, Stream = TcpStream> + Sync,
    K: Keeper + Send,
>(
    handle: &R,
    rt: &HostRuntime,
    words: &[Text],
    setup: &str,
    address: &str,
    workers: u32,
    keeper: K,
) -> u8
    requires asked { (text at : List ℕ) (count : ℕ) (lock : LockOf) (store : _) → Asks words.now (Serve text at count lock store) → (text ≡ setup.now) × (at ≡ address.now) × (count ≡ workers) }
    requires held { (K.end keeper).honest → (rows : List KeptRow) × (K.end keeper).holds rows }
{
    let mut errors = StdSink::new(rt.stderr());
    let listener = TcpListener::bind(handle, address).ok();
    let Ok(stations) = stations_at(rt, rt.alloc(), listener.as_ref(), workers) else {
        return end(&Status::NoMemory, &mut errors);
    };
    let mut stations = stations;
    let mut source = StdSource::new(SetupFile::open(rt, setup));
    let Served { status, keeper: _ } = serve(
        handle,
        rt.alloc(),
        words,
        &mut source,
        &mut stations,
        keeper,
    );
    end(&status, &mut errors)
}

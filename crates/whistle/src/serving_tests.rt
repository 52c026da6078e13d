use crate::run_words;
use crate::sample_setup::HARBOUR;
use std::alloc::Global;
use std::fs;
use std::net::{Net, TcpListener, TcpStream};
use std::sync::Wait;
use std::test::Fail;
use std::thread::Threads;
use wb_base::{Keeper, Text};
use wb_sqlite::PathKeeper;

// The number that the program ends with, where it is to serve a setup in a file at an address over what another file keeps.
fn end_of<R: Threads + Wait + Net<Listener = TcpListener, Stream = TcpStream> + Sync>(
    handle: &R,
    rt: &HostRuntime,
    setup: &str,
    address: &str,
    store: &str,
) -> Result<u8, Fail> {
    let alloc = rt.alloc();
    let mut words = Vec::new(alloc);
    for word in [
        "serve",
        "--setup",
        setup,
        "--listen",
        address,
        "--workers",
        "2",
        "--store",
        store,
    ] {
        words.push(Text::from_str(alloc, word)?)?;
    }
    Ok(run_words(handle, rt, &words))
}

// How many rows a file keeps.
fn kept(rt: &HostRuntime, store: &str) -> Result<usize, Fail> {
    let mut keeper = PathKeeper::new(rt, Text::from_str(rt.alloc(), store)?);
    Ok(keeper.load()?.len())
}

#[test]
fn a_host_at_an_address_that_is_taken_leaves_what_it_opened(rt: HostRuntime) -> Result<(), Fail> {
    let alloc = rt.alloc();
    let taken = TcpListener::bind(&rt, "127.0.0.1:0")?;
    let address = format!(in alloc; "127.0.0.1:{}", taken.local_addr()?.port())?;
    fs::write(&rt, "served.toml", HARBOUR)?;
    fs::write(&rt, "bad.toml", "=")?;
    let served = end_of(&rt, &rt, "served.toml", address.as_str(), "served.db")?;
    assert!(rt; served == 11 && kept(&rt, "served.db")? == 10);
    let unread = end_of(&rt, &rt, "no.toml", address.as_str(), "unread.db")?;
    assert!(rt; unread == 3 && kept(&rt, "unread.db")? == 0);
    let refused = end_of(&rt, &rt, "bad.toml", address.as_str(), "refused.db")?;
    assert!(rt; refused == 7 && kept(&rt, "refused.db")? == 0);
    Ok(())
}

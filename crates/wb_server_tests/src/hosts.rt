//! A host over a setup, the time that passes on it, and the links that come to it.
ghost use Rattle.std.specs.Prelude.{◌≡◌, ◌<◌, All, IfOk};
ghost use Rattle.wb_model.specs.Rows.{rows_of};
ghost use Rattle.wb_tables.specs.Standing.{hosts_of};

use crate::setup_text::sample_setup;
use std::alloc::Global;
use std::test::Fail;
use wb_base::{MemKeeper, Moment, Words};
use wb_desk::Desk;
use wb_front::Station;
use wb_setup::Setup;
use wb_transport::{MemLink, MemListener, MemTicker};

/// 2025-01-01 00:00 in UTC.
const NEW_YEAR: u64 = 1_735_689_600;

/// How many bytes a link takes, where it is not said.
pub const ROOM: usize = 1_000_000;

/// The question for the host's health.
pub const HEALTH: &str = "GET /health HTTP/1.1\r\nHost: h\r\n\r\n";

/// The question for what the public sees of a tenant.
pub const PUBLIC: &str = "GET /t/1 HTTP/1.1\r\nHost: h\r\n\r\n";

/// A keeper that holds nothing and fails at these calls.
pub fn keeper(alloc: Global, fail: &[u64]) -> Result<MemKeeper, Fail> {
    Ok(MemKeeper::new(Vec::new(alloc), fail.to_vec(alloc)?))
}

/// A host over the setup, with the keeper of its rows.
pub fn opened(alloc: Global) -> Result<(Desk, MemKeeper), Fail>
    ensures { IfOk result (λ host. host.1.rows ≡ rows_of (hosts_of host.0).list) }
{
    let mut keeper = keeper(alloc, &[])?;
    let text = sample_setup(alloc)?;
    let Ok(setup) = Setup::read(alloc, text.as_bytes()) else {
        return Err("a setup".into());
    };
    match Desk::open(alloc, &mut keeper, &setup) {
        Ok(desk) => Ok((desk, keeper)),
        Err(_) => Err("a host".into()),
    }
}

/// The moment so many seconds after the start of 2025 in UTC.
pub fn moment(seconds: u32) -> Result<Moment, Fail> {
    match Moment::try_new(NEW_YEAR + u64::from(seconds)) {
        Some(moment) => Ok(moment),
        None => Err("a moment".into()),
    }
}

/// A ticker of the ticks from a first to a last, which fails at these calls. Tick k is k seconds after the start of 2025 in UTC and has the
/// words 0, k, 0, k.
pub fn ticker(alloc: Global, first: u32, last: u32, fail: &[u64]) -> Result<MemTicker, Fail> {
    let mut ticks = Vec::new(alloc);
    for k in first..=last {
        let number = u64::from(k);
        ticks.push((moment(k)?, Words([0, number, 0, number])))?;
    }
    Ok(MemTicker::new(ticks, fail.to_vec(alloc)?))
}

// So many pieces of a size.
fn pieces(alloc: Global, size: usize, count: usize) -> Result<Vec<usize>, Fail>
    ensures { IfOk result (λ pieces. All (λ size. 0 < size) pieces.items) }
{
    let mut pieces = Vec::new(alloc);
    if size > 0 {
        pieces.resize(count, size)?;
    }
    Ok(pieces)
}

/// A link of these bytes, in pieces of a size or, where it is 0, whole, which takes so many bytes and fails at these calls.
pub fn link(
    alloc: Global,
    bytes: &[u8],
    piece: usize,
    room: usize,
    fail: &[u64],
) -> Result<MemLink, Fail> {
    let content = bytes.to_vec(alloc)?;
    let pieces = pieces(alloc, piece, content.len())?;
    Ok(MemLink::new(content, pieces, room, fail.to_vec(alloc)?)?)
}

/// A station to which so many links come, each with one request, and whose listener fails at its first so many calls.
pub fn station(
    alloc: Global,
    links: u32,
    fails: u64,
) -> Result<Station<MemListener, MemTicker>, Fail> {
    let mut content = Vec::new(alloc);
    for _ in 0..links {
        content.push(link(alloc, PUBLIC.as_bytes(), 0, ROOM, &[])?)?;
    }
    let mut fail = Vec::new(alloc);
    for before in 0..fails {
        fail.push(before + 1)?;
    }
    Ok(Station {
        listener: MemListener::new(content, fail)?,
        ticker: ticker(alloc, 1, 10, &[])?,
    })
}

/// How many replies were begun in what a link got.
pub fn replies(got: &[u8]) -> usize {
    often(got, b"HTTP/1.1 ")
}

/// How often a text stands in what a link got.
pub fn often(got: &[u8], text: &[u8]) -> usize {
    let mut count = 0;
    for at in 0..got.len() {
        if got[at..].starts_with(text) {
            count = usize::saturating_add(count, 1);
        }
    }
    count
}

//! Two workers run beside each other over one host: two links, each of which holds its second request back until the other has a reply.
ghost use Rattle.std.specs.Prelude.{◌≡◌, ◌<◌, ◌≤◌, length, None, OnOk, vec_len};

use crate::gates::SUBMISSION;
use crate::hosts::{opened, ticker};
use std::alloc::{AllocError, Global};
use std::sync::atomic::{AtomicU64, Ordering};
use std::sync::{Arc, Wait};
use std::test::Fail;
use std::thread;
use std::thread::Threads;
use wb_base::{Failed, MemKeeper};
use wb_cli::Lock;
use wb_front::Station;
use wb_server::{ServeEnd, serve_by};
use wb_transport::{Link, Listener, MemTicker};
use wb_wire::Routes;

/// A link with two submissions. It holds its second back until the other link has a reply, for a million looks.
#[derive(Drop)]
struct HeldLink {
    given: u64,
    replies: u64,
    gave_up: bool,
    mine: Arc<AtomicU64, Global>,
    other: Arc<AtomicU64, Global>,
}

impl HeldLink {
    fn new(mine: Arc<AtomicU64, Global>, other: Arc<AtomicU64, Global>) -> HeldLink {
        HeldLink {
            given: 0,
            replies: 0,
            gave_up: false,
            mine,
            other,
        }
    }

    fn is_other_served(&self) -> bool {
        for _ in 0..1_000_000u32 {
            if self.other.load(Ordering::SeqCst) > 0 {
                return true;
            }
            thread::yield_now();
        }
        false
    }
}

// Puts a submission into the room, and says how many bytes it took.
fn give(into: &mut [u8]) -> usize
    ensures { result ≤ length into.new }
{
    let request = SUBMISSION.as_bytes();
    let size = into.len().min(request.len());
    into[..size].copy_from_slice(&request[..size]);
    size
}

impl Link for HeldLink {
    ghost end = { λ _. record { left = None; got = None; count = 0 } };

    fn faults(&self) -> u64 {
        0
    }

    fn read(&mut self, into: &mut [u8]) -> Result<usize, Failed> {
        if self.given == 0 {
            self.given = 1;
            return Ok(give(into));
        }
        if self.given == 1 {
            self.given = 2;
            if self.is_other_served() {
                return Ok(give(into));
            }
            self.gave_up = true;
        }
        Ok(0)
    }

    fn write_all(&mut self, bytes: &[u8]) -> Result<(), Failed> {
        if bytes.starts_with(b"HTTP/1.1 201 ") {
            self.replies = u64::saturating_add(self.replies, 1);
            self.mine.store(self.replies, Ordering::SeqCst);
        }
        Ok(())
    }
}

/// A listener with one link.
#[derive(Drop)]
struct OneLink {
    next: Option<HeldLink>,
    came: Vec<HeldLink>,
}

impl OneLink {
    fn new(alloc: Global, link: HeldLink) -> Result<OneLink, AllocError> {
        let mut came = Vec::new(alloc);
        came.reserve(1)?;
        Ok(OneLink {
            next: Some(link),
            came,
        })
    }
}

impl Listener for OneLink {
    type End = HeldLink;

    ghost end = { λ _. record { told = None; count = 0 } };

    fn faults(&self) -> u64 {
        0
    }

    fn next(&mut self) -> Result<Option<HeldLink>, Failed> {
        Ok(self.next.take())
    }

    fn back(&mut self, link: HeldLink) {
        if self.came.len() < self.came.capacity() {
            self.came.push_reserved(link);
        }
    }
}

// A station with one link and two ticks, the first of this number.
fn station(alloc: Global, link: HeldLink, first: u32) -> Result<Station<OneLink, MemTicker>, Fail> {
    Ok(Station {
        listener: OneLink::new(alloc, link)?,
        ticker: ticker(alloc, first, u32::saturating_add(first, 1), &[])?,
    })
}

// A link with its own count of replies and that of another.
fn held(
    mine: &Arc<AtomicU64, Global>,
    other: &Arc<AtomicU64, Global>,
) -> Result<HeldLink, AllocError> {
    let mine = Arc::try_clone(mine)?;
    let other = Arc::try_clone(other)?;
    Ok(HeldLink::new(mine, other))
}

// Two stations, to each of which one of two links comes that wait for each other.
fn two_stations(alloc: Global, stations: &mut Vec<Station<OneLink, MemTicker>>) -> Result<(), Fail>
    requires { vec_len stations.old ≡ 0 }
    ensures { OnOk result (vec_len stations.new ≡ 2) }
{
    let first = Arc::new(alloc, AtomicU64::new(0))?;
    let second = Arc::new(alloc, AtomicU64::new(0))?;
    stations.push(station(alloc, held(&first, &second)?, 1)?)?;
    stations.push(station(alloc, held(&second, &first)?, 3)?)?;
    Ok(())
}

// Serves a host at these stations by a lock.
fn serve_at<R: Threads + Wait + Sync>(
    rt: &R,
    alloc: Global,
    lock: Lock,
    stations: &mut Vec<Station<OneLink, MemTicker>>,
) -> Result<ServeEnd<MemKeeper>, Fail>
    requires { (0 < vec_len stations.old) × (vec_len stations.old ≤ 64) }
{
    let routes = Routes::new(alloc)?;
    let (desk, keeper) = opened(alloc)?;
    match serve_by(rt, alloc, lock, &routes, desk, keeper, stations) {
        Ok(ended) => Ok(ended),
        Err(_) => Err("no memory".into()),
    }
}

// Whether the links that came back have both replies, and none waited in vain.
fn are_served(came: &[HeldLink]) -> bool {
    for link in came {
        if link.gave_up || link.replies != 2 {
            return false;
        }
    }
    came.len() == 1
}

// Two links that wait for each other's reply are both served by a lock.
fn are_beside_each_other<R: Threads + Wait + Sync>(
    rt: &R,
    alloc: Global,
    lock: Lock,
) -> Result<bool, Fail> {
    let mut stations = Vec::new(alloc);
    two_stations(alloc, &mut stations)?;
    let ended = serve_at(rt, alloc, lock, &mut stations)?;
    let mut all = ended.all && ended.closed.turns == 4 && ended.closed.numbers == 4;
    for station in &stations {
        all = all && are_served(&station.listener.came);
    }
    Ok(all && stations.len() == 2)
}

#[test]
fn links_that_wait_for_each_others_reply_are_served_beside_each_other(
    rt: HostRuntime,
) -> Result<(), Fail> {
    assert!(rt;
        are_beside_each_other(&rt, rt.alloc(), Lock::Mutex)?,
        "a link waited in vain"
    );
    assert!(rt;
        are_beside_each_other(&rt, rt.alloc(), Lock::Ticket)?,
        "a link waited in vain"
    );
    Ok(())
}

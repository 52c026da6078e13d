//! A count behind a lock: two threads, each with a seat, and a lock that some seats cannot close.
ghost use Rattle.std.specs.Prelude.{◌≡◌, ◌<◌, All, length};

use std::alloc::Global;
use std::process::Abort;
use std::sync::Wait;
use std::test::*;
use std::thread;
use std::thread::Threads;
use wb_ticket_lock::{ByWork, Deed, LockSeat, SeatsOut, TicketLock, Work, close, enter, over};

// Adds to a count, and tells what it was.
struct Adding;

impl Work<u64, (), u32, u64> for Adding {
    ghost use Rattle.std.specs.Prelude.{◌≡◌};

    ghost does = { λ x own job told y own'. told ≡ x };

    fn run(value: &mut u64, _own: &mut (), job: u32) -> u64 {
        let told = *value;
        *value = told.wrapping_add(job as u64);
        told
    }
}

type Lock = TicketLock<u64, Deed<u32, u64>, ByWork<Adding, ()>>;

type Own = LockSeat<u64, Deed<u32, u64>>;

fn many<R: Wait>(rt: &R, lock: &Lock, seat: &mut Own)
    requires { seat.old.lock ≡ lock.now.id }
    ensures { seat.new.lock ≡ lock.now.id }
{
    for _ in 0..1000u32 {
        enter(rt, lock, seat, &mut (), 1);
    }
}

fn all<R: Threads + Wait + Sync>(rt: &R, lock: &Lock, seats: &mut [Own])
    requires some { 0 < length seats.old }
    requires here { All (λ s. s.lock ≡ lock.now.id) seats.old }
    ensures here { All (λ s. s.lock ≡ lock.now.id) seats.new }
    ensures len { length seats.new ≡ length seats.old }
{
    let threads = seats.len();
    thread::for_each_mut(rt, seats, threads, &|_, seat| many(rt, lock, seat));
}

fn two_thousand<R: Threads + Wait + Sync + Abort>(rt: &R, alloc: Global) -> Result<(), Fail> {
    let Ok((lock, mut seats)) = over::<u64, Deed<u32, u64>, ByWork<Adding, ()>>(alloc, 0, 2) else {
        return Err(Fail::from("no memory"));
    };
    all(rt, &lock, seats.as_mut_slice());
    let Ok(count) = close(lock, seats) else {
        return Err(Fail::from("seats out"));
    };
    assert_eq!(rt; count, 2000);
    Ok(())
}

#[test]
fn two_threads_enter_a_thousand_times_each(rt: HostRuntime) -> Result<(), Fail> {
    two_thousand::<HostRuntime>(&rt, rt.alloc())
}

fn one_is_missing<R: Wait + Abort>(rt: &R, alloc: Global) -> Result<(), Fail> {
    let Ok((lock, mut seats)) = over::<u64, Deed<u32, u64>, ByWork<Adding, ()>>(alloc, 0, 2) else {
        return Err(Fail::from("no memory"));
    };
    assert_eq!(rt; lock.seats(), 2);
    let Some(mut second) = seats.pop() else {
        return Err(Fail::from("no seat"));
    };
    assert_eq!(rt; enter(rt, &lock, &mut second, &mut (), 5), 0);
    assert_eq!(rt; enter(rt, &lock, &mut second, &mut (), 2), 5);
    let Err(out) = close(lock, seats) else {
        return Err(Fail::from("closed"));
    };
    let SeatsOut { lock, seats } = out;
    assert_eq!(rt; seats.len(), 1);
    assert_eq!(rt; enter(rt, &lock, &mut second, &mut (), 1), 7);
    Ok(())
}

#[test]
fn a_lock_that_lacks_a_seat_is_not_closed(rt: HostRuntime) -> Result<(), Fail> {
    one_is_missing::<HostRuntime>(&rt, rt.alloc())
}

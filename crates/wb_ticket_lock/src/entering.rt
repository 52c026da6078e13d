//! One job on the value behind a lock.
ghost use Rattle.std.specs.Prelude.{◌≡◌, ◌++◌, [], ◌∷◌, true};
ghost use Rattle.wb_ticket_lock.specs.declared.entry.Entry.{Entry};
ghost use Rattle.wb_ticket_lock.specs.Histories.{is_rising, places};

use crate::deed::{ByWork, Deed, Work};
use crate::lock::TicketLock;
use crate::seat::LockSeat;
use crate::steps::{acquire, release};
use std::snapshot::Snapshot;
use std::sync::Wait;

/// Runs a job on the value behind the lock, at its turn. The seat has one entry more: the job with its answer, and the value before and
/// after it. It waits for the entries whose tickets were drawn before.
pub fn enter<R: Wait, T: Drop, C, J, A, W: Work<T, C, J, A>>(
    rt: &R,
    lock: &TicketLock<T, Deed<J, A>, ByWork<W, C>>,
    seat: &mut LockSeat<T, Deed<J, A>>,
    own: &mut C,
    job: J,
) -> A
    requires here { seat.old.lock ≡ lock.now.id }
    ensures here { seat.new.lock ≡ seat.old.lock }
    ensures entry { (e : Entry T (J × A)) × (seat.new.mine ≡ seat.old.mine ++ e ∷ []) × (e.deed ≡ (job, result)) × W.does e.before own.old job result e.after own.new }
    ensures rising { is_rising (places seat.new.mine) ≡ true }
{
    let raw = &mut seat.seat;
    let (ticket, mut value) = acquire(rt, &lock.table.shared, raw);
    let asked = Snapshot::of(&job);
    let told = W::run(&mut value, own, job);
    let deed = Deed::of(asked, &told);
    release(&lock.table.shared, raw, ticket, deed, value);
    told
}

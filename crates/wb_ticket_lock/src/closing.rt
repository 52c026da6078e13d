//! How a value is taken out of its lock.
ghost use Rattle.std.specs.Prelude.{◌≡◌, List, All, map, vec_len, IfOk, IfErr, IsOk, ◌↔◌};
ghost use Rattle.wb_ticket_lock.specs.declared.entry.Entry.{Entry};
ghost use Rattle.wb_ticket_lock.specs.Histories.{IsSplitInto, Leads};

use crate::entry::Guarded;
use crate::lock::TicketLock;
use crate::plays::{Both, Transition};
use crate::seat::LockSeat;

/// A lock and seats at it, which are not all of them.
#[derive(Drop)]
pub struct SeatsOut<T: Drop, D: Drop, P: Transition<T, D>> {
    pub lock: TicketLock<T, D, P>,
    pub seats: Vec<LockSeat<T, D>>,
}

/// Takes the value out of its lock with all its seats. It went from what it was at the start through one history, which is split into the
/// lists of the seats.
pub fn close<T: Drop, D: Drop, P: Transition<T, D>>(
    lock: TicketLock<T, D, P>,
    seats: Vec<LockSeat<T, D>>,
) -> Result<T, SeatsOut<T, D, P>>
    requires { All (λ s. s.lock ≡ lock.id) seats.items }
    ensures history { IfOk result (λ value. (es : List (Entry T D)) × Leads P.does 0 lock.first es value × IsSplitInto es (map (λ s. s.mine) seats.items)) }
    ensures exact { IsOk result ↔ (vec_len seats ≡ lock.seats) }
    ensures back { IfErr result (λ out. (out.lock ≡ lock) × (out.seats.items ≡ seats.items)) }
{
    if seats.len() as u64 != lock.seats {
        return Err(SeatsOut { lock, seats });
    }
    let mut seats = seats;
    let Some(last) = seats.pop() else {
        unreachable!()
    };
    let LockSeat { seat: mut all } = last;
    while let Some(next) = seats.pop() {
        let LockSeat { seat } = next;
        lock.table.shared.join_seat::<Both>(&mut all, seat);
    }
    let TicketLock { table, seats: _ } = lock;
    let mut closed = table.close_with(all);
    let found = closed.take(0);
    closed.free();
    let Some(guarded) = found else { unreachable!() };
    let Guarded {
        value,
        entries: _,
        last: _,
    } = guarded;
    Ok(value)
}

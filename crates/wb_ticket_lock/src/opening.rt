//! How a lock is made.
ghost use Rattle.std.specs.Prelude.{◌≡◌, ◌≤◌, [], All, IfOk, IfErr, vec_len};

use crate::entry::{Guarded, View};
use crate::lock::TicketLock;
use crate::plays::{Cut, TicketRule, Transition};
use crate::seat::LockSeat;
use atomic_table::{Refused, Table};
use std::alloc::Global;
use std::snapshot::Snapshot;

/// A lock over a value with this many seats, or the value where memory is wanted.
pub fn over<T: Drop, D: Drop, P: Transition<T, D>>(
    alloc: Global,
    value: T,
    seats: u32,
) -> Result<(TicketLock<T, D, P>, Vec<LockSeat<T, D>>), T>
    requires { (1 ≤ seats) × (seats ≤ 64) }
    ensures ok { IfOk result (λ made. (made.0.seats ≡ seats) × (made.0.first ≡ value) × (vec_len made.1 ≡ seats) × All (λ s. (s.lock ≡ made.0.id) × (s.mine ≡ [])) made.1.items) }
    ensures err { IfErr result (λ h. h ≡ value) }
{
    let Ok(mut taken) = Vec::with_capacity(alloc, seats as usize) else {
        return Err(value);
    };
    let Ok(mut slots) = Vec::with_capacity(alloc, 1) else {
        return Err(value);
    };
    let key = (seats as u64, Snapshot::of(&value));
    slots.push_reserved(Some(Guarded {
        value,
        entries: 0,
        last: None,
    }));
    let (table, mut first) = match Table::<
        Option<Guarded<T, D>>,
        View<T, D>,
        (u64, Snapshot<T>),
        TicketRule<P>,
        Global,
    >::new(alloc, &[0; 66], slots, &key)
    {
        Ok(made) => made,
        Err(refused) => {
            let Refused { mut slots } = refused;
            let Some(Some(guarded)) = slots.pop() else {
                unreachable!()
            };
            let Guarded {
                value,
                entries: _,
                last: _,
            } = guarded;
            return Err(value);
        }
    };
    for _ in 1..seats {
        let seat = table.shared.split_seat::<Cut>(&mut first);
        taken.push_reserved(LockSeat { seat });
    }
    taken.push_reserved(LockSeat { seat: first });
    Ok((
        TicketLock {
            table,
            seats: seats as u64,
        },
        taken,
    ))
}

//! How a gate is made.
ghost use Rattle.std.specs.Prelude.{◌≡◌, ◌<◌, ◌≤◌, [], All, IfOk, IfErr, vec_len, vec_capacity};
ghost use Rattle.wb_desk.specs.Hosted.{fresh};

use crate::closing::ClosingRoom;
use crate::gate::TicketGate;
use crate::seat::TicketSeat;
use crate::turns::{HostLock, HostSeat};
use std::alloc::Global;
use std::sync::ledger::Ledger;
use wb_base::Keeper;
use wb_desk::{Kept, Origin, Pass};
use wb_ticket_lock::over;

/// A gate with all its seats, and the room that is wanted to close it.
#[derive(Drop)]
pub struct Tickets<K: Keeper, A: Origin, B: Ledger> {
    pub gate: TicketGate<K, A, B>,
    pub seats: Vec<TicketSeat<K, A, B>>,
    pub room: ClosingRoom<K, A, B>,
}

/// Memory was wanted. The host and the pass come back as they were.
#[derive(Drop)]
pub struct TicketMemory<K: Keeper, A: Origin, B: Ledger> {
    pub kept: Kept<K, A, B>,
    pub pass: Pass<A, B>,
}

// Gives each seat a part of the pass.
fn seat_all<K: Keeper, A: Origin, B: Ledger>(
    lock: &HostLock<K, A, B>,
    mut raw: Vec<HostSeat<K, A, B>>,
    pass: Pass<A, B>,
    seats: &mut Vec<TicketSeat<K, A, B>>,
)
    requires pass { (0 < vec_len raw) × (pass ≡ record { parts = vec_len raw; turns = 0; numbers = 0 }) }
    requires room { (vec_len seats.old ≡ 0) × (vec_len raw ≤ vec_capacity seats.old) }
    requires here { All (λ s. (s.lock ≡ lock.now.id) × (s.mine ≡ [])) raw.items }
    ensures many { vec_len seats.new ≡ vec_len raw }
    ensures here { All (λ s. s ≡ record { gate = lock.now.id; hand = fresh; mine = [] }) seats.new.items }
{
    let mut pass = pass;
    while raw.len() > 1 {
        let Some(seat) = raw.pop() else {
            unreachable!()
        };
        seats.push_reserved(TicketSeat {
            seat,
            pass: pass.split(),
        });
    }
    let Some(seat) = raw.pop() else {
        unreachable!()
    };
    seats.push_reserved(TicketSeat { seat, pass });
}

impl<K: Keeper, A: Origin, B: Ledger> TicketGate<K, A, B> {
    /// A gate to a host, with a seat for each part of its books, and the room to close it. The pass is the one that the host was made with.
    pub fn over(
        alloc: Global,
        kept: Kept<K, A, B>,
        pass: Pass<A, B>,
        seats: u32,
    ) -> Result<Tickets<K, A, B>, TicketMemory<K, A, B>>
        requires seats { (1 ≤ seats) × (seats ≤ 64) }
        requires parts { (A.parts ≡ seats) × (B.parts ≡ seats) }
        requires pass { pass ≡ record { parts = seats; turns = 0; numbers = 0 } }
        ensures gate { IfOk result (λ t. (t.gate.seats ≡ seats) × (t.gate.first ≡ kept) × (t.room ≡ seats)) }
        ensures seats { IfOk result (λ t. (vec_len t.seats ≡ seats) × All (λ s. s ≡ record { gate = t.gate.id; hand = fresh; mine = [] }) t.seats.items) }
        ensures back { IfErr result (λ m. (m.kept ≡ kept) × (m.pass ≡ pass)) }
    {
        let Ok(room) = ClosingRoom::new(alloc, seats) else {
            return Err(TicketMemory { kept, pass });
        };
        let Ok(mut all) = Vec::with_capacity(alloc, seats as usize) else {
            return Err(TicketMemory { kept, pass });
        };
        match over(alloc, kept, seats) {
            Err(kept) => Err(TicketMemory { kept, pass }),
            Ok((lock, raw)) => {
                seat_all(&lock, raw, pass, &mut all);
                Ok(Tickets {
                    gate: TicketGate { lock },
                    seats: all,
                    room,
                })
            }
        }
    }
}

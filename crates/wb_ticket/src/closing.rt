//! How a host is taken out of its gate, and apart.
ghost use Rattle.std.specs.Prelude.{◌≡◌, ◌≤◌, ◌+◌, [], All, map, vec_len, vec_capacity, IfOk, IfErr, IsOk, ◌↔◌};
ghost use Rattle.wb_model.specs.Drawn.{numbers_of};
ghost use Rattle.wb_model.specs.Rows.{rows_of};
ghost use Rattle.wb_tables.specs.Standing.{hosts_of};
ghost use Rattle.wb_desk.specs.GoneOn.{IsLater};
ghost use Rattle.wb_desk.specs.Hosted.{turns_of, numbers_drawn, parts_of};
ghost use Rattle.wb_ticket.specs.OneHistory.{IsLastOf};

use crate::gate::TicketGate;
use crate::laws::a_history_is_a_script;
use crate::seat::TicketSeat;
use crate::turns::HostSeat;
use std::alloc::Global;
use std::marker::Model;
use std::sync::ledger::Ledger;
use wb_base::{Keeper, Memory};
use wb_desk::{Closed, Origin, Pass};
use wb_ticket_lock::close;

/// Room for the seats of a gate that is closed, so that closing wants no memory. It is seen as the number of seats for which there is room.
#[derive(Drop)]
pub struct ClosingRoom<K: Keeper, A: Origin, B: Ledger> {
    seats: u32,
    raw: Vec<HostSeat<K, A, B>>,
    passes: Vec<Pass<A, B>>,
}

impl<K: Keeper, A: Origin, B: Ledger> Model for ClosingRoom<K, A, B> {
    ghost use Rattle.std.specs.Prelude.{◌≡◌, ◌≤◌, ℕ, [], vec_capacity};

    ghost Value = { ℕ };

    ghost view = { λ r. r.seats };

    ghost invariant = { λ r. (r.raw.items ≡ []) × (r.passes.items ≡ []) × (r.seats ≤ vec_capacity r.raw) × (r.seats ≤ vec_capacity r.passes) };
}

impl<K: Keeper, A: Origin, B: Ledger> ClosingRoom<K, A, B> {
    /// Room for so many seats.
    pub(crate) fn new(alloc: Global, seats: u32) -> Result<ClosingRoom<K, A, B>, Memory>
        ensures { IfOk result (λ room. room ≡ seats) }
    {
        Ok(ClosingRoom {
            seats,
            raw: Vec::with_capacity(alloc, seats as usize)?,
            passes: Vec::with_capacity(alloc, seats as usize)?,
        })
    }
}

/// A gate and seats of it, which are not all of them.
#[derive(Drop)]
pub struct SeatsOut<K: Keeper, A: Origin, B: Ledger> {
    pub gate: TicketGate<K, A, B>,
    pub seats: Vec<TicketSeat<K, A, B>>,
    pub room: ClosingRoom<K, A, B>,
}

// Takes seats apart, in their order.
fn take_apart<K: Keeper, A: Origin, B: Ledger>(
    seats: Vec<TicketSeat<K, A, B>>,
    raw: &mut Vec<HostSeat<K, A, B>>,
    passes: &mut Vec<Pass<A, B>>,
)
    requires empty { (raw.old.items ≡ []) × (passes.old.items ≡ []) }
    requires room { (vec_len seats ≤ vec_capacity raw.old) × (vec_len seats ≤ vec_capacity passes.old) }
    ensures raw { (vec_len raw.new ≡ vec_len seats) × (map (λ s. s.lock) raw.new.items ≡ map (λ s. s.gate) seats.items) × (map (λ s. s.mine) raw.new.items ≡ map (λ s. s.mine) seats.items) }
    ensures passes { (passes.new.items ≡ map (λ s. s.hand) seats.items) × (parts_of passes.new.items ≡ vec_len seats) }
{
    for own in seats {
        let TicketSeat { seat, pass } = own;
        raw.push_reserved(seat);
        passes.push_reserved(pass);
    }
}

/// Takes the host out of its gate with all its seats, and apart. It went through one history, which is split into the lists of the seats.
/// It takes no memory.
pub fn close_tickets<K: Keeper, A: Origin, B: Ledger>(
    gate: TicketGate<K, A, B>,
    seats: Vec<TicketSeat<K, A, B>>,
    room: ClosingRoom<K, A, B>,
) -> Result<Closed<K>, SeatsOut<K, A, B>>
    requires here { All (λ s. s.gate ≡ gate.id) seats.items }
    requires room { vec_len seats ≤ room }
    ensures exact { IsOk result ↔ (vec_len seats ≡ gate.seats) }
    ensures back { IfErr result (λ out. (out.gate ≡ gate) × (out.seats.items ≡ seats.items) × (out.room ≡ room)) }
    ensures history { IfOk result (λ c. IsLastOf gate.first (map (λ s. s.mine) seats.items) c.desk c.turns c.numbers (K.end c.keeper).count) }
    ensures books { IfOk result (λ c. (c.turns ≡ turns_of (map (λ s. s.hand) seats.items)) × (c.numbers ≡ numbers_drawn (map (λ s. s.hand) seats.items))) }
    // An honest keeper holds the rows of the desk, which is the one that was opened, gone on by the turns of its book.
    ensures kept { IfOk result (λ c. (K.end c.keeper).honest → (K.end c.keeper).holds (rows_of (hosts_of c.desk).list)) }
    ensures opened { IfOk result (λ c. (c.desk.turns ≡ A.desk.turns + c.turns) × (numbers_of (hosts_of c.desk) ≡ numbers_of (hosts_of A.desk) + c.numbers) × IsLater A.desk c.turns c.desk) }
    ensures honest { IfOk result (λ c. (K.end c.keeper).honest → A.honest) }
{
    if seats.len() as u64 != gate.lock.seats() {
        return Err(SeatsOut { gate, seats, room });
    }
    let ClosingRoom {
        seats: _,
        mut raw,
        mut passes,
    } = room;
    take_apart(seats, &mut raw, &mut passes);
    a_history_is_a_script();
    let TicketGate { lock } = gate;
    let Ok(kept) = close(lock, raw) else {
        unreachable!()
    };
    let Ok(closed) = kept.close(passes) else {
        unreachable!()
    };
    Ok(closed)
}

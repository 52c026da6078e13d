//! The gate.
ghost use Rattle.std.specs.Prelude.{◌≡◌, true};
ghost use Rattle.wb_ticket_lock.specs.Histories.{is_rising, places};
ghost use Rattle.wb_ticket.specs.Owned.{IsNextEntry};

use crate::seat::TicketSeat;
use crate::turns::HostLock;
use std::marker::Model;
use std::sync::Wait;
use std::sync::ledger::Ledger;
use wb_base::Keeper;
use wb_desk::{Gate, Origin, Turn};
use wb_model::Told;
use wb_ticket_lock::enter;

/// A host behind a lock with tickets.
#[derive(Drop)]
pub struct TicketGate<K: Keeper, A: Origin, B: Ledger> {
    pub(crate) lock: HostLock<K, A, B>,
}

impl<K: Keeper, A: Origin, B: Ledger> Model for TicketGate<K, A, B> {
    ghost use Rattle.std.specs.Prelude.{◌≡◌};
    ghost use Rattle.wb_desk.specs.Hosted.{Hosted};
    ghost use Rattle.wb_ticket_lock.specs.Seats.{Locked};

    ghost Value = { Locked Hosted };

    ghost view = { λ g. g.lock };

    ghost invariant = { λ g. (g.lock.seats ≡ A.parts) × (g.lock.seats ≡ B.parts) };
}

impl<K: Keeper, A: Origin, B: Ledger> Gate<K, A, B, Turn> for TicketGate<K, A, B> {
    type Own = TicketSeat<K, A, B>;

    ghost of = { λ gate seat. seat.gate ≡ gate.id };

    ghost parts = { λ seat. seat.hand.parts };

    ghost ran = { λ seat turn told seat'. IsNextEntry seat turn told seat' };

    /// Makes one turn of the host, at the seat's turn. It waits for the turns whose tickets were drawn before.
    fn enter<R: Wait>(&self, rt: &R, own: &mut TicketSeat<K, A, B>, job: Turn) -> Told
        requires of { own.old.gate ≡ self.now.id }
        ensures of { own.new.gate ≡ self.now.id }
        ensures ran { IsNextEntry own.old job result own.new }
        ensures parts { own.new.hand.parts ≡ own.old.hand.parts }
        ensures rising { is_rising (places own.new.mine) ≡ true }
    {
        let TicketSeat { seat, pass } = own;
        enter(rt, &self.lock, seat, pass, job)
    }
}

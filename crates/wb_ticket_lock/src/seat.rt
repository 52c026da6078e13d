//! Seats at a lock.
use crate::entry::{Guarded, View};
use atomic_table::Seat;
use std::marker::Model;

/// A seat at a lock, which rests between the calls that enter.
#[derive(Drop)]
pub struct LockSeat<T: Drop, D: Drop> {
    pub(crate) seat: Seat<Option<Guarded<T, D>>, View<T, D>>,
}

impl<T: Drop, D: Drop> Model for LockSeat<T, D> {
    ghost use Rattle.std.specs.Prelude.{◌≡◌, [], true, false};
    ghost use Rattle.wb_ticket_lock.specs.Histories.{is_rising, places};
    ghost use Rattle.wb_ticket_lock.specs.Seats.{Seated};

    ghost Value = { Seated T D };

    ghost view = { λ s. record { lock = s.seat.table_id; mine = s.seat.me.0.mine } };

    ghost invariant = { λ s. (s.seat.me.0.parts ≡ 1) × (s.seat.me.0.tickets ≡ []) × (s.seat.me.0.turn ≡ false) × (s.seat.me.1 ≡ []) × (is_rising (places s.seat.me.0.mine) ≡ true) };
}

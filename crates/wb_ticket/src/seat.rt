//! Seats of a gate.
use crate::turns::HostSeat;
use std::marker::Model;
use std::sync::ledger::Ledger;
use wb_base::Keeper;
use wb_desk::{Origin, Pass};

/// A seat of a gate, with a pass of one part to its host.
#[derive(Drop)]
pub struct TicketSeat<K: Keeper, A: Origin, B: Ledger> {
    pub(crate) seat: HostSeat<K, A, B>,
    pub(crate) pass: Pass<A, B>,
}

impl<K: Keeper, A: Origin, B: Ledger> Model for TicketSeat<K, A, B> {
    ghost use Rattle.std.specs.Prelude.{◌≡◌};
    ghost use Rattle.wb_ticket.specs.Owned.{Owned};

    ghost Value = { Owned };

    ghost view = { λ s. record { gate = s.seat.lock; hand = s.pass; mine = s.seat.mine } };

    ghost invariant = { λ s. s.pass.parts ≡ 1 };
}

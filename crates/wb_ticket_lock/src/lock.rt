//! The lock.
ghost use Rattle.std.specs.Prelude.{◌≡◌};

use crate::entry::{Guarded, View};
use crate::plays::{TicketRule, Transition};
use atomic_table::Table;
use std::alloc::Global;
use std::marker::Model;
use std::snapshot::Snapshot;

/// A lock with tickets.
#[derive(Drop)]
pub struct TicketLock<T: Drop, D: Drop, P: Transition<T, D>> {
    pub(crate) table: Table<
        Option<Guarded<T, D>>,
        View<T, D>,
        (u64, Snapshot<T>),
        TicketRule<P>,
        Global,
    >,
    pub(crate) seats: u64,
}

impl<T: Drop, D: Drop, P: Transition<T, D>> Model for TicketLock<T, D, P> {
    ghost use Rattle.std.specs.Prelude.{◌≡◌, ◌<◌};
    ghost use Rattle.wb_ticket_lock.specs.Seats.{Locked};

    ghost Value = { Locked T };

    ghost view = { λ l. record { id = l.table.shared.table_id; seats = l.seats; first = l.table.shared.key.1.value } };

    ghost invariant = { λ l. (l.table.shared.key.0 ≡ l.seats) × (0 < l.seats) × (l.table.shared.table_id.words ≡ 66) × (l.table.shared.table_id.slots ≡ 1) };
}

impl<T: Drop, D: Drop, P: Transition<T, D>> TicketLock<T, D, P> {
    /// How many seats it has.
    pub fn seats(&self) -> u64
        ensures { result ≡ self.now.seats }
    {
        self.seats
    }
}

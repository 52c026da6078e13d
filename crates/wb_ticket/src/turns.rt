//! Turns of a host, as what is done in the entries of its lock.
use std::sync::ledger::Ledger;
use wb_base::Keeper;
use wb_desk::{Job, Kept, Origin, Pass, Turn};
use wb_model::Told;
use wb_ticket_lock::{ByWork, Deed, LockSeat, TicketLock, Work};

/// The turns of a host.
pub(crate) struct Turns;

impl<K: Keeper, A: Origin, B: Ledger> Work<Kept<K, A, B>, Pass<A, B>, Turn, Told> for Turns {
    ghost use Rattle.wb_ticket.specs.Owned.{IsAskedTurn};

    ghost does = { λ host pass turn told host' pass'. IsAskedTurn turn host pass host' pass' told };

    fn run(value: &mut Kept<K, A, B>, own: &mut Pass<A, B>, job: Turn) -> Told {
        job.is_asked();
        <Turn as Job<K, A, B>>::run(job, value, own)
    }
}

/// The lock behind which a host stands.
pub(crate) type HostLock<K, A, B> = TicketLock<
    Kept<K, A, B>,
    Deed<Turn, Told>,
    ByWork<Turns, Pass<A, B>>,
>;

/// A seat at it.
pub(crate) type HostSeat<K, A, B> = LockSeat<Kept<K, A, B>, Deed<Turn, Told>>;

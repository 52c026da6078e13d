//! What can be asked of the program.
ghost use Rattle.std.specs.Prelude.{◌≡◌};
ghost use Rattle.wb_cli.specs.declared.plans.PlanFault.TheVariants.{Memory as NoMemory};

use crate::store_word::StoreWord;
use std::alloc::AllocError;
use wb_base::{Day, Memory, Moment, Tenant, Text, UserId};

/// What the workers of a host take their turns by.
#[derive(Clone, Copy, Debug, PartialEq, Eq)]
pub enum Lock {
    /// A mutex of the standard library.
    Mutex,
    /// A lock with tickets: first come, first served, with one history of all turns.
    Ticket,
}

/// What the words ask.
#[derive(Drop)]
pub enum Plan {
    /// Plays the script of the input, over rows in memory, or where this word says.
    Play {
        store: Option<StoreWord>,
    },
    /// Writes a script of so many turns.
    Make(u32),
    /// Plays that script, and writes what its replies and its host at the end come to.
    Tally(u32),
    /// Serves a host at an address by so many workers, which take turns by a lock: its setup is in the file of a path, and its rows are in
    /// memory, or where this word says.
    Serve {
        setup: Text,
        listen: Text,
        workers: u32,
        lock: Lock,
        store: Option<StoreWord>,
    },
    /// Writes the notices that are owed at a moment over the rows in the file of a path, and puts them into the outbox in another file.
    Notices {
        moment: Moment,
        store: Text,
        outbox: Text,
    },
    /// Writes the register of a tenant's user at a moment, over rows in memory, or in the file of this path.
    Register {
        tenant: Tenant,
        user: UserId,
        moment: Moment,
        store: Option<Text>,
    },
    /// Writes what expires of a tenant by a day, over rows in memory, or in the file of this path.
    Forecast {
        tenant: Tenant,
        day: Day,
        store: Option<Text>,
    },
}

/// Why nothing is asked.
#[derive(Clone, Copy, Debug, PartialEq, Eq)]
pub enum PlanFault {
    /// The words are no form of any call.
    Usage,
    /// There was no memory.
    Memory,
}

impl From<Memory> for PlanFault {
    ghost from_gives = { λ _ fault. fault ≡ NoMemory };

    fn from(_: Memory) -> PlanFault {
        PlanFault::Memory
    }
}

impl From<AllocError> for PlanFault {
    ghost from_gives = { λ _ fault. fault ≡ NoMemory };

    fn from(_: AllocError) -> PlanFault {
        PlanFault::Memory
    }
}

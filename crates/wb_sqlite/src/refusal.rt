//! Why the database gave no answer, and how that is counted.
ghost use Rattle.std.specs.Prelude.{◌≡◌, ◌≤◌};
ghost use Rattle.wb_base.specs.declared.faults.KeepErr.TheVariants.{Memory as NoMemory};
ghost use Rattle.wb_sqlite.specs.Faults.{answer_to, answer_to_file};
ghost use Rattle.wb_base.specs.Outside.{count_with};

use sqlite::{Error, ErrorCode};
use std::io::{self, ErrorKind};
use wb_base::{KeepErr, Memory};

/// Why the database gave no answer: it wanted memory, it refused, or a stored row is none of a keeper.
#[derive(Clone, Copy, Debug, PartialEq, Eq)]
pub(crate) struct Refusal {
    pub(crate) why: KeepErr,
}

impl Refusal {
    /// There was no memory.
    pub(crate) const MEMORY: Refusal = Refusal {
        why: KeepErr::Memory,
    };
    /// A stored row is none of a keeper.
    pub(crate) const FAULT: Refusal = Refusal {
        why: KeepErr::Failed,
    };
}

impl From<Error> for Refusal {
    ghost from_gives = { λ error refusal. refusal.why ≡ answer_to error };

    fn from(error: Error) -> Refusal {
        match error {
            Error::SqliteFailure(ErrorCode::OutOfMemory) => Refusal::MEMORY,
            _ => Refusal::FAULT,
        }
    }
}

impl From<io::Error> for Refusal {
    ghost from_gives = { λ error refusal. refusal.why ≡ answer_to_file error };

    fn from(error: io::Error) -> Refusal {
        if error.kind() == ErrorKind::OutOfMemory {
            Refusal::MEMORY
        } else {
            Refusal::FAULT
        }
    }
}

impl From<Memory> for Refusal {
    ghost from_gives = { λ _ refusal. refusal.why ≡ NoMemory };

    fn from(_: Memory) -> Refusal {
        Refusal::MEMORY
    }
}

/// What a keeper answers to a refusal, which it counts where it is a fault.
pub(crate) fn counted(faults: &mut u64, refusal: Refusal) -> KeepErr
    ensures why { result ≡ refusal.why }
    ensures count { faults.new ≡ count_with faults.old refusal.why }
    ensures later { faults.old ≤ faults.new }
{
    match refusal.why {
        KeepErr::Memory => {}
        KeepErr::Failed => *faults = faults.saturating_add(1),
    }
    refusal.why
}

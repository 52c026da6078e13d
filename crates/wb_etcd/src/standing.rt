//! How a keeper stands with its store, and why changes were not kept.
ghost use Rattle.std.specs.Prelude.{◌≡◌};
ghost use Rattle.wb_base.specs.declared.faults.KeepErr.TheVariants.{Memory as NoMemory};
ghost use Rattle.wb_etcd.specs.declared.standing.NotKept.TheVariants.{Unsent as WasUnsent};

use wb_base::{KeepErr, Memory};

/// How a keeper stands with its store.
#[derive(Clone, Copy, Debug, PartialEq, Eq)]
pub enum Standing {
    /// It does not hold the store yet.
    Unloaded,
    /// It holds the store since this revision.
    Holds(u64),
    /// It sent changes, and no answer says that they were made. It fails until the program is started again.
    Ended,
}

/// Why changes were not kept.
#[derive(Clone, Copy, Debug, PartialEq, Eq)]
pub(crate) enum NotKept {
    /// Nothing was sent: no endpoint gave a link.
    Unsent(KeepErr),
    /// They were sent, and no answer says that they were made.
    Sent(KeepErr),
}

impl From<Memory> for NotKept {
    ghost from_gives = { λ _ e. e ≡ WasUnsent NoMemory };

    fn from(_: Memory) -> NotKept {
        NotKept::Unsent(KeepErr::Memory)
    }
}

impl From<KeepErr> for NotKept {
    ghost from_gives = { λ why e. e ≡ WasUnsent why };

    fn from(why: KeepErr) -> NotKept {
        NotKept::Unsent(why)
    }
}

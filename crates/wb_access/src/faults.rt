//! Why access was refused.
ghost use Rattle.std.specs.Prelude.{◌≡◌};
ghost use Rattle.wb_access.specs.declared.faults.AccessFault.TheVariants.{Memory as NoMemory};

use wb_list::Memory;

/// Why access was refused.
#[derive(Clone, Copy, Debug, PartialEq, Eq)]
pub enum AccessFault {
    /// The secret is not the kept one.
    BadLogin,
    /// No session of the tenant stands with that turn and secret.
    NoSession,
    /// A live report of the tenant has that receipt.
    ReceiptTaken,
    /// There was no memory.
    Memory,
}

impl From<Memory> for AccessFault {
    ghost from_gives = { λ _ fault. fault ≡ NoMemory };

    fn from(_: Memory) -> AccessFault {
        AccessFault::Memory
    }
}

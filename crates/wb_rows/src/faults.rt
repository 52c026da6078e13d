//! Why rows are no tables.

use std::alloc::{AllocError, AllocFailed};
use wb_base::{Key, Memory};

/// Why rows are no tables.
#[derive(Clone, Copy, PartialEq, Eq)]
pub enum RowFault {
    /// The least key that is none of a kept row, or whose text is not good there.
    BadRow(Key),
    /// Where each row is good: the least rule that is broken, and the least key that breaks it.
    BadSet(u8, Key),
    /// Memory was wanted.
    Memory,
}

impl From<Memory> for RowFault {
    ghost use Rattle.std.specs.Prelude.{◌≡◌};
    ghost use Rattle.wb_rows.specs.declared.faults.RowFault.TheVariants as faults;

    ghost from_gives = { λ _ e. e ≡ faults.Memory };

    fn from(_: Memory) -> RowFault {
        RowFault::Memory
    }
}

impl From<AllocError> for RowFault {
    ghost use Rattle.std.specs.Prelude.{◌≡◌};
    ghost use Rattle.wb_rows.specs.declared.faults.RowFault.TheVariants as faults;

    ghost from_gives = { λ _ e. e ≡ faults.Memory };

    fn from(_: AllocError) -> RowFault {
        RowFault::Memory
    }
}

impl<T: Drop> From<AllocFailed<T>> for RowFault {
    ghost use Rattle.std.specs.Prelude.{◌≡◌};
    ghost use Rattle.wb_rows.specs.declared.faults.RowFault.TheVariants as faults;

    ghost from_gives = { λ _ e. e ≡ faults.Memory };

    fn from(_: AllocFailed<T>) -> RowFault {
        RowFault::Memory
    }
}

//! Why a host is not opened, and the rows that it is opened over.
ghost use Rattle.std.specs.Prelude.{◌≡◌, ◌≢◌, ◌≤◌, List, Err, IfOk};
ghost use Rattle.wb_base.specs.KeptRows.{key_cmp, key_of};
ghost use Rattle.wb_base.specs.Outside.{Rose};
ghost use Rattle.wb_base.specs.declared.rows.Row.{Row as KeptRow};
ghost use Rattle.wb_list.specs.Keyed.{IsAscending};

use crate::batch::Lost;
use wb_base::{KeepErr, Keeper, Memory, Row};
use wb_rows::RowFault;

/// Why a host is not opened.
#[derive(Clone, Copy, PartialEq, Eq)]
pub enum OpenFault {
    /// The keeper failed.
    Keeper,
    /// The rows that are kept are refused. It is never for want of memory.
    Rows(RowFault),
    /// Memory was wanted.
    Memory,
}

impl From<Memory> for OpenFault {
    ghost use Rattle.std.specs.Prelude.{◌≡◌};
    ghost use Rattle.wb_desk.specs.declared.open.OpenFault.TheVariants as faults;

    ghost from_gives = { λ _ e. e ≡ faults.Memory };

    fn from(_: Memory) -> OpenFault {
        OpenFault::Memory
    }
}

impl From<Lost> for OpenFault {
    ghost use Rattle.std.specs.Prelude.{◌≡◌};
    ghost use Rattle.wb_desk.specs.Openings.{fault_of_lost};

    ghost from_gives = { λ lost e. e ≡ fault_of_lost lost };

    fn from(lost: Lost) -> OpenFault {
        match lost {
            Lost::Keeper => OpenFault::Keeper,
            Lost::Memory => OpenFault::Memory,
        }
    }
}

impl From<RowFault> for OpenFault {
    ghost use Rattle.std.specs.Prelude.{◌≡◌};
    ghost use Rattle.wb_desk.specs.Openings.{fault_of_rows};

    ghost from_gives = { λ fault e. e ≡ fault_of_rows fault };

    fn from(fault: RowFault) -> OpenFault {
        match fault {
            RowFault::BadRow(key) => OpenFault::Rows(RowFault::BadRow(key)),
            RowFault::BadSet(rule, key) => OpenFault::Rows(RowFault::BadSet(rule, key)),
            RowFault::Memory => OpenFault::Memory,
        }
    }
}

/// The rows that a keeper holds.
pub fn load<K: Keeper>(keeper: &mut K) -> Result<Vec<Row>, Lost>
    ensures back { (K.end keeper.new).honest → (K.end keeper.old).honest }
    ensures all { (K.end keeper.new).honest → (rows : List KeptRow) → (K.end keeper.old).holds rows → IfOk result (λ loaded. loaded.items ≡ rows) }
    ensures same { (K.end keeper.new).honest → (rows : List KeptRow) → (K.end keeper.old).holds rows → (K.end keeper.new).holds rows }
    ensures ascending { IfOk result (λ loaded. IsAscending key_cmp key_of loaded.items) }
    ensures later { (K.end keeper.old).count ≤ (K.end keeper.new).count }
    ensures fault { result ≡ Err Lost.Keeper → Rose (K.end keeper.old).count (K.end keeper.new).count }
    ensures stayed { result ≢ Err Lost.Keeper → (K.end keeper.new).count ≡ (K.end keeper.old).count }
{
    match keeper.load() {
        Ok(rows) => Ok(rows),
        Err(KeepErr::Failed) => Err(Lost::Keeper),
        Err(KeepErr::Memory) => Err(Lost::Memory),
    }
}

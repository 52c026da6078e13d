//! The tables that kept rows are read as, without a host.
ghost use Rattle.std.specs.Prelude.{◌≡◌, ◌≢◌, ℕ, Err, IfErr, IfOk};
ghost use Rattle.wb_model.specs.KeptRules.{AreKept};
ghost use Rattle.wb_model.specs.SetUps.{AreSetUp};
ghost use Rattle.wb_rows.specs.Held.{held_by};
ghost use Rattle.wb_rows.specs.Openings.{tables_of, time_of};
ghost use Rattle.wb_cli.specs.Loads.{AreRead, ReadsNone};
ghost use Rattle.wb_rows.specs.Loaded.{KeepsRows};

use crate::Status;
use std::alloc::Global;
use wb_base::{KeepErr, Keeper};
use wb_rows::{RowFault, Tables, read};

/// The tables that a keeper's rows are read as, or how a call ends for which they are not. The rows stay as they are, those of format 1 too.
pub fn load_tables<K: Keeper>(alloc: Global, keeper: &mut K) -> Result<Tables, Status>
    ensures ok { IfOk result (λ tables. AreRead (K.end keeper.old) (K.end keeper.new) (held_by tables)) }
    ensures err { IfErr result (ReadsNone (K.end keeper.old) (K.end keeper.new)) }
    ensures rows { KeepsRows (K.end keeper.old) (K.end keeper.new) }
    ensures back { (K.end keeper.new).honest → (K.end keeper.old).honest }
    ensures stayed { result ≢ Err Status.OpenFault → (K.end keeper.new).count ≡ (K.end keeper.old).count }
    // What tenants are set up with keeps the rules of setups, and the tables of each those of kept rows.
    ensures set_up { IfOk result (λ tables. AreSetUp tables.registry.lists) }
    ensures kept { IfOk result (λ tables. (t : ℕ) → AreKept (time_of (held_by tables)) tables.registry.lists t (tables_of (held_by tables) t)) }
{
    let rows = match keeper.load() {
        Ok(rows) => rows,
        Err(KeepErr::Failed) => return Err(Status::OpenFault),
        Err(KeepErr::Memory) => return Err(Status::NoMemory),
    };
    match read(alloc, rows) {
        Ok(tables) => Ok(tables),
        Err(RowFault::BadRow(key)) => Err(Status::KeptRows(RowFault::BadRow(key))),
        Err(RowFault::BadSet(rule, key)) => Err(Status::KeptRows(RowFault::BadSet(rule, key))),
        Err(RowFault::Memory) => Err(Status::NoMemory),
    }
}

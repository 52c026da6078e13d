//! The host that kept rows and a setup's bytes open.
ghost use Rattle.std.specs.Prelude.{◌≡◌, ◌≢◌, List, IfOk, IfErr};
ghost use Rattle.wb_base.specs.declared.rows.Row.{Row};
ghost use Rattle.wb_model.specs.Past.{Past};
ghost use Rattle.wb_model.specs.Pasts.{AllOpened};
ghost use Rattle.wb_rows.specs.Loaded.{KeepsRows};
ghost use Rattle.wb_server.specs.Opens.{Opens, Refuses};
ghost use Rattle.wb_tables.specs.Standing.{hosts_of};

use std::alloc::Global;
use wb_base::Keeper;
use wb_cli::Status;
use wb_desk::{Desk, OpenFault};
use wb_setup::{Setup, SetupFault};

// How a run ends whose setup is not read.
fn refused(fault: SetupFault) -> Status
    ensures memory { fault ≡ SetupFault.Memory → result ≡ Status.NoMemory }
    ensures other { fault ≢ SetupFault.Memory → result ≡ Status.Setup fault }
{
    match fault {
        SetupFault::Memory => Status::NoMemory,
        SetupFault::Text => Status::Setup(SetupFault::Text),
        SetupFault::Rule(rule) => Status::Setup(SetupFault::Rule(rule)),
    }
}

/// The host that a setup's bytes open over the rows that a keeper holds, or how a run ends for which they open none.
pub fn open_by<K: Keeper>(alloc: Global, keeper: &mut K, setup: &[u8]) -> Result<Desk, Status>
    ensures ok { IfOk result (λ desk. (loaded : List Row) × (start : Past AllOpened) × Opens (K.end keeper.old) (K.end keeper.new) loaded setup.now start (hosts_of desk)) }
    ensures err { IfErr result (λ status. Refuses (K.end keeper.old) (K.end keeper.new) setup.now status × KeepsRows (K.end keeper.old) (K.end keeper.new)) }
    ensures back { (K.end keeper.new).honest → (K.end keeper.old).honest }
{
    let setup = match Setup::read(alloc, setup) {
        Ok(setup) => setup,
        Err(fault) => return Err(refused(fault)),
    };
    match Desk::open(alloc, keeper, &setup) {
        Ok(desk) => Ok(desk),
        Err(OpenFault::Keeper) => Err(Status::OpenFault),
        Err(OpenFault::Rows(fault)) => Err(Status::KeptRows(fault)),
        Err(OpenFault::Memory) => Err(Status::NoMemory),
    }
}

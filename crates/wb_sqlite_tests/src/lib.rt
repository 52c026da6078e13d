//! Tests of the keepers over SQLite, by their public calls, and two callers that are proved.
#![tactic(auto)]

ghost use Rattle.std.specs.Prelude.{◌≡◌, [], List, All, IfOk};
ghost use Rattle.sqlite.specs.Files.{over_files};
ghost use Rattle.sqlite.specs.Held.{state};
ghost use Rattle.wb_base.specs.declared.rows.Row.{Row as KeptRow};
ghost use Rattle.wb_base.specs.KeptRows.{IsGoodChange, all_changed};
ghost use Rattle.wb_stored.specs.Told.{IsHonest, HoldsRows};

use sqlite::{Connection, FileStore, Options};
use sqlite_disk::Disk;
use std::alloc::Global;
use wb_base::{Change, KeepErr, Keeper, Row};
use wb_sqlite::SqlKeeper;

#[cfg(test)]
mod files;
#[cfg(test)]
mod refused_rows;
#[cfg(test)]
mod rows;
#[cfg(test)]
mod statements;

/// What SQLite in memory keeps of changes to no rows.
pub fn kept(alloc: Global, changes: &[Change]) -> Result<Vec<Row>, KeepErr>
    requires { All IsGoodChange changes.now }
    ensures { IfOk result (λ rows. rows.items ≡ all_changed [] changes.now) }
{
    let Ok(mut keeper) = SqlKeeper::in_memory(alloc) else {
        return Err(KeepErr::Memory);
    };
    keeper.apply(changes)?;
    keeper.load()
}

/// The keeper over the files that a keeper closes holds the rows that that one held.
pub fn reopened<D: Disk + Drop>(
    alloc: Global,
    keeper: SqlKeeper<FileStore<D>>,
    options: Options,
) -> Result<SqlKeeper<FileStore<D>>, KeepErr>
    ensures { IfOk result (λ again. IsHonest (state over_files again.conn) → (rows : List KeptRow) → HoldsRows (state over_files keeper.conn) rows → HoldsRows (state over_files again.conn) rows) }
{
    let files = keeper.close()?;
    match Connection::open_files(alloc, files, options) {
        Ok(conn) => Ok(SqlKeeper::over(alloc, conn)),
        Err(_) => Err(KeepErr::Failed),
    }
}

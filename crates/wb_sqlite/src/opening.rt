//! The database in the file at a path.
ghost use Rattle.std.specs.Prelude.{◌≡◌, false, List, IfOk};
ghost use Rattle.sqlite.specs.Held.{state};
ghost use Rattle.sqlite.specs.State.{HasCleanDisk};
ghost use Rattle.sqlite.specs.Files.{over_files, IsBlankAs};
ghost use Rattle.sqlite_store.specs.FileStore.{view};
ghost use Rattle.sqlite_wal.specs.Files.{image_at};
ghost use Rattle.wb_base.specs.declared.rows.Row.{Row as KeptRow};
ghost use Rattle.wb_stored.specs.Told.{HoldsRows};
ghost use Rattle.wb_stored.specs.KeptFiles.{FilesHold};

use crate::one_byte::is_foreign_byte;
use crate::refusal::Refusal;
use sqlite::{Connection, FileFrom, FileStore, Start};

/// Opens the file at a path, or makes it where there is none. `S` stands for what the file and the log beside it hold as they
/// are opened; no clause ties them to the path.
pub(crate) fn open_file<S: Start>(
    rt: &HostRuntime,
    path: &str,
    start: S,
) -> Result<Connection<FileStore<FileFrom<S>>>, Refusal>
    ensures idle { IfOk result (λ conn. conn.in_transaction ≡ false) }
    // A file that was new has no sums in its pages, which a plain sqlite3 would spoil.
    ensures plain { IfOk result (λ conn. HasCleanDisk (state over_files conn) → IsBlankAs false (image_at S.Start) → (view conn.store).has_sums ≡ false) }
    ensures told { IfOk result (λ conn. HasCleanDisk (state over_files conn) → (rows : List KeptRow) → FilesHold (image_at S.Start) rows → HoldsRows (state over_files conn) rows) }
{
    if is_foreign_byte(rt, path)? {
        return Err(Refusal::FAULT);
    }
    match Connection::open_from(rt, path, false, start) {
        Ok(conn) => Ok(conn),
        Err((error, _)) => Err(Refusal::from(error)),
    }
}

//! A keeper of rows over a connection.
ghost use Rattle.std.specs.Prelude.{◌≡◌, false, [], List, All, IfOk, OnOk, OnErr, IsTrue};
ghost use Rattle.sqlite.specs.Held.{state};
ghost use Rattle.sqlite.specs.State.{HasCleanDisk};
ghost use Rattle.sqlite.specs.Steps.{IsEmpty, over_memory};
ghost use Rattle.sqlite.specs.Files.{over_files, image_of, IsBlankAs};
ghost use Rattle.sqlite_store.specs.FileStore.{view};
ghost use Rattle.sqlite_wal.specs.Files.{image_at};
ghost use Rattle.sqlite_wal.specs.Reads.{AreClean};
ghost use Rattle.wb_list.specs.Keyed.{IsAscending};
ghost use Rattle.wb_base.specs.Outside.{KeeperHasCause};
ghost use Rattle.wb_base.specs.declared.rows.Row.{Row as KeptRow};
ghost use Rattle.wb_base.specs.KeptRows.{key_cmp, key_of, all_changed, IsGoodChange};
ghost use Rattle.wb_stored.specs.Told.{IsHonest, HoldsRows, LeavesRows};
ghost use Rattle.wb_stored.specs.KeptFiles.{FilesHold, FilesHoldAlone};
ghost use Rattle.sqlite_trees.specs.Tree.{Trees};
ghost use Rattle.wb_base.specs.Outside.{count_after};
ghost use Rattle.wb_sqlite.specs.NewFiles.{OutcomesHold};
ghost use Rattle.wb_sqlite.specs.Readings.{LoadsAll};
ghost use Rattle.wb_sqlite.specs.Statements.{CommitsAll, IsAsCommitted, LeavesChanged};

use crate::database::{apply_all, load_all};
use crate::opening::open_file;
use crate::refusal::{Refusal, counted};
use sqlite::{Alter, Connection, FileFrom, FileStore, Files, MemStore, Start};
use sqlite_disk::Disk;
use std::alloc::Global;
use std::marker::Model;
use wb_base::{Change, KeepErr, Keeper, Memory, Row};

/// A keeper of rows over a connection, seen as the connection and the count of its faults. It tells the rows of its two tables
/// while the store is clean and the database is open.
pub struct SqlKeeper<S: Alter> {
    conn: Connection<S>,
    faults: u64,
    alloc: Global,
    ghost idle: { conn.in_transaction ≡ false },
}

impl<S: Alter> Model for SqlKeeper<S> {
    ghost use Rattle.wb_sqlite.specs.Standing.{Standing, standing_code};

    ghost Value = { Standing S };

    ghost coded = { standing_code S.code };

    ghost view = { λ k. record { conn = k.conn; faults = k.faults } };
}

// It is written out, so that no caller proves again how each part is dropped.
impl<S: Alter + Drop> Drop for SqlKeeper<S> {
    fn drop(self) {
        let SqlKeeper {
            conn: _,
            faults: _,
            alloc: _,
        } = self;
    }
}

impl<S: Alter> SqlKeeper<S> {
    /// A keeper over a connection that is in no transaction. It calls nothing of it yet, and has no fault so far.
    pub fn over(alloc: Global, conn: Connection<S>) -> SqlKeeper<S>
        requires { conn.in_transaction ≡ false }
        ensures { result ≡ record { conn = conn; faults = 0 } }
    {
        SqlKeeper {
            conn,
            faults: 0,
            alloc,
        }
    }
}

impl SqlKeeper<MemStore> {
    /// A keeper over an empty database in memory.
    pub fn in_memory(alloc: Global) -> Result<SqlKeeper<MemStore>, Memory>
        ensures empty { IfOk result (λ keeper. IsEmpty (state over_memory keeper.conn)) }
        ensures honest { IfOk result (λ keeper. IsHonest (state over_memory keeper.conn)) }
        ensures told { IfOk result (λ keeper. HoldsRows (state over_memory keeper.conn) []) }
        ensures count { IfOk result (λ keeper. keeper.faults ≡ 0) }
    {
        let conn = Connection::open_in_memory(alloc)?;
        Ok(SqlKeeper::over(alloc, conn))
    }
}

impl<S: Start> SqlKeeper<FileStore<FileFrom<S>>> {
    /// A keeper over the file at a path, which is opened, or made where there is none. `S` stands for what the file and the log
    /// beside it hold as they are opened; no clause ties them to the path.
    pub fn over_file(
        rt: &HostRuntime,
        path: &str,
        start: S,
    ) -> Result<SqlKeeper<FileStore<FileFrom<S>>>, KeepErr>
        // A file that was new has no sums in its pages, which a plain sqlite3 would spoil.
        ensures plain { IfOk result (λ keeper. HasCleanDisk (state over_files keeper.conn) → IsBlankAs false (image_at S.Start) → (view keeper.conn.store).has_sums ≡ false) }
        ensures told { IfOk result (λ keeper. IsHonest (state over_files keeper.conn) → (rows : List KeptRow) → FilesHold (image_at S.Start) rows → HoldsRows (state over_files keeper.conn) rows) }
        ensures count { IfOk result (λ keeper. keeper.faults ≡ 0) }
    {
        match open_file(rt, path, start) {
            Ok(conn) => Ok(SqlKeeper::over(rt.alloc(), conn)),
            Err(refusal) => Err(refusal.why),
        }
    }
}

impl<D: Disk + Drop> SqlKeeper<FileStore<D>> {
    /// Copies the log into the database file, and gives both files back.
    pub fn close(self) -> Result<Files<D>, KeepErr>
        ensures usable { IfOk result (λ files. IsTrue (D.Disk.is_usable files.log) × IsTrue (D.Disk.is_usable files.db)) }
        ensures closed { IfOk result (λ files. AreClean D.Disk files.log files.db → (rows : List KeptRow) → HoldsRows (state over_files self.conn) rows → FilesHoldAlone (image_of D.Disk files) rows) }
        ensures left { IfOk result (λ files. AreClean D.Disk files.log files.db → (rows : List KeptRow) → HoldsRows (state over_files self.conn) rows → OutcomesHold D.Disk files rows) }
    {
        let SqlKeeper {
            conn,
            faults: _,
            alloc: _,
        } = self;
        match conn.close_files() {
            Ok(files) => Ok(files),
            Err((error, store)) => {
                drop(store.close());
                Err(Refusal::from(error).why)
            }
        }
    }
}

impl<S: Alter + Drop> Keeper for SqlKeeper<S> {
    ghost use Rattle.sqlite.specs.Held.{state};
    ghost use Rattle.wb_stored.specs.Told.{IsHonest, HoldsRows};

    ghost end = { λ k. record { honest = IsHonest (state S.Store k.conn); holds = HoldsRows (state S.Store k.conn); count = k.faults } };

    fn faults(&self) -> u64 {
        self.faults
    }

    fn load(&mut self) -> Result<Vec<Row>, KeepErr>
        ensures back { IsHonest (state S.Store self.new.conn) → IsHonest (state S.Store self.old.conn) }
        ensures all { IsHonest (state S.Store self.new.conn) → (rows : List KeptRow) → HoldsRows (state S.Store self.old.conn) rows → IfOk result (λ loaded. loaded.items ≡ rows) }
        ensures same { IsHonest (state S.Store self.new.conn) → (rows : List KeptRow) → HoldsRows (state S.Store self.old.conn) rows → HoldsRows (state S.Store self.new.conn) rows }
        ensures ascending { IfOk result (λ loaded. IsAscending key_cmp key_of loaded.items) }
        ensures cause { KeeperHasCause self.old.faults self.new.faults result }
        ensures count { self.new.faults ≡ count_after self.old.faults result }
        ensures loads { HasCleanDisk (state S.Store self.new.conn) → IfOk result (λ loaded. LoadsAll S.Store self.old.conn self.new.conn loaded.items) }
    {
        match load_all(self.alloc, &mut self.conn) {
            Ok(rows) => Ok(rows),
            Err(refusal) => Err(counted(&mut self.faults, refusal)),
        }
    }

    fn apply(&mut self, changes: &[Change]) -> Result<(), KeepErr>
        requires { All IsGoodChange changes.now }
        ensures back { IsHonest (state S.Store self.new.conn) → IsHonest (state S.Store self.old.conn) }
        ensures ok { IsHonest (state S.Store self.new.conn) → (rows : List KeptRow) → HoldsRows (state S.Store self.old.conn) rows → OnOk result (HoldsRows (state S.Store self.new.conn) (all_changed rows changes.now)) }
        ensures err { IsHonest (state S.Store self.new.conn) → (rows : List KeptRow) → HoldsRows (state S.Store self.old.conn) rows → OnErr result (HoldsRows (state S.Store self.new.conn) rows) }
        ensures cause { KeeperHasCause self.old.faults self.new.faults result }
        ensures count { self.new.faults ≡ count_after self.old.faults result }
        ensures made { HasCleanDisk (state S.Store self.new.conn) → OnOk result (CommitsAll S.Store changes.now self.old.conn self.new.conn) }
        ensures kept { HasCleanDisk (state S.Store self.new.conn) → IsTrue (state S.Store self.new.conn).is_open → OnErr result (IsAsCommitted S.Store self.old.conn self.new.conn) }
        ensures crash { HasCleanDisk (state S.Store self.new.conn) → (rows : List KeptRow) → HoldsRows (state S.Store self.old.conn) rows → LeavesChanged S.Store changes.now rows self.old.conn self.new.conn }
        ensures durable { IsHonest (state S.Store self.new.conn) → (rows : List KeptRow) → HoldsRows (state S.Store self.new.conn) rows → (db : Trees) → (state S.Store self.new.conn).may_leave db → LeavesRows db rows }
    {
        match apply_all(&mut self.conn, changes) {
            Ok(()) => Ok(()),
            Err(refusal) => Err(counted(&mut self.faults, refusal)),
        }
    }
}

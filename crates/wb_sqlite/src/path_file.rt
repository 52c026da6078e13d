//! The file at a path, as a database of rows.
ghost use Rattle.std.specs.Prelude.{◌≡◌, false, None, List, [], IfOk, OnOk, OnErr, IfSome};
ghost use Rattle.std.proofs.Props.{props};
ghost use Rattle.wb_list.specs.Keyed.{IsAscending};
ghost use Rattle.wb_base.specs.declared.rows.Row.{Row as KeptRow};
ghost use Rattle.wb_base.specs.KeptRows.{key_cmp, key_of};
ghost use Rattle.sqlite.specs.Files.{over_files};
ghost use Rattle.wb_sqlite.specs.NewFiles.{IsHonestIfOpen, HoldsIfOpen};
ghost use Rattle.wb_sqlite.specs.Readings.{LoadsOpen};
ghost use Rattle.wb_sqlite.specs.Statements.{CommitsOpen, KeepsOpen};

use crate::database::{apply_all, load_all};
use crate::opening::open_file;
use crate::refusal::Refusal;
use sqlite::{Connection, File, FileStore, Unknown};
use wb_base::{Change, Row, Text};

/// The file at a path, with its connection once a load of it was Ok. It holds the connection for a type with a model: there
/// each exit that leaves the whole as it was would ask for an equation of the ghost field.
pub(crate) struct PathFile {
    rt: HostRuntime,
    path: Text,
    conn: Option<Connection<FileStore<File>>>,
    ghost idle: { IfSome conn (λ c. c.in_transaction ≡ false) } by { Prim.hlevel props },
}

// The database is closed as it goes, so that the log beside the file is copied in and the file is whole by itself. Where
// that fails, both are as they were, and the next `load` reads both.
impl Drop for PathFile {
    fn drop(self) {
        let PathFile {
            rt: _,
            path: _,
            conn,
        } = self;
        if let Some(conn) = conn {
            drop(conn.close());
        }
    }
}

impl PathFile {
    /// The file at a path, which is not opened yet.
    pub(crate) fn new(rt: &HostRuntime, path: Text) -> PathFile
        ensures { result.conn ≡ None }
    {
        PathFile {
            rt: *rt,
            path,
            conn: None,
        }
    }

    // All rows, and the connection, of a file that was not open. A file that is refused is let go unclosed, since to close
    // it may write it.
    fn open(&mut self) -> Result<Vec<Row>, Refusal>
        ensures ascending { IfOk result (λ rows. IsAscending key_cmp key_of rows.items) }
        ensures loads { IfOk result (λ rows. LoadsOpen over_files self.new.conn rows.items) }
        ensures none { IfOk result (λ rows. IsHonestIfOpen over_files self.new.conn → (rows.items ≡ []) × HoldsIfOpen over_files self.new.conn []) }
        ensures kept { OnErr result (self.new.conn ≡ self.old.conn) }
    {
        let mut conn = open_file(&self.rt, self.path.as_str(), Unknown)?;
        let rows = load_all(self.rt.alloc(), &mut conn)?;
        self.conn = Some(conn);
        Ok(rows)
    }

    /// All rows. The file is open from the first time on that this is Ok.
    pub(crate) fn load(&mut self) -> Result<Vec<Row>, Refusal>
        ensures ascending { IfOk result (λ rows. IsAscending key_cmp key_of rows.items) }
        ensures loads { IfOk result (λ rows. LoadsOpen over_files self.new.conn rows.items) }
        ensures back { IsHonestIfOpen over_files self.new.conn → IsHonestIfOpen over_files self.old.conn }
        ensures all { IsHonestIfOpen over_files self.new.conn → (rows : List KeptRow) → HoldsIfOpen over_files self.old.conn rows → IfOk result (λ loaded. loaded.items ≡ rows) }
        ensures same { IsHonestIfOpen over_files self.new.conn → (rows : List KeptRow) → HoldsIfOpen over_files self.old.conn rows → HoldsIfOpen over_files self.new.conn rows }
    {
        match &mut self.conn {
            None => self.open(),
            Some(conn) => load_all(self.rt.alloc(), conn),
        }
    }

    /// Makes the changes, where the file is open.
    pub(crate) fn apply(&mut self, changes: &[Change]) -> Result<(), Refusal>
        ensures made { OnOk result (CommitsOpen over_files changes.now self.old.conn self.new.conn) }
        ensures kept { OnErr result (KeepsOpen over_files self.old.conn self.new.conn) }
        ensures back { IsHonestIfOpen over_files self.new.conn → IsHonestIfOpen over_files self.old.conn }
    {
        match &mut self.conn {
            None => Err(Refusal::FAULT),
            Some(conn) => apply_all(conn, changes),
        }
    }
}

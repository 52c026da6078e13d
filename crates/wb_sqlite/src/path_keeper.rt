//! A keeper of rows in the file at a path.
ghost use Rattle.std.specs.Prelude.{◌≡◌, List, All, IfOk, OnOk, OnErr};
ghost use Rattle.wb_list.specs.Keyed.{IsAscending};
ghost use Rattle.wb_base.specs.Outside.{KeeperHasCause};
ghost use Rattle.wb_base.specs.declared.rows.Row.{Row as KeptRow};
ghost use Rattle.wb_base.specs.KeptRows.{key_cmp, key_of, all_changed, IsGoodChange};
ghost use Rattle.wb_base.specs.Outside.{count_after};
ghost use Rattle.wb_sqlite.specs.PathFiles.{IsUnopened, IsHonestFile, FileHolds, Loads, Commits, Keeps};

use crate::path_file::PathFile;
use crate::refusal::counted;
use std::marker::Model;
use wb_base::{Change, KeepErr, Keeper, Row, Text};

/// A keeper of rows in the file at a path, seen as the file and the count of its faults. `load` opens the file, or makes it.
/// It tells its rows where the file was new as it was opened. As it goes, it copies the log beside the file in, so that the file is whole by itself. It may go to
/// another thread: `keeper_send` in `proofs/SentKeeper.antt` says so where a call asks for `Send`.
#[derive(Drop)]
pub struct PathKeeper {
    file: PathFile,
    faults: u64,
}

impl Model for PathKeeper {
    ghost use Rattle.wb_sqlite.specs.PathFiles.{Filed, filed_code};

    ghost Value = { Filed };

    ghost coded = { filed_code };

    ghost view = { λ k. record { file = k.file; faults = k.faults } };
}

impl PathKeeper {
    /// A keeper of the rows in the file at a path, which it does not open yet. It has no fault so far.
    pub fn new(rt: &HostRuntime, path: Text) -> PathKeeper
        ensures unopened { IsUnopened result.file }
        ensures count { result.faults ≡ 0 }
        ensures told { IsHonestFile result.file → (rows : List KeptRow) × FileHolds result.file rows }
    {
        PathKeeper {
            file: PathFile::new(rt, path),
            faults: 0,
        }
    }
}

impl Keeper for PathKeeper {
    ghost use Rattle.wb_sqlite.specs.PathFiles.{IsHonestFile, FileHolds};

    ghost end = { λ k. record { honest = IsHonestFile k.file; holds = FileHolds k.file; count = k.faults } };

    fn faults(&self) -> u64 {
        self.faults
    }

    /// A file that cannot be opened is a fault.
    fn load(&mut self) -> Result<Vec<Row>, KeepErr>
        ensures back { IsHonestFile self.new.file → IsHonestFile self.old.file }
        ensures all { IsHonestFile self.new.file → (rows : List KeptRow) → FileHolds self.old.file rows → IfOk result (λ loaded. loaded.items ≡ rows) }
        ensures same { IsHonestFile self.new.file → (rows : List KeptRow) → FileHolds self.old.file rows → FileHolds self.new.file rows }
        ensures ascending { IfOk result (λ loaded. IsAscending key_cmp key_of loaded.items) }
        ensures cause { KeeperHasCause self.old.faults self.new.faults result }
        ensures count { self.new.faults ≡ count_after self.old.faults result }
        ensures loads { IfOk result (λ loaded. Loads self.new.file loaded.items) }
    {
        match self.file.load() {
            Ok(rows) => Ok(rows),
            Err(refusal) => Err(counted(&mut self.faults, refusal)),
        }
    }

    /// Where no `load` opened the file, it is a fault.
    fn apply(&mut self, changes: &[Change]) -> Result<(), KeepErr>
        requires { All IsGoodChange changes.now }
        ensures back { IsHonestFile self.new.file → IsHonestFile self.old.file }
        ensures ok { IsHonestFile self.new.file → (rows : List KeptRow) → FileHolds self.old.file rows → OnOk result (FileHolds self.new.file (all_changed rows changes.now)) }
        ensures err { IsHonestFile self.new.file → (rows : List KeptRow) → FileHolds self.old.file rows → OnErr result (FileHolds self.new.file rows) }
        ensures cause { KeeperHasCause self.old.faults self.new.faults result }
        ensures count { self.new.faults ≡ count_after self.old.faults result }
        ensures made { OnOk result (Commits changes.now self.old.file self.new.file) }
        ensures kept { OnErr result (Keeps self.old.file self.new.file) }
    {
        match self.file.apply(changes) {
            Ok(()) => Ok(()),
            Err(refusal) => Err(counted(&mut self.faults, refusal)),
        }
    }
}

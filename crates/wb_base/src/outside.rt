//! The outside: what is read from, what is written to, and what keeps rows.
ghost use Rattle.std.specs.Prelude.{◌≡◌, ◌<◌, List, All, length, IfOk, OnOk, OnErr};
ghost use Rattle.std.specs.Io.{ReadsAtMost};
ghost use Rattle.std.specs.Io.KnownBytes.{Appends, ReadConsumes};
ghost use Rattle.wb_list.specs.Keyed.{IsAscending};
ghost use Rattle.wb_base.specs.Ends.{KeeperEnd, SinkEnd, SourceEnd};
ghost use Rattle.wb_base.specs.Outside.{AppendsFront, HasCause, KeeperHasCause};
ghost use Rattle.wb_base.specs.KeptRows.{key_cmp, key_of, all_changed, IsGoodChange};

use crate::{Change, Failed, KeepErr, Row};

/// What is read from.
pub trait Source {
    /// The bytes that are left, and how many of its calls failed.
    ghost end: { Self → SourceEnd };

    /// How many of its calls failed, up to 2^64 - 1.
    fn faults(&self) -> u64
        ensures { result ≡ (end self.now).count };

    /// Takes the next bytes of what is left and says how many they are. 0 means the end.
    fn read(&mut self, into: &mut [u8]) -> Result<usize, Failed>
        requires { 0 < length into.old }
        ensures bound { ReadsAtMost result into.new }
        ensures bytes { ReadConsumes (end self.old).left (end self.new).left result into.new }
        ensures cause { HasCause (end self.old).count (end self.new).count result };
}

/// What is written to.
pub trait Sink {
    /// The bytes that it holds, and how many of its calls failed.
    ghost end: { Self → SinkEnd };

    /// How many of its calls failed, up to 2^64 - 1.
    fn faults(&self) -> u64
        ensures { result ≡ (end self.now).count };

    /// Appends the bytes. Where it fails, it appends a part of them that begins at the front.
    fn write_all(&mut self, bytes: &[u8]) -> Result<(), Failed>
        ensures ok { OnOk result (Appends (end self.old).held (end self.new).held bytes.now) }
        ensures err { OnErr result (AppendsFront (end self.old).held (end self.new).held bytes.now) }
        ensures cause { HasCause (end self.old).count (end self.new).count result };
}

/// What keeps rows, each key once.
pub trait Keeper: Drop {
    ghost use Rattle.wb_base.specs.declared.rows.Row.{Row};

    /// Whether what it tells can be relied on, the rows that it holds, and how many of its calls failed.
    ghost end: { Self → KeeperEnd };

    /// How many of its calls failed, up to 2^64 - 1.
    fn faults(&self) -> u64
        ensures { result ≡ (end self.now).count };

    /// All rows, by ascending key.
    fn load(&mut self) -> Result<Vec<Row>, KeepErr>
        ensures back { (end self.new).honest → (end self.old).honest }
        ensures all { (end self.new).honest → (rows : List Row) → (end self.old).holds rows → IfOk result (λ loaded. loaded.items ≡ rows) }
        ensures same { (end self.new).honest → (rows : List Row) → (end self.old).holds rows → (end self.new).holds rows }
        ensures ascending { IfOk result (λ loaded. IsAscending key_cmp key_of loaded.items) }
        ensures cause { KeeperHasCause (end self.old).count (end self.new).count result };

    /// Makes all changes in turn, or none.
    fn apply(&mut self, changes: &[Change]) -> Result<(), KeepErr>
        requires { All IsGoodChange changes.now }
        ensures back { (end self.new).honest → (end self.old).honest }
        ensures ok { (end self.new).honest → (rows : List Row) → (end self.old).holds rows → OnOk result ((end self.new).holds (all_changed rows changes.now)) }
        ensures err { (end self.new).honest → (rows : List Row) → (end self.old).holds rows → OnErr result ((end self.new).holds rows) }
        ensures cause { KeeperHasCause (end self.old).count (end self.new).count result };
}

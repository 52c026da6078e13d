//! A keeper of rows in memory.
ghost use Rattle.std.specs.Prelude.{◌≡◌, ◌↔◌, ◌+◌, ◌<◌, ◌≤◌, length, All, IsTrue, IfOk, OnOk, OnErr, ⊤};
ghost use Rattle.wb_list.specs.Keyed.{IsAscending};
ghost use Rattle.wb_base.specs.Outside.{KeeperHasCause};
ghost use Rattle.wb_base.specs.KeptRows.{key_cmp, key_of, changed, all_changed, IsGoodChange};
ghost use Rattle.wb_base.specs.MemoryEnds.{KeeperState, fails_next, after_keeping};

use crate::calls::Calls;
use crate::{Change, KeepErr, Keeper, Key, Number, Row, Tenant};
use std::alloc::Global;
use std::marker::Model;
use wb_list::{ItemTest, Memory, Sorted, TryClone};

/// A keeper of rows in memory, which fails at given calls.
#[derive(Drop)]
pub struct MemKeeper {
    rows: Sorted<Row>,
    calls: Calls,
}

impl Model for MemKeeper {
    ghost use Rattle.wb_base.specs.MemoryEnds.{KeeperState};

    ghost Value = { KeeperState };

    ghost view = { λ k. record { rows = k.rows.items; log = k.calls } };
}

/// The rows of a report.
#[derive(Drop)]
struct OfReport {
    tenant: Tenant,
    number: Number,
}

impl ItemTest<Row> for OfReport {
    ghost use Rattle.wb_base.specs.KeptRows.{is_of_report};

    ghost passes = { λ report row. is_of_report report.tenant report.number row.key };

    fn passes(&self, row: &Row) -> bool {
        (row.key.kind == Key::ENTRY || row.key.kind == Key::SEALED)
            && row.key.tenant == self.tenant.id()
            && row.key.a == self.number.get()
    }
}

// Makes a change, in room that was made.
fn make(rows: &mut Sorted<Row>, change: Change)
    requires { 0 < rows.old.spare }
    ensures rows { rows.new.items ≡ changed rows.old.items change }
    ensures room { rows.old.spare ≤ rows.new.spare + 1 }
{
    match change {
        Change::Put(row) => rows.set(row),
        Change::DropReport(tenant, number) => rows.drop_passing(&OfReport { tenant, number }),
    }
}

// Makes changes in turn, in room that was made for all of them.
fn make_all(rows: &mut Sorted<Row>, changes: Vec<Change>)
    requires { length changes.items ≤ rows.old.spare }
    ensures { rows.new.items ≡ all_changed rows.old.items changes.items }
{
    for change in changes {
        make(rows, change);
    }
}

// The changes once more.
fn copy_of(alloc: Global, changes: &[Change]) -> Result<Vec<Change>, Memory>
    ensures { IfOk result (λ copy. copy.items ≡ changes.now) }
{
    let mut copy = Vec::new(alloc);
    for change in changes {
        copy.push(change.try_clone()?)?;
    }
    Ok(copy)
}

impl MemKeeper {
    /// A keeper that holds these rows, whose keys ascend, and fails at these calls, counted from 1.
    pub fn new(content: Vec<Row>, fail: Vec<u64>) -> MemKeeper
        requires { IsAscending key_cmp key_of content.items }
        ensures { result ≡ record { rows = content.items; log = record { fail = fail.items; made = 0; faults = 0 } } }
    {
        MemKeeper {
            rows: Sorted::of(content),
            calls: Calls::new(fail),
        }
    }

    /// The rows that it holds, by ascending key.
    pub fn rows(&self) -> &[Row]
        ensures { result.now ≡ self.now.rows }
    {
        self.rows.as_slice()
    }
}

impl Keeper for MemKeeper {
    ghost end = { λ k. record { honest = ⊤; holds = λ rows. k.rows ≡ rows; count = k.log.faults } };

    fn faults(&self) -> u64 {
        self.calls.faults()
    }

    fn load(&mut self) -> Result<Vec<Row>, KeepErr>
        ensures all { IfOk result (λ loaded. loaded.items ≡ self.old.rows) }
        ensures ascending { IfOk result (λ loaded. IsAscending key_cmp key_of loaded.items) }
        ensures cause { KeeperHasCause self.old.log.faults self.new.log.faults result }
        ensures fails { (result ≡ Err KeepErr.Failed) ↔ IsTrue (fails_next self.old.log) }
        ensures state { self.new ≡ after_keeping self.old self.old.rows }
    {
        let fails = self.calls.fails_next();
        self.calls.count(fails);
        if fails {
            return Err(KeepErr::Failed);
        }
        Ok(self.rows.try_clone()?.into_vec())
    }

    fn apply(&mut self, changes: &[Change]) -> Result<(), KeepErr>
        requires { All IsGoodChange changes.now }
        ensures cause { KeeperHasCause self.old.log.faults self.new.log.faults result }
        ensures fails { (result ≡ Err KeepErr.Failed) ↔ IsTrue (fails_next self.old.log) }
        ensures ok { OnOk result (self.new ≡ after_keeping self.old (all_changed self.old.rows changes.now)) }
        ensures err { OnErr result (self.new ≡ after_keeping self.old self.old.rows) }
    {
        let fails = self.calls.fails_next();
        self.calls.count(fails);
        if fails {
            return Err(KeepErr::Failed);
        }
        let changes = copy_of(self.rows.allocator(), changes)?;
        self.rows.reserve(changes.len())?;
        make_all(&mut self.rows, changes);
        Ok(())
    }
}

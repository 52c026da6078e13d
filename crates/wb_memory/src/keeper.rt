//! A keeper of rows in memory.
ghost use Rattle.std.specs.Prelude.{◌≡◌, ◌≤◌, ◌<◌, ◌+◌, ◌∷◌, [], not, filter, All, IfOk, IfErr, OnOk, OnErr, ⊤};
ghost use Rattle.wb_list.specs.Keyed.{IsAscending};
ghost use Rattle.wb_base.specs.declared.rows.Row.{Row as KeptRow};
ghost use Rattle.wb_base.specs.Outside.{KeeperHasCause};
ghost use Rattle.wb_base.specs.KeptRows.{key_cmp, key_of, is_of_report, changed, all_changed, IsGoodChange};
ghost use Rattle.wb_memory.specs.Parts.{puts, is_of_part};

use crate::Chunked;
use std::alloc::Global;
use std::cmp::Ordering;
use std::marker::Model;
use wb_base::{Change, KeepErr, Keeper, Key, Number, Row, Tenant};
use wb_list::{ItemRun, Memory, TryClone};

// For how many puts there is room between two calls, at most.
const AT_HAND: usize = 16;

/// A keeper of rows in memory, seen as the rows. A put moves the rows of one chunk, and a report is dropped from the
/// chunks that have rows of it. No call of it fails, but where there is no memory.
#[derive(Drop)]
pub struct RowsInMemory {
    rows: Chunked<Row>,
}

impl Model for RowsInMemory {
    ghost use Rattle.std.specs.Prelude.{List};
    ghost use Rattle.wb_base.specs.declared.rows.Row.{Row as KeptRow};

    ghost Value = { List KeptRow };

    ghost view = { λ k. k.rows.items };
}

// The rows of a kind of a report.
#[derive(Drop)]
struct PartOfReport {
    kind: u8,
    tenant: u32,
    number: u32,
}

impl ItemRun<Row> for PartOfReport {
    ghost use Rattle.std.specs.Ordering.{nat_cmp, ordering_then};

    ghost side = { λ part row. ordering_then (nat_cmp row.key.kind part.kind) (ordering_then (nat_cmp row.key.tenant part.tenant) (nat_cmp row.key.a part.number)) };

    fn side(&self, row: &Row) -> Ordering {
        let kind = row.key.kind.cmp(&self.kind);
        let tenant = row.key.tenant.cmp(&self.tenant);
        kind.then(tenant.then(row.key.a.cmp(&self.number)))
    }
}

// Drops the rows of a kind of a report.
#[tactic(auto, using(crate::proofs::ReportParts::part_dropped))]
fn drop_part(rows: &mut Chunked<Row>, kind: u8, tenant: Tenant, number: Number)
    ensures rows { rows.new.items ≡ filter (λ row. not (is_of_part kind tenant number row.key)) rows.old.items }
    ensures room { rows.old.spare ≤ rows.new.spare }
{
    let (tenant, number) = (tenant.id(), number.get());
    rows.drop_run(&PartOfReport {
        kind,
        tenant,
        number,
    });
}

// Drops the rows of a report.
fn drop_report(rows: &mut Chunked<Row>, tenant: Tenant, number: Number)
    ensures rows { rows.new.items ≡ filter (λ row. not (is_of_report tenant number row.key)) rows.old.items }
    ensures room { rows.old.spare ≤ rows.new.spare }
{
    drop_part(rows, Key::ENTRY, tenant, number);
    drop_part(rows, Key::SEALED, tenant, number);
}

// Makes a change, in room that was made for a put.
fn make(rows: &mut Chunked<Row>, change: Change)
    requires { puts (change ∷ []) ≤ rows.old.spare }
    ensures rows { rows.new.items ≡ changed rows.old.items change }
    ensures room { rows.old.spare ≤ rows.new.spare + puts (change ∷ []) }
{
    match change {
        Change::Put(row) => rows.set(row),
        Change::DropReport(tenant, number) => drop_report(rows, tenant, number),
    }
}

// Makes changes in turn, in room that was made for all of their puts.
#[tactic(auto, using(crate::proofs::PutCount::puts_first))]
fn make_all(rows: &mut Chunked<Row>, changes: Vec<Change>)
    requires { puts changes.items ≤ rows.old.spare }
    ensures { rows.new.items ≡ all_changed rows.old.items changes.items }
{
    for change in changes {
        make(rows, change);
    }
}

// The changes once more.
fn copy_of(alloc: Global, changes: &[Change]) -> Result<Vec<Change>, Memory>
    ensures { IfOk result (λ copy. copy.items ≡ changes.now) }
{
    let mut copy = Vec::new(alloc);
    for change in changes {
        copy.push(change.try_clone()?)?;
    }
    Ok(copy)
}

// 1 for a change that puts a row, and 0 for another.
fn put_in(change: &Change) -> usize
    ensures { result ≡ puts (change.now ∷ []) }
{
    match change {
        Change::Put(_) => 1,
        Change::DropReport(_, _) => 0,
    }
}

// How many changes put a row.
#[tactic(auto, using(crate::proofs::PutCount::one_put, crate::proofs::PutCount::counted_more))]
fn puts_in(changes: &[Change]) -> usize
    ensures { result ≡ puts changes.now }
{
    let mut count = 0;
    for change in changes {
        count += put_in(change);
    }
    count
}

impl RowsInMemory {
    /// A keeper of no rows yet. It takes no memory.
    pub fn new(alloc: Global) -> RowsInMemory
        ensures { result ≡ [] }
    {
        RowsInMemory {
            rows: Chunked::new(alloc),
        }
    }
}

impl Keeper for RowsInMemory {
    ghost end = { λ k. record { honest = ⊤; holds = λ rows. k ≡ rows; count = 0 } };

    fn faults(&self) -> u64 {
        0
    }

    fn load(&mut self) -> Result<Vec<Row>, KeepErr>
        ensures all { IfOk result (λ loaded. loaded.items ≡ self.old) }
        ensures ascending { IfOk result (λ loaded. IsAscending key_cmp key_of loaded.items) }
        ensures memory { IfErr result (λ fault. fault ≡ KeepErr.Memory) }
        ensures cause { KeeperHasCause 0 0 result }
        ensures state { self.new ≡ self.old }
    {
        Ok(self.rows.try_to_vec()?)
    }

    fn apply(&mut self, changes: &[Change]) -> Result<(), KeepErr>
        requires { All IsGoodChange changes.now }
        ensures memory { IfErr result (λ fault. fault ≡ KeepErr.Memory) }
        ensures cause { KeeperHasCause 0 0 result }
        ensures ok { OnOk result (self.new ≡ all_changed self.old changes.now) }
        ensures err { OnErr result (self.new ≡ self.old) }
    {
        let changes = copy_of(self.rows.allocator(), changes)?;
        self.rows.reserve(puts_in(&changes))?;
        make_all(&mut self.rows, changes);
        self.rows.trim(AT_HAND);
        Ok(())
    }
}

//! An outbox: a keeper of notices.
ghost use Rattle.std.specs.Prelude.{◌≡◌, ◌++◌, ℕ, List, map, filter, not, All, IfOk, IfErr, OnOk, OnErr};
ghost use Rattle.wb_base.specs.declared.rows.Change.TheVariants.{Put};
ghost use Rattle.wb_base.specs.declared.rows.Row.{Row as RowData};
ghost use Rattle.wb_base.specs.KeptRows.{IsGoodChange, all_changed, key_cmp, key_of};
ghost use Rattle.wb_list.specs.Keyed.{IsAscending};
ghost use Rattle.wb_model.specs.KeptRules.{AreKept};
ghost use Rattle.wb_rows.specs.Held.{held_by};
ghost use Rattle.wb_rows.specs.Openings.{tables_of, time_of};
ghost use Rattle.wb_notice.specs.Deliveries.{AreOutboxRows, Delivers, Fails, PlansDelivery, ReadsNoNotices, RefusesDelivery, Sends};
ghost use Rattle.wb_notice.specs.LiveReports.{is_among, is_on_last};
ghost use Rattle.wb_notice.specs.Notices.{notice_row as row_of};
ghost use Rattle.wb_notice.specs.Outbox as outboxes;
ghost use Rattle.wb_notice.specs.Owed.{unsealed};

use crate::Notice;
use crate::live::{LiveReport, live_reports};
use crate::notice::notice_key;
use crate::owing::{owed_notices, rows_of};
use crate::reading::read_notices;
use std::alloc::{AllocError, AllocFailed, Global};
use wb_base::{Change, KeepErr, Keeper, Key, Memory, Moment, Row};
use wb_list::{Sorted, TryClone};
use wb_rows::Tables;

/// Why a delivery was not made. The outbox is then as it was.
#[derive(Clone, Copy, Debug, PartialEq, Eq)]
pub enum NoticeNo {
    /// The outbox failed.
    Keeper,
    /// The outbox has a row that is no notice's; the least key of such a row.
    OutboxRows(Key),
    /// There was no memory.
    Memory,
}

impl From<Memory> for NoticeNo {
    ghost use Rattle.wb_notice.specs.declared.outbox.NoticeNo.TheVariants as no;

    ghost from_gives = { λ _ e. e ≡ no.Memory };

    fn from(_: Memory) -> NoticeNo {
        NoticeNo::Memory
    }
}

impl<T: Drop> From<AllocFailed<T>> for NoticeNo {
    ghost use Rattle.wb_notice.specs.declared.outbox.NoticeNo.TheVariants as no;

    ghost from_gives = { λ _ e. e ≡ no.Memory };

    fn from(_: AllocFailed<T>) -> NoticeNo {
        NoticeNo::Memory
    }
}

/// What a delivery put into an outbox: the notices, and their rows.
#[derive(Drop)]
pub(crate) struct News {
    pub notices: Vec<Notice>,
    pub rows: Vec<Row>,
}

// Whether a row of a notice's key stands.
fn stands(rows: &Sorted<Row>, notice: &Notice) -> bool
    ensures { result ≡ outboxes.stands rows.now.items (row_of notice.now).key }
{
    rows.find(&notice_key(notice)).is_some()
}

// Those of these notices of which no row stands.
fn unsent(alloc: Global, notices: &[Notice], rows: &Sorted<Row>) -> Result<Vec<Notice>, Memory>
    ensures { IfOk result (λ found. found.items ≡ filter (λ n. not (outboxes.stands rows.now.items (row_of n).key)) notices.now) }
{
    let mut found = Vec::new(alloc);
    for notice in notices {
        if !stands(rows, notice) {
            found.push(*notice)?;
        }
    }
    Ok(found)
}

// Whether a notice is on the same report as the last, where there is a last.
fn is_of_last(last: &Option<Notice>, notice: &Notice) -> bool
    ensures { result ≡ is_on_last last.now notice.now }
{
    match last {
        Some(other) => other.tenant == notice.tenant && other.number == notice.number,
        None => false,
    }
}

// Whether the report of a notice is live.
fn is_live(live: &Sorted<LiveReport>, notice: &Notice) -> bool
    ensures { result ≡ is_among live.now.items notice.now }
{
    live.find(&(notice.tenant, notice.number)).is_some()
}

// Drops the reports of these notices that are not live, each once where its notices lie side by side.
fn drops(
    alloc: Global,
    notices: &[Notice],
    live: &Sorted<LiveReport>,
) -> Result<Vec<Change>, Memory>
    ensures rows { IfOk result (λ drops. all_changed (map row_of notices.now) drops.items
        ≡ map row_of (filter (is_among live.now.items) notices.now)) }
    ensures good { IfOk result (λ drops. All IsGoodChange drops.items) }
{
    let mut drops = Vec::new(alloc);
    let mut last = None;
    for notice in notices {
        if !is_live(live, notice) && !is_of_last(&last, notice) {
            drops.push(Change::DropReport(notice.tenant, notice.number))?;
            last = Some(*notice);
        }
    }
    Ok(drops)
}

// These changes, and then the rows are put.
fn with_puts(changes: Vec<Change>, rows: &[Row]) -> Result<Vec<Change>, Memory>
    ensures { IfOk result (λ batch. batch.items ≡ changes.items ++ map Put rows.now) }
{
    let mut batch = changes;
    for row in rows {
        batch.push(Change::Put(row.try_clone()?))?;
    }
    Ok(batch)
}

/// What a delivery is to make: what is new, and the changes of the outbox.
#[derive(Drop)]
struct Plan {
    news: News,
    batch: Vec<Change>,
}

// What a delivery is to make of an outbox with these rows.
fn plan_for(
    alloc: Global,
    tables: &Tables,
    now: Moment,
    rows: &Sorted<Row>,
) -> Result<Plan, NoticeNo>
    requires { (t : ℕ) → AreKept (time_of (held_by tables.now)) tables.now.registry.lists t (tables_of (held_by tables.now) t) }
    ensures ok { IfOk result (λ plan. PlansDelivery (unsealed (held_by tables.now)) now rows.now.items plan) }
    ensures err { IfErr result (λ no. ReadsNoNotices rows.now.items no) }
{
    let held = read_notices(alloc, rows.as_slice())?;
    let live = live_reports(alloc, tables, now)?;
    let owed = owed_notices(alloc, tables, now)?;
    let notices = unsent(alloc, owed.as_slice(), rows)?;
    let new = rows_of(alloc, notices.as_slice())?;
    let drops = drops(alloc, held.as_slice(), &live)?;
    let batch = with_puts(drops, new.as_slice())?;
    Ok(Plan {
        news: News { notices, rows: new },
        batch,
    })
}

// The rows of an outbox.
fn load<B: Keeper>(outbox: &mut B) -> Result<Sorted<Row>, NoticeNo>
    ensures loaded { IfOk result (λ rows. AreOutboxRows (B.end outbox.old) (B.end outbox.new) rows.items) }
    ensures same { (B.end outbox.new).honest → (rows : List RowData) → (B.end outbox.old).holds rows → (B.end outbox.new).holds rows }
    ensures back { (B.end outbox.new).honest → (B.end outbox.old).honest }
    ensures stayed { OnOk result ((B.end outbox.new).count ≡ (B.end outbox.old).count) }
    ensures err { IfErr result (Fails (B.end outbox.old) (B.end outbox.new)) }
{
    match outbox.load() {
        Ok(rows) => Ok(Sorted::of(rows)),
        Err(KeepErr::Failed) => Err(NoticeNo::Keeper),
        Err(KeepErr::Memory) => Err(NoticeNo::Memory),
    }
}

// Makes all changes of an outbox, or none; it is left alone where there are none.
fn change<B: Keeper>(outbox: &mut B, batch: &[Change]) -> Result<(), NoticeNo>
    requires { All IsGoodChange batch.now }
    ensures ok { (B.end outbox.new).honest → (rows : List RowData) → (B.end outbox.old).holds rows → OnOk result ((B.end outbox.new).holds (all_changed rows batch.now)) }
    ensures same { (B.end outbox.new).honest → (rows : List RowData) → (B.end outbox.old).holds rows → OnErr result ((B.end outbox.new).holds rows) }
    ensures back { (B.end outbox.new).honest → (B.end outbox.old).honest }
    ensures stayed { OnOk result ((B.end outbox.new).count ≡ (B.end outbox.old).count) }
    ensures err { IfErr result (Fails (B.end outbox.old) (B.end outbox.new)) }
{
    if batch.is_empty() {
        return Ok(());
    }
    match outbox.apply(batch) {
        Ok(()) => Ok(()),
        Err(KeepErr::Failed) => Err(NoticeNo::Keeper),
        Err(KeepErr::Memory) => Err(NoticeNo::Memory),
    }
}

/// Puts a notice of today into an outbox for each that is owed and does not stand there, and takes those of reports that are
/// not live out: by one change of the outbox, or by none where nothing changes.
pub(crate) fn send<B: Keeper>(
    alloc: Global,
    tables: &Tables,
    now: Moment,
    outbox: &mut B,
) -> Result<News, NoticeNo>
    requires { (t : ℕ) → AreKept (time_of (held_by tables.now)) tables.now.registry.lists t (tables_of (held_by tables.now) t) }
    ensures ok { IfOk result (λ news. Sends (B.end outbox.old) (B.end outbox.new) (unsealed (held_by tables.now)) now news) }
    ensures delivered { (B.end outbox.new).honest → (rows : List RowData) → (B.end outbox.old).holds rows → OnOk result ((B.end outbox.new).holds (outboxes.box (unsealed (held_by tables.now)) now rows)) }
    ensures stayed { OnOk result ((B.end outbox.new).count ≡ (B.end outbox.old).count) }
    ensures err { IfErr result (RefusesDelivery (B.end outbox.old) (B.end outbox.new)) }
    ensures same { (B.end outbox.new).honest → (rows : List RowData) → (B.end outbox.old).holds rows → OnErr result ((B.end outbox.new).holds rows) }
    ensures back { (B.end outbox.new).honest → (B.end outbox.old).honest }
{
    let rows = load(outbox)?;
    let plan = plan_for(alloc, tables, now, &rows)?;
    change(outbox, plan.batch.as_slice())?;
    Ok(plan.news)
}

/// Delivers the notices that are owed at a moment to an outbox: a notice of today for each that is owed and does not stand
/// there, while those of reports that are not live go. The outbox is changed once, or left alone where nothing changes. The
/// new rows, by key.
///
/// A notice that stands is not written anew, so a delivery may be tried again. The tables are those of kept rows.
pub fn deliver<B: Keeper>(
    alloc: Global,
    tables: &Tables,
    now: Moment,
    outbox: &mut B,
) -> Result<Vec<Row>, NoticeNo>
    requires { (t : ℕ) → AreKept (time_of (held_by tables.now)) tables.now.registry.lists t (tables_of (held_by tables.now) t) }
    ensures ok { IfOk result (λ rows. Delivers (B.end outbox.old) (B.end outbox.new) (unsealed (held_by tables.now)) now rows.items) }
    ensures by_key { IfOk result (λ rows. IsAscending key_cmp key_of rows.items) }
    ensures delivered { (B.end outbox.new).honest → (rows : List RowData) → (B.end outbox.old).holds rows → OnOk result ((B.end outbox.new).holds (outboxes.box (unsealed (held_by tables.now)) now rows)) }
    ensures stayed { OnOk result ((B.end outbox.new).count ≡ (B.end outbox.old).count) }
    // Why it was not made; the outbox is then as it was.
    ensures err { IfErr result (RefusesDelivery (B.end outbox.old) (B.end outbox.new)) }
    ensures same { (B.end outbox.new).honest → (rows : List RowData) → (B.end outbox.old).holds rows → OnErr result ((B.end outbox.new).holds rows) }
    // What it tells of its rows can be relied on before where it can be after.
    ensures back { (B.end outbox.new).honest → (B.end outbox.old).honest }
{
    Ok(send(alloc, tables, now, outbox)?.rows)
}

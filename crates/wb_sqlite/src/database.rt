//! What a keeper asks of a database.
ghost use Rattle.std.specs.Prelude.{◌≡◌, [], false, List, All, IsTrue, IfOk, OnOk, OnErr};
ghost use Rattle.sqlite.specs.Held.{state};
ghost use Rattle.sqlite.specs.State.{HasCleanDisk};
ghost use Rattle.sqlite.specs.Given.{IsPlain};
ghost use Rattle.sqlite.specs.Listing.{understood};
ghost use Rattle.wb_list.specs.Keyed.{IsAscending};
ghost use Rattle.wb_base.specs.declared.rows.Row.{Row as KeptRow};
ghost use Rattle.wb_base.specs.KeptRows.{key_cmp, key_of, IsGoodChange};
ghost use Rattle.wb_sqlite.specs.Readings.{LoadsAll, Reads, IsRowOf, selection_of};
ghost use Rattle.wb_sqlite.specs.Statements.{CommitsAll, IsAsCommitted, LeavesChanged, Understands, six_texts};
ghost use Rattle.wb_sqlite.specs.Staying.{StaysAs};
ghost use Rattle.wb_stored.specs.Told.{HoldsRows};

use crate::refusal::Refusal;
use crate::statements::{expect_all, make, make_batch};
use crate::stored::{add, add_all, parted};
use crate::table::Table;
use sqlite::{Alter, Connection};
use std::alloc::Global;
use wb_base::{Change, Row};
use wb_list::Sorted;

/// Makes all changes in turn in one transaction, or none.
pub(crate) fn apply_all<S: Alter>(
    conn: &mut Connection<S>,
    changes: &[Change],
) -> Result<(), Refusal>
    requires { conn.old.in_transaction ≡ false }
    ensures idle { conn.new.in_transaction ≡ false }
    ensures clean { HasCleanDisk (state S.Store conn.new) → HasCleanDisk (state S.Store conn.old) }
    ensures back { HasCleanDisk (state S.Store conn.new) → IsTrue (state S.Store conn.new).is_open → IsTrue (state S.Store conn.old).is_open }
    ensures made { HasCleanDisk (state S.Store conn.new) → OnOk result (CommitsAll S.Store changes.now conn.old conn.new) }
    ensures kept { HasCleanDisk (state S.Store conn.new) → IsTrue (state S.Store conn.new).is_open → OnErr result (IsAsCommitted S.Store conn.old conn.new) }
    ensures crash { HasCleanDisk (state S.Store conn.new) → All IsGoodChange changes.now → (rows : List KeptRow) → HoldsRows (state S.Store conn.old) rows → LeavesChanged S.Store changes.now rows conn.old conn.new }
{
    let mut tx = conn.transaction();
    make_batch(&mut tx, changes)?;
    tx.commit()?;
    Ok(())
}

// Makes the tables that are not there, in a transaction of their own, where all statements can be made over them.
fn make_tables<S: Alter>(conn: &mut Connection<S>) -> Result<(), Refusal>
    requires { conn.old.in_transaction ≡ false }
    ensures idle { conn.new.in_transaction ≡ false }
    ensures clean { HasCleanDisk (state S.Store conn.new) → HasCleanDisk (state S.Store conn.old) }
    ensures back { HasCleanDisk (state S.Store conn.new) → IsTrue (state S.Store conn.new).is_open → IsTrue (state S.Store conn.old).is_open }
    ensures made { HasCleanDisk (state S.Store conn.new) → OnOk result (CommitsAll S.Store [] conn.old conn.new) }
    ensures understood { HasCleanDisk (state S.Store conn.new) → OnOk result (Understands S.Store conn.new six_texts) }
    ensures kept { HasCleanDisk (state S.Store conn.new) → IsTrue (state S.Store conn.new).is_open → OnErr result (IsAsCommitted S.Store conn.old conn.new) }
{
    let mut tx = conn.transaction();
    make(&mut tx)?;
    expect_all(&mut tx)?;
    tx.commit()?;
    Ok(())
}

// Adds the rows of a table, one at a time.
fn read<S: Alter>(
    alloc: Global,
    conn: &mut Connection<S>,
    table: Table,
    rows: &mut Sorted<Row>,
) -> Result<(), Refusal>
    requires { conn.old.in_transaction ≡ false }
    ensures idle { conn.new.in_transaction ≡ false }
    ensures clean { HasCleanDisk (state S.Store conn.new) → HasCleanDisk (state S.Store conn.old) }
    ensures back { HasCleanDisk (state S.Store conn.new) → IsTrue (state S.Store conn.new).is_open → IsTrue (state S.Store conn.old).is_open }
    ensures stays { HasCleanDisk (state S.Store conn.new) → IsPlain (understood (state S.Store conn.old).now.schema (selection_of table)) → StaysAs (state S.Store conn.old) (state S.Store conn.new) }
    ensures read { HasCleanDisk (state S.Store conn.new) → OnOk result (Reads S.Store (IsRowOf table) (selection_of table) conn.old conn.new rows.old.items rows.new.items) }
{
    let mut given = conn.query(table.selection(), &[])?;
    for _ in 0..u64::MAX {
        given.advance()?;
        match given.get() {
            Some(row) => add(rows, table.kept_row(alloc, row)?)?,
            None => return Ok(()),
        }
    }
    Err(Refusal::FAULT)
}

/// All rows, by ascending key.
pub(crate) fn load_all<S: Alter>(
    alloc: Global,
    conn: &mut Connection<S>,
) -> Result<Vec<Row>, Refusal>
    requires { conn.old.in_transaction ≡ false }
    ensures idle { conn.new.in_transaction ≡ false }
    ensures clean { HasCleanDisk (state S.Store conn.new) → HasCleanDisk (state S.Store conn.old) }
    ensures back { HasCleanDisk (state S.Store conn.new) → IsTrue (state S.Store conn.new).is_open → IsTrue (state S.Store conn.old).is_open }
    ensures ascending { IfOk result (λ rows. IsAscending key_cmp key_of rows.items) }
    ensures loads { HasCleanDisk (state S.Store conn.new) → IfOk result (λ rows. LoadsAll S.Store conn.old conn.new rows.items) }
    ensures same { HasCleanDisk (state S.Store conn.new) → IsTrue (state S.Store conn.new).is_open → (rows : List KeptRow) → HoldsRows (state S.Store conn.old) rows → HoldsRows (state S.Store conn.new) rows }
    ensures all { HasCleanDisk (state S.Store conn.new) → IsTrue (state S.Store conn.new).is_open → (rows : List KeptRow) → HoldsRows (state S.Store conn.old) rows → IfOk result (λ loaded. loaded.items ≡ rows) }
{
    make_tables(conn)?;
    let mut records = Sorted::new(alloc);
    read(alloc, conn, Table::Record, &mut records)?;
    let (mut rows, high) = parted(records)?;
    read(alloc, conn, Table::Sealed, &mut rows)?;
    add_all(&mut rows, high)?;
    Ok(rows.into_vec())
}

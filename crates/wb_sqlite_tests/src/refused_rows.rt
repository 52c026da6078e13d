//! Databases that no keeper made: one that refuses a row, and rows of kinds that there are not.

use crate::rows::{entry, put, shown};
use sqlite::{Connection, MemStore};
use std::alloc::Global;
use std::test::Fail;
use wb_base::{Change, KeepErr, Keeper, Number, Tenant};
use wb_sqlite::SqlKeeper;

const RECORD: &str =
    "CREATE TABLE record (kind INTEGER NOT NULL, tenant INTEGER NOT NULL, a INTEGER NOT NULL, b INTEGER NOT NULL, body TEXT NOT NULL, PRIMARY KEY (kind, tenant, a, b))";

const SEALED: &str =
    "CREATE TABLE sealed (tenant INTEGER NOT NULL, a INTEGER NOT NULL, body TEXT NOT NULL, PRIMARY KEY (tenant, a))";

// A keeper over a database that these statements make.
fn keeper_of(alloc: Global, statements: &[&str]) -> Result<SqlKeeper<MemStore>, Fail> {
    let mut conn = Connection::open_in_memory(alloc)?;
    for statement in statements {
        conn.execute(statement, &[])?;
    }
    if !conn.is_autocommit() {
        return Err(Fail::from("a transaction is open"));
    }
    Ok(SqlKeeper::over(alloc, conn))
}

#[test]
fn changes_of_which_the_database_refuses_one_are_not_made(rt: HostRuntime) -> Result<(), Fail> {
    let alloc = rt.alloc();
    let checked = RECORD.replace(
        alloc,
        "body TEXT NOT NULL",
        "body TEXT NOT NULL CHECK (body <> 'bad')",
    )?;
    let mut keeper = keeper_of(alloc, &[&checked, SEALED])?;
    let (Some(tenant), Some(number)) = (Tenant::try_new(1), Number::try_new(2)) else {
        return Err(Fail::from("a report"));
    };
    put(&rt, alloc, &mut keeper, (6, 1, 2, 1), "first")?;
    put(&rt, alloc, &mut keeper, (7, 1, 2, 0), "sealed")?;
    let changes = [
        entry(alloc, 2, "second")?,
        Change::DropReport(tenant, number),
        entry(alloc, 3, "bad")?,
    ];
    assert_eq!(rt; keeper.apply(&changes), Err(KeepErr::Failed));
    assert_eq!(rt; keeper.faults(), 1);
    assert_eq!(rt;
        shown(alloc, &mut keeper)?.as_str(),
        "6 1 2 1 first\n7 1 2 0 sealed\n"
    );
    put(&rt, alloc, &mut keeper, (6, 1, 2, 2), "second")?;
    assert_eq!(rt; keeper.faults(), 1);
    Ok(())
}

#[test]
fn rows_of_kinds_that_there_are_not_stand_behind_sealed_answers(
    rt: HostRuntime,
) -> Result<(), Fail> {
    let alloc = rt.alloc();
    let entry = "INSERT INTO record VALUES (6, 1, 2, 1, 'entry')";
    let sealed = "INSERT INTO sealed VALUES (1, 2, 'sealed')";
    for (kinds, rows) in [
        (
            "INSERT INTO record VALUES (255, 0, 0, 0, 'last'), (8, 1, 2, 0, 'eight')",
            "6 1 2 1 entry\n7 1 2 0 sealed\n8 1 2 0 eight\n255 0 0 0 last\n",
        ),
        ("INSERT INTO record VALUES (7, 1, 3, 0, 'seven')", "failed"),
        ("INSERT INTO record VALUES (300, 1, 2, 0, 'none')", "failed"),
        ("INSERT INTO record VALUES (-1, 1, 2, 0, 'none')", "failed"),
    ] {
        let mut keeper = keeper_of(alloc, &[RECORD, SEALED, entry, sealed, kinds])?;
        assert_eq!(rt; shown(alloc, &mut keeper)?.as_str(), rows);
    }
    Ok(())
}

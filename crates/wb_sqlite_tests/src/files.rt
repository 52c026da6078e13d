//! Keepers over files: what one leaves that is closed, and what a host leaves that is killed as its file is made.

use crate::rows::{put, shown};
use sqlite::{File, FileStore, Unknown};
use std::fs;
use std::test::Fail;
use wb_base::{Keeper, Text};
use wb_sqlite::{PathKeeper, SqlKeeper};

// A keeper over the file at a path, which is open.
fn keeper_over(rt: &HostRuntime, path: &str) -> Result<SqlKeeper<FileStore<File>>, Fail> {
    match SqlKeeper::over_file(rt, path, Unknown) {
        Ok(keeper) => Ok(keeper),
        Err(_) => Err(Fail::from("an open")),
    }
}

#[test]
fn a_keeper_that_is_closed_leaves_its_rows_in_the_file(rt: HostRuntime) -> Result<(), Fail> {
    let alloc = rt.alloc();
    let mut first = keeper_over(&rt, "closed_rows.db")?;
    put(&rt, alloc, &mut first, (6, 1, 2, 1), "first")?;
    put(&rt, alloc, &mut first, (7, 1, 2, 0), "sealed")?;
    assert!(rt; first.close().is_ok());
    fs::copy(&rt, "closed_rows.db", "closed_rows_copy.db")?;
    let mut again = keeper_over(&rt, "closed_rows_copy.db")?;
    assert_eq!(rt;
        shown(alloc, &mut again)?.as_str(),
        "6 1 2 1 first\n7 1 2 0 sealed\n"
    );
    assert!(rt; SqlKeeper::over_file(&rt, ".", Unknown).is_err());
    Ok(())
}

#[test]
fn a_file_that_was_being_made_as_the_host_was_killed_is_made_anew(
    rt: HostRuntime,
) -> Result<(), Fail> {
    let alloc = rt.alloc();
    fs::write(&rt, "begun.db", "\0")?;
    fs::write(&rt, "begun.db-wal", [0u8; 41].as_slice())?;
    let mut keeper = PathKeeper::new(&rt, Text::from_str(alloc, "begun.db")?);
    assert_eq!(rt; shown(alloc, &mut keeper)?.as_str(), "");
    put(&rt, alloc, &mut keeper, (6, 1, 2, 1), "first")?;
    assert_eq!(rt; keeper.faults(), 0);
    Ok(())
}

//! What changes make of the two tables, seen in the rows that are read.

use crate::rows::{entry, shown};
use std::test::Fail;
use wb_base::{Change, Keeper, Number, Tenant};
use wb_sqlite::SqlKeeper;

#[test]
fn changes_are_made_in_turn(rt: HostRuntime) -> Result<(), Fail> {
    let alloc = rt.alloc();
    let mut keeper = SqlKeeper::in_memory(alloc)?;
    let (Some(tenant), Some(number)) = (Tenant::try_new(1), Number::try_new(2)) else {
        return Err(Fail::from("a report"));
    };
    let changes = [
        entry(alloc, 1, "before")?,
        Change::DropReport(tenant, number),
        entry(alloc, 4294967295, "it's \"new\" \u{e9}")?,
        entry(alloc, 0, "old")?,
        entry(alloc, 0, "new")?,
    ];
    assert_eq!(rt; keeper.apply(&changes), Ok(()));
    assert_eq!(rt;
        shown(alloc, &mut keeper)?.as_str(),
        "6 1 2 0 new\n6 1 2 4294967295 it's \"new\" \u{e9}\n"
    );
    assert_eq!(rt; keeper.apply(&[]), Ok(()));
    assert_eq!(rt; keeper.faults(), 0);
    Ok(())
}

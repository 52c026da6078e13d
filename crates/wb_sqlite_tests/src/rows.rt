//! Changes as literals, and the rows of a keeper as a text.

ghost use Rattle.std.specs.Prelude.{IfOk};
ghost use Rattle.wb_base.specs.KeptRows.{IsGoodChange};

use std::alloc::Global;
use std::process::Abort;
use std::test::Fail;
use wb_base::{Change, KeepErr, Keeper, Key, Row, Text};

/// An entry of the trail of report 2 of tenant 1.
pub(crate) fn entry(alloc: Global, place: u32, text: &str) -> Result<Change, Fail>
    ensures { IfOk result IsGoodChange }
{
    let key = Key {
        kind: 6,
        tenant: 1,
        a: 2,
        b: place,
    };
    let text = Text::from_str(alloc, text)?;
    Ok(Change::Put(Row { key, text }))
}

/// Sets the text under a key, given as kind, tenant, a and b.
pub(crate) fn put<K: Keeper>(
    rt: &impl Abort,
    alloc: Global,
    keeper: &mut K,
    key: (u8, u32, u32, u32),
    text: &str,
) -> Result<(), Fail> {
    let (kind, tenant, a, b) = key;
    assert!(rt; kind <= 6 || kind == 7 && b == 0);
    let key = Key { kind, tenant, a, b };
    let text = Text::from_str(alloc, text)?;
    assert_eq!(rt; keeper.apply(&[Change::Put(Row { key, text })]), Ok(()));
    Ok(())
}

/// What `load` answers, one line a row: kind, tenant, a, b and the text.
pub(crate) fn shown<K: Keeper>(alloc: Global, keeper: &mut K) -> Result<String, Fail> {
    let rows = match keeper.load() {
        Ok(rows) => rows,
        Err(KeepErr::Memory) => return Ok(String::from_str(alloc, "memory")?),
        Err(KeepErr::Failed) => return Ok(String::from_str(alloc, "failed")?),
    };
    let mut text = String::new(alloc);
    for row in &rows {
        let Key { kind, tenant, a, b } = row.key;
        let words = row.text.as_str();
        let line = format!(in alloc; "{kind} {tenant} {a} {b} {words}\n")?;
        text.push_str(line.as_str())?;
    }
    Ok(text)
}

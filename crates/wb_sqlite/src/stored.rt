//! Stored rows as rows of a keeper.
ghost use Rattle.std.specs.Prelude.{◌≡◌, ◌++◌, ◌∷◌, [], IfOk, OnOk};
ghost use Rattle.sqlite_value.specs.declared.value.Value.TheVariants.{Int, Text as Words};
ghost use Rattle.sqlite_value.specs.Order.{column};
ghost use Rattle.std.specs.Prelude.{pos};
ghost use Rattle.wb_stored.specs.StoredRows.{IsRecordRow, IsSealedRow};

use crate::refusal::Refusal;
use sqlite::Row as Stored;
use sqlite::types::ValueRef;
use std::alloc::Global;
use wb_base::{Key, Row, Text, TextFault};
use wb_list::Sorted;
use wb_stored::is_sealed;

// The number in a column, where it fits.
fn number_at(row: &Stored, at: usize) -> Result<u32, Refusal>
    ensures { IfOk result (λ number. column row.now at ≡ Int (pos number)) }
{
    Ok(row.get(at)?)
}

// The text in a column.
fn text_at(alloc: Global, row: &Stored, at: usize) -> Result<Text, Refusal>
    ensures { IfOk result (λ text. column row.now at ≡ Words text) }
{
    match row.get_ref(at)? {
        ValueRef::Text(bytes) => match Text::copy(alloc, bytes) {
            Ok(text) => Ok(text),
            Err(TextFault::Memory) => Err(Refusal::MEMORY),
            Err(TextFault::NotUtf8) => Err(Refusal::FAULT),
        },
        _ => Err(Refusal::FAULT),
    }
}

/// The row of a stored row of `record`, which holds all kinds but 7.
pub(crate) fn record_row(alloc: Global, row: &Stored) -> Result<Row, Refusal>
    ensures { IfOk result (λ kept. IsRecordRow row.now kept) }
{
    let Ok(kind) = u8::try_from(number_at(row, 0)?) else {
        return Err(Refusal::FAULT);
    };
    if is_sealed(kind) {
        return Err(Refusal::FAULT);
    }
    let key = Key {
        kind,
        tenant: number_at(row, 1)?,
        a: number_at(row, 2)?,
        b: number_at(row, 3)?,
    };
    Ok(Row {
        key,
        text: text_at(alloc, row, 4)?,
    })
}

/// The row of a stored row of `sealed`.
pub(crate) fn sealed_row(alloc: Global, row: &Stored) -> Result<Row, Refusal>
    ensures { IfOk result (λ kept. IsSealedRow row.now kept) }
{
    let key = Key {
        kind: Key::SEALED,
        tenant: number_at(row, 0)?,
        a: number_at(row, 1)?,
        b: 0,
    };
    Ok(Row {
        key,
        text: text_at(alloc, row, 2)?,
    })
}

/// Puts a row behind all others, where its key is above theirs.
pub(crate) fn add(rows: &mut Sorted<Row>, row: Row) -> Result<(), Refusal>
    ensures { OnOk result (rows.new.items ≡ rows.old.items ++ row ∷ []) }
{
    if !rows.ends_below(&row) {
        return Err(Refusal::FAULT);
    }
    rows.reserve(1)?;
    rows.push(row);
    Ok(())
}

/// Puts rows behind all others in turn, where the key of each is above theirs.
pub(crate) fn add_all(rows: &mut Sorted<Row>, behind: Vec<Row>) -> Result<(), Refusal>
    ensures { OnOk result (rows.new.items ≡ rows.old.items ++ behind.items) }
{
    for row in behind {
        add(rows, row)?;
    }
    Ok(())
}

/// The rows of kinds below that of sealed answers, and those behind them.
pub(crate) fn parted(rows: Sorted<Row>) -> Result<(Sorted<Row>, Vec<Row>), Refusal>
    ensures { IfOk result (λ parts. rows.items ≡ parts.0.items ++ parts.1.items) }
{
    let mut rows = rows.into_vec();
    let at = rows.partition_point(|row| row.key.kind < Key::SEALED);
    let Ok(high) = rows.split_off(at) else {
        return Err(Refusal::MEMORY);
    };
    Ok((Sorted::of(rows), high))
}

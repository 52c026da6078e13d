//! Kept rows, each with its key and its compact text (RFC 8259).
ghost use Rattle.std.specs.Prelude.{◌≡◌, IfOk};
ghost use Rattle.serde_json.specs.View.{view};
ghost use Rattle.wb_model.specs.Json.{answers_data};
ghost use Rattle.wb_model.specs.Rows.{row, format_data, format_row as format_row_of, numbering_data, entry_data};

use crate::entries::entry_value;
use serde_json::{Map, Value};
use std::alloc::Global;
use wb_base::{Answers, Key, Memory, Number, Row, Tenant};
use wb_json::{answers_value, put_whole, text_of};
use wb_model::{Entry, Numbering};

// The JSON value of a numbering.
#[tactic(auto, unfolding(wb_model::specs::Rows::numbering_data))]
fn numbering_value(alloc: Global, numbering: &Numbering) -> Result<Value, Memory>
    ensures { IfOk result (λ value. view value ≡ numbering_data numbering.now) }
{
    let mut map = Map::new(alloc);
    put_whole(&mut map, alloc, "last", numbering.last as u64)?;
    put_whole(&mut map, alloc, "drawn", numbering.drawn as u64)?;
    put_whole(&mut map, alloc, "at", numbering.at.seconds())?;
    Ok(Value::Object(map))
}

// The JSON value of the format.
#[tactic(auto, unfolding(wb_model::specs::Rows::format_data))]
fn format_value(alloc: Global) -> Result<Value, Memory>
    ensures { IfOk result (λ value. view value ≡ format_data) }
{
    let mut map = Map::new(alloc);
    put_whole(&mut map, alloc, "format", 2)?;
    Ok(Value::Object(map))
}

/// The row that says that rows are of format 2, of kind 0.
pub fn format_row(alloc: Global) -> Result<Row, Memory>
    ensures { IfOk result (λ kept. kept ≡ format_row_of) }
{
    let value = format_value(alloc)?;
    Ok(Row {
        key: Key {
            kind: Key::FORMAT,
            tenant: 0,
            a: 0,
            b: 0,
        },
        text: text_of(alloc, &value)?,
    })
}

/// The row of a tenant's numbering, of kind 2.
pub fn numbering_row(alloc: Global, tenant: Tenant, numbering: &Numbering) -> Result<Row, Memory>
    ensures { IfOk result (λ kept. kept ≡ row 2 tenant 0 0 (numbering_data numbering.now)) }
{
    let value = numbering_value(alloc, numbering)?;
    Ok(Row {
        key: Key {
            kind: Key::NUMBERING,
            tenant: tenant.id(),
            a: 0,
            b: 0,
        },
        text: text_of(alloc, &value)?,
    })
}

/// The row of the entry at a place, counted from 1, of a report's trail, of kind 6.
pub fn entry_row(
    alloc: Global,
    tenant: Tenant,
    number: Number,
    at: u32,
    entry: &Entry,
) -> Result<Row, Memory>
    ensures { IfOk result (λ kept. kept ≡ row 6 tenant number at (entry_data entry.now)) }
{
    let value = entry_value(alloc, entry)?;
    Ok(Row {
        key: Key {
            kind: Key::ENTRY,
            tenant: tenant.id(),
            a: number.get(),
            b: at,
        },
        text: text_of(alloc, &value)?,
    })
}

/// The row of a report's identity answers, of kind 7.
pub fn sealed_row(
    alloc: Global,
    tenant: Tenant,
    number: Number,
    answers: &Answers,
) -> Result<Row, Memory>
    ensures { IfOk result (λ kept. kept ≡ row 7 tenant number 0 (answers_data answers.now)) }
{
    let value = answers_value(alloc, answers.as_slice())?;
    Ok(Row {
        key: Key {
            kind: Key::SEALED,
            tenant: tenant.id(),
            a: number.get(),
            b: 0,
        },
        text: text_of(alloc, &value)?,
    })
}

//! The bodies that list rows: a recipient's reports, what is due on them, and a tenant's requests for identities.
ghost use Rattle.std.specs.Prelude.{◌≡◌, IfOk};
ghost use Rattle.serde_json.specs.Data.{Data};
ghost use Rattle.serde_json.specs.View.{view};
ghost use Rattle.serde_json.specs.Written.{compact_text};
ghost use Rattle.wb_model.specs.Json.{list_of};
ghost use Rattle.wb_model.specs.ListViews as views;

use serde_json::{Map, Value};
use std::alloc::Global;
use wb_base::{Day, Memory, Text};
use wb_json::{
    kind_name, put_date, put_flag, put_text, put_value, put_whole, put_whole_or_null, state_name,
    status_name, text_of,
};
use wb_model::{Custodied, Due, Listed};

// What a list shows as it is.
trait Row {
    ghost json: { Self → Data };

    // Its object.
    fn object(&self, alloc: Global) -> Result<Value, Memory>
        ensures { IfOk result (λ value. view value ≡ json self.now) };
}

impl Row for Listed {
    ghost json = { views.listed_data };

    fn object(&self, alloc: Global) -> Result<Value, Memory> {
        let mut map = Map::new(alloc);
        put_text(&mut map, alloc, "status", status_name(self.status))?;
        put_date(&mut map, alloc, "received", self.received)?;
        put_whole(&mut map, alloc, "number", self.number as u64)?;
        put_text(&mut map, alloc, "label", self.label.as_str())?;
        put_date(&mut map, alloc, "expires", self.expires)?;
        put_whole(&mut map, alloc, "context", self.context as u64)?;
        put_date(&mut map, alloc, "ack_due", self.ack_due)?;
        Ok(Value::Object(map))
    }
}

impl Row for Custodied {
    ghost json = { views.custodied_data };

    fn object(&self, alloc: Global) -> Result<Value, Memory> {
        let mut map = Map::new(alloc);
        put_text(&mut map, alloc, "state", state_name(self.state))?;
        put_text(&mut map, alloc, "reason", self.reason.as_str())?;
        put_whole(&mut map, alloc, "number", self.number as u64)?;
        put_whole(&mut map, alloc, "id", self.id as u64)?;
        put_whole_or_null(&mut map, alloc, "effective", self.effective)?;
        put_whole(&mut map, alloc, "by", self.by.id() as u64)?;
        Ok(Value::Object(map))
    }
}

// The array of rows.
fn rows_value<T: Row>(alloc: Global, rows: &[T]) -> Result<Value, Memory>
    ensures { IfOk result (λ value. view value ≡ list_of T.json rows.now) }
{
    let mut values = Vec::new(alloc);
    for row in rows {
        values.push(row.object(alloc)?)?;
    }
    Ok(Value::Array(values))
}

// The JSON value of a list of reports.
#[tactic(auto, unfolding(wb_model::specs::ListViews::list_view))]
fn list_body(alloc: Global, rows: &[Listed]) -> Result<Value, Memory>
    ensures { IfOk result (λ value. view value ≡ views.list_view rows.now) }
{
    let reports = rows_value(alloc, rows)?;
    let mut map = Map::new(alloc);
    put_value(&mut map, alloc, "reports", reports)?;
    Ok(Value::Object(map))
}

/// The body that lists the reports that a recipient reads.
pub fn list_view(alloc: Global, rows: &[Listed]) -> Result<Text, Memory>
    ensures { IfOk result (λ text. text ≡ compact_text (views.list_view rows.now)) }
{
    let value = list_body(alloc, rows)?;
    text_of(alloc, &value)
}

// The object of what is due, which is over once today is after its day.
fn due_value(alloc: Global, today: Day, row: &Due) -> Result<Value, Memory>
    ensures { IfOk result (λ value. view value ≡ views.due_data today row.now) }
{
    let mut map = Map::new(alloc);
    put_flag(&mut map, alloc, "over", row.day.days() < today.days())?;
    put_whole(&mut map, alloc, "number", row.number as u64)?;
    put_text(&mut map, alloc, "kind", kind_name(row.kind))?;
    put_date(&mut map, alloc, "day", row.day)?;
    Ok(Value::Object(map))
}

// The array of what is due.
fn due_values(alloc: Global, today: Day, rows: &[Due]) -> Result<Value, Memory>
    ensures { IfOk result (λ value. view value ≡ list_of (views.due_data today) rows.now) }
{
    let mut values = Vec::new(alloc);
    for row in rows {
        values.push(due_value(alloc, today, row)?)?;
    }
    Ok(Value::Array(values))
}

// The JSON value of what is due.
#[tactic(auto, unfolding(wb_model::specs::ListViews::due_view))]
fn due_body(alloc: Global, rows: &[Due], today: Day) -> Result<Value, Memory>
    ensures { IfOk result (λ value. view value ≡ views.due_view rows.now today) }
{
    let due = due_values(alloc, today, rows)?;
    let mut map = Map::new(alloc);
    put_date(&mut map, alloc, "today", today)?;
    put_value(&mut map, alloc, "due", due)?;
    Ok(Value::Object(map))
}

/// The body that lists what is due on the reports that a recipient reads, with the tenant's day.
pub fn due_view(alloc: Global, rows: &[Due], today: Day) -> Result<Text, Memory>
    ensures { IfOk result (λ text. text ≡ compact_text (views.due_view rows.now today)) }
{
    let value = due_body(alloc, rows, today)?;
    text_of(alloc, &value)
}

// The JSON value of a tenant's requests for identities.
#[tactic(auto, unfolding(wb_model::specs::ListViews::custody_view))]
fn custody_body(alloc: Global, rows: &[Custodied]) -> Result<Value, Memory>
    ensures { IfOk result (λ value. view value ≡ views.custody_view rows.now) }
{
    let requests = rows_value(alloc, rows)?;
    let mut map = Map::new(alloc);
    put_value(&mut map, alloc, "requests", requests)?;
    Ok(Value::Object(map))
}

/// The body that lists a tenant's requests for identities.
pub fn custody_view(alloc: Global, rows: &[Custodied]) -> Result<Text, Memory>
    ensures { IfOk result (λ text. text ≡ compact_text (views.custody_view rows.now)) }
{
    let value = custody_body(alloc, rows)?;
    text_of(alloc, &value)
}

//! The JSON values of the parts of a form.
ghost use Rattle.std.specs.Prelude.{◌≡◌, IfOk, OnOk, codes, option_map, map as map_over};
ghost use Rattle.serde_json.specs.Data.{put, string, boolean, number, unsigned, array, object, no_members, Data};
ghost use Rattle.serde_json.specs.View.{view, members_view, items_of};
ghost use Rattle.wb_base.specs.FormJson.{option_data, cond_data, conds_data, part_data, parts_data, score_members, put_kind as kind_put, put_some, plain_show, weighed_show, show_in, field_in, step_in, form_in, kind_name as name_of};
ghost use Rattle.wb_base.specs.FormFields.{parts_of};
ghost use Rattle.wb_base.specs.FormParts.{part_at};
ghost use Rattle.wb_base.specs.declared.form.Format.{Format as FormatOf};

use serde_json::{Map, Value};
use std::alloc::Global;
use wb_base::{Choice, Cond, Field, FieldKind, Form, Format, Memory, PartOf, Step, Trigger};

fn put_text(
    map: &mut Map<String, Value>,
    alloc: Global,
    key: &str,
    text: &str,
) -> Result<(), Memory>
    ensures { OnOk result (members_view map.new.entries ≡ put key.now (string text.now) (members_view map.old.entries)) }
{
    let text = Value::try_from_str(alloc, text)?;
    serde_json::put(map, alloc, key, text)?;
    Ok(())
}

fn put_flag(
    map: &mut Map<String, Value>,
    alloc: Global,
    key: &str,
    flag: bool,
) -> Result<(), Memory>
    ensures { OnOk result (members_view map.new.entries ≡ put key.now (boolean flag) (members_view map.old.entries)) }
{
    serde_json::put(map, alloc, key, Value::Bool(flag))?;
    Ok(())
}

fn put_whole(
    map: &mut Map<String, Value>,
    alloc: Global,
    key: &str,
    whole: u64,
) -> Result<(), Memory>
    ensures { OnOk result (members_view map.new.entries ≡ put key.now (number (unsigned whole)) (members_view map.old.entries)) }
{
    serde_json::put(map, alloc, key, Value::from(whole))?;
    Ok(())
}

fn put_value(
    map: &mut Map<String, Value>,
    alloc: Global,
    key: &str,
    value: Value,
) -> Result<(), Memory>
    ensures { OnOk result (members_view map.new.entries ≡ put key.now (view value) (members_view map.old.entries)) }
{
    serde_json::put(map, alloc, key, value)?;
    Ok(())
}

/// What has a JSON value.
pub trait Showing {
    /// Its JSON value in a format.
    ghost json: { FormatOf → Self → Data };

    /// Its JSON value in a format.
    fn to_value(&self, alloc: Global, format: Format) -> Result<Value, Memory>
        ensures { IfOk result (λ v. view v ≡ json format self.now) };
}

fn list_value<T: Showing>(alloc: Global, format: Format, items: &[T]) -> Result<Value, Memory>
    ensures { IfOk result (λ v. view v ≡ array (items_of (map_over (T.json format) items.now))) }
{
    let mut values = Vec::new(alloc);
    for item in items {
        values.push(item.to_value(alloc, format)?)?;
    }
    Ok(Value::Array(values))
}

impl Showing for Choice {
    ghost json = { λ format. option_data };

    fn to_value(&self, alloc: Global, _: Format) -> Result<Value, Memory> {
        let mut map = Map::new(alloc);
        put_text(&mut map, alloc, "id", self.id.as_str())?;
        put_text(&mut map, alloc, "label", self.label.as_str())?;
        Ok(Value::Object(map))
    }
}

impl Showing for Cond {
    ghost json = { λ format. cond_data };

    fn to_value(&self, alloc: Global, _: Format) -> Result<Value, Memory> {
        let mut map = Map::new(alloc);
        put_text(&mut map, alloc, "field", self.field.as_str())?;
        put_text(&mut map, alloc, "option", self.option.as_str())?;
        Ok(Value::Object(map))
    }
}

fn put_options(
    map: &mut Map<String, Value>,
    alloc: Global,
    options: &[Choice],
) -> Result<(), Memory>
    ensures { OnOk result (members_view map.new.entries ≡ put (codes "options") (array (items_of (map_over option_data options.now))) (members_view map.old.entries)) }
{
    let options = list_value(alloc, Format::Plain, options)?;
    put_value(map, alloc, "options", options)
}

fn put_kind(map: &mut Map<String, Value>, alloc: Global, kind: &FieldKind) -> Result<(), Memory>
    ensures { OnOk result (members_view map.new.entries ≡ kind_put kind.now (members_view map.old.entries)) }
{
    match kind {
        FieldKind::Text { max } => put_whole(map, alloc, "max", *max as u64),
        FieldKind::Choice { options } => put_options(map, alloc, options.as_slice()),
        FieldKind::Multi { options } => put_options(map, alloc, options.as_slice()),
        _ => Ok(()),
    }
}

fn one_member(alloc: Global, key: &str, value: Value) -> Result<Value, Memory>
    ensures { IfOk result (λ v. view v ≡ object (put key.now (view value) no_members)) }
{
    let mut map = Map::new(alloc);
    put_value(&mut map, alloc, key, value)?;
    Ok(Value::Object(map))
}

fn part_value(alloc: Global, part: &PartOf) -> Result<Value, Memory>
    ensures { IfOk result (λ v. view v ≡ part_data (part_at part.now)) }
{
    let mut map = Map::new(alloc);
    put_text(&mut map, alloc, "field", part.field.as_str())?;
    put_text(&mut map, alloc, "option", part.option.as_str())?;
    put_whole(&mut map, alloc, "points", part.points as u64)?;
    Ok(Value::Object(map))
}

fn parts_value(alloc: Global, show: &Trigger) -> Result<Value, Memory>
    ensures { IfOk result (λ v. view v ≡ parts_data (parts_of show.now)) }
{
    let mut values = Vec::new(alloc);
    for at in 0..show.len() {
        values.push(part_value(alloc, &show.part(at))?)?;
    }
    Ok(Value::Array(values))
}

fn conds_value(alloc: Global, key: &str, conds: &[Cond]) -> Result<Value, Memory>
    ensures { IfOk result (λ v. view v ≡ object (put key.now (conds_data conds.now) no_members)) }
{
    let conds = list_value(alloc, Format::Plain, conds)?;
    one_member(alloc, key, conds)
}

// What a trigger wants.
fn score_map(alloc: Global, show: &Trigger) -> Result<Map<String, Value>, Memory>
    ensures { IfOk result (λ map. members_view map.entries ≡ score_members show.now) }
{
    let parts = parts_value(alloc, show)?;
    let mut map = Map::new(alloc);
    put_whole(&mut map, alloc, "least", show.least() as u64)?;
    put_value(&mut map, alloc, "parts", parts)?;
    Ok(map)
}

fn plain_value(alloc: Global, show: &Trigger) -> Result<Option<Value>, Memory>
    ensures { IfOk result (λ o. option_map view o ≡ plain_show show.now) }
{
    Ok(match show {
        Trigger::Always => None,
        Trigger::Any(conds) => Some(conds_value(alloc, "any", conds.as_slice())?),
        Trigger::All(conds) => Some(conds_value(alloc, "all", conds.as_slice())?),
        Trigger::Score { .. } => {
            let score = score_map(alloc, show)?;
            Some(one_member(alloc, "score", Value::Object(score))?)
        }
    })
}

fn kept_value(alloc: Global, show: &Trigger) -> Result<Option<Value>, Memory>
    ensures { IfOk result (λ o. option_map view o ≡ weighed_show show.now) }
{
    let mode = match show {
        Trigger::Always => return Ok(None),
        Trigger::Any(_) => "any",
        Trigger::All(_) => "all",
        Trigger::Score { .. } => "score",
    };
    let mut map = score_map(alloc, show)?;
    put_text(&mut map, alloc, "mode", mode)?;
    Ok(Some(Value::Object(map)))
}

fn show_value(alloc: Global, format: Format, show: &Trigger) -> Result<Option<Value>, Memory>
    ensures { IfOk result (λ o. option_map view o ≡ show_in format show.now) }
{
    match format {
        Format::Plain => plain_value(alloc, show),
        Format::Weighed => kept_value(alloc, show),
    }
}

fn put_show(
    map: &mut Map<String, Value>,
    alloc: Global,
    format: Format,
    show: &Trigger,
) -> Result<(), Memory>
    ensures { OnOk result (members_view map.new.entries ≡ put_some (codes "show") (show_in format show.now) (members_view map.old.entries)) }
{
    match show_value(alloc, format, show)? {
        Some(value) => put_value(map, alloc, "show", value),
        None => Ok(()),
    }
}

fn kind_name<'a>(kind: &FieldKind) -> &'a str
    ensures { result.now ≡ name_of kind.now }
{
    match kind {
        FieldKind::Text { .. } => "text",
        FieldKind::Choice { .. } => "choice",
        FieldKind::Multi { .. } => "multi",
        FieldKind::Date => "date",
        FieldKind::Check => "check",
        FieldKind::Whole => "whole",
        FieldKind::File => "file",
    }
}

impl Showing for Field {
    ghost json = { field_in };

    fn to_value(&self, alloc: Global, format: Format) -> Result<Value, Memory> {
        let mut map = Map::new(alloc);
        put_text(&mut map, alloc, "id", self.id.as_str())?;
        put_flag(&mut map, alloc, "identity", self.identity)?;
        put_text(&mut map, alloc, "kind", kind_name(&self.kind))?;
        put_text(&mut map, alloc, "label", self.label.as_str())?;
        put_flag(&mut map, alloc, "required", self.required)?;
        put_kind(&mut map, alloc, &self.kind)?;
        put_show(&mut map, alloc, format, &self.show)?;
        Ok(Value::Object(map))
    }
}

impl Showing for Step {
    ghost json = { step_in };

    fn to_value(&self, alloc: Global, format: Format) -> Result<Value, Memory> {
        let fields = list_value(alloc, format, self.fields.as_slice())?;
        let mut map = Map::new(alloc);
        put_value(&mut map, alloc, "fields", fields)?;
        put_text(&mut map, alloc, "title", self.title.as_str())?;
        Ok(Value::Object(map))
    }
}

impl Showing for Form {
    ghost json = { form_in };

    fn to_value(&self, alloc: Global, format: Format) -> Result<Value, Memory> {
        let steps = list_value(alloc, format, self.steps.as_slice())?;
        let mut map = Map::new(alloc);
        put_value(&mut map, alloc, "steps", steps)?;
        Ok(Value::Object(map))
    }
}

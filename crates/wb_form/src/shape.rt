//! The parts of a form that JSON values are built as.
ghost use Rattle.std.specs.Prelude.{◌≡◌, IfOk, Some, None, Err, option_and_then};
ghost use Rattle.serde_json.specs.Find.{get};
ghost use Rattle.serde_json.specs.View.{view};
ghost use Rattle.wb_base.specs.FormShape.{option_of, cond_of, cond_by, one_of, part_of, score_of, moded, list_of, plain_trigger_of, weighed_trigger_of, trigger_by, show_at, options_at, kind_named, kind_of, plain_kind as plain_kind_of, field_by, step_by, form_by, text_at as text_under, flag_at as flag_under, is_any as any_test};
ghost use Rattle.wb_base.specs.FormRanges.{is_id as id_test, is_label as label_test};

use crate::look::{flag_at, has_only, is_id, is_label, least_at, max_at, points_at, size, text_at};
use crate::shaped::{ShapeFault, Shaped, read_list};
use serde_json::Value;
use std::alloc::Global;
use wb_base::{Choice, Cond, Field, FieldKind, Form, Format, Part, Step, Text, Trigger};
use wb_list::Items;

fn id_at(alloc: Global, value: &Value, key: &str) -> Result<Text, ShapeFault>
    ensures ok { IfOk result (λ t. text_under id_test key.now (view value.now) ≡ Some t) }
    ensures bad { result ≡ Err ShapeFault.Shape → text_under id_test key.now (view value.now) ≡ None }
{
    match text_at(value, key) {
        Some(text) => if is_id(text) {
            Ok(Text::from_str(alloc, text)?)
        } else {
            Err(ShapeFault::Shape)
        },
        None => Err(ShapeFault::Shape),
    }
}

fn label_at(alloc: Global, value: &Value, key: &str) -> Result<Text, ShapeFault>
    ensures ok { IfOk result (λ t. text_under label_test key.now (view value.now) ≡ Some t) }
    ensures bad { result ≡ Err ShapeFault.Shape → text_under label_test key.now (view value.now) ≡ None }
{
    match text_at(value, key) {
        Some(text) => if is_label(text) {
            Ok(Text::from_str(alloc, text)?)
        } else {
            Err(ShapeFault::Shape)
        },
        None => Err(ShapeFault::Shape),
    }
}

fn any_at(alloc: Global, value: &Value, key: &str) -> Result<Text, ShapeFault>
    ensures ok { IfOk result (λ t. text_under any_test key.now (view value.now) ≡ Some t) }
    ensures bad { result ≡ Err ShapeFault.Shape → text_under any_test key.now (view value.now) ≡ None }
{
    match text_at(value, key) {
        Some(text) => Ok(Text::from_str(alloc, text)?),
        None => Err(ShapeFault::Shape),
    }
}

impl Shaped for Choice {
    ghost shape = { λ format. option_of };

    fn from_value(alloc: Global, _: Format, value: &Value) -> Result<Choice, ShapeFault> {
        if size(value) != 2 {
            return Err(ShapeFault::Shape);
        }
        let id = id_at(alloc, value, "id")?;
        let label = label_at(alloc, value, "label")?;
        Ok(Choice { id, label })
    }
}

fn read_cond(alloc: Global, value: &Value) -> Result<Cond, ShapeFault>
    ensures ok { IfOk result (λ x. cond_of (view value.now) ≡ Some x) }
    ensures bad { result ≡ Err ShapeFault.Shape → cond_of (view value.now) ≡ None }
{
    if size(value) != 2 {
        return Err(ShapeFault::Shape);
    }
    let field = any_at(alloc, value, "field")?;
    let option = any_at(alloc, value, "option")?;
    Ok(Cond { field, option })
}

// A condition that is told as a part.
fn read_one(alloc: Global, value: &Value) -> Result<Cond, ShapeFault>
    ensures ok { IfOk result (λ x. one_of (view value.now) ≡ Some x) }
    ensures bad { result ≡ Err ShapeFault.Shape → one_of (view value.now) ≡ None }
{
    let Part { field, option, .. } = Part::from_value(alloc, Format::Weighed, value)?;
    Ok(Cond { field, option })
}

impl Shaped for Cond {
    ghost shape = { cond_by };

    fn from_value(alloc: Global, format: Format, value: &Value) -> Result<Cond, ShapeFault> {
        match format {
            Format::Plain => read_cond(alloc, value),
            Format::Weighed => read_one(alloc, value),
        }
    }
}

impl Shaped for Part {
    ghost shape = { λ format. part_of };

    fn from_value(alloc: Global, _: Format, value: &Value) -> Result<Part, ShapeFault> {
        if size(value) != 3 {
            return Err(ShapeFault::Shape);
        }
        let field = any_at(alloc, value, "field")?;
        let option = any_at(alloc, value, "option")?;
        match points_at(value) {
            Some(points) => Ok(Part {
                field,
                option,
                points,
            }),
            None => Err(ShapeFault::Shape),
        }
    }
}

// The conditions under a key.
fn conds_at(
    alloc: Global,
    format: Format,
    value: &Value,
    key: &str,
) -> Result<Items<Cond>, ShapeFault>
    ensures ok { IfOk result (λ xs. option_and_then (list_of (cond_by format)) (get key.now (view value.now)) ≡ Some xs) }
    ensures bad { result ≡ Err ShapeFault.Shape → option_and_then (list_of (cond_by format)) (get key.now (view value.now)) ≡ None }
{
    match value.get(key) {
        Some(conds) => read_list(alloc, format, conds),
        None => Err(ShapeFault::Shape),
    }
}

fn read_score(alloc: Global, value: &Value) -> Result<Trigger, ShapeFault>
    ensures ok { IfOk result (λ t. score_of (view value.now) ≡ Some t) }
    ensures bad { result ≡ Err ShapeFault.Shape → score_of (view value.now) ≡ None }
{
    let Some(least) = least_at(value) else {
        return Err(ShapeFault::Shape);
    };
    match value.get("parts") {
        Some(parts) => Ok(Trigger::Score {
            least,
            parts: read_list(alloc, Format::Weighed, parts)?,
        }),
        None => Err(ShapeFault::Shape),
    }
}

fn read_plain(alloc: Global, value: &Value) -> Result<Trigger, ShapeFault>
    ensures ok { IfOk result (λ t. plain_trigger_of (view value.now) ≡ Some t) }
    ensures bad { result ≡ Err ShapeFault.Shape → plain_trigger_of (view value.now) ≡ None }
{
    if size(value) != 1 {
        return Err(ShapeFault::Shape);
    }
    if value.get("any").is_some() {
        return Ok(Trigger::Any(conds_at(alloc, Format::Plain, value, "any")?));
    }
    if value.get("all").is_some() {
        return Ok(Trigger::All(conds_at(alloc, Format::Plain, value, "all")?));
    }
    match value.get("score") {
        Some(score) => if size(score) == 2 {
            read_score(alloc, score)
        } else {
            Err(ShapeFault::Shape)
        },
        None => Err(ShapeFault::Shape),
    }
}

fn read_moded(alloc: Global, value: &Value, mode: &str) -> Result<Trigger, ShapeFault>
    ensures ok { IfOk result (λ t. moded (view value.now) mode.now ≡ Some t) }
    ensures bad { result ≡ Err ShapeFault.Shape → moded (view value.now) mode.now ≡ None }
{
    if mode == "any" {
        return Ok(Trigger::Any(conds_at(alloc, Format::Weighed, value, "parts")?));
    }
    if mode == "all" {
        return Ok(Trigger::All(conds_at(alloc, Format::Weighed, value, "parts")?));
    }
    if mode == "score" {
        return read_score(alloc, value);
    }
    Err(ShapeFault::Shape)
}

fn read_weighed(alloc: Global, value: &Value) -> Result<Trigger, ShapeFault>
    ensures ok { IfOk result (λ t. weighed_trigger_of (view value.now) ≡ Some t) }
    ensures bad { result ≡ Err ShapeFault.Shape → weighed_trigger_of (view value.now) ≡ None }
{
    if size(value) != 3 {
        return Err(ShapeFault::Shape);
    }
    match text_at(value, "mode") {
        Some(mode) => read_moded(alloc, value, mode),
        None => Err(ShapeFault::Shape),
    }
}

impl Shaped for Trigger {
    ghost shape = { trigger_by };

    fn from_value(alloc: Global, format: Format, value: &Value) -> Result<Trigger, ShapeFault> {
        match format {
            Format::Plain => read_plain(alloc, value),
            Format::Weighed => read_weighed(alloc, value),
        }
    }
}

fn read_show(alloc: Global, format: Format, value: &Value) -> Result<Trigger, ShapeFault>
    ensures ok { IfOk result (λ t. show_at format (view value.now) ≡ Some t) }
    ensures bad { result ≡ Err ShapeFault.Shape → show_at format (view value.now) ≡ None }
{
    match value.get("show") {
        Some(show) => Trigger::from_value(alloc, format, show),
        None => Ok(Trigger::Always),
    }
}

fn read_options(alloc: Global, value: &Value) -> Result<Items<Choice>, ShapeFault>
    ensures ok { IfOk result (λ t. options_at (view value.now) ≡ Some t) }
    ensures bad { result ≡ Err ShapeFault.Shape → options_at (view value.now) ≡ None }
{
    match value.get("options") {
        Some(options) => read_list(alloc, Format::Plain, options),
        None => Ok(Items::new(alloc)),
    }
}

fn plain_kind(name: &str) -> Option<FieldKind>
    ensures { result ≡ plain_kind_of name.now }
{
    if name == "date" {
        Some(FieldKind::Date)
    } else if name == "check" {
        Some(FieldKind::Check)
    } else if name == "whole" {
        Some(FieldKind::Whole)
    } else if name == "file" {
        Some(FieldKind::File)
    } else {
        None
    }
}

fn read_kind_named(alloc: Global, value: &Value, name: &str) -> Result<FieldKind, ShapeFault>
    ensures ok { IfOk result (λ t. kind_named (view value.now) name.now ≡ Some t) }
    ensures bad { result ≡ Err ShapeFault.Shape → kind_named (view value.now) name.now ≡ None }
{
    let has_options = value.get("options").is_some();
    if name == "text" {
        if has_options {
            return Err(ShapeFault::Shape);
        }
        return match max_at(value) {
            Some(max) => Ok(FieldKind::Text { max }),
            None => Err(ShapeFault::Shape),
        };
    }
    if value.get("max").is_some() {
        return Err(ShapeFault::Shape);
    }
    if name == "choice" {
        let options = read_options(alloc, value)?;
        return Ok(FieldKind::Choice { options });
    }
    if name == "multi" {
        let options = read_options(alloc, value)?;
        return Ok(FieldKind::Multi { options });
    }
    if has_options {
        return Err(ShapeFault::Shape);
    }
    match plain_kind(name) {
        Some(kind) => Ok(kind),
        None => Err(ShapeFault::Shape),
    }
}

fn read_kind(alloc: Global, value: &Value) -> Result<FieldKind, ShapeFault>
    ensures ok { IfOk result (λ t. kind_of (view value.now) ≡ Some t) }
    ensures bad { result ≡ Err ShapeFault.Shape → kind_of (view value.now) ≡ None }
{
    match text_at(value, "kind") {
        Some(name) => read_kind_named(alloc, value, name),
        None => Err(ShapeFault::Shape),
    }
}

fn read_flag(value: &Value, key: &str) -> Result<bool, ShapeFault>
    ensures ok { IfOk result (λ t. flag_under key.now (view value.now) ≡ Some t) }
    ensures bad { result ≡ Err ShapeFault.Shape → flag_under key.now (view value.now) ≡ None }
{
    match flag_at(value, key) {
        Some(flag) => Ok(flag),
        None => Err(ShapeFault::Shape),
    }
}

impl Shaped for Field {
    ghost shape = { field_by };

    fn from_value(alloc: Global, format: Format, value: &Value) -> Result<Field, ShapeFault> {
        if !has_only(
            value,
            &[
                "id", "label", "kind", "required", "identity", "max", "options", "show",
            ],
        ) {
            return Err(ShapeFault::Shape);
        }
        let id = id_at(alloc, value, "id")?;
        let label = label_at(alloc, value, "label")?;
        let kind = read_kind(alloc, value)?;
        let required = read_flag(value, "required")?;
        let identity = read_flag(value, "identity")?;
        let show = read_show(alloc, format, value)?;
        Ok(Field {
            id,
            label,
            kind,
            required,
            identity,
            show,
        })
    }
}

impl Shaped for Step {
    ghost shape = { step_by };

    fn from_value(alloc: Global, format: Format, value: &Value) -> Result<Step, ShapeFault> {
        if size(value) != 2 {
            return Err(ShapeFault::Shape);
        }
        let title = label_at(alloc, value, "title")?;
        match value.get("fields") {
            Some(fields) => Ok(Step {
                title,
                fields: read_list(alloc, format, fields)?,
            }),
            None => Err(ShapeFault::Shape),
        }
    }
}

impl Shaped for Form {
    ghost shape = { form_by };

    fn from_value(alloc: Global, format: Format, value: &Value) -> Result<Form, ShapeFault> {
        if size(value) != 1 {
            return Err(ShapeFault::Shape);
        }
        match value.get("steps") {
            Some(steps) => Ok(Form {
                steps: read_list(alloc, format, steps)?,
            }),
            None => Err(ShapeFault::Shape),
        }
    }
}

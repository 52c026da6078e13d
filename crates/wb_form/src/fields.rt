//! The fields of a form, and their options.
ghost use Rattle.std.specs.Prelude.{◌≡◌, IfOk, map};
ghost use Rattle.std.specs.List.{list_any};
ghost use Rattle.wb_base.specs.FormFields.{fields_of, is_option, options_of as options_in, has_options as takes_options, is_scored as scored_trigger, has_score as has_score_in};
ghost use Rattle.wb_base.specs.FormFaults.{has_twice as twice_in};

use std::alloc::Global;
use wb_base::{Choice, Field, FieldKind, Form, Memory, Text, Trigger};

/// All fields, in form order.
pub fn fields<'a>(alloc: Global, form: &'a Form) -> Result<Vec<&'a Field>, Memory>
    ensures { IfOk result (λ v. map (λ f. f.now) v.items ≡ fields_of form.now.steps) }
{
    let mut found = Vec::new(alloc);
    for step in form.steps.as_slice() {
        for field in step.fields.as_slice() {
            found.push(field)?;
        }
    }
    Ok(found)
}

fn is_scored(show: &Trigger) -> bool
    ensures { result ≡ scored_trigger show.now }
{
    match show {
        Trigger::Score { .. } => true,
        _ => false,
    }
}

fn any_scored(fields: &[Field]) -> bool
    ensures { result ≡ list_any (λ f. scored_trigger f.show) fields.now }
{
    fields.iter().any(|field| is_scored(&field.show))
}

/// Whether a field of the form counts points.
pub fn has_score(form: &Form) -> bool
    ensures { result ≡ has_score_in form.now }
{
    let steps = form.steps.as_slice();
    for step in steps {
        let fields = step.fields.as_slice();
        if any_scored(fields) {
            return true;
        }
    }
    false
}

/// The options of a field, none where its kind has none.
pub fn options_of(kind: &FieldKind) -> &[Choice]
    ensures { result.now ≡ options_in kind.now }
{
    match kind {
        FieldKind::Choice { options } => options.as_slice(),
        FieldKind::Multi { options } => options.as_slice(),
        _ => &[],
    }
}

/// Whether a kind has options.
pub fn has_options(kind: &FieldKind) -> bool
    ensures { result ≡ takes_options kind.now }
{
    match kind {
        FieldKind::Choice { .. } | FieldKind::Multi { .. } => true,
        _ => false,
    }
}

/// Whether one of the options has an id.
pub fn has_option(options: &[Choice], id: &Text) -> bool
    ensures { result ≡ list_any (is_option id.now) options.now }
{
    for option in options {
        if option.id == *id {
            return true;
        }
    }
    false
}

/// Whether an option's id comes twice.
pub fn has_twice(options: &[Choice]) -> bool
    ensures { result ≡ twice_in options.now }
{
    for (at, option) in options.iter().enumerate() {
        if has_option(&options[at + 1..], &option.id) {
            return true;
        }
    }
    false
}

//! The fields of a form, by their places and by their ids.
ghost use Rattle.std.specs.Prelude.{◌≡◌, slice_get, find};
ghost use Rattle.std.specs.Option.{option_copied};
ghost use Rattle.wb_base.specs.FormFields.{fields_of, is_field};
ghost use Rattle.wb_base.specs.AnswerFaults.{is_identity as is_identity_of, is_known as is_known_of};

use wb_base::{Field, Form, Step, Text};

/// The field at a place, counted from 0 in form order.
pub fn field_at(steps: &[Step], at: usize) -> Option<&Field>
    ensures { option_copied result ≡ slice_get (fields_of steps.now) at }
{
    let mut left = at;
    for step in steps {
        if left < step.fields.len() {
            return Some(step.fields.get(left));
        }
        left -= step.fields.len();
    }
    None
}

/// The field of an id among the fields of a step.
fn find_in<'a>(fields: &'a [Field], id: &Text) -> Option<&'a Field>
    ensures { option_copied result ≡ find (is_field id.now) fields.now }
{
    for field in fields {
        if field.id == *id {
            return Some(field);
        }
    }
    None
}

/// The field of an id.
pub fn find_field<'a>(steps: &'a [Step], id: &Text) -> Option<&'a Field>
    ensures { option_copied result ≡ find (is_field id.now) (fields_of steps.now) }
{
    for step in steps {
        if let Some(field) = find_in(step.fields.as_slice(), id) {
            return Some(field);
        }
    }
    None
}

/// Whether the id is a field's.
pub fn is_known(form: &Form, id: &Text) -> bool
    ensures { result ≡ is_known_of form.now id.now }
{
    find_field(form.steps.as_slice(), id).is_some()
}

/// Whether the id is an identity field's.
pub fn is_identity(form: &Form, id: &Text) -> bool
    ensures { result ≡ is_identity_of form.now id.now }
{
    match find_field(form.steps.as_slice(), id) {
        Some(field) => field.identity,
        None => false,
    }
}

//! The counts of a form and their limits.
ghost use Rattle.std.specs.Prelude.{◌≡◌, IfOk, map, length};
ghost use Rattle.std.specs.List.{list_any};
ghost use Rattle.wb_base.specs.FormFields.{fields_of};
ghost use Rattle.wb_base.specs.FormJson.{form_text};
ghost use Rattle.wb_base.specs.FormFaults.{is_too_many as is_too_many_in, is_full_trigger as full_trigger, is_full_field as full_field};

use crate::fields::options_of;
use crate::show::Showing;
use std::alloc::Global;
use wb_base::{Field, Form, Format, Memory, Trigger};

fn is_full_trigger(show: &Trigger) -> bool
    ensures { result ≡ full_trigger show.now }
{
    match show {
        Trigger::Always => false,
        _ => show.len() == 0 || 16 < show.len(),
    }
}

fn any_full(fields: &[&Field]) -> bool
    ensures { result ≡ list_any full_field (map (λ f. f.now) fields.now) }
{
    for field in fields {
        if 64 < options_of(&field.kind).len() || is_full_trigger(&field.show) {
            return true;
        }
    }
    false
}

fn text_len(alloc: Global, form: &Form) -> Result<usize, Memory>
    ensures { IfOk result (λ n. n ≡ length (form_text form.now)) }
{
    let value = form.to_value(alloc, Format::Plain)?;
    let text = value.to_vec(alloc)?;
    Ok(text.len())
}

/// Whether a count of the form is over its limit, or nothing is where something must be.
pub fn is_too_many(alloc: Global, form: &Form, fields: &[&Field]) -> Result<bool, Memory>
    requires { map (λ f. f.now) fields.now ≡ fields_of form.now.steps }
    ensures { IfOk result (λ b. b ≡ is_too_many_in form.now) }
{
    let steps = form.steps.len();
    let count = fields.len();
    if steps == 0 || 32 < steps || count == 0 || 256 < count || any_full(fields) {
        return Ok(true);
    }
    Ok(32_768 < text_len(alloc, form)?)
}

//! The rules that judge a field after the fields before it.
ghost use Rattle.std.specs.Prelude.{◌≡◌, ◌&&◌, not, take, Bool, option_map, List};
ghost use Rattle.std.specs.List.{list_any};
ghost use Rattle.wb_base.specs.declared.form.Field.{Field as FieldOf};
ghost use Rattle.wb_base.specs.FormFields.{is_field, is_option, options_of as options_in, parts_of};
ghost use Rattle.wb_base.specs.FormFaults.{first_by, is_late, is_sealed, lacks_option};

use crate::fields::{has_option, has_options, options_of};
use crate::index::Index;
use wb_base::{Field, PartOf, Text, Trigger};

/// What judges a field after the fields before its place.
pub trait Rule {
    /// Whether it refuses a field, after the fields before it.
    ghost rule: { List FieldOf → FieldOf → Bool };

    /// Whether it refuses a field, which stands at a place of the index.
    fn refuses(index: &Index, at: usize, field: &Field) -> bool
        ensures { result ≡ rule (take at index.now) field.now };
}

/// The id of the first field that a rule refuses.
pub fn first_by_rule<'a, R: Rule>(index: &Index<'a>) -> Option<&'a Text>
    ensures { option_map (λ t. t.now) result ≡ first_by R.rule index.now }
{
    for (at, field) in index.fields().iter().enumerate() {
        if R::refuses(index, at, *field) {
            return Some(&field.id);
        }
    }
    None
}

fn any_late(index: &Index, at: usize, show: &Trigger) -> bool
    ensures { result ≡ list_any (λ c. not (list_any (is_field c.field) (take at index.now))) (parts_of show.now) }
{
    for place in 0..show.len() {
        if !index.has(show.part(place).field, at) {
            return true;
        }
    }
    false
}

/// A condition or part names no earlier field.
pub struct Late;

impl Rule for Late {
    ghost rule = { is_late };

    fn refuses(index: &Index, at: usize, field: &Field) -> bool {
        any_late(index, at, &field.show)
    }
}

fn has_identity(index: &Index, at: usize, id: &Text) -> bool
    ensures { result ≡ list_any (λ g. is_field id.now g && g.identity) (take at index.now) }
{
    match index.find(id, at) {
        Some(field) => field.identity,
        None => false,
    }
}

fn any_identity(index: &Index, at: usize, show: &Trigger) -> bool
    ensures { result ≡ list_any (λ c. list_any (λ g. is_field c.field g && g.identity) (take at index.now)) (parts_of show.now) }
{
    for place in 0..show.len() {
        if has_identity(index, at, show.part(place).field) {
            return true;
        }
    }
    false
}

/// A public field's condition or part names an identity field.
pub struct Sealed;

impl Rule for Sealed {
    ghost rule = { is_sealed };

    fn refuses(index: &Index, at: usize, field: &Field) -> bool {
        !field.identity && any_identity(index, at, &field.show)
    }
}

fn has_without(index: &Index, at: usize, part: &PartOf) -> bool
    ensures { result ≡ list_any (λ g. is_field part.now.field.now g && not (list_any (is_option part.now.option.now) (options_in g.kind))) (take at index.now) }
{
    match index.find(part.field, at) {
        Some(field) => !has_option(options_of(&field.kind), part.option),
        None => false,
    }
}

fn any_without(index: &Index, at: usize, show: &Trigger) -> bool
    ensures { result ≡ list_any (λ c. list_any (λ g. is_field c.field g && not (list_any (is_option c.option) (options_in g.kind))) (take at index.now)) (parts_of show.now) }
{
    for place in 0..show.len() {
        if has_without(index, at, &show.part(place)) {
            return true;
        }
    }
    false
}

/// A condition or part names an option that is not there, or a field that takes options has none.
pub struct WithoutOption;

impl Rule for WithoutOption {
    ghost rule = { lacks_option };

    fn refuses(index: &Index, at: usize, field: &Field) -> bool {
        (has_options(&field.kind) && options_of(&field.kind).is_empty())
            || any_without(index, at, &field.show)
    }
}

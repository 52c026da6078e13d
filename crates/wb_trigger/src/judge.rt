//! What is wrong with answers.
ghost use Rattle.std.specs.Prelude.{◌≡◌, ◌<◌, ◌≤◌, true, length, IfOk, IfSome, None, option_map, if◌then◌else◌};
ghost use Rattle.std.specs.Option.{option_copied};
ghost use Rattle.wb_base.specs.AnswerList.{answer_to};
ghost use Rattle.wb_base.specs.FormFields.{fields_of};
ghost use Rattle.wb_base.specs.AnswerFaults.{field_fault as field_fault_of, first_fault as first_fault_of, first_without, is_identity as is_identity_of, is_known as is_known_of, is_marked as is_marked_of, answers_fault as answers_fault_of, identity_fault as identity_fault_of};

use crate::fields::{field_at, is_identity, is_known};
use crate::kinds::kind_fault;
use crate::visible::{Both, MAX_FIELDS, marks};
use std::alloc::Global;
use wb_base::{AnswerFault, Answers, Field, Form, Given, Memory, Text};
use wb_list::{ItemTest, TryClone};

/// Each field passes.
#[derive(Drop)]
struct EveryField;

impl ItemTest<Field> for EveryField {
    ghost passes = { λ _ f. true };

    fn passes(&self, _: &Field) -> bool {
        true
    }
}

/// Identity fields pass.
#[derive(Drop)]
struct IdentityFields;

impl ItemTest<Field> for IdentityFields {
    ghost passes = { λ _ f. f.identity };

    fn passes(&self, field: &Field) -> bool {
        field.identity
    }
}

/// The fault of a field.
fn field_fault(
    alloc: Global,
    shown: bool,
    marked: bool,
    field: &Field,
    given: Option<&Given>,
) -> Result<Option<u8>, Memory>
    ensures value { IfOk result (λ o. o ≡ field_fault_of shown marked field.now (option_copied given.entry)) }
    ensures code { IfOk result (λ o. IfSome o (λ code. code < AnswerFault.MEMORY)) }
{
    match given {
        Some(given) => if shown {
            kind_fault(alloc, &field.kind, given)
        } else {
            Ok(Some(AnswerFault::HIDDEN))
        },
        None => Ok(if shown && field.required && (!field.identity || marked) {
            Some(AnswerFault::MISSING)
        } else {
            None
        }),
    }
}

/// The fault of a field, where it is looked at.
fn looked_fault<X: ItemTest<Field>>(
    alloc: Global,
    looked_at: &X,
    shown: bool,
    marked: bool,
    field: &Field,
    answers: &Answers,
) -> Result<Option<u8>, Memory>
    ensures value { IfOk result (λ o. o ≡ (if X.passes looked_at.now field.now then field_fault_of shown marked field.now (answer_to answers.now field.now.id) else None)) }
    ensures code { IfOk result (λ o. IfSome o (λ code. code < AnswerFault.MEMORY)) }
{
    if looked_at.passes(field) {
        field_fault(alloc, shown, marked, field, answers.find(&field.id))
    } else {
        Ok(None)
    }
}

/// A fault at the field of an id.
fn fault_of(code: u8, id: &Text) -> Result<AnswerFault, Memory>
    ensures { IfOk result (λ fault. fault ≡ record { code = code; field = id.now }) }
{
    Ok(AnswerFault {
        code,
        field: id.try_clone()?,
    })
}

/// The first field in form order, of those that are looked at, that has a fault.
fn first_fault<X: ItemTest<Field>>(
    alloc: Global,
    looked_at: &X,
    form: &Form,
    answers: &Answers,
    marked: bool,
    marks: &[bool],
) -> Result<Option<AnswerFault>, Memory>
    ensures value { IfOk result (λ o. o ≡ first_fault_of (X.passes looked_at.now) (answer_to answers.now) marked marks.now (fields_of form.now.steps)) }
    ensures code { IfOk result (λ o. IfSome o (λ fault. fault.code < AnswerFault.MEMORY)) }
{
    let steps = form.steps.as_slice();
    for (at, shown) in marks.iter().enumerate() {
        match field_at(steps, at) {
            Some(field) => if let Some(code) = looked_fault(
                alloc, looked_at, *shown, marked, field, answers,
            )? {
                return Ok(Some(fault_of(code, &field.id)?));
            },
            None => return Ok(None),
        }
    }
    Ok(None)
}

/// The least id that is no field's.
fn first_unknown<'a>(form: &Form, answers: &'a Answers) -> Option<&'a Text>
    ensures { option_map (λ t. t.now) result ≡ first_without (is_known_of form.now) answers.now }
{
    for entry in answers.as_slice() {
        if !is_known(form, &entry.0) {
            return Some(&entry.0);
        }
    }
    None
}

/// The least id that is no identity field's.
fn first_public<'a>(form: &Form, answers: &'a Answers) -> Option<&'a Text>
    ensures { option_map (λ t. t.now) result ≡ first_without (is_identity_of form.now) answers.now }
{
    for entry in answers.as_slice() {
        if !is_identity(form, &entry.0) {
            return Some(&entry.0);
        }
    }
    None
}

/// Whether an identity field is answered.
pub fn is_marked(form: &Form, answers: &Answers) -> bool
    ensures { result ≡ is_marked_of form.now answers.now }
{
    for entry in answers.as_slice() {
        if is_identity(form, &entry.0) {
            return true;
        }
    }
    false
}

/// What is wrong with answers.
pub fn answers_fault(
    alloc: Global,
    form: &Form,
    answers: &Answers,
) -> Result<Option<AnswerFault>, Memory>
    requires { length (fields_of form.now.steps) ≤ MAX_FIELDS }
    ensures value { IfOk result (λ o. o ≡ answers_fault_of form.now answers.now) }
    ensures code { IfOk result (λ o. IfSome o (λ fault. fault.code < AnswerFault.MEMORY)) }
{
    if let Some(id) = first_unknown(form, answers) {
        return Ok(Some(fault_of(AnswerFault::UNKNOWN, id)?));
    }
    let marked = is_marked(form, answers);
    let marks = marks(form, answers, MAX_FIELDS);
    first_fault(alloc, &EveryField, form, answers, marked, &marks)
}

/// What is wrong with identity answers that are given after public ones.
pub fn identity_fault(
    alloc: Global,
    form: &Form,
    public: &Answers,
    given: &Answers,
) -> Result<Option<AnswerFault>, Memory>
    requires { length (fields_of form.now.steps) ≤ MAX_FIELDS }
    ensures value { IfOk result (λ o. o ≡ identity_fault_of form.now public.now given.now) }
    ensures code { IfOk result (λ o. IfSome o (λ fault. fault.code < AnswerFault.MEMORY)) }
{
    if let Some(id) = first_public(form, given) {
        return Ok(Some(fault_of(AnswerFault::UNKNOWN, id)?));
    }
    let marked = is_marked(form, given);
    let marks = marks(form, &Both { public, given }, MAX_FIELDS);
    first_fault(alloc, &IdentityFields, form, given, marked, &marks)
}

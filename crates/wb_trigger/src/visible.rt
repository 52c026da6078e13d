//! Which fields are shown.
ghost use Rattle.std.specs.Prelude.{◌≡◌, true, ◌<◌, ◌≤◌, ◌-◌, if◌then◌else◌, take, length, min};
ghost use Rattle.std.specs.List.{list_any};
ghost use Rattle.std.specs.Option.{option_copied};
ghost use Rattle.wb_base.specs.AnswerList.{answer_to, is_text};
ghost use Rattle.wb_base.specs.FormFields.{fields_of};
ghost use Rattle.wb_base.specs.FormParts.{part_at};
ghost use Rattle.wb_base.specs.FormFaults.{is_good};
ghost use Rattle.wb_base.specs.ShownFields.{Look, holds as holds_of, is_met as is_met_of, is_triggered as is_triggered_of, all_shown, shown_at};
ghost use Rattle.wb_base.specs.AnswerFaults.{answer_of_both};
ghost use Rattle.wb_trigger.specs.Marks.{any_shown as any_shown_of};

use crate::fields::field_at;
use wb_base::{Answers, Field, Form, Given, PartOf, Step, Text, Trigger};

/// The greatest number of fields that a form has.
pub const MAX_FIELDS: usize = 256;

/// What has the answers to fields.
pub trait Lookup {
    ghost look: { Self → Look };

    /// The answer to a field.
    fn answer(&self, id: &Text) -> Option<&Given>
        ensures { option_copied result ≡ look self.now id.now };
}

impl Lookup for Answers {
    ghost look = { answer_to };

    fn answer(&self, id: &Text) -> Option<&Given> {
        self.find(id)
    }
}

/// Public answers, and answers that are given after them.
#[derive(Drop)]
pub struct Both<'a> {
    pub public: &'a Answers,
    pub given: &'a Answers,
}

impl Lookup for Both<'_> {
    ghost look = { λ both. answer_of_both both.public.now both.given.now };

    fn answer(&self, id: &Text) -> Option<&Given> {
        match self.public.find(id) {
            Some(given) => Some(given),
            None => self.given.find(id),
        }
    }
}

/// Whether some field of the id is shown, by the truth values beside the fields.
fn any_shown(fields: &[Field], marks: &[bool], id: &Text) -> bool
    ensures { result ≡ any_shown_of fields.now marks.now id.now }
{
    for (at, field) in fields.iter().enumerate() {
        if marks.len() <= at {
            return false;
        }
        if field.id == *id && marks[at] {
            return true;
        }
    }
    false
}

/// Whether some field of the id is shown, by the truth values beside the fields of the steps.
fn shows(steps: &[Step], marks: &[bool], id: &Text) -> bool
    ensures { result ≡ any_shown_of (fields_of steps.now) marks.now id.now }
{
    let mut at = 0;
    for step in steps {
        let fields = step.fields.as_slice();
        if any_shown(fields, &marks[at..], id) {
            return true;
        }
        if marks.len() - at < fields.len() {
            return false;
        }
        at += fields.len();
    }
    false
}

/// Whether the option is among the texts.
fn any_text(texts: &[Text], option: &Text) -> bool
    ensures { result ≡ list_any (λ t. is_text t option.now) texts.now }
{
    for text in texts {
        if *text == *option {
            return true;
        }
    }
    false
}

/// Whether an answer is the option, or holds it.
fn holds(option: &Text, given: Option<&Given>) -> bool
    ensures { result ≡ holds_of option.now (option_copied given.entry) }
{
    match given {
        Some(Given::Text(text)) => *text == *option,
        Some(Given::List(texts)) => any_text(texts.as_slice(), option),
        _ => false,
    }
}

/// Whether a part is met.
fn is_met<L: Lookup>(steps: &[Step], marks: &[bool], answers: &L, part: &PartOf) -> bool
    ensures { result ≡ is_met_of (any_shown_of (fields_of steps.now) marks.now) (L.look answers.now) (part_at part.now) }
{
    shows(steps, marks, part.field) && holds(part.option, answers.answer(part.field))
}

/// The points that are still missing after a part.
fn left(missing: usize, is_met: bool, points: u16) -> usize
    ensures { result ≡ (if is_met then missing - points else missing) }
{
    if is_met {
        missing.saturating_sub(points as usize)
    } else {
        missing
    }
}

/// Whether a trigger shows its field: the points of the parts that are met are as many as it wants.
fn is_triggered<L: Lookup>(steps: &[Step], marks: &[bool], answers: &L, show: &Trigger) -> bool
    ensures { result ≡ is_triggered_of (any_shown_of (fields_of steps.now) marks.now) (L.look answers.now) show.now }
{
    let mut missing = show.least();
    for at in 0..show.len() {
        let part = show.part(at);
        let is_met = is_met(steps, marks, answers, &part);
        missing = left(missing, is_met, part.points);
    }
    missing == 0
}

/// Of each of the first fields, as many as asked for, whether it is shown.
pub fn marks<L: Lookup>(form: &Form, answers: &L, count: usize) -> [bool; MAX_FIELDS]
    requires { count ≤ MAX_FIELDS }
    ensures { take (min count (length (fields_of form.now.steps))) result ≡ take count (all_shown (L.look answers.now) (fields_of form.now.steps)) }
{
    let mut marks = [false; MAX_FIELDS];
    let steps = form.steps.as_slice();
    for at in 0..count {
        match field_at(steps, at) {
            Some(field) => marks[at] = is_triggered(steps, &marks[..at], answers, &field.show),
            None => return marks,
        }
    }
    marks
}

/// Whether the field at a place, counted from 0 in form order, is shown. It takes no memory.
pub fn shown(form: &Form, answers: &Answers, field: usize) -> bool
    requires good { is_good form.now ≡ true }
    requires there { field < length (fields_of form.now.steps) }
    ensures { result ≡ shown_at form.now answers.now field }
{
    marks(form, answers, field + 1)[field]
}

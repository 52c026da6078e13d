//! Copies of forms, whose only fault is want of memory.
ghost use Rattle.std.specs.Prelude.{◌≡◌, IfOk};

use wb_base::{Choice, Cond, Field, FieldKind, Form, Memory, Part, Step, Text, Trigger};
use wb_list::{Items, TryClone};

/// What can be copied as a part of a form.
pub trait Copied: Drop {
    /// The same part once more.
    fn copied(&self) -> Result<Self, Memory>
    where
        Self: Sized,
        ensures { IfOk result (λ copy. copy ≡ self.now) };
}

// The same items once more.
fn copy_items<T: Copied>(items: &Items<T>) -> Result<Items<T>, Memory>
    ensures { IfOk result (λ copy. copy ≡ items.now) }
{
    let mut copy = Items::new(items.allocator());
    for item in items.as_slice() {
        copy.push(item.copied()?)?;
    }
    Ok(copy)
}

impl Copied for Choice {
    fn copied(&self) -> Result<Choice, Memory> {
        let id = self.id.try_clone()?;
        let label = self.label.try_clone()?;
        Ok(Choice { id, label })
    }
}

impl Copied for Cond {
    fn copied(&self) -> Result<Cond, Memory> {
        let field = self.field.try_clone()?;
        let option = self.option.try_clone()?;
        Ok(Cond { field, option })
    }
}

impl Copied for Part {
    fn copied(&self) -> Result<Part, Memory> {
        let field = self.field.try_clone()?;
        let option = self.option.try_clone()?;
        Ok(Part {
            field,
            option,
            points: self.points,
        })
    }
}

impl Copied for Trigger {
    fn copied(&self) -> Result<Trigger, Memory> {
        match self {
            Trigger::Always => Ok(Trigger::Always),
            Trigger::Any(conds) => Ok(Trigger::Any(copy_items(conds)?)),
            Trigger::All(conds) => Ok(Trigger::All(copy_items(conds)?)),
            Trigger::Score { least, parts } => Ok(Trigger::Score {
                least: *least,
                parts: copy_items(parts)?,
            }),
        }
    }
}

impl Copied for FieldKind {
    fn copied(&self) -> Result<FieldKind, Memory> {
        match self {
            FieldKind::Text { max } => Ok(FieldKind::Text { max: *max }),
            FieldKind::Choice { options } => Ok(FieldKind::Choice {
                options: copy_items(options)?,
            }),
            FieldKind::Multi { options } => Ok(FieldKind::Multi {
                options: copy_items(options)?,
            }),
            FieldKind::Date => Ok(FieldKind::Date),
            FieldKind::Check => Ok(FieldKind::Check),
            FieldKind::Whole => Ok(FieldKind::Whole),
            FieldKind::File => Ok(FieldKind::File),
        }
    }
}

impl Copied for Field {
    fn copied(&self) -> Result<Field, Memory> {
        let id = self.id.try_clone()?;
        let label = self.label.try_clone()?;
        let kind = self.kind.copied()?;
        let show = self.show.copied()?;
        Ok(Field {
            id,
            label,
            kind,
            required: self.required,
            identity: self.identity,
            show,
        })
    }
}

impl Copied for Step {
    fn copied(&self) -> Result<Step, Memory> {
        let title = self.title.try_clone()?;
        let fields = copy_items(&self.fields)?;
        Ok(Step { title, fields })
    }
}

/// The same form once more.
pub fn copy_form(form: &Form) -> Result<Form, Memory>
    ensures { IfOk result (λ copy. copy ≡ form.now) }
{
    Ok(Form {
        steps: copy_items(&form.steps)?,
    })
}

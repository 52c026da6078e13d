//! What is wrong with a form.
ghost use Rattle.std.specs.Prelude.{◌≡◌, ◌≢◌, [], IfOk, IfSome, Some};
ghost use Rattle.wb_base.specs.FormFaults.{fault_of};

use crate::fields::fields;
use crate::index::{Index, IndexFault};
use crate::limits::is_too_many;
use crate::rules::{Late, Sealed, WithoutOption, first_by_rule};
use std::alloc::Global;
use wb_base::{Form, FormFault, Memory, Text};
use wb_list::TryClone;

/// A fault of the form as a whole.
pub fn whole_fault(alloc: Global, code: u8) -> FormFault
    ensures code { result.code ≡ code }
    ensures field { result.field ≡ [] }
{
    FormFault {
        code,
        field: Text::empty(alloc),
    }
}

fn fault_at(code: u8, field: &Text) -> Result<FormFault, Memory>
    ensures code { IfOk result (λ e. e.code ≡ code) }
    ensures field { IfOk result (λ e. e.field ≡ field.now) }
{
    Ok(FormFault {
        code,
        field: field.try_clone()?,
    })
}

/// The fault of least code, at the first field that has it.
pub fn fault(alloc: Global, form: &Form) -> Result<Option<FormFault>, Memory>
    ensures value { IfOk result (λ o. o ≡ fault_of form.now) }
    ensures code { IfOk result (λ o. IfSome o (λ e. e.code ≢ FormFault.MEMORY)) }
{
    let fields = fields(alloc, form)?;
    let index = match Index::of(alloc, &fields) {
        Ok(index) => index,
        Err(IndexFault::Double(id)) => return Ok(Some(fault_at(FormFault::DOUBLE_ID, id)?)),
        Err(IndexFault::Memory) => return Err(Memory),
    };
    if let Some(id) = first_by_rule::<Late>(&index) {
        return Ok(Some(fault_at(FormFault::LATE_TRIGGER, id)?));
    }
    if let Some(id) = first_by_rule::<Sealed>(&index) {
        return Ok(Some(fault_at(FormFault::SEALED_TRIGGER, id)?));
    }
    if let Some(id) = first_by_rule::<WithoutOption>(&index) {
        return Ok(Some(fault_at(FormFault::NO_OPTION, id)?));
    }
    if is_too_many(alloc, form, &fields)? {
        return Ok(Some(whole_fault(alloc, FormFault::TOO_MANY)));
    }
    Ok(None)
}

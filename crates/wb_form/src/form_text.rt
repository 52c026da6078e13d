//! Forms as JSON values.
ghost use Rattle.std.specs.Prelude.{◌≡◌, ◌≢◌, [], true, IfOk, IfErr, Some, None};
ghost use Rattle.serde_json.specs.View.{view};
ghost use Rattle.wb_base.specs.declared.form.Form.{Form as FormOf};
ghost use Rattle.wb_base.specs.FormShape.{form_of, form_by};
ghost use Rattle.wb_base.specs.FormJson.{form_data, form_in};
ghost use Rattle.wb_base.specs.FormFaults.{fault_of, fault_in, fault_by, is_good};
ghost use Rattle.wb_base.specs.Sealing.{HangsOnPublicAnswers};

use crate::faults::{fault, whole_fault};
use crate::shaped::{ShapeFault, Shaped};
use crate::show::Showing;
use serde_json::Value;
use std::alloc::Global;
use wb_base::{Form, FormFault, Format, Memory};

/// Reading a questionnaire from a JSON value (RFC 8259), and writing it as one.
/// The setup and an administrator give one, the rows keep its text, and a reporter asks for it.
pub trait FormText: Drop {
    /// The form that is written or read.
    ghost form: { Self → FormOf };

    /// The form that a value is in a format, or the fault of least code at the first field that has it.
    fn read_as(alloc: Global, format: Format, value: &Value) -> Result<Form, FormFault>
        ensures ok { IfOk result (λ form. form_by format (view value.now) ≡ Some form) }
        ensures faultless { IfOk result (λ form. fault_of form ≡ None) }
        ensures good { IfOk result (λ form. is_good form ≡ true) }
        ensures sealed { IfOk result (λ form. HangsOnPublicAnswers form) }
        ensures fault { IfErr result (λ e. e.code ≢ FormFault.MEMORY → fault_by format (view value.now) ≡ Some e) }
        ensures memory { IfErr result (λ e. e.code ≡ FormFault.MEMORY → e.field ≡ []) };

    /// The form that a value is which was sent, or the fault of least code at the first field that has it.
    fn read(alloc: Global, value: &Value) -> Result<Form, FormFault>
        ensures ok { IfOk result (λ form. form_of (view value.now) ≡ Some form) }
        ensures faultless { IfOk result (λ form. fault_of form ≡ None) }
        ensures good { IfOk result (λ form. is_good form ≡ true) }
        ensures sealed { IfOk result (λ form. HangsOnPublicAnswers form) }
        ensures fault { IfErr result (λ e. e.code ≢ FormFault.MEMORY → fault_in (view value.now) ≡ Some e) }
        ensures memory { IfErr result (λ e. e.code ≡ FormFault.MEMORY → e.field ≡ []) };

    /// The value of the full form in a format, with each default written.
    fn show_as(&self, alloc: Global, format: Format) -> Result<Value, Memory>
        ensures { IfOk result (λ v. view v ≡ form_in format (form self.now)) };

    /// The value of the full form as it is shown, with each default written.
    fn show(&self, alloc: Global) -> Result<Value, Memory>
        ensures { IfOk result (λ v. view v ≡ form_data (form self.now)) };
}

impl FormText for Form {
    ghost form = { λ f. f };

    fn read_as(alloc: Global, format: Format, value: &Value) -> Result<Form, FormFault> {
        let form = match Form::from_value(alloc, format, value) {
            Ok(form) => form,
            Err(ShapeFault::Shape) => return Err(whole_fault(alloc, FormFault::SHAPE)),
            Err(ShapeFault::Memory) => return Err(whole_fault(alloc, FormFault::MEMORY)),
        };
        match fault(alloc, &form) {
            Ok(None) => Ok(form),
            Ok(Some(fault)) => Err(fault),
            Err(Memory) => Err(whole_fault(alloc, FormFault::MEMORY)),
        }
    }

    fn read(alloc: Global, value: &Value) -> Result<Form, FormFault> {
        Form::read_as(alloc, Format::Plain, value)
    }

    fn show_as(&self, alloc: Global, format: Format) -> Result<Value, Memory> {
        self.to_value(alloc, format)
    }

    fn show(&self, alloc: Global) -> Result<Value, Memory> {
        self.to_value(alloc, Format::Plain)
    }
}

//! Laws of reading and writing.
ghost use Rattle.std.specs.Prelude.{◌≡◌, true, Some, None};
ghost use Rattle.serde_json.specs.Data.{Data};
ghost use Rattle.wb_base.specs.declared.form.Form.{Form};
ghost use Rattle.wb_base.specs.declared.form.Format.{Format};
ghost use Rattle.wb_base.specs.FormShape.{form_of, form_by};
ghost use Rattle.wb_base.specs.FormJson.{form_data, form_in};
ghost use Rattle.wb_base.specs.FormFaults.{fault_of, fault_in, is_good};

/// Reading what was shown of a good form gives the form back, in each format.
pub fn reading_back()
    ensures back { (format : Format) (form : Form) → is_good form ≡ true → form_by format (form_in format form) ≡ Some form }
    ensures faultless { (form : Form) → is_good form ≡ true → fault_in (form_data form) ≡ None }
{}

/// The good forms are those that some value is read as without a fault.
pub fn good_forms_are_those_that_are_read()
    ensures read { (form : Form) → is_good form ≡ true → (d : Data) × (form_of d ≡ Some form) × (fault_of form ≡ None) }
    ensures good { (d : Data) (form : Form) → form_of d ≡ Some form → fault_of form ≡ None → is_good form ≡ true }
{}

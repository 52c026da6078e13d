//! Laws of the definitions of forms, answers and calendars.
ghost use Rattle.std.specs.Prelude.{◌≡◌, ◌≤◌, ℕ, List, Bool, true, false, length, ℤ, ◌≤ℤ◌, ◌<ℤ◌};
ghost use Rattle.std.specs.List.{list_any, list_all};
ghost use Rattle.wb_base.specs.declared.form.Cond.{Cond};
ghost use Rattle.wb_base.specs.declared.form.Trigger.TheVariants.{Always, Any, All};
ghost use Rattle.wb_base.specs.declared.form.Form.{Form};
ghost use Rattle.wb_base.specs.Calendars.{Calendar as Days, ascend, is_off, end};
ghost use Rattle.wb_base.specs.FormFields.{fields_of, one_point};
ghost use Rattle.wb_base.specs.FormFaults.{is_good};
ghost use Rattle.wb_base.specs.ShownFields.{Look, is_met, is_triggered};
ghost use Rattle.wb_base.specs.Sealing.{HangsOnPublicAnswers};

/// A good form has at most 256 fields, and whether a public field of it is shown hangs on the public answers alone.
pub fn good_forms()
    ensures few { (form : Form) → is_good form ≡ true → length (fields_of form.steps) ≤ 256 }
    ensures sealed { (form : Form) → is_good form ≡ true → HangsOnPublicAnswers form }
{}

/// Where terms roll, a term ends on the least day at or after its own that is no Saturday, no Sunday and none of the
/// holidays; and else on its own day.
pub fn terms_end_on_the_next_open_day()
    ensures later { (c : Days) (day : ℤ) → ascend c.holidays ≡ true → day ≤ℤ end c day }
    ensures open_day { (c : Days) (day : ℤ) → ascend c.holidays ≡ true → c.roll ≡ true → is_off c (end c day) ≡ false }
    ensures least { (c : Days) (day between : ℤ) → ascend c.holidays ≡ true → day ≤ℤ between → between <ℤ end c day → is_off c between ≡ true }
    ensures same { (c : Days) (day : ℤ) → c.roll ≡ false → end c day ≡ day }
{}

/// What counts points says of conditions: any of them is met, or all of them are, whatever fields are shown and answered.
pub fn points_tell_any_and_all()
    ensures always { (shows : List ℕ → Bool) (look : Look) → is_triggered shows look Always ≡ true }
    ensures any { (shows : List ℕ → Bool) (look : Look) (conds : List Cond)
        → is_triggered shows look (Any conds) ≡ list_any (λ c. is_met shows look (one_point c)) conds }
    ensures all { (shows : List ℕ → Bool) (look : Look) (conds : List Cond)
        → is_triggered shows look (All conds) ≡ list_all (λ c. is_met shows look (one_point c)) conds }
{}

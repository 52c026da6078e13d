//! Laws of the definitions of answers.
ghost use Rattle.std.specs.Prelude.{◌≡◌, ℕ, [], true, false, None};
ghost use Rattle.wb_base.specs.declared.form.Form.{Form};
ghost use Rattle.wb_base.specs.declared.form.Field.{Field};
ghost use Rattle.wb_base.specs.AnswerList.{Answered, answer_to};
ghost use Rattle.wb_base.specs.FormFaults.{is_good};
ghost use Rattle.wb_base.specs.ShownFields.{shown_at};
ghost use Rattle.wb_base.specs.AnswerFaults.{answers_fault, is_marked, public_of, sealed_of};
ghost use Rattle.wb_trigger.specs.PublicAnswers.{AreAlike, IsPublicField, fault_in};

/// Where two lists of answers to a good form have the same public answers, and both or neither answer an identity
/// field, each public field is shown alike, is answered alike and has the same fault.
pub fn alike_answers()
    ensures shown { (form : Form) (a b : Answered) (k : ℕ) (field : Field) → is_good form ≡ true → AreAlike form a b → IsPublicField form k field → shown_at form a k ≡ shown_at form b k }
    ensures answer { (form : Form) (a b : Answered) (k : ℕ) (field : Field) → is_good form ≡ true → AreAlike form a b → IsPublicField form k field → answer_to a field.id ≡ answer_to b field.id }
    ensures fault { (form : Form) (a b : Answered) (k : ℕ) (field : Field) → is_good form ≡ true → AreAlike form a b → IsPublicField form k field → fault_in form a k field ≡ fault_in form b k field }
{}

/// The public part of right answers to a good form is right by itself, and cutting it again leaves it as it is,
/// with no identity answer.
pub fn public_answers_stand_by_themselves()
    ensures right { (form : Form) (answers : Answered) → is_good form ≡ true → answers_fault form answers ≡ None → answers_fault form (public_of form answers) ≡ None }
    ensures same { (form : Form) (answers : Answered) → public_of form (public_of form answers) ≡ public_of form answers }
    ensures unmarked { (form : Form) (answers : Answered) → is_marked form (public_of form answers) ≡ false }
    ensures none_sealed { (form : Form) (answers : Answered) → sealed_of form (public_of form answers) ≡ [] }
{}

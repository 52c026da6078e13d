//! Checks of answers.
ghost use Rattle.std.specs.Prelude.{◌≡◌, ◌≢◌, [], true, OnOk, IfOk, IfErr, None, Some};
ghost use Rattle.wb_base.specs.FormFaults.{is_good};
ghost use Rattle.wb_base.specs.AnswerFaults.{answers_fault as answers_fault_of, identity_fault as identity_fault_of, is_marked, public_of, sealed_of};

use crate::Split;
use crate::judge::{answers_fault, identity_fault};
use crate::split::cut;
use std::alloc::Global;
use wb_base::{AnswerFault, Answers, Form, Memory, Text};

/// The fault that there was no memory.
fn no_memory(alloc: Global) -> AnswerFault
    ensures { result ≡ record { code = AnswerFault.MEMORY; field = [] } }
{
    AnswerFault {
        code: AnswerFault::MEMORY,
        field: Text::empty(alloc),
    }
}

/// Checks answers, and cuts them into public and identity ones.
pub fn check(alloc: Global, form: &Form, answers: &Answers) -> Result<Split, AnswerFault>
    requires { is_good form.now ≡ true }
    ensures valid { OnOk result (answers_fault_of form.now answers.now ≡ None) }
    ensures public { IfOk result (λ split. split.public ≡ public_of form.now answers.now) }
    ensures sealed { IfOk result (λ split. split.sealed ≡ sealed_of form.now answers.now) }
    ensures mark { IfOk result (λ split. split.mark ≡ is_marked form.now answers.now) }
    ensures fault { IfErr result (λ e. e.code ≢ AnswerFault.MEMORY → answers_fault_of form.now answers.now ≡ Some e) }
    ensures memory { IfErr result (λ e. e.code ≡ AnswerFault.MEMORY → e.field ≡ []) }
{
    match answers_fault(alloc, form, answers) {
        Ok(None) => match cut(form, answers) {
            Ok(split) => Ok(split),
            Err(Memory) => Err(no_memory(alloc)),
        },
        Ok(Some(fault)) => Err(fault),
        Err(Memory) => Err(no_memory(alloc)),
    }
}

/// Checks identity answers that are given after public ones.
pub fn check_identity(
    alloc: Global,
    form: &Form,
    public: &Answers,
    given: &Answers,
) -> Result<(), AnswerFault>
    requires { is_good form.now ≡ true }
    ensures valid { OnOk result (identity_fault_of form.now public.now given.now ≡ None) }
    ensures fault { IfErr result (λ e. e.code ≢ AnswerFault.MEMORY → identity_fault_of form.now public.now given.now ≡ Some e) }
    ensures memory { IfErr result (λ e. e.code ≡ AnswerFault.MEMORY → e.field ≡ []) }
{
    match identity_fault(alloc, form, public, given) {
        Ok(None) => Ok(()),
        Ok(Some(fault)) => Err(fault),
        Err(Memory) => Err(no_memory(alloc)),
    }
}

//! Answers cut into public and identity ones.
ghost use Rattle.std.specs.Prelude.{◌≡◌, IfOk, not};
ghost use Rattle.wb_base.specs.AnswerList.{id_of};
ghost use Rattle.wb_base.specs.AnswerFaults.{is_identity as is_identity_of, is_marked as is_marked_of, public_of, sealed_of};

use crate::fields::is_identity;
use crate::judge::is_marked;
use wb_base::{Answers, Form, Given, Memory, Text};
use wb_list::{ItemTest, TryClone};

/// Answers, cut into public and identity ones.
#[derive(Drop)]
pub struct Split {
    /// The answers that tell no identity.
    pub public: Answers,
    /// The identity answers.
    pub sealed: Answers,
    /// Whether an identity field is answered.
    pub mark: bool,
}

/// Answers to identity fields pass.
#[derive(Drop)]
struct IdentityAnswers<'a> {
    form: &'a Form,
}

impl ItemTest<(Text, Given)> for IdentityAnswers<'_> {
    ghost passes = { λ test entry. is_identity_of test.form.now (id_of entry) };

    fn passes(&self, entry: &(Text, Given)) -> bool {
        is_identity(self.form, &entry.0)
    }
}

/// Answers to other than identity fields pass.
#[derive(Drop)]
struct PublicAnswers<'a> {
    form: &'a Form,
}

impl ItemTest<(Text, Given)> for PublicAnswers<'_> {
    ghost passes = { λ test entry. not (is_identity_of test.form.now (id_of entry)) };

    fn passes(&self, entry: &(Text, Given)) -> bool {
        !is_identity(self.form, &entry.0)
    }
}

/// Cuts answers into public and identity ones.
pub fn cut(form: &Form, answers: &Answers) -> Result<Split, Memory>
    ensures public { IfOk result (λ split. split.public ≡ public_of form.now answers.now) }
    ensures sealed { IfOk result (λ split. split.sealed ≡ sealed_of form.now answers.now) }
    ensures mark { IfOk result (λ split. split.mark ≡ is_marked_of form.now answers.now) }
{
    let mut public = answers.try_clone()?;
    public.drop_passing(&IdentityAnswers { form });
    let mut sealed = answers.try_clone()?;
    sealed.drop_passing(&PublicAnswers { form });
    let mark = is_marked(form, answers);
    Ok(Split {
        public,
        sealed,
        mark,
    })
}

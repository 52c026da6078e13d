//! Jobs with answers, as what is done in an entry.
use crate::plays::Transition;
use std::marker::{Model, PhantomData};
use std::snapshot::Snapshot;

/// A job and its answer, as clauses see them. It has no bytes.
#[derive(Drop)]
pub struct Deed<J, A> {
    job: Snapshot<J>,
    told: Snapshot<A>,
}

impl<J, A> Model for Deed<J, A> {
    ghost Value = { J × A };

    ghost view = { λ d. (d.job.value, d.told.value) };
}

impl<J, A> Deed<J, A> {
    ghost use Rattle.std.specs.Prelude.{◌≡◌};

    /// That this job was answered so.
    pub(crate) fn of(job: Snapshot<J>, told: &A) -> Deed<J, A>
        ensures { result ≡ (job.value, told.now) }
    {
        Deed {
            job,
            told: Snapshot::of(told),
        }
    }
}

/// What a job does with a value, and with something of its caller's own.
pub trait Work<T, C, J, A> {
    /// The value and the caller's own before it, the job, its answer, and the two after it.
    ghost does: { T → C → J → A → T → C → Type 0 };

    /// Does a job.
    fn run(value: &mut T, own: &mut C, job: J) -> A
        ensures does { does value.old own.old job result value.new own.new };
}

/// The transitions that such jobs make.
pub struct ByWork<W, C> {
    work: PhantomData<(W, C)>,
}

impl<T, C, J, A, W: Work<T, C, J, A>> Transition<T, Deed<J, A>> for ByWork<W, C> {
    ghost does = { λ x d y. (c : C) × (c' : C) × W.does x c d.0 d.1 y c' };
}

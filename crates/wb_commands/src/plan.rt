//! What a turn is going to answer and to change.
ghost use Rattle.std.specs.Prelude.{◌≡◌, IfOk};
ghost use Rattle.wb_views.specs.Refused.{told_of};

use crate::mutation::Mutation;
use std::alloc::Global;
use wb_base::Memory;
use wb_model::Told;
use wb_views::{Refusal, refuse};

/// What a turn is going to answer and to change.
#[derive(Drop)]
pub struct TurnPlan {
    pub told: Told,
    pub change: Mutation,
}

/// The plan that only answers.
pub fn answering(told: Told) -> TurnPlan
    ensures told { result.told ≡ told }
    ensures change { result.change ≡ Mutation.Nothing }
{
    TurnPlan {
        told,
        change: Mutation::Nothing,
    }
}

/// The plan of a refusal.
pub fn refused(alloc: Global, why: Refusal) -> Result<TurnPlan, Memory>
    ensures told { IfOk result (λ plan. plan.told ≡ told_of why) }
    ensures change { IfOk result (λ plan. plan.change ≡ Mutation.Nothing) }
{
    Ok(answering(refuse(alloc, why)?))
}

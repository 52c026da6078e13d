//! What is left to do for a plan.
ghost use Rattle.std.specs.Prelude.{IfOk};
ghost use Rattle.wb_commands.specs.Steps.{IsTold};
ghost use Rattle.wb_views.specs.Refused.{told_of};

use crate::plan::{TurnPlan, answering};
use std::alloc::Global;
use wb_base::{Answers, Memory, Number};
use wb_model::{Act, CaseFault, Entry, Move, Told};
use wb_tables::{Proposal, Who};
use wb_views::{Refusal, refuse};

/// What is done on a report: an act, or a move with the requests for its identity.
#[derive(Drop)]
pub enum Doing {
    Acts(Act),
    Moves(Move),
}

/// What a request asks to do on the report that it is on.
#[derive(Drop)]
pub enum Asks {
    /// What it names is not there.
    Misses,
    /// A rule bars an act, whatever else there is.
    Bars(CaseFault),
    Does(Doing),
}

/// What is going to be written on a report, by whom, with the identity answers that it gives and the reply to it.
#[derive(Drop)]
pub struct Writing {
    pub who: Who,
    pub number: Number,
    pub doing: Doing,
    pub given: Option<Answers>,
    pub told: Told,
}

/// What is going to be set, and the reply to it.
#[derive(Drop)]
pub struct Setting {
    pub proposal: Proposal,
    pub told: Told,
}

/// What is left to do for a plan.
#[derive(Drop)]
pub enum Draft {
    /// Nothing.
    Done(TurnPlan),
    /// The rules of the report are to be asked, and room is to be made there.
    Writes(Writing),
    /// The rules of the registry are to be asked, and room is to be made there.
    Sets(Setting),
}

/// What came of asking the rules of a report.
#[derive(Drop)]
pub enum Judged {
    /// Its entry.
    Noted(Entry),
    Barred(Refusal),
}

/// The step to the plan that only answers.
pub fn telling(told: Told) -> Draft
    ensures { IsTold told result }
{
    Draft::Done(answering(told))
}

/// The step to the plan of a refusal.
pub fn refusing(alloc: Global, why: Refusal) -> Result<Draft, Memory>
    ensures { IfOk result (IsTold (told_of why)) }
{
    Ok(telling(refuse(alloc, why)?))
}

//! What is going to be written on a report.
ghost use Rattle.std.specs.Prelude.{◌≡◌, ◌≤◌, ◌+◌, length, None, IfOk};
ghost use Rattle.wb_model.specs.Access.{requests};
ghost use Rattle.wb_model.specs.Doings.{doing_told as doing_reply};
ghost use Rattle.wb_model.specs.Acts.{act_status as act_status_of};
ghost use Rattle.wb_model.specs.Json.{told};
ghost use Rattle.wb_model.specs.ShortViews.{request_view as request_data};
ghost use Rattle.wb_commands.specs.Steps.{Answers, IsErased, WritesDown, doing_of};

use crate::draft::{Asks, Doing, Draft, Writing, refusing};
use crate::mutation::Mutation;
use crate::plan::TurnPlan;
use crate::sessions::done;
use std::alloc::Global;
use wb_base::Memory;
use wb_model::{Act, Body, Move, Told};
use wb_tables::{Report, Who};
use wb_views::{Refusal, request_view};

// The status of the reply to an act: 201 where it makes something new, and else 200.
fn act_status(act: &Act) -> u16
    ensures { result ≡ act_status_of act.now }
{
    match act {
        Act::Label(_) | Act::SetStatus(_) | Act::Unshare(_) | Act::Identity => 200,
        Act::Comment { .. }
        | Act::Acknowledge { .. }
        | Act::Feedback(_)
        | Act::Share(_)
        | Act::Transfer { .. }
        | Act::Postpone { .. }
        | Act::Extend { .. } => 201,
    }
}

// The reply to an ask for an identity: the number of the request, which is the next.
fn numbered(alloc: Global, report: &Report) -> Result<Told, Memory>
    requires few { length report.now.desk.items ≤ 100 }
    ensures { IfOk result (λ t. t ≡ told 201 (request_data (length report.now.desk.items + 1))) }
{
    let number = report.desk.len() as u32 + 1;
    Ok(Told {
        status: 201,
        body: Body::of(request_view(alloc, number)?),
    })
}

// The reply to what is done on a report.
fn doing_told(alloc: Global, report: &Report, doing: &Doing) -> Result<Told, Memory>
    requires custodied { report.now.desk.items ≡ requests report.now.case.items }
    requires few { length report.now.desk.items ≤ 100 }
    ensures { IfOk result (λ t. t ≡ doing_reply report.now.case.items (doing_of doing.now)) }
{
    match doing {
        Doing::Acts(act) => Ok(done(act_status(act))),
        Doing::Moves(Move::Ask { .. }) => numbered(alloc, report),
        Doing::Moves(Move::Grant { .. } | Move::Deny { .. } | Move::Revoke { .. }) => Ok(done(201)),
    }
}

// The step of what is done on a report.
fn write(alloc: Global, who: Who, report: &Report, doing: Doing) -> Result<Draft, Memory>
    requires custodied { report.now.desk.items ≡ requests report.now.case.items }
    requires few { length report.now.desk.items ≤ 100 }
    ensures { IfOk result (WritesDown who report.now doing None (doing_reply report.now.case.items (doing_of doing))) }
{
    let told = doing_told(alloc, report, &doing)?;
    Ok(Draft::Writes(Writing {
        who,
        number: report.number,
        doing,
        given: None,
        told,
    }))
}

/// The step of what is asked to be done on a report, without identity answers.
pub fn write_down(alloc: Global, who: Who, report: &Report, asks: Asks) -> Result<Draft, Memory>
    requires custodied { report.now.desk.items ≡ requests report.now.case.items }
    requires few { length report.now.desk.items ≤ 100 }
    ensures { IfOk result (Answers who report.now asks) }
{
    match asks {
        Asks::Misses => refusing(alloc, Refusal::NotFound),
        Asks::Bars(fault) => refusing(alloc, Refusal::OfAct(fault)),
        Asks::Does(doing) => write(alloc, who, report, doing),
    }
}

/// The step of a report's deletion, which is done at once. It takes no memory.
pub fn erasing(report: &Report) -> Draft
    ensures { IsErased report.now result }
{
    Draft::Done(TurnPlan {
        told: done(200),
        change: Mutation::Deletes(report.number),
    })
}

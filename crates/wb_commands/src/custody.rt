//! What the moves with the requests for a report's identity are that its readers and custodians ask for.
ghost use Rattle.std.specs.Prelude.{◌≡◌, ℕ, List, Some, IfOk};
ghost use Rattle.std.specs.Option.{option_copied};
ghost use Rattle.wb_base.specs.declared.callers.Presented.{Presented as Shown};
ghost use Rattle.wb_model.specs.Access.{requests, request_at};
ghost use Rattle.wb_model.specs.Changes.{TurnContext as Turn};
ghost use Rattle.wb_model.specs.Doings.{decision_move as decision_move_of};
ghost use Rattle.wb_model.specs.Tables.{TheUser};
ghost use Rattle.wb_model.specs.declared.command.Command.TheVariants as commands;
ghost use Rattle.wb_model.specs.declared.entry.Actor.TheVariants as actors;
ghost use Rattle.wb_model.specs.declared.entry.Entry.{Entry};
ghost use Rattle.wb_commands.specs.Steps.{IsAskedOnReport, IsSoundAsk, IsAskedByUser};

use crate::draft::{Asks, Doing};
use wb_base::{Memory, Text, UserId};
use wb_list::TryClone;
use wb_model::{AccessRequest, Decision, Move};
use wb_tables::{Report, Tenancy};

// A text once more, where there is one.
fn copy_text(text: &Option<Text>) -> Result<Option<Text>, Memory>
    ensures { IfOk result (λ copy. copy ≡ text.now) }
{
    match text {
        Some(text) => Ok(Some(text.try_clone()?)),
        None => Ok(None),
    }
}

/// The move that a user's ask for an identity is, stamped with how often the user was disabled by now.
pub fn asking(tenancy: &Tenancy, user: UserId, reason: &Text) -> Result<Asks, Memory>
    ensures asked { IfOk result (λ asks. (at : Turn) (s : Shown) (trail : List Entry) (t n : ℕ) → IsAskedOnReport at tenancy.now.configuration.registry (Some (TheUser user)) s trail (commands.Ask t n reason.now) asks) }
    ensures sound { IfOk result (IsSoundAsk (actors.User user)) }
{
    Ok(Asks::Does(Doing::Moves(Move::Ask {
        reason: reason.try_clone()?,
        stamp: tenancy.configuration.disablings(user),
    })))
}

// The request of a number, counted from 1.
fn request_of(report: &Report, k: u32) -> Option<&AccessRequest>
    ensures { option_copied result ≡ request_at k report.now.desk.items }
{
    if k == 0 {
        return None;
    }
    let k = k as usize;
    if k <= report.desk.len() {
        Some(report.desk.get(k))
    } else {
        None
    }
}

// The move that a decision on the request of a number is.
fn decision_move(
    decision: Decision,
    request: u32,
    stamp: u32,
    notice_days: u8,
    reason: Text,
    withheld: Option<Text>,
) -> Move
    ensures { result ≡ decision_move_of request stamp notice_days reason withheld decision }
{
    match decision {
        Decision::Grant => Move::Grant {
            request,
            stamp,
            notice_days,
            reason,
            withheld,
        },
        Decision::Deny => Move::Deny {
            request,
            stamp,
            reason,
        },
        Decision::Revoke => Move::Revoke {
            request,
            stamp,
            reason,
        },
    }
}

/// The move that a custodian's decision is: the request must be there.
pub fn deciding(
    tenancy: &Tenancy,
    report: &Report,
    k: u32,
    decision: Decision,
    reason: &Text,
    withhold: &Option<Text>,
) -> Result<Asks, Memory>
    requires custodied { report.now.desk.items ≡ requests report.now.case.items }
    ensures asked { IfOk result (λ asks. (at : Turn) (user : ℕ) (s : Shown) (t n : ℕ) → IsAskedByUser at tenancy.now.configuration.registry user s report.now.case.items (commands.Decide t n k decision reason.now withhold.now) asks) }
    ensures sound { IfOk result (λ asks. (user : ℕ) → IsSoundAsk (actors.User user) asks) }
{
    match request_of(report, k) {
        Some(request) => {
            let stamp = tenancy.configuration.disablings(request.by);
            let notice_days = tenancy.configuration.settings().notice_days;
            let reason = reason.try_clone()?;
            let withheld = copy_text(withhold)?;
            let planned = decision_move(decision, k, stamp, notice_days, reason, withheld);
            Ok(Asks::Does(Doing::Moves(planned)))
        }
        None => Ok(Asks::Misses),
    }
}

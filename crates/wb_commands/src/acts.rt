//! What the acts on a report are that its readers ask for.
ghost use Rattle.std.specs.Prelude.{◌≡◌, ◌≤◌, ◌==◌, ℕ, List, Some, true, false, IfOk, IfSome, IfNone};
ghost use Rattle.std.specs.List.{list_any};
ghost use Rattle.wb_base.specs.Days.{IsEarlyDay, day_of as day_at};
ghost use Rattle.wb_base.specs.declared.callers.Presented.{Presented};
ghost use Rattle.wb_model.specs.Changes.{TurnContext as Turn};
ghost use Rattle.wb_model.specs.Doings.{retention_of};
ghost use Rattle.wb_model.specs.Tables.{Registry, TheUser, TheReporter, context as context_by};
ghost use Rattle.wb_model.specs.Trails as trails;
ghost use Rattle.wb_model.specs.declared.entry.Actor.TheVariants as actors;
ghost use Rattle.wb_model.specs.declared.entry.Entry.{Entry};
ghost use Rattle.wb_model.specs.declared.command.Command.TheVariants as commands;
ghost use Rattle.wb_tables.specs.TurnContexts.{at_of};
ghost use Rattle.wb_commands.specs.Steps.{IsAskedOnReport, IsSoundAsk, IsRetention};
ghost use Rattle.wb_commands.specs.Steps.{is_act};
ghost use Rattle.wb_tables.specs.Kept.{case_of, plain_of, lives_on};
ghost use Rattle.wb_tables.specs.Places.{IsLookedUp};

use crate::draft::{Asks, Doing};
use wb_base::{Day, Memory, Role, Text, UserId};
use wb_list::TryClone;
use wb_model::{Act, CaseFault, Command};
use wb_tables::{Report, Tenancy, TurnContext};
use wb_terms::day_of;

// An act.
fn does(act: Act) -> Asks
    ensures { result ≡ Asks.Does (Doing.Acts act) }
{
    Asks::Does(Doing::Acts(act))
}

/// What a reporter's comment on the own report is.
pub fn commenting(text: &Text) -> Result<Asks, Memory>
    ensures asked { IfOk result (λ asks. (at : Turn) (g : Registry) (n t : ℕ) (s : Presented) (trail : List Entry) → IsAskedOnReport at g (Some (TheReporter n)) s trail (commands.OwnComment t text.now) asks) }
    ensures sound { IfOk result (IsSoundAsk actors.Reporter) }
{
    Ok(does(Act::Comment {
        internal: false,
        text: text.try_clone()?,
    }))
}

// The tenant's day.
fn today(tenancy: &Tenancy, at: &TurnContext) -> Day
    requires place { IsLookedUp (plain_of tenancy.now) }
    ensures day { result ≡ day_at at.now.time tenancy.now.configuration.registry.settings.offset }
    ensures early { IsEarlyDay result }
{
    day_of(at.time, tenancy.configuration.settings().offset)
}

// The act that a user's share is: the user must be an enabled recipient.
fn share(tenancy: &Tenancy, reader: UserId) -> Asks
    ensures asked { (at : Turn) (user : ℕ) (s : Presented) (trail : List Entry) (t n : ℕ) → IsAskedOnReport at tenancy.now.configuration.registry (Some (TheUser user)) s trail (commands.Share t n reader) result }
    ensures sound { (user : ℕ) → IsSoundAsk (actors.User user) result }
{
    match tenancy.configuration.user(reader) {
        Some(item) => if item.enabled && item.role == Role::Recipient {
            does(Act::Share(reader))
        } else {
            Asks::Misses
        },
        None => Asks::Misses,
    }
}

// The reader of a number.
fn reader_of(readers: &[UserId], u: u32) -> Option<UserId>
    ensures some { IfSome result (λ reader. reader ≡ u) }
    ensures none { IfNone result (list_any (λ reader. reader == u) readers.now ≡ false) }
{
    for reader in readers {
        if reader.id() as u32 == u {
            return Some(*reader);
        }
    }
    None
}

// The act that the removal of a reader is: who does not read the report is no reader, whatever the number.
fn unshare(report: &Report, u: u32) -> Asks
    ensures asked { (at : Turn) (g : Registry) (user : ℕ) (s : Presented) (t n : ℕ) → IsAskedOnReport at g (Some (TheUser user)) s report.now.case.items (commands.Unshare t n u) result }
    ensures sound { (user : ℕ) → IsSoundAsk (actors.User user) result }
{
    match reader_of(report.case.summary().readers.as_slice(), u) {
        Some(reader) => does(Act::Unshare(reader)),
        None => Asks::Bars(CaseFault::NotReader),
    }
}

// The act that a transfer is: the context must be there.
fn transfer(tenancy: &Tenancy, context: u32) -> Result<Asks, Memory>
    requires place { IsLookedUp (plain_of tenancy.now) }
    ensures asked { IfOk result (λ asks. (at : Turn) (user : ℕ) (s : Presented) (trail : List Entry) (t n : ℕ) → IsAskedOnReport at tenancy.now.configuration.registry (Some (TheUser user)) s trail (commands.Transfer t n context) asks) }
    ensures sound { IfOk result (λ asks. (user : ℕ) → IsSoundAsk (actors.User user) asks) }
{
    match tenancy.configuration.context(context) {
        Some(item) => {
            let readers = item.recipients.try_clone()?;
            Ok(does(Act::Transfer {
                context,
                is_open: item.is_open,
                readers,
            }))
        }
        None => Ok(Asks::Misses),
    }
}

// For how many days the present context of a report keeps its reports, and one where that is not there: a live report is kept
// longer than that in any case.
fn retention(tenancy: &Tenancy, report: &Report) -> u16
    requires place { IsLookedUp (plain_of tenancy.now) }
    ensures low { 1 ≤ result }
    ensures high { result ≤ 3_650 }
    ensures kept { IsRetention result (retention_of (context_by (trails.context report.now.case.items) tenancy.now.configuration.registry.contexts)) }
{
    match tenancy.configuration.context(report.case.summary().context) {
        Some(item) => item.retention,
        None => 1,
    }
}

// The act that a postponement is.
fn postpone(tenancy: &Tenancy, at: &TurnContext, report: &Report) -> Asks
    requires place { IsLookedUp (plain_of tenancy.now) }
    requires live { lives_on (day_at at.now.time tenancy.now.configuration.registry.settings.offset) (case_of report.now) ≡ true }
    ensures asked { (user : ℕ) (s : Presented) (t n : ℕ) → IsAskedOnReport (at_of at.now) tenancy.now.configuration.registry (Some (TheUser user)) s report.now.case.items (commands.Postpone t n) result }
    ensures sound { (user : ℕ) → IsSoundAsk (actors.User user) result }
{
    does(Act::Postpone {
        today: today(tenancy, at),
        retention: retention(tenancy, report),
    })
}

// The act that an extension is: the tenant is an external channel or not.
fn extend(tenancy: &Tenancy, reason: &Text) -> Result<Asks, Memory>
    ensures asked { IfOk result (λ asks. (at : Turn) (user : ℕ) (s : Presented) (trail : List Entry) (t n : ℕ) → IsAskedOnReport at tenancy.now.configuration.registry (Some (TheUser user)) s trail (commands.Extend t n reason.now) asks) }
    ensures sound { IfOk result (λ asks. (user : ℕ) → IsSoundAsk (actors.User user) asks) }
{
    let reason = reason.try_clone()?;
    Ok(does(Act::Extend {
        reason,
        external: tenancy.configuration.settings().external,
    }))
}

/// What a user asks to do on a report that the user finds, but for reads, for a deletion and for requests for the identity.
pub fn acting(
    tenancy: &Tenancy,
    at: &TurnContext,
    report: &Report,
    command: &Command,
) -> Result<Asks, Memory>
    requires place { IsLookedUp (plain_of tenancy.now) }
    requires live { lives_on (day_at at.now.time tenancy.now.configuration.registry.settings.offset) (case_of report.now) ≡ true }
    requires acts { is_act command.now ≡ true }
    ensures asked { IfOk result (λ asks. (user : ℕ) (s : Presented) → IsAskedOnReport (at_of at.now) tenancy.now.configuration.registry (Some (TheUser user)) s report.now.case.items command.now asks) }
    ensures sound { IfOk result (λ asks. (user : ℕ) → IsSoundAsk (actors.User user) asks) }
{
    match command {
        Command::Comment { text, internal, .. } => Ok(does(Act::Comment {
            internal: *internal,
            text: text.try_clone()?,
        })),
        Command::Label { label, .. } => Ok(does(Act::Label(label.try_clone()?))),
        Command::SetStatus { status, .. } => Ok(does(Act::SetStatus(*status))),
        Command::Acknowledge { .. } => Ok(does(Act::Acknowledge {
            today: today(tenancy, at),
        })),
        Command::Feedback { text, .. } => Ok(does(Act::Feedback(text.try_clone()?))),
        Command::Share { user, .. } => Ok(share(tenancy, *user)),
        Command::Unshare { u, .. } => Ok(unshare(report, *u)),
        Command::Transfer { context, .. } => transfer(tenancy, *context),
        Command::Postpone { .. } => Ok(postpone(tenancy, at, report)),
        Command::Extend { reason, .. } => extend(tenancy, reason),
        _ => unreachable!(),
    }
}

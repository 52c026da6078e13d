//! The plan of a turn, with room for all that it changes.
ghost use Rattle.std.specs.Prelude.{◌≡◌, ℕ, List, true, map, IfOk};
ghost use Rattle.wb_base.specs.Calendars.{Calendar as CalendarValue};
ghost use Rattle.wb_model.specs.Doings.{actor_of};
ghost use Rattle.wb_model.specs.Host.{purged};
ghost use Rattle.wb_model.specs.Tables.{is_there};
ghost use Rattle.wb_model.specs.declared.entry.Entry.{Entry as EntryValue};
ghost use Rattle.wb_tables.specs.TurnContexts.{at_of};
ghost use Rattle.wb_commands.specs.Plans.{HasRoomFor, IsFit, IsRoomyFor, PlansTurn};
ghost use Rattle.wb_commands.specs.Steps.{IsJudged, IsReadyFor, IsSoundDoing, SetsIn, WritesIn, most_of, HasTrail};
ghost use Rattle.wb_tables.specs.Configured.{IsSoundProposal};
ghost use Rattle.wb_tables.specs.Indexed.{AreFewRequests};
ghost use Rattle.wb_tables.specs.Kept.{case_of, place_of, plain_of, tables_of};
ghost use Rattle.wb_tables.specs.Lives.{AreEarly};
ghost use Rattle.wb_tables.specs.Logins.{who_seen};
ghost use Rattle.wb_tables.specs.Places.{IsLookedUp};
ghost use Rattle.wb_desk.specs.Turns.{MayPlan};

use crate::stepping::step_of;
use std::alloc::Global;
use wb_base::{Calendar, Memory, Moment, Number, limits};
use wb_commands::{
    Configuring, Doing, Draft, Judged, Mutation, Noted, Setting, TurnPlan, Writing, refused,
};
use wb_custody::SealedTable;
use wb_model::{Act, Actor, AdminFault, Asked, CaseFault, CustodyFault, Move};
use wb_tables::{Cases, Proposal, Tenancy, TurnContext, Who};
use wb_views::Refusal;

// Who did it.
fn actor(who: Who) -> Actor
    ensures { result ≡ actor_of (who_seen who) }
{
    match who {
        Who::User(user) => Actor::User(user),
        Who::Reporter(_) => Actor::Reporter,
    }
}

// Asks the rules of a report for an act on it.
fn judge_act(
    cases: &mut Cases,
    calendar: &Calendar,
    time: Moment,
    who: Who,
    number: Number,
    act: Act,
) -> Result<Judged, Memory>
    requires there { is_there number (map case_of cases.old.items) ≡ true }
    requires early { AreEarly (map case_of cases.old.items) }
    requires sound { IsSoundDoing (actor_of (who_seen who)) (Doing.Acts act) }
    ensures tenant { cases.new.tenant ≡ cases.old.tenant }
    ensures cases { map case_of cases.new.items ≡ map case_of cases.old.items }
    ensures judged { IfOk result (λ judged. (trail : List EntryValue) → HasTrail cases.old.items number trail → IsJudged calendar.now trail time (who_seen who) (Doing.Acts act) judged) }
    ensures ready { IfOk result (λ judged. (trail : List EntryValue) → HasTrail cases.old.items number trail → IsReadyFor number cases.new.items judged) }
{
    match cases.act(number, time, actor(who), act, calendar) {
        Ok(entry) => Ok(Judged::Noted(entry)),
        Err(CaseFault::Memory) => Err(Memory),
        Err(fault) => Ok(Judged::Barred(Refusal::OfAct(fault))),
    }
}

// Asks the rules of a report for a move with the requests for its identity.
fn judge_move(
    cases: &mut Cases,
    time: Moment,
    who: Who,
    number: Number,
    move_: Move,
) -> Result<Judged, Memory>
    requires there { is_there number (map case_of cases.old.items) ≡ true }
    requires few { AreFewRequests (map case_of cases.old.items) }
    requires sound { IsSoundDoing (actor_of (who_seen who)) (Doing.Moves move_) }
    ensures tenant { cases.new.tenant ≡ cases.old.tenant }
    ensures cases { map case_of cases.new.items ≡ map case_of cases.old.items }
    ensures judged { IfOk result (λ judged. (calendar : CalendarValue) (trail : List EntryValue) → HasTrail cases.old.items number trail → IsJudged calendar trail time (who_seen who) (Doing.Moves move_) judged) }
    ensures ready { IfOk result (IsReadyFor number cases.new.items) }
{
    match cases.move_requests(number, time, actor(who), move_) {
        Ok(entry) => Ok(Judged::Noted(entry)),
        Err(CustodyFault::Memory) => Err(Memory),
        Err(fault) => Ok(Judged::Barred(Refusal::OfMove(fault))),
    }
}

// Asks the rules of a report for what is to be done on it, on the tenant's calendar.
fn judge(
    cases: &mut Cases,
    calendar: &Calendar,
    time: Moment,
    who: Who,
    number: Number,
    doing: Doing,
) -> Result<Judged, Memory>
    requires there { is_there number (map case_of cases.old.items) ≡ true }
    requires few { AreFewRequests (map case_of cases.old.items) }
    requires early { AreEarly (map case_of cases.old.items) }
    requires sound { IsSoundDoing (actor_of (who_seen who)) doing }
    ensures tenant { cases.new.tenant ≡ cases.old.tenant }
    ensures cases { map case_of cases.new.items ≡ map case_of cases.old.items }
    ensures judged { IfOk result (λ judged. (trail : List EntryValue) → HasTrail cases.old.items number trail → IsJudged calendar.now trail time (who_seen who) doing judged) }
    ensures ready { IfOk result (λ judged. (trail : List EntryValue) → HasTrail cases.old.items number trail → IsReadyFor number cases.new.items judged) }
{
    match doing {
        Doing::Acts(act) => judge_act(cases, calendar, time, who, number, act),
        Doing::Moves(move_) => judge_move(cases, time, who, number, move_),
    }
}

// The plan of what is written on a report, where its rules do not bar it, and the room for it.
fn write_in(
    alloc: Global,
    tenancy: &mut Tenancy,
    sealed: &mut SealedTable,
    time: Moment,
    writing: Writing,
) -> Result<TurnPlan, Memory>
    requires place { IsLookedUp (plain_of tenancy.old) }
    requires few { AreFewRequests (map case_of tenancy.old.cases.items) }
    requires early { AreEarly (map case_of tenancy.old.cases.items) }
    requires there { is_there writing.number (map case_of tenancy.old.cases.items) ≡ true }
    requires sound { IsSoundDoing (actor_of (who_seen writing.who)) writing.doing }
    ensures plan { IfOk result (λ plan. (trail : List EntryValue) → HasTrail tenancy.old.cases.items writing.number trail → WritesIn tenancy.old.configuration.registry.settings.calendar trail time writing plan) }
    ensures roomy { IfOk result (λ plan. (trail : List EntryValue) → HasTrail tenancy.old.cases.items writing.number trail → HasRoomFor tenancy.new sealed.new.spare plan.change) }
    ensures place { place_of tenancy.new ≡ place_of tenancy.old }
    ensures sealed { sealed.new.items ≡ sealed.old.items }
{
    let Writing {
        who,
        number,
        doing,
        given,
        told,
    } = writing;
    let calendar = &tenancy.configuration.settings().calendar;
    match judge(&mut tenancy.cases, calendar, time, who, number, doing)? {
        Judged::Noted(entry) => {
            let change = Mutation::Notes(Noted {
                number,
                entry,
                secret: given,
            });
            change.reserve(tenancy, sealed)?;
            Ok(TurnPlan { told, change })
        }
        Judged::Barred(why) => refused(alloc, why),
    }
}

// How many there may be of what is set.
fn most(proposal: &Proposal) -> u32
    ensures { result ≡ most_of proposal.now }
{
    match proposal {
        Proposal::ToUser(..) => limits::DISABLINGS,
        Proposal::ToForm(..) => limits::VERSIONS,
        Proposal::ToTenant(_) | Proposal::ToContext(..) => 0,
    }
}

// The plan of what is set, where the registry's rules do not bar it, and the room for it.
fn set_in(alloc: Global, tenancy: &mut Tenancy, setting: Setting) -> Result<TurnPlan, Memory>
    requires sound { IsSoundProposal setting.proposal }
    ensures plan { IfOk result (SetsIn tenancy.old.configuration.tenant tenancy.old.configuration.registry setting) }
    ensures fit { IfOk result (λ plan. (time : ℕ) → IsFit time tenancy.new plan.change) }
    ensures room { IfOk result (λ plan. (sealed : ℕ) → HasRoomFor tenancy.new sealed plan.change) }
    ensures place { place_of tenancy.new ≡ place_of tenancy.old }
{
    let Setting { proposal, told } = setting;
    match tenancy.configuration.plan(&proposal) {
        Ok(row) => Ok(TurnPlan {
            told,
            change: Mutation::Configures(Configuring { proposal, row }),
        }),
        Err(AdminFault::Memory) => Err(Memory),
        Err(fault) => refused(alloc, Refusal::OfSetting(most(&proposal), fault)),
    }
}

/// The plan of a request over the tables that are purged at the turn's time, and room for what it changes. Nothing is changed
/// but the room.
pub fn plan_turn(
    alloc: Global,
    tenancy: &mut Tenancy,
    sealed: &mut SealedTable,
    at: &TurnContext,
    asked: &Asked,
) -> Result<TurnPlan, Memory>
    requires may_plan { MayPlan tenancy.old at.now asked.now }
    requires early { AreEarly (map case_of tenancy.old.cases.items) }
    ensures plan { IfOk result (PlansTurn tenancy.old.configuration.tenant (purged at.now.time (tables_of sealed.old.items (place_of tenancy.old))) (at_of at.now) asked.now) }
    ensures roomy { IfOk result (λ plan. IsRoomyFor at.now.time tenancy.new sealed.new.spare plan.change) }
    ensures place { place_of tenancy.new ≡ place_of tenancy.old }
    ensures sealed { sealed.new.items ≡ sealed.old.items }
{
    match step_of(alloc, tenancy, sealed, at, asked)? {
        Draft::Done(plan) => {
            plan.change.reserve(tenancy, sealed)?;
            Ok(plan)
        }
        Draft::Writes(writing) => write_in(alloc, tenancy, sealed, at.time, writing),
        Draft::Sets(setting) => set_in(alloc, tenancy, setting),
    }
}

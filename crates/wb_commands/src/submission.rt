//! Submissions: a report begins under the next number.
ghost use Rattle.std.specs.Str.{IsUtf8};
ghost use Rattle.std.specs.Prelude.{◌≡◌, ◌≤◌, ◌<◌, ◌+◌, ◌∷◌, [], ℕ, Some, None, if◌then◌else◌, MatchOption, IfOk, option_map};
ghost use Rattle.wb_base.specs.Days.{IsOffset, day_of as day_at};
ghost use Rattle.wb_base.specs.AnswerList.{Answered};
ghost use Rattle.wb_base.specs.Secrets.{digest as digest_of, receipt_text};
ghost use Rattle.wb_model.specs.Host.{drawn as drawn_at};
ghost use Rattle.wb_model.specs.Json.{told};
ghost use Rattle.wb_model.specs.Requests.{Checked};
ghost use Rattle.wb_model.specs.AskingForms.{open_form};
ghost use Rattle.wb_model.specs.ShortViews.{submission_view as submission_data};
ghost use Rattle.wb_model.specs.Submissions.{drawing, submission_entry};
ghost use Rattle.wb_model.specs.Tables.{context as context_by, drawn_on};
ghost use Rattle.wb_tables.specs.TurnContexts.{at_of};
ghost use Rattle.wb_commands.specs.Plans.{drawing_refusal, IsFitAtOnce, IsSplit, PlansSubmission, BeginsWith, PlansDraw, IsAskingIn};
ghost use Rattle.wb_views.specs.Refused.{told_of};
ghost use Rattle.wb_tables.specs.Kept.{plain_of, live_plain};
ghost use Rattle.wb_tables.specs.Places.{IsLookedUp};

use crate::identity::faulty;
use crate::mutation::Mutation;
use crate::opening::Opening;
use crate::plan::{TurnPlan, answering, refused};
use std::alloc::Global;
use wb_access::{digest, draw};
use wb_base::{Answers, Digest, Memory, Moment, Number, Words};
use wb_case::Case;
use wb_list::TryClone;
use wb_model::{Actor, Body, ContextItem, Deed, Entry, FormItem, Numbering, TenantItem, Told};
use wb_tables::{Tenancy, TurnContext, UnnumberedReport, report_of_receipt};
use wb_terms::{ack_due, day_of, expiry, feedback_due};
use wb_trigger::{Split, check};
use wb_views::{Refusal, submission_view};

/// An open context, and the form in which it asks.
#[derive(Drop)]
struct Asking<'a> {
    context: &'a ContextItem,
    item: &'a FormItem,
}

// The open context of an id, with its form in the newest version.
fn find_asking(tenancy: &Tenancy, id: u32) -> Option<Asking<'_>>
    ensures { MatchOption result (open_form (context_by id tenancy.now.configuration.registry.contexts) tenancy.now.configuration.registry.forms ≡ None) (λ a. IsAskingIn tenancy.now id a.context.now a.item.now) }
{
    match tenancy.configuration.context(id) {
        Some(context) if context.is_open => {
            match tenancy.configuration.newest_form(context.form) {
                Some(item) => Some(Asking { context, item }),
                None => None,
            }
        }
        _ => None,
    }
}

// How many numbers were drawn on the day of this moment.
fn drawn_today(settings: &TenantItem, numbering: Numbering, time: Moment) -> u32
    requires offset { IsOffset settings.now.offset }
    ensures { result ≡ drawn_on (day_at time settings.now.offset) settings.now numbering }
{
    if day_of(numbering.at, settings.offset) == day_of(time, settings.offset) {
        numbering.drawn
    } else {
        0
    }
}

/// A receipt that is drawn, and its digest under the tenant's salt.
#[derive(Clone, Copy)]
struct Drawn {
    receipt: [u8; 16],
    digest: Digest,
}

// What a submission draws of a turn's words.
fn draw_receipt(tenancy: &Tenancy, words: &Words) -> Drawn
    ensures receipt { result.receipt ≡ receipt_text words.now }
    ensures digest { result.digest ≡ digest_of tenancy.now.configuration.registry.settings.salt (receipt_text words.now) }
{
    let receipt = draw(words);
    Drawn {
        receipt,
        digest: digest(&tenancy.configuration.settings().salt, receipt.as_slice()),
    }
}

// Whether a live report has the receipt of this digest, which is drawn.
fn is_taken(tenancy: &Tenancy, at: &TurnContext, digest: &Digest) -> bool
    requires place { IsLookedUp (plain_of tenancy.now) }
    requires drawn { digest.now ≡ digest_of tenancy.now.configuration.registry.settings.salt (receipt_text at.now.words) }
    ensures { result ≡ (drawing (at_of at.now) (live_plain at.now.time (plain_of tenancy.now))).taken }
{
    report_of_receipt(tenancy, at.time, digest).is_some()
}

// What stands in the way of a draw: the last number is drawn, the day's quota, or a live report's receipt.
fn hindrance(tenancy: &Tenancy, at: &TurnContext, digest: &Digest) -> Option<Refusal>
    requires place { IsLookedUp (plain_of tenancy.now) }
    requires drawn { digest.now ≡ digest_of tenancy.now.configuration.registry.settings.salt (receipt_text at.now.words) }
    ensures refusal { option_map told_of result ≡ drawing_refusal tenancy.now.configuration.registry.settings.quota (drawing (at_of at.now) (live_plain at.now.time (plain_of tenancy.now))) }
    ensures left { result ≡ None → (drawing (at_of at.now) (live_plain at.now.time (plain_of tenancy.now))).today < 4_294_967_295 }
{
    let settings = tenancy.configuration.settings();
    let quota = settings.quota;
    if tenancy.numbering.last == u32::MAX {
        Some(Refusal::NumbersSpent)
    } else if drawn_today(settings, tenancy.numbering, at.time) >= quota {
        Some(Refusal::QuotaSpent(quota))
    } else if is_taken(tenancy, at, digest) {
        Some(Refusal::ReceiptTaken)
    } else {
        None
    }
}

// The entry with which a report begins.
#[tactic(auto, unfolding(wb_model::specs::Submissions::submission_entry))]
fn first_entry(
    tenancy: &Tenancy,
    at: &TurnContext,
    context: &ContextItem,
    item: &FormItem,
    public: Answers,
    mark: bool,
    digest: Digest,
) -> Result<Entry, Memory>
    requires place { IsLookedUp (plain_of tenancy.now) }
    requires drawn { digest ≡ digest_of tenancy.now.configuration.registry.settings.salt (receipt_text at.now.words) }
    requires low { 1 ≤ context.now.retention }
    requires high { context.now.retention ≤ 3_650 }
    ensures { IfOk result (λ entry. entry ≡ submission_entry (at_of at.now) (tenancy.now.configuration.registry) (Checked None public mark) context.now item.now) }
{
    let settings = tenancy.configuration.settings();
    let received = day_of(at.time, settings.offset);
    Ok(Entry {
        at: at.time,
        by: Actor::Reporter,
        deed: Deed::Submitted {
            ack_due: ack_due(received, &settings.calendar),
            answers: public,
            context: context.id,
            expires: expiry(received, context.retention),
            feedback_due: feedback_due(received, None, false, &settings.calendar),
            form: item.id,
            mark,
            readers: context.recipients.try_clone()?,
            receipt: digest,
            received,
            version: item.version,
        },
    })
}

// The reply to a submission that draws a number.
fn submitted(alloc: Global, number: u32, receipt: &[u8; 16]) -> Result<Told, Memory>
    requires { IsUtf8 receipt.now }
    ensures { IfOk result (λ t. t ≡ told 201 (submission_data number receipt.now)) }
{
    Ok(Told {
        status: 201,
        body: Body::of(submission_view(alloc, number, receipt)?),
    })
}

// The identity answers, where there are any.
fn secret_in(mark: bool, sealed: Answers) -> Option<Answers>
    ensures { result ≡ (if mark then Some sealed else None) }
{
    if mark { Some(sealed) } else { None }
}

// The report that begins with an entry.
fn started(alloc: Global, entry: Entry) -> Result<UnnumberedReport, Memory>
    ensures { IfOk result (λ begun. begun.items ≡ entry ∷ []) }
{
    match Case::start(alloc, entry) {
        Ok(case) => UnnumberedReport::new(alloc, case),
        Err(_) => Err(Memory),
    }
}

// The numbering after a draw.
fn next_numbering(settings: &TenantItem, numbering: Numbering, time: Moment) -> Numbering
    requires offset { IsOffset settings.now.offset }
    requires last { numbering.last < 4_294_967_295 }
    requires today { drawn_on (day_at time settings.now.offset) settings.now numbering < 4_294_967_295 }
    ensures { result ≡ drawn_at time settings.now numbering }
{
    let last = numbering.last + 1;
    let today = drawn_today(settings, numbering, time);
    Numbering {
        at: time,
        drawn: today + 1,
        last,
    }
}

// The plan of a report that begins.
fn begin(
    alloc: Global,
    tenancy: &Tenancy,
    at: &TurnContext,
    asking: &Asking<'_>,
    split: Split,
    drawn: &Drawn,
) -> Result<TurnPlan, Memory>
    requires place { IsLookedUp (plain_of tenancy.now) }
    requires receipt { drawn.now.receipt ≡ receipt_text at.now.words }
    requires digest { drawn.now.digest ≡ digest_of tenancy.now.configuration.registry.settings.salt (receipt_text at.now.words) }
    requires number { tenancy.now.numbering.last < 4_294_967_295 }
    requires today { (drawing (at_of at.now) (live_plain at.now.time (plain_of tenancy.now))).today < 4_294_967_295 }
    requires low { 1 ≤ asking.now.context.now.retention }
    requires high { asking.now.context.now.retention ≤ 3_650 }
    ensures told { IfOk result (λ plan. plan.told ≡ told 201 (submission_data (tenancy.now.numbering.last + 1) (receipt_text at.now.words))) }
    ensures change { IfOk result (λ plan. BeginsWith tenancy.now.configuration.registry at.now asking.now.context.now asking.now.item.now split plan.change) }
    ensures fit { IfOk result (λ plan. IsFitAtOnce at.now.time tenancy.now plan.change) }
{
    let numbering = next_numbering(tenancy.configuration.settings(), tenancy.numbering, at.time);
    let Some(number) = Number::try_new(numbering.last) else {
        unreachable!();
    };
    let told = submitted(alloc, numbering.last, &drawn.receipt)?;
    let Split {
        public,
        sealed,
        mark,
    } = split;
    let entry = first_entry(
        tenancy,
        at,
        asking.context,
        asking.item,
        public,
        mark,
        drawn.digest,
    )?;
    let case = started(alloc, entry)?;
    Ok(TurnPlan {
        told,
        change: Mutation::Begins(Opening {
            number,
            numbering,
            case,
            secret: secret_in(mark, sealed),
        }),
    })
}

// The plan of a submission whose answers are right.
fn plan_draw(
    alloc: Global,
    tenancy: &Tenancy,
    at: &TurnContext,
    asking: &Asking<'_>,
    split: Split,
) -> Result<TurnPlan, Memory>
    requires place { IsLookedUp (plain_of tenancy.now) }
    requires asking { (id : ℕ) × IsAskingIn tenancy.now id asking.now.context.now asking.now.item.now }
    ensures plan { IfOk result (λ plan. (id : ℕ) (answers : Answered) → IsAskingIn tenancy.now id asking.now.context.now asking.now.item.now → IsSplit asking.now.item.now.form answers split → PlansDraw tenancy.now at.now id answers plan) }
    ensures fit { IfOk result (λ plan. IsFitAtOnce at.now.time tenancy.now plan.change) }
{
    let drawn = draw_receipt(tenancy, &at.words);
    match hindrance(tenancy, at, &drawn.digest) {
        Some(why) => refused(alloc, why),
        None => begin(alloc, tenancy, at, asking, split, &drawn),
    }
}

/// The plan of a submission to a context.
pub fn submit(
    alloc: Global,
    tenancy: &Tenancy,
    at: &TurnContext,
    id: u32,
    answers: &Answers,
) -> Result<TurnPlan, Memory>
    requires place { IsLookedUp (plain_of tenancy.now) }
    ensures plan { IfOk result (PlansSubmission tenancy.now.configuration.tenant (live_plain at.now.time (plain_of tenancy.now)) (at_of at.now) id answers.now) }
    ensures fit { IfOk result (λ plan. IsFitAtOnce at.now.time tenancy.now plan.change) }
{
    let Some(asking) = find_asking(tenancy, id) else {
        return refused(alloc, Refusal::NotFound);
    };
    match check(alloc, &asking.item.form, answers) {
        Ok(split) => plan_draw(alloc, tenancy, at, &asking, split),
        Err(fault) => Ok(answering(faulty(alloc, fault)?)),
    }
}

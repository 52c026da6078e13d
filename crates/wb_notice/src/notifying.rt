//! The call of the program that delivers notices and writes them.
ghost use Rattle.std.specs.Prelude.{◌≡◌, ◌≢◌, ℕ, Ok, All, IfOk, IfErr, OnErr};
ghost use Rattle.wb_rows.specs.Held.{Held};
ghost use Rattle.wb_rows.specs.Loaded.{KeepsRows};
ghost use Rattle.wb_notice.specs.Notifies.{AsksAt, DeliversNone, HasDelivered, Notified, NotifiedAt, moment_of as moment_in, NothingHinders};
ghost use Rattle.wb_cli.specs.Statuses.{IsDoneOrNoMemory};

use crate::lines::write_notices;
use crate::outbox::send;
use crate::{Notice, NoticeNo};
use std::alloc::Global;
use wb_base::{Keeper, Moment, Sink, Text};
use wb_cli::{Plan, PlanFault, Status, load_tables, plan};
use wb_recovery::{later, latest_kept};

// The notices that one delivery over a keeper's rows makes new, or how the call ends for which there is none.
fn deliver_kept<K: Keeper, B: Keeper>(
    alloc: Global,
    moment: Moment,
    keeper: &mut K,
    outbox: &mut B,
) -> Result<Vec<Notice>, Status>
    ensures ok { IfOk result (λ notices. HasDelivered (K.end keeper.old) (K.end keeper.new) (B.end outbox.old) (B.end outbox.new) moment notices.items) }
    ensures err { IfErr result (DeliversNone (K.end keeper.old) (K.end keeper.new) (B.end outbox.old) (B.end outbox.new)) }
    ensures rows { KeepsRows (K.end keeper.old) (K.end keeper.new) }
    ensures outbox { OnErr result (KeepsRows (B.end outbox.old) (B.end outbox.new)) }
    ensures back { (K.end keeper.new).honest → (K.end keeper.old).honest }
    ensures outbox_back { (B.end outbox.new).honest → (B.end outbox.old).honest }
{
    let tables = match load_tables(alloc, keeper) {
        Ok(tables) => tables,
        Err(status) => return Err(status),
    };
    let now = later(moment, latest_kept(&tables));
    match send(alloc, &tables, now, outbox) {
        Ok(news) => Ok(news.notices),
        Err(NoticeNo::Keeper) => Err(Status::OutboxFault),
        Err(NoticeNo::OutboxRows(key)) => Err(Status::OutboxRows(key)),
        Err(NoticeNo::Memory) => Err(Status::NoMemory),
    }
}

// Delivers notices at a moment over a keeper's rows, and writes those that are new.
fn notify_at<K: Keeper, B: Keeper, W: Sink>(
    alloc: Global,
    moment: Moment,
    keeper: &mut K,
    outbox: &mut B,
    sink: &mut W,
) -> Status
    ensures did { NotifiedAt (K.end keeper.old) (K.end keeper.new) (B.end outbox.old) (B.end outbox.new) (W.end sink.old) (W.end sink.new) moment result }
    ensures rows { KeepsRows (K.end keeper.old) (K.end keeper.new) }
    ensures outbox { result ≢ Status.Done → result ≢ Status.WriteFault → KeepsRows (B.end outbox.old) (B.end outbox.new) }
    ensures back { (K.end keeper.new).honest → (K.end keeper.old).honest }
    ensures outbox_back { (B.end outbox.new).honest → (B.end outbox.old).honest }
    ensures written_on { result ≢ Status.WriteFault → (W.end sink.new).count ≡ (W.end sink.old).count }
{
    let notices = match deliver_kept(alloc, moment, keeper, outbox) {
        Ok(notices) => notices,
        Err(status) => return status,
    };
    match write_notices(notices.as_slice(), sink) {
        Ok(()) => Status::Done,
        Err(_) => Status::WriteFault,
    }
}

// The moment at which a plan asks for notices.
fn moment_of(plan: &Plan) -> Option<Moment>
    ensures { result ≡ moment_in plan.now }
{
    match plan {
        Plan::Notices { moment, .. } => Some(*moment),
        _ => None,
    }
}

/// Does what the words of `notices` ask: it delivers the notices that are owed at a moment, or at the greatest that is kept where that is later, over
/// a keeper's rows to an outbox, and writes a line for each that is new, and how many they are. The keeper's rows stay as they are. The lines
/// take no memory, so once the outbox was changed only the sink may fail.
pub fn notify<K: Keeper, B: Keeper, W: Sink>(
    alloc: Global,
    words: &[Text],
    keeper: &mut K,
    outbox: &mut B,
    sink: &mut W,
) -> Status
    ensures did { Notified (K.end keeper.old) (K.end keeper.new) (B.end outbox.old) (B.end outbox.new) (W.end sink.old) (W.end sink.new) words.now result }
    ensures rows { KeepsRows (K.end keeper.old) (K.end keeper.new) }
    // The outbox is as before where it says neither that all was done nor that the sink failed.
    ensures outbox { result ≢ Status.Done → result ≢ Status.WriteFault → KeepsRows (B.end outbox.old) (B.end outbox.new) }
    ensures back { (K.end keeper.new).honest → (K.end keeper.old).honest }
    ensures outbox_back { (B.end outbox.new).honest → (B.end outbox.old).honest }
    ensures written_on { result ≢ Status.WriteFault → (W.end sink.new).count ≡ (W.end sink.old).count }
    // All is done over rows that are read and an outbox of notices, where nothing failed, or there was no memory.
    ensures complete { (moment : ℕ) (h : Held) → AsksAt words.now moment → NothingHinders (K.end keeper.old) (K.end keeper.new) (B.end outbox.old) (B.end outbox.new) (W.end sink.old) (W.end sink.new) h → IsDoneOrNoMemory result }
{
    let plan = match plan(alloc, words) {
        Ok(plan) => plan,
        Err(PlanFault::Usage) => return Status::Usage,
        Err(PlanFault::Memory) => return Status::NoMemory,
    };
    match moment_of(&plan) {
        Some(moment) => notify_at(alloc, moment, keeper, outbox, sink),
        None => Status::Usage,
    }
}

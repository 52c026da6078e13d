//! The top call.
ghost use Rattle.std.specs.Prelude.{ℕ, ℤ, List, Option, Ok, ◌≡◌, ◌≢◌, ◌⊎◌, ◌<◌};
ghost use Rattle.wb_cli.specs.declared.plans.Plan.{Plan as PlanOf};
ghost use Rattle.wb_cli.specs.declared.plans.Plan.TheVariants.{Play, Tally, Register, Forecast};
ghost use Rattle.wb_cli.specs.CommandLine.{Asks};
ghost use Rattle.wb_export.specs.Exports.{has_recipient, has_tenant};
ghost use Rattle.whistle.specs.Asked.{Did, Writes, TalliesWhole, ExportsWhole};
ghost use Rattle.whistle.specs.Runs.{PlaysWhole};

use crate::generated::make;
use crate::playing::play_script;
use crate::tallying::tally;
use std::alloc::Global;
use wb_base::{Keeper, Sink, Source, Text};
use wb_cli::{Plan, PlanFault, Status, plan};
use wb_export::{export_forecast, export_register};

// Writes the script of so many turns.
fn make_script<W: Sink>(turns: u32, sink: &mut W) -> Status
    ensures ends { (result ≡ Status.Done) ⊎ (result ≡ Status.WriteFault) }
    ensures writes { Writes (W.end sink.old) (W.end sink.new) turns result }
    ensures written_on { result ≢ Status.WriteFault → (W.end sink.new).count ≡ (W.end sink.old).count }
{
    match make(turns, sink) {
        Ok(()) => Status::Done,
        Err(_) => Status::WriteFault,
    }
}

// Does what a plan asks, which is the one that the words say.
fn run_plan<S: Source, W: Sink, K: Keeper>(
    alloc: Global,
    words: &[Text],
    plan: &Plan,
    source: &mut S,
    sink: &mut W,
    keeper: &mut K,
) -> Status
    requires ok { Asks words.now plan.now }
    requires only { (other : PlanOf) → Asks words.now other → other ≡ plan.now }
    ensures did { Did (S.end source.old) (S.end source.new) (W.end sink.old) (W.end sink.new) (K.end keeper.old) (K.end keeper.new) words.now result }
    ensures back { (K.end keeper.new).honest → (K.end keeper.old).honest }
    ensures read_on { result ≢ Status.ReadFault → (S.end source.new).count ≡ (S.end source.old).count }
    ensures written_on { result ≢ Status.WriteFault → (W.end sink.new).count ≡ (W.end sink.old).count }
    ensures complete { (store : Option (List ℕ)) → Asks words.now (Play store) → PlaysWhole (S.end source.old) (S.end source.new) (W.end sink.old) (W.end sink.new) (K.end keeper.old) (K.end keeper.new) result }
    ensures complete_tally { (turns : ℕ) → Asks words.now (Tally turns) → TalliesWhole (W.end sink.old) (W.end sink.new) (K.end keeper.old) (K.end keeper.new) result }
    ensures complete_register { (t u moment : ℕ) (s : _) → Asks words.now (Register t u moment s) → ExportsWhole (W.end sink.old) (W.end sink.new) (K.end keeper.old) (K.end keeper.new) (has_recipient t u) result }
    ensures complete_forecast { (t : ℕ) (day : ℤ) (s : _) → Asks words.now (Forecast t day s) → ExportsWhole (W.end sink.old) (W.end sink.new) (K.end keeper.old) (K.end keeper.new) (has_tenant t) result }
{
    match plan {
        Plan::Play { .. } => play_script(alloc, source, sink, keeper),
        Plan::Make(turns) => make_script(*turns, sink),
        Plan::Tally(turns) => tally(alloc, *turns, sink, keeper),
        Plan::Register {
            tenant,
            user,
            moment,
            ..
        } => export_register(alloc, *tenant, *user, *moment, sink, keeper),
        Plan::Forecast { tenant, day, .. } => export_forecast(alloc, *tenant, *day, sink, keeper),
        Plan::Serve { .. } => Status::Usage,
        Plan::Notices { .. } => Status::Usage,
    }
}

/// Does what the words ask: `play` opens the host of the rows that the keeper holds and of the setup with which the source begins, plays
/// the script on it, and writes each reply before it reads the next frame; `make` writes a script and nothing else; `tally` plays that script on
/// the host of the rows that the keeper holds and of its setup, and writes what its replies and the host at the end come to; `register` and `forecast`
/// write a user's register, or what expires by a day, over the rows that the keeper holds. It waits for nobody and has one keeper, so it does
/// not do what the words of `serve` and `notices` ask.
pub fn run<S: Source, W: Sink, K: Keeper>(
    alloc: Global,
    words: &[Text],
    source: &mut S,
    sink: &mut W,
    keeper: &mut K,
) -> Status
    ensures did { Did (S.end source.old) (S.end source.new) (W.end sink.old) (W.end sink.new) (K.end keeper.old) (K.end keeper.new) words.now result }
    ensures back { (K.end keeper.new).honest → (K.end keeper.old).honest }
    // The source failed at no call of a run that does not say so, nor did the sink.
    ensures read_on { result ≢ Status.ReadFault → (S.end source.new).count ≡ (S.end source.old).count }
    ensures written_on { result ≢ Status.WriteFault → (W.end sink.new).count ≡ (W.end sink.old).count }
    // A whole script whose setup is accepted is played to its end over rows that are read, where nothing failed, or there was no memory.
    ensures complete { (store : Option (List ℕ)) → Asks words.now (Play store) → PlaysWhole (S.end source.old) (S.end source.new) (W.end sink.old) (W.end sink.new) (K.end keeper.old) (K.end keeper.new) result }
    // A tally over rows that are read is written, where the sink did not fail, or there was no memory, or the keeper failed when the host was opened.
    ensures complete_tally { (turns : ℕ) → Asks words.now (Tally turns) → TalliesWhole (W.end sink.old) (W.end sink.new) (K.end keeper.old) (K.end keeper.new) result }
    // A register and a forecast over rows that are read are written, where who is named is there and nothing failed, or there was no memory.
    ensures complete_register { (t u moment : ℕ) (s : _) → Asks words.now (Register t u moment s) → ExportsWhole (W.end sink.old) (W.end sink.new) (K.end keeper.old) (K.end keeper.new) (has_recipient t u) result }
    ensures complete_forecast { (t : ℕ) (day : ℤ) (s : _) → Asks words.now (Forecast t day s) → ExportsWhole (W.end sink.old) (W.end sink.new) (K.end keeper.old) (K.end keeper.new) (has_tenant t) result }
{
    match plan(alloc, words) {
        Ok(plan) => run_plan(alloc, words, &plan, source, sink, keeper),
        Err(PlanFault::Usage) => Status::Usage,
        Err(PlanFault::Memory) => Status::NoMemory,
    }
}

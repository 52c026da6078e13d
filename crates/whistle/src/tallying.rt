//! Generated scripts that are played and tallied.
ghost use Rattle.std.specs.Prelude.{◌≡◌, ◌≢◌, ◌≤◌, IfOk, IfErr};
ghost use Rattle.whistle.specs.TallyText.{counted, tally_text};
ghost use Rattle.whistle.specs.Tallies.{PlayedTurns, IsTallyOf, StoppedTally, Tallied};

use crate::answering::answer_frame;
use crate::counting::{StatusCount, count_reply};
use crate::generated::script_frame;
use crate::sample_setup::HARBOUR;
use crate::tally_lines::write_tally;
use std::alloc::Global;
use wb_base::{Keeper, Memory, Sink};
use wb_cli::Status;
use wb_list::Sorted;
use wb_promise::{a_desk_leaves_rows_that_are_read, each_script_is_as_promised};
use wb_server::open_by;
use wb_tables::Counts;
use wb_wire::Routes;

// What a tally tells of the turns that were played.
#[derive(Drop)]
struct Told {
    statuses: Vec<StatusCount>,
    held: Counts,
}

// Plays the generated script of so many turns. No reply is kept.
fn play_turns<K: Keeper>(
    alloc: Global,
    routes: &Routes,
    turns: u32,
    keeper: &mut K,
) -> Result<Told, Status>
    requires { turns ≤ 20_000 }
    ensures ok { IfOk result (λ told. (played : PlayedTurns (K.end keeper.old) (K.end keeper.new) turns) × IsTallyOf (K.end keeper.old) (K.end keeper.new) turns played (tally_text turns told.statuses.items (counted told.held))) }
    ensures err { IfErr result (λ status. StoppedTally (K.end keeper.old) (K.end keeper.new) turns status) }
    ensures back { (K.end keeper.new).honest → (K.end keeper.old).honest }
{
    each_script_is_as_promised();
    a_desk_leaves_rows_that_are_read();
    let mut desk = match open_by(alloc, keeper, HARBOUR.as_bytes()) {
        Ok(desk) => desk,
        Err(status) => return Err(status),
    };
    desk.stands();
    let mut statuses = Sorted::new(alloc);
    for before in 0..turns {
        let Ok(frame) = script_frame(alloc, before + 1) else {
            return Err(Status::NoMemory);
        };
        let answer = answer_frame(alloc, routes, &mut desk, keeper, &frame);
        match count_reply(&mut statuses, answer.told.status) {
            Ok(()) => {}
            Err(Memory) => return Err(Status::NoMemory),
        }
    }
    Ok(Told {
        statuses: statuses.into_vec(),
        held: desk.counts(),
    })
}

/// Plays the generated script of so many turns over the rows that the keeper holds, and writes how often each status was answered and what
/// the host counts at the end.
pub fn tally<W: Sink, K: Keeper>(alloc: Global, turns: u32, sink: &mut W, keeper: &mut K) -> Status
    requires { turns ≤ 20_000 }
    ensures tallied { Tallied (K.end keeper.old) (K.end keeper.new) (W.end sink.old) (W.end sink.new) turns result }
    ensures no_usage { result ≢ Status.Usage }
    ensures back { (K.end keeper.new).honest → (K.end keeper.old).honest }
    ensures written_on { result ≢ Status.WriteFault → (W.end sink.new).count ≡ (W.end sink.old).count }
{
    let routes = match Routes::new(alloc) {
        Ok(routes) => routes,
        Err(Memory) => return Status::NoMemory,
    };
    let told = match play_turns(alloc, &routes, turns, keeper) {
        Ok(told) => told,
        Err(status) => return status,
    };
    match write_tally(turns, told.statuses.as_slice(), &told.held, sink) {
        Ok(()) => Status::Done,
        Err(_) => Status::WriteFault,
    }
}

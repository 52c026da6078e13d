//! Scripts that are played.
ghost use Rattle.std.specs.Prelude.{Some, Ok, ◌≡◌, ◌≢◌, ◌<◌};
ghost use Rattle.whistle.specs.Runs.{Ran, PlaysWhole};

use crate::answering::{answer_frame, write_response};
use crate::opening::open;
use std::alloc::Global;
use wb_base::{Keeper, Memory, Sink, Source};
use wb_cli::Status;
use wb_promise::{a_desk_leaves_rows_that_are_read, each_script_is_as_promised};
use wb_wire::{FrameNo, FrameReader, Routes, one_frame, one_setup};

// Plays the setup's frame and frame after frame.
fn play<S: Source, W: Sink, K: Keeper>(
    alloc: Global,
    routes: &Routes,
    source: &mut S,
    sink: &mut W,
    keeper: &mut K,
) -> Status
    ensures ran { Ran (S.end source.old) (S.end source.new) (W.end sink.old) (W.end sink.new) (K.end keeper.old) (K.end keeper.new) result }
    ensures no_usage { result ≢ Status.Usage }
    ensures back { (K.end keeper.new).honest → (K.end keeper.old).honest }
    ensures read_on { result ≢ Status.ReadFault → (S.end source.new).count ≡ (S.end source.old).count }
    ensures written_on { result ≢ Status.WriteFault → (W.end sink.new).count ≡ (W.end sink.old).count }
{
    each_script_is_as_promised();
    a_desk_leaves_rows_that_are_read();
    let mut reader = FrameReader::new();
    let mut desk = match open(alloc, &mut reader, source, keeper) {
        Ok(desk) => desk,
        Err(status) => return status,
    };
    desk.stands();
    loop {
        match reader.next(alloc, source) {
            Ok(Some(frame)) => {
                let answer = answer_frame(alloc, routes, &mut desk, keeper, &frame);
                match write_response(sink, &answer) {
                    Ok(()) => {}
                    Err(_) => return Status::WriteFault,
                }
            }
            Ok(None) => return Status::Done,
            Err(FrameNo::Read) => return Status::ReadFault,
            Err(FrameNo::Bad(n)) => return Status::BadFrame(n),
            Err(FrameNo::TooLong) => return Status::TooLong,
            Err(FrameNo::Memory) => return Status::NoMemory,
        }
    }
}

/// Opens the host of the rows that are kept and of the setup with which the source begins, plays the script on it, and writes
/// each reply before it reads the next frame. It waits for nobody.
pub fn play_script<S: Source, W: Sink, K: Keeper>(
    alloc: Global,
    source: &mut S,
    sink: &mut W,
    keeper: &mut K,
) -> Status
    ensures ran { Ran (S.end source.old) (S.end source.new) (W.end sink.old) (W.end sink.new) (K.end keeper.old) (K.end keeper.new) result }
    ensures no_usage { result ≢ Status.Usage }
    ensures back { (K.end keeper.new).honest → (K.end keeper.old).honest }
    ensures read_on { result ≢ Status.ReadFault → (S.end source.new).count ≡ (S.end source.old).count }
    ensures written_on { result ≢ Status.WriteFault → (W.end sink.new).count ≡ (W.end sink.old).count }
    ensures complete { PlaysWhole (S.end source.old) (S.end source.new) (W.end sink.old) (W.end sink.new) (K.end keeper.old) (K.end keeper.new) result }
{
    one_frame();
    one_setup();
    match Routes::new(alloc) {
        Ok(routes) => play(alloc, &routes, source, sink, keeper),
        Err(Memory) => Status::NoMemory,
    }
}

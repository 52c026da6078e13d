//! A reader of a script's setup and frames.
ghost use Rattle.std.specs.Prelude.{◌≡◌, ◌≢◌, ◌≤◌, ◌^◌, Some, None, Err, IfOk, IfErr, IfSome};
ghost use Rattle.std.specs.Io.KnownBytes.{Keeps};
ghost use Rattle.wb_wire.specs.FrameReading.{TookNext, HasCause, after_next, after_text};
ghost use Rattle.wb_wire.specs.SetupReading.{TookSetup, LacksSetup, after_setup};
ghost use Rattle.wb_wire.specs.TextReading.{BeginsNone, GoesOnOtherwise, HasCounted, Stops, TookText};

use crate::frame_line::{FirstLine, FrameLine, SetupLine};
use crate::read_text::{Text, take_text};
use std::alloc::Global;
use std::marker::Model;
use wb_base::Source;
use wb_model::ScriptFrame;

/// Why no frame is given.
#[derive(Clone, Copy, Debug, PartialEq, Eq)]
pub enum FrameNo {
    /// The source failed.
    Read,
    /// The frame of this number, counted from 1, is not of the form; 0 is the setup's.
    Bad(u64),
    /// 2^40 bytes were taken and the input has not ended.
    TooLong,
    /// There was no memory.
    Memory,
}

// An error, which is why the reader stopped.
fn stop(stopped: &mut Option<FrameNo>, no: FrameNo) -> FrameNo
    ensures stops { stopped.new ≡ Some no }
    ensures same { result ≡ no }
{
    *stopped = Some(no);
    no
}

/// Takes a setup and frame after frame from a source, and holds at most one.
///
/// It reads a frame's first line byte by byte, and its bytes in whatever pieces the source gives.
#[derive(Drop)]
pub struct FrameReader {
    given: u64,
    taken: u64,
    stopped: Option<FrameNo>,
}

impl Model for FrameReader {
    ghost use Rattle.std.specs.Prelude.{◌≤◌, ◌^◌};
    ghost use Rattle.wb_wire.specs.FrameReading.{Progress};

    ghost Value = { Progress };

    ghost view = { λ r. record { given = r.given; taken = r.taken; stopped = r.stopped } };

    ghost invariant = { λ r. (r.given ≤ r.taken) × (r.taken ≤ 2 ^ 40) };
}

impl FrameReader {
    /// A reader that has given nothing. It takes no memory.
    pub fn new() -> FrameReader
        ensures { result ≡ record { given = 0; taken = 0; stopped = None } }
    {
        FrameReader {
            given: 0,
            taken: 0,
            stopped: None,
        }
    }

    /// The next frame, None where the input has ended after a whole frame, or why there is none. After an error it
    /// answers that error again and asks its source for nothing.
    pub fn next<S: Source>(
        &mut self,
        alloc: Global,
        source: &mut S,
    ) -> Result<Option<ScriptFrame>, FrameNo>
        ensures ok { IfOk result (λ next. TookNext (S.end source.old).left (S.end source.new).left next) }
        ensures goes_on { IfOk result (λ next. self.new ≡ after_next self.old next) }
        ensures limit { self.new.taken ≤ 2 ^ 40 }
        ensures cause { self.old.stopped ≡ None → IfErr result (λ no. HasCause self.old (S.end source.old).left (S.end source.new).left (S.end source.old).count (S.end source.new).count no) }
        ensures stops { IfErr result (λ no. self.new ≡ record self.old { stopped = Some no }) }
        ensures again { IfSome self.old.stopped (λ no. (result ≡ Err no) × Keeps (S.end source.old).left (S.end source.new).left × ((S.end source.new).count ≡ (S.end source.old).count)) }
        ensures later { (S.end source.old).count ≤ (S.end source.new).count }
        ensures stayed { result ≢ Err FrameNo.Read → (S.end source.new).count ≡ (S.end source.old).count }
    {
        let number = self.given + 1;
        match self.take(alloc, source, number) {
            Ok(Some(text)) => {
                let FrameLine { moment, words } = text.head;
                self.given += 1;
                Ok(Some(ScriptFrame {
                    moment,
                    words,
                    bytes: text.bytes,
                }))
            }
            Ok(None) => Ok(None),
            Err(no) => Err(no),
        }
    }

    /// The bytes of the setup's frame with which the input begins, or why there are none. After an error it answers that
    /// error again and asks its source for nothing.
    pub fn setup<S: Source>(&mut self, alloc: Global, source: &mut S) -> Result<Vec<u8>, FrameNo>
        ensures ok { IfOk result (λ bytes. TookSetup (S.end source.old).left (S.end source.new).left bytes.items) }
        ensures goes_on { IfOk result (λ bytes. self.new ≡ after_setup self.old bytes.items) }
        ensures limit { self.new.taken ≤ 2 ^ 40 }
        ensures cause { self.old.stopped ≡ None → IfErr result (λ no. LacksSetup self.old (S.end source.old).left (S.end source.new).left (S.end source.old).count (S.end source.new).count no) }
        ensures stops { IfErr result (λ no. self.new ≡ record self.old { stopped = Some no }) }
        ensures again { IfSome self.old.stopped (λ no. (result ≡ Err no) × Keeps (S.end source.old).left (S.end source.new).left × ((S.end source.new).count ≡ (S.end source.old).count)) }
        ensures later { (S.end source.old).count ≤ (S.end source.new).count }
        ensures stayed { result ≢ Err FrameNo.Read → (S.end source.new).count ≡ (S.end source.old).count }
    {
        match self.take::<SetupLine, S>(alloc, source, 0) {
            Ok(Some(text)) => Ok(text.bytes.into_vec()),
            Ok(None) => Err(stop(&mut self.stopped, FrameNo::Bad(0))),
            Err(no) => Err(no),
        }
    }

    // The next text, None at the end of the input, or why the reader stopped: a text that is not of the form is bad under this number.
    fn take<H: FirstLine, S: Source>(
        &mut self,
        alloc: Global,
        source: &mut S,
        number: u64,
    ) -> Result<Option<Text<H>>, FrameNo>
        ensures ok { IfOk result (λ text. TookText H.is_line self.old.taken (S.end source.old).left (S.end source.new).left text) }
        ensures goes_on { IfOk result (λ text. self.new ≡ after_text self.old text) }
        ensures cause { self.old.stopped ≡ None → IfErr result (λ no. Stops (BeginsNone H.is_line) (GoesOnOtherwise H.is_line) self.old.taken number (S.end source.old).left (S.end source.new).left (S.end source.old).count (S.end source.new).count no) }
        ensures stops { IfErr result (λ no. self.new ≡ record self.old { stopped = Some no }) }
        ensures again { IfSome self.old.stopped (λ no. (result ≡ Err no) × Keeps (S.end source.old).left (S.end source.new).left × ((S.end source.new).count ≡ (S.end source.old).count)) }
        ensures counts { HasCounted (S.end source.old).count (S.end source.new).count result }
    {
        if let Some(no) = self.stopped {
            return Err(no);
        }
        match take_text(alloc, source, self.taken, number) {
            Ok(Some(text)) => {
                self.taken += text.size;
                Ok(Some(text))
            }
            Ok(None) => Ok(None),
            Err(no) => Err(stop(&mut self.stopped, no)),
        }
    }
}

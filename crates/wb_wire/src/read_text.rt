//! Taking a text from a source: a first line and the bytes that it says, each with a line feed after it.
ghost use Rattle.std.specs.Prelude.{◌≤◌, ◌^◌, IfOk, IfErr};
ghost use Rattle.wb_wire.specs.TextReading.{BeginsNone, GoesOnOtherwise, HasCounted, Stops, TookText};

use crate::FrameNo;
use crate::frame_line::FirstLine;
use crate::read_frame::{LINE_ROOM, LineEnd, Part, take_body, take_line};
use std::alloc::Global;
use wb_base::Source;
use wb_list::Items;

// How many bytes may be taken in all.
const LIMIT: u64 = 1 << 40;

/// A text: what its first line says, the bytes that follow, and how many bytes it has in all.
#[derive(Drop)]
pub struct Text<H: FirstLine> {
    pub head: H,
    pub bytes: Items<u8>,
    pub size: u64,
}

/// Takes a text, after so many bytes; None at the end of the input. One that is not of the form is bad under this number.
pub fn take_text<H: FirstLine, S: Source>(
    alloc: Global,
    source: &mut S,
    taken: u64,
    number: u64,
) -> Result<Option<Text<H>>, FrameNo>
    requires { taken ≤ 2 ^ 40 }
    ensures ok { IfOk result (λ text. TookText H.is_line taken (S.end source.old).left (S.end source.new).left text) }
    ensures cause { IfErr result (λ no. Stops (BeginsNone H.is_line) (GoesOnOtherwise H.is_line) taken number (S.end source.old).left (S.end source.new).left (S.end source.old).count (S.end source.new).count no) }
    ensures counts { HasCounted (S.end source.old).count (S.end source.new).count result }
{
    let most = LIMIT - taken;
    let mut room = [0u8; LINE_ROOM];
    let used = match take_line(source, most, &mut room) {
        Ok(LineEnd::End) => return Ok(None),
        Ok(LineEnd::Whole(used)) => used,
        Ok(LineEnd::Broken) => return Err(FrameNo::Bad(number)),
        Err(no) => return Err(no),
    };
    let (head, size) = match H::read(&room[..used]) {
        Some(said) => said,
        None => return Err(FrameNo::Bad(number)),
    };
    let bytes = match take_body(alloc, source, most - used as u64 - 1, size) {
        Ok(Part::Whole(bytes)) => bytes,
        Ok(Part::Broken) => return Err(FrameNo::Bad(number)),
        Ok(Part::NoMemory) => return Err(FrameNo::Memory),
        Err(no) => return Err(no),
    };
    let size = (used + size + 2) as u64;
    Ok(Some(Text { head, bytes, size }))
}

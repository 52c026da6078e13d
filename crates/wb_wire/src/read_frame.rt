//! Taking the parts of a frame from a source, of which at most so many bytes may be taken.
ghost use Rattle.std.specs.Prelude.{◌≡◌, ◌<◌, ◌≤◌, length, take, [], IfOk, IfErr};
ghost use Rattle.std.specs.Io.KnownBytes.{Consumes, IsAtEnd};
ghost use Rattle.wb_wire.specs.FrameReading.{Stopped, TookLine, StoppedInLine, TookBytes, StoppedInBytes, TookByte, TookBody, StoppedInBody};
ghost use Rattle.wb_wire.specs.TextReading.{HasCounted};

use crate::FrameNo;
use std::alloc::{AllocError, Global};
use wb_base::Source;
use wb_list::Items;

/// The longest line of a frame has 87 bytes before its line feed.
pub const LINE_ROOM: usize = 96;

/// How the reading of a line ended.
pub enum LineEnd {
    /// At the end of the input, with nothing read.
    End,
    /// At a line feed after so many bytes.
    Whole(usize),
    /// With no line feed.
    Broken,
}

/// How the reading of a number of bytes ended.
pub enum Part {
    Whole(Items<u8>),
    /// They are not there.
    Broken,
    NoMemory,
}

// Takes the next bytes, at most so many; where none may be taken, looks whether the input has ended.
fn take_some<S: Source>(source: &mut S, most: u64, into: &mut [u8]) -> Result<usize, FrameNo>
    requires { 0 < length into.old }
    ensures fits { IfOk result (λ n. n ≤ length into.new) }
    ensures most { IfOk result (λ n. n ≤ most) }
    ensures ok { IfOk result (λ n. Consumes (S.end source.old).left (S.end source.new).left (take n into.new)) }
    ensures end { IfOk result (λ n. n ≡ 0 → IsAtEnd (S.end source.new).left) }
    ensures err { IfErr result (λ no. Stopped most (S.end source.old).left (S.end source.new).left (S.end source.old).count (S.end source.new).count [] no) }
    ensures counts { HasCounted (S.end source.old).count (S.end source.new).count result }
{
    if most == 0 {
        let mut probe = [0u8; 1];
        return match source.read(&mut probe) {
            Ok(0) => Ok(0),
            Ok(_) => Err(FrameNo::TooLong),
            Err(_) => Err(FrameNo::Read),
        };
    }
    let room = most.min(into.len() as u64) as usize;
    match source.read(&mut into[..room]) {
        Ok(size) => Ok(size),
        Err(_) => Err(FrameNo::Read),
    }
}

/// Takes a line with its line feed, as far as the input and the room go.
pub fn take_line<S: Source>(
    source: &mut S,
    most: u64,
    room: &mut [u8; LINE_ROOM],
) -> Result<LineEnd, FrameNo>
    ensures ok { IfOk result (λ line. TookLine most (S.end source.old).left (S.end source.new).left room.new line) }
    ensures err { IfErr result (λ no. StoppedInLine most (S.end source.old).left (S.end source.new).left (S.end source.old).count (S.end source.new).count no) }
    ensures counts { HasCounted (S.end source.old).count (S.end source.new).count result }
{
    let mut used = 0;
    let mut byte = [0u8; 1];
    while used < LINE_ROOM {
        match take_some(source, most - used as u64, &mut byte) {
            Ok(0) => return Ok(if used == 0 {
                LineEnd::End
            } else {
                LineEnd::Broken
            }),
            Ok(_) => {
                if byte[0] == b'\n' {
                    return Ok(LineEnd::Whole(used));
                }
                room[used] = byte[0];
                used += 1;
            }
            Err(no) => return Err(no),
        }
    }
    Ok(LineEnd::Broken)
}

// Fills the room, as far as the input goes.
fn fill<S: Source>(source: &mut S, most: u64, room: &mut [u8]) -> Result<usize, FrameNo>
    ensures fits { IfOk result (λ n. n ≤ length room.new) }
    ensures most { IfOk result (λ n. n ≤ most) }
    ensures ok { IfOk result (λ n. Consumes (S.end source.old).left (S.end source.new).left (take n room.new)) }
    ensures end { IfOk result (λ n. n < length room.new → IsAtEnd (S.end source.new).left) }
    ensures err { IfErr result (λ no. StoppedInBytes (length room.new) most (S.end source.old).left (S.end source.new).left (S.end source.old).count (S.end source.new).count no) }
    ensures counts { HasCounted (S.end source.old).count (S.end source.new).count result }
{
    let mut at = 0;
    while at < room.len() {
        match take_some(source, most - at as u64, &mut room[at..]) {
            Ok(0) => return Ok(at),
            Ok(size) => at += size,
            Err(no) => return Err(no),
        }
    }
    Ok(at)
}

// Room for so many bytes.
fn zeros(alloc: Global, size: usize) -> Result<Vec<u8>, AllocError>
    ensures { IfOk result (λ room. length room.items ≡ size) }
{
    Ok(vec![in alloc; 0; size]?)
}

// Takes so many bytes.
fn take_bytes<S: Source>(
    alloc: Global,
    source: &mut S,
    most: u64,
    size: usize,
) -> Result<Part, FrameNo>
    ensures ok { IfOk result (λ part. TookBytes size most (S.end source.old).left (S.end source.new).left part) }
    ensures err { IfErr result (λ no. StoppedInBytes size most (S.end source.old).left (S.end source.new).left (S.end source.old).count (S.end source.new).count no) }
    ensures counts { HasCounted (S.end source.old).count (S.end source.new).count result }
{
    let mut bytes = match zeros(alloc, size) {
        Ok(bytes) => bytes,
        Err(_) => return Ok(Part::NoMemory),
    };
    match fill(source, most, bytes.as_mut_slice()) {
        Ok(count) => {
            if count < size {
                return Ok(Part::Broken);
            }
        }
        Err(no) => return Err(no),
    }
    Ok(Part::Whole(Items::of(bytes)))
}

// Takes one byte, None at the end.
fn take_byte<S: Source>(source: &mut S, most: u64) -> Result<Option<u8>, FrameNo>
    ensures ok { IfOk result (λ byte. TookByte most (S.end source.old).left (S.end source.new).left byte) }
    ensures err { IfErr result (λ no. Stopped most (S.end source.old).left (S.end source.new).left (S.end source.old).count (S.end source.new).count [] no) }
    ensures counts { HasCounted (S.end source.old).count (S.end source.new).count result }
{
    let mut byte = [0u8; 1];
    match take_some(source, most, &mut byte) {
        Ok(0) => Ok(None),
        Ok(_) => Ok(Some(byte[0])),
        Err(no) => Err(no),
    }
}

/// Takes so many bytes and a line feed.
pub fn take_body<S: Source>(
    alloc: Global,
    source: &mut S,
    most: u64,
    size: usize,
) -> Result<Part, FrameNo>
    ensures ok { IfOk result (λ part. TookBody size most (S.end source.old).left (S.end source.new).left part) }
    ensures err { IfErr result (λ no. StoppedInBody size most (S.end source.old).left (S.end source.new).left (S.end source.old).count (S.end source.new).count no) }
    ensures counts { HasCounted (S.end source.old).count (S.end source.new).count result }
{
    let bytes = match take_bytes(alloc, source, most, size) {
        Ok(Part::Whole(bytes)) => bytes,
        Ok(Part::Broken) => return Ok(Part::Broken),
        Ok(Part::NoMemory) => return Ok(Part::NoMemory),
        Err(no) => return Err(no),
    };
    match take_byte(source, most - size as u64) {
        Ok(Some(end)) => {
            if end == b'\n' {
                Ok(Part::Whole(bytes))
            } else {
                Ok(Part::Broken)
            }
        }
        Ok(None) => Ok(Part::Broken),
        Err(no) => Err(no),
    }
}

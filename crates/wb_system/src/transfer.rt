//! Reads and writes that a signal may interrupt, and the count of calls that failed.
ghost use Rattle.std.specs.Prelude.{◌≡◌, Ok, is_err, if◌then◌else◌, MatchResult, IsErr, OnOk, OnErr};
ghost use Rattle.std.specs.Io.{ReadsAtMost, WritesAtMost};
ghost use Rattle.std.specs.Io.KnownBytes.{Appends, ReadConsumes, WriteAppends};
ghost use Rattle.wb_base.specs.Outside.{AppendsFront, HasCause, one_more};

use std::io;
use std::io::{ErrorKind, Read, Write};
use wb_base::Failed;

// How often a call that a signal interrupts is made. A program that is stopped and goes on is interrupted once for each time.
const TRIES: u32 = 16;

// Counts a call where it failed.
pub(crate) fn counted<T>(faults: &mut u64, call: io::Result<T>) -> Result<T, Failed>
    ensures result { MatchResult call (λ value. result ≡ Ok value) (λ _. IsErr result) }
    ensures cause { HasCause faults.old faults.new result }
    ensures count { faults.new ≡ (if is_err result then one_more faults.old else faults.old) }
{
    match call {
        Ok(value) => Ok(value),
        Err(_) => {
            *faults = faults.saturating_add(1);
            Err(Failed)
        }
    }
}

// One read, made again where a signal interrupted it.
pub(crate) fn read_some<R: Read>(from: &mut R, into: &mut [u8]) -> io::Result<usize>
    ensures bound { ReadsAtMost result into.new }
    ensures bytes { ReadConsumes (R.remaining from.old) (R.remaining from.new) result into.new }
{
    for _ in 1..TRIES {
        match from.read(into) {
            Err(e) if e.kind() == ErrorKind::Interrupted => {}
            read => return read,
        }
    }
    from.read(into)
}

// One write, made again where a signal interrupted it.
fn write_some<W: Write>(to: &mut W, bytes: &[u8]) -> io::Result<usize>
    ensures bound { WritesAtMost result bytes.now }
    ensures bytes { WriteAppends (W.contents to.old) (W.contents to.new) result bytes.now }
{
    for _ in 1..TRIES {
        match to.write(bytes) {
            Err(e) if e.kind() == ErrorKind::Interrupted => {}
            written => return written,
        }
    }
    to.write(bytes)
}

// Writes all of the bytes. A write that takes nothing of some bytes fails.
pub(crate) fn send_all<W: Write>(to: &mut W, bytes: &[u8]) -> io::Result<()>
    ensures ok { OnOk result (Appends (W.contents to.old) (W.contents to.new) bytes.now) }
    ensures err { OnErr result (AppendsFront (W.contents to.old) (W.contents to.new) bytes.now) }
{
    let mut rest = bytes;
    while !rest.is_empty() {
        match write_some(to, rest)? {
            0 => return Err(ErrorKind::WriteZero.into()),
            count => rest = &rest[count..],
        }
    }
    Ok(())
}

//! A source over a reader of std and a sink over a writer of std. They tell what the reader or the writer tells: nothing of
//! a real end, and all of an end in memory.
ghost use Rattle.std.specs.Prelude.{◌≡◌, ◌<◌, length, is_err, if◌then◌else◌, OnOk, OnErr};
ghost use Rattle.std.specs.Io.{ReadsAtMost};
ghost use Rattle.std.specs.Io.KnownBytes.{Appends, ReadConsumes};
ghost use Rattle.wb_base.specs.Outside.{AppendsFront, HasCause, one_more};

use crate::{Failed, Sink, Source};
use std::io::{Read, Write};
use std::marker::Model;

/// A source over a reader, as over standard input, seen as what the reader tells that it has left and the count of its faults.
#[derive(Drop)]
pub struct StdSource<R: Read> {
    inner: R,
    faults: u64,
}

impl<R: Read> Model for StdSource<R> {
    ghost use Rattle.wb_base.specs.StdEnds.{StdEnd};

    ghost Value = { StdEnd };

    ghost view = { λ s. record { told = R.remaining s.inner; faults = s.faults } };
}

impl<R: Read> StdSource<R> {
    /// A source over a reader, with no fault so far.
    pub fn new(inner: R) -> StdSource<R>
        ensures { result ≡ record { told = R.remaining inner; faults = 0 } }
    {
        StdSource { inner, faults: 0 }
    }
}

impl<R: Read> Source for StdSource<R> {
    ghost end = { λ s. record { left = s.told; count = s.faults } };

    fn faults(&self) -> u64 {
        self.faults
    }

    fn read(&mut self, into: &mut [u8]) -> Result<usize, Failed>
        requires { 0 < length into.old }
        ensures bound { ReadsAtMost result into.new }
        ensures bytes { ReadConsumes self.old.told self.new.told result into.new }
        ensures cause { HasCause self.old.faults self.new.faults result }
        ensures count { self.new.faults ≡ (if is_err result then one_more self.old.faults else self.old.faults) }
    {
        match self.inner.read(into) {
            Ok(count) => Ok(count),
            Err(_) => {
                self.faults = self.faults.saturating_add(1);
                Err(Failed)
            }
        }
    }
}

/// A sink over a writer, as over standard output, seen as what the writer tells that it holds and the count of its faults.
#[derive(Drop)]
pub struct StdSink<W: Write> {
    inner: W,
    faults: u64,
}

impl<W: Write> Model for StdSink<W> {
    ghost use Rattle.wb_base.specs.StdEnds.{StdEnd};

    ghost Value = { StdEnd };

    ghost view = { λ s. record { told = W.contents s.inner; faults = s.faults } };
}

impl<W: Write> StdSink<W> {
    /// A sink over a writer, with no fault so far.
    pub fn new(inner: W) -> StdSink<W>
        ensures { result ≡ record { told = W.contents inner; faults = 0 } }
    {
        StdSink { inner, faults: 0 }
    }
}

impl<W: Write> Sink for StdSink<W> {
    ghost end = { λ s. record { held = s.told; count = s.faults } };

    fn faults(&self) -> u64 {
        self.faults
    }

    /// A write that takes nothing of some bytes is a fault.
    fn write_all(&mut self, bytes: &[u8]) -> Result<(), Failed>
        ensures ok { OnOk result (Appends self.old.told self.new.told bytes.now) }
        ensures err { OnErr result (AppendsFront self.old.told self.new.told bytes.now) }
        ensures cause { HasCause self.old.faults self.new.faults result }
        ensures count { self.new.faults ≡ (if is_err result then one_more self.old.faults else self.old.faults) }
    {
        let mut rest = bytes;
        while !rest.is_empty() {
            match self.inner.write(rest) {
                Ok(0) | Err(_) => {
                    self.faults = self.faults.saturating_add(1);
                    return Err(Failed);
                }
                Ok(count) => rest = &rest[count..],
            }
        }
        Ok(())
    }
}

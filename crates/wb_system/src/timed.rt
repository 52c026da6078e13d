//! A connection over TCP that keeps time limits.
ghost use Rattle.std.specs.Prelude.{◌≡◌, OnOk};
ghost use Rattle.std.specs.Io.{ReadsAtMost, WritesAtMost};

use crate::stages::{Stage, reply_limit};
use std::io;
use std::io::{Read, Write};
use std::marker::Model;
use std::net::TcpStream;
use std::time::{Clock, Instant};

/// A connection whose reads and writes end by their limits, seen as what it is at. They fail too where the clock cannot be read.
#[derive(Drop)]
pub struct TimedStream<'a, C: Clock> {
    clock: &'a C,
    stream: TcpStream,
    stage: Stage,
}

impl<'a, C: Clock> Model for TimedStream<'a, C> {
    ghost use Rattle.wb_system.specs.declared.stages.Stage.{Stage};

    ghost Value = { Stage };

    ghost view = { λ s. s.stage };
}

impl<'a, C: Clock> TimedStream<'a, C> {
    // A connection over which nothing came yet.
    pub fn new(clock: &'a C, stream: TcpStream) -> TimedStream<'a, C>
        ensures { result ≡ Stage.New }
    {
        TimedStream {
            clock,
            stream,
            stage: Stage::New,
        }
    }
}

impl<'a, C: Clock> Read for TimedStream<'a, C> {
    // A request began with its first bytes, however many reads it takes.
    fn read(&mut self, into: &mut [u8]) -> io::Result<usize>
        ensures bound { ReadsAtMost result into.new }
        ensures begun { OnOk result ((since : _) × (self.new ≡ Stage.Request since)) }
        ensures kept { (since : _) → self.old ≡ Stage.Request since → self.new ≡ Stage.Request since }
    {
        let limit = self.stage.read_limit(Instant::now(self.clock)?)?;
        self.stream.set_read_timeout(Some(limit))?;
        let count = self.stream.read(into)?;
        let since = self.stage.request_since(Instant::now(self.clock)?);
        self.stage = Stage::Request(since);
        Ok(count)
    }
}

impl<'a, C: Clock> Write for TimedStream<'a, C> {
    // A reply began with its first write, however many it takes.
    fn write(&mut self, bytes: &[u8]) -> io::Result<usize>
        ensures bound { WritesAtMost result bytes.now }
        ensures begun { OnOk result ((since : _) × (self.new ≡ Stage.Reply since)) }
        ensures kept { (since : _) → self.old ≡ Stage.Reply since → self.new ≡ Stage.Reply since }
    {
        let now = Instant::now(self.clock)?;
        let since = self.stage.reply_since(now);
        self.stage = Stage::Reply(since);
        self.stream
            .set_write_timeout(Some(reply_limit(since, now)?))?;
        self.stream.write(bytes)
    }

    fn flush(&mut self) -> io::Result<()> {
        self.stream.flush()
    }
}

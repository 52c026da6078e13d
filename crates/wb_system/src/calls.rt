//! A call over TCP: a connection that was asked for here, whose limit begins as it is there.
ghost use Rattle.std.specs.Prelude.{◌≡◌, ◌<◌, MatchResult};
ghost use Rattle.std.specs.Duration.{as_nanos};
ghost use Rattle.std.specs.Io.{ReadsAtMost, WritesAtMost};
ghost use Rattle.wb_system.specs.Stages.{left_nanos};

use crate::link::StreamLink;
use crate::stages::left_of;
use std::io;
use std::io::{Read, Write};
use std::marker::Model;
use std::net::TcpStream;
use std::time::{Clock, Duration, Instant};

/// Within how many seconds of its connection a call is answered.
pub const CALL_SECONDS: u64 = 10;

// How long a call may wait that began at a moment. Where no time is left, it fails.
fn call_limit(since: Instant, now: Instant) -> io::Result<Duration>
    ensures { MatchResult result (λ limit. (0 < as_nanos limit) × (as_nanos limit ≡ left_nanos 10 since now)) (λ _. left_nanos 10 since now ≡ 0) }
{
    left_of(CALL_SECONDS, since, now)
}

/// A connection whose reads and writes all end within the limit of the call, seen as the moment at which it began. They fail too where the clock
/// cannot be read.
#[derive(Drop)]
pub struct CallStream<'a, C: Clock> {
    clock: &'a C,
    stream: TcpStream,
    since: Instant,
}

impl<'a, C: Clock> Model for CallStream<'a, C> {
    ghost use Rattle.std.specs.declared.time.Instant.{Instant};

    ghost Value = { Instant };

    ghost view = { λ s. s.since };
}

impl<'a, C: Clock> Read for CallStream<'a, C> {
    fn read(&mut self, into: &mut [u8]) -> io::Result<usize>
        ensures bound { ReadsAtMost result into.new }
        ensures since { self.new ≡ self.old }
    {
        let limit = call_limit(self.since, Instant::now(self.clock)?)?;
        self.stream.set_read_timeout(Some(limit))?;
        self.stream.read(into)
    }
}

impl<'a, C: Clock> Write for CallStream<'a, C> {
    fn write(&mut self, bytes: &[u8]) -> io::Result<usize>
        ensures bound { WritesAtMost result bytes.now }
        ensures since { self.new ≡ self.old }
    {
        let limit = call_limit(self.since, Instant::now(self.clock)?)?;
        self.stream.set_write_timeout(Some(limit))?;
        self.stream.write(bytes)
    }

    fn flush(&mut self) -> io::Result<()>
        ensures since { self.new ≡ self.old }
    {
        self.stream.flush()
    }
}

/// A link over a connection that was asked for here. All its calls together end within `CALL_SECONDS` of the connection.
pub type TcpCall<'a, C> = StreamLink<CallStream<'a, C>>;

impl<'a, C: Clock> StreamLink<CallStream<'a, C>> {
    /// A link over a connection that stands since a moment of this clock, with no fault so far.
    pub fn new(clock: &'a C, stream: TcpStream, since: Instant) -> TcpCall<'a, C>
        ensures { result ≡ 0 }
    {
        StreamLink::over(CallStream {
            clock,
            stream,
            since,
        })
    }
}

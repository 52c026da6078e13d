//! Links over connections that keep time limits.
ghost use Rattle.std.specs.Prelude.{◌≡◌, ◌<◌, None, length, is_err, if◌then◌else◌};
ghost use Rattle.std.specs.Io.{ReadsAtMost};
ghost use Rattle.wb_base.specs.Outside.{HasCause, one_more};

use crate::timed::TimedStream;
use crate::transfer::{counted, read_some, send_all};
use std::io::{Read, Write};
use std::marker::Model;
use std::net::TcpStream;
use std::time::Clock;
use wb_base::Failed;
use wb_transport::Link;

/// A link over a connection, seen as the count of its faults. It tells no bytes. The connection is closed as it goes. A call that
/// a limit of the connection ends is a fault, and one without a clock too.
#[derive(Drop)]
pub struct StreamLink<S> {
    stream: S,
    faults: u64,
}

impl<S> Model for StreamLink<S> {
    ghost use Rattle.std.specs.Prelude.{ℕ};

    ghost Value = { ℕ };

    ghost view = { λ k. k.faults };
}

impl<S> StreamLink<S> {
    // A link over a connection, with no fault so far.
    pub(crate) fn over(stream: S) -> StreamLink<S>
        ensures { result ≡ 0 }
    {
        StreamLink { stream, faults: 0 }
    }
}

impl<S: Read + Write + Drop> Link for StreamLink<S> {
    ghost end = { λ faults. record { left = None; got = None; count = faults } };

    fn faults(&self) -> u64 {
        self.faults
    }

    fn read(&mut self, into: &mut [u8]) -> Result<usize, Failed>
        requires { 0 < length into.old }
        ensures bound { ReadsAtMost result into.new }
        ensures cause { HasCause self.old self.new result }
        ensures count { self.new ≡ (if is_err result then one_more self.old else self.old) }
    {
        counted(&mut self.faults, read_some(&mut self.stream, into))
    }

    /// A write that takes nothing of some bytes is a fault.
    fn write_all(&mut self, bytes: &[u8]) -> Result<(), Failed>
        ensures cause { HasCause self.old self.new result }
        ensures count { self.new ≡ (if is_err result then one_more self.old else self.old) }
    {
        counted(&mut self.faults, send_all(&mut self.stream, bytes))
    }
}

/// A link over a connection that came.
///
/// A request begins with the first bytes that are read after a reply, and a reply with the first write after a request. A read fails where
/// no request began within `IDLE_SECONDS`, or the one that began is not whole within `REQUEST_SECONDS`. A write fails where a reply is not taken
/// within `REPLY_SECONDS`.
pub type TcpLink<'a, C> = StreamLink<TimedStream<'a, C>>;

impl<'a, C: Clock> StreamLink<TimedStream<'a, C>> {
    /// A link over a connection, whose limits this clock tells, with no fault so far.
    pub fn new(clock: &'a C, stream: TcpStream) -> TcpLink<'a, C>
        ensures { result ≡ 0 }
    {
        StreamLink::over(TimedStream::new(clock, stream))
    }
}

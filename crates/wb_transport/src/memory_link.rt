//! A link in memory.
ghost use Rattle.std.specs.Prelude.{◌≡◌, ◌↔◌, ◌<◌, length, [], Some, All, IsErr, IsTrue, IfOk, OnOk, OnErr};
ghost use Rattle.std.specs.Io.{ReadsAtMost};
ghost use Rattle.std.specs.Io.KnownBytes.{Appends, ReadConsumes};
ghost use Rattle.wb_base.specs.Outside.{AppendsFront, HasCause};
ghost use Rattle.wb_base.specs.MemoryEnds.{fails_next, after_call};
ghost use Rattle.wb_transport.specs.MemoryLinks.{LinkState, read_size, after_read, write_fails, after_write};

use crate::links::Link;
use std::marker::Model;
use wb_base::{Calls, Failed, MemSink, MemSource, Memory, Sink, Source};

/// A link that gives its content in pieces of given sizes, takes so many bytes, and fails at given calls.
#[derive(Drop)]
pub struct MemLink {
    source: MemSource,
    sink: MemSink,
    calls: Calls,
}

impl Model for MemLink {
    ghost use Rattle.std.specs.Prelude.{◌≡◌, []};
    ghost use Rattle.wb_transport.specs.MemoryLinks.{LinkState};

    ghost Value = { LinkState };

    ghost view = { λ k. record { left = k.source.left; pieces = k.source.pieces; got = k.sink.held; room = k.sink.room; log = k.calls } };

    // Its calls fail where they are to, and those of its two ends never besides.
    ghost invariant = { λ k. (k.source.log.fail ≡ []) × (k.sink.log.fail ≡ []) };
}

impl MemLink {
    /// A link of this content, in pieces of these sizes and then of all that fits, which takes `room` bytes, for which it makes the
    /// room here, and which fails at these calls, counted from 1.
    pub fn new(
        content: Vec<u8>,
        pieces: Vec<usize>,
        room: usize,
        fail: Vec<u64>,
    ) -> Result<MemLink, Memory>
        requires { All (λ size. 0 < size) pieces.items }
        ensures { IfOk result (λ link. link ≡ record { left = content.items; pieces = pieces.items; got = []; room = room; log = record { fail = fail.items; made = 0; faults = 0 } }) }
    {
        let alloc = *content.allocator();
        let sink = MemSink::new(Vec::new(alloc), room, Vec::new(alloc))?;
        Ok(MemLink {
            source: MemSource::new(content, pieces, Vec::new(alloc)),
            sink,
            calls: Calls::new(fail),
        })
    }

    /// The bytes that it got.
    pub fn got(&self) -> &[u8]
        ensures { result.now ≡ self.now.got }
    {
        self.sink.held()
    }
}

impl Link for MemLink {
    ghost use Rattle.wb_transport.specs.MemoryLinks.{link_end};

    ghost end = { link_end };

    fn faults(&self) -> u64 {
        self.calls.faults()
    }

    fn read(&mut self, into: &mut [u8]) -> Result<usize, Failed>
        requires { 0 < length into.old }
        ensures bound { ReadsAtMost result into.new }
        ensures bytes { ReadConsumes (Some self.old.left) (Some self.new.left) result into.new }
        ensures got { Some self.new.got ≡ Some self.old.got }
        ensures cause { HasCause self.old.log.faults self.new.log.faults result }
        ensures fails { IsErr result ↔ IsTrue (fails_next self.old.log) }
        ensures size { IfOk result (λ n. n ≡ read_size self.old (length into.old)) }
        ensures ok { IfOk result (λ n. self.new ≡ after_read self.old n) }
        ensures err { OnErr result (self.new ≡ record self.old { log = after_call (fails_next self.old.log) self.old.log }) }
    {
        let fails = self.calls.fails_next();
        self.calls.count(fails);
        if fails {
            return Err(Failed);
        }
        self.source.read(into)
    }

    fn write_all(&mut self, bytes: &[u8]) -> Result<(), Failed>
        ensures ok { OnOk result (Appends (Some self.old.got) (Some self.new.got) bytes.now) }
        ensures err { OnErr result (AppendsFront (Some self.old.got) (Some self.new.got) bytes.now) }
        ensures left { Some self.new.left ≡ Some self.old.left }
        ensures cause { HasCause self.old.log.faults self.new.log.faults result }
        ensures fails { IsErr result ↔ IsTrue (write_fails self.old bytes.now) }
        ensures state { self.new ≡ after_write self.old bytes.now }
    {
        if self.calls.fails_next() {
            self.calls.count(true);
            return Err(Failed);
        }
        let written = self.sink.write_all(bytes);
        self.calls.count(written.is_err());
        written
    }
}

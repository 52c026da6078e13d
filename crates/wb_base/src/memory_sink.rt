//! A sink in memory.
ghost use Rattle.std.specs.Prelude.{◌≡◌, ◌↔◌, ◌-◌, ◌≤◌, ◌++◌, length, Some, IsErr, IsTrue, IfOk, OnOk, OnErr};
ghost use Rattle.std.specs.Io.KnownBytes.{Appends};
ghost use Rattle.wb_base.specs.Outside.{HasCause, AppendsFront};
ghost use Rattle.wb_base.specs.MemoryEnds.{SinkState, write_fails, after_write};

use crate::calls::Calls;
use crate::{Failed, Sink};
use std::marker::Model;
use wb_list::Memory;

/// A sink of bytes in memory, which takes so many by writes and fails at given calls.
#[derive(Drop)]
pub struct MemSink {
    content: Vec<u8>,
    room: usize,
    calls: Calls,
}

impl Model for MemSink {
    ghost use Rattle.std.specs.Prelude.{◌+◌, ◌≤◌};
    ghost use Rattle.std.specs.Vec.{vec_len, vec_capacity};
    ghost use Rattle.wb_base.specs.MemoryEnds.{SinkState};

    ghost Value = { SinkState };

    ghost view = { λ s. record { held = s.content.items; room = s.room; log = s.calls } };

    ghost invariant = { λ s. vec_len s.content + s.room ≤ vec_capacity s.content };
}

impl MemSink {
    /// A sink that holds this content and takes `room` more bytes, for which it makes the room here, and which fails
    /// at these calls, counted from 1.
    pub fn new(mut content: Vec<u8>, room: usize, fail: Vec<u64>) -> Result<MemSink, Memory>
        ensures { IfOk result (λ sink. sink ≡ record { held = content.items; room = room; log = record { fail = fail.items; made = 0; faults = 0 } }) }
    {
        content.reserve(room)?;
        Ok(MemSink {
            content,
            room,
            calls: Calls::new(fail),
        })
    }

    /// What it holds.
    pub fn held(&self) -> &[u8]
        ensures { result.now ≡ self.now.held }
    {
        self.content.as_slice()
    }

    // Appends bytes that fit what is left of the room.
    fn take(&mut self, bytes: &[u8])
        requires { length bytes.now ≤ self.old.room }
        ensures { self.new ≡ record self.old { held = self.old.held ++ bytes.now; room = self.old.room - length bytes.now } }
    {
        let MemSink { content, room, .. } = self;
        *room -= bytes.len();
        let written = content.extend_from_slice(bytes);
        written.unwrap();
    }
}

impl Sink for MemSink {
    ghost end = { λ s. record { held = Some s.held; count = s.log.faults } };

    fn faults(&self) -> u64 {
        self.calls.faults()
    }

    fn write_all(&mut self, bytes: &[u8]) -> Result<(), Failed>
        ensures ok { OnOk result (Appends (Some self.old.held) (Some self.new.held) bytes.now) }
        ensures err { OnErr result (AppendsFront (Some self.old.held) (Some self.new.held) bytes.now) }
        ensures cause { HasCause self.old.log.faults self.new.log.faults result }
        ensures fails { IsErr result ↔ IsTrue (write_fails self.old bytes.now) }
        ensures state { self.new ≡ after_write self.old bytes.now }
    {
        let is_to_fail = self.calls.fails_next();
        let fails = is_to_fail || self.room < bytes.len();
        self.calls.count(fails);
        let fitting = if is_to_fail {
            0
        } else {
            bytes.len().min(self.room)
        };
        self.take(&bytes[..fitting]);
        if fails { Err(Failed) } else { Ok(()) }
    }
}

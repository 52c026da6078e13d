//! A source in memory.
ghost use Rattle.std.specs.Prelude.{◌≡◌, ◌↔◌, ◌<◌, ◌≤◌, ◌++◌, [], length, min, take, drop, Some, All, IsErr, IsTrue, IfOk, OnErr};
ghost use Rattle.std.specs.Io.{ReadsAtMost};
ghost use Rattle.std.specs.Io.KnownBytes.{ReadConsumes};
ghost use Rattle.wb_base.specs.Outside.{HasCause};
ghost use Rattle.wb_base.specs.MemoryEnds.{SourceState, fails_next, read_size, after_read, after_call};

use crate::calls::Calls;
use crate::{Failed, Source};
use std::marker::Model;

/// A source of bytes in memory, which gives them in pieces of given sizes and fails at given calls.
#[derive(Drop)]
pub struct MemSource {
    content: Vec<u8>,
    pieces: Vec<usize>,
    at: usize,
    piece: usize,
    calls: Calls,
}

impl Model for MemSource {
    ghost use Rattle.std.specs.Prelude.{◌<◌, ◌≤◌, All, drop};
    ghost use Rattle.std.specs.Vec.{vec_len};
    ghost use Rattle.wb_base.specs.MemoryEnds.{SourceState};

    ghost Value = { SourceState };

    ghost view = { λ s. record { left = drop s.at s.content.items; pieces = drop s.piece s.pieces.items; log = s.calls } };

    ghost invariant = { λ s. (s.at ≤ vec_len s.content) × (s.piece ≤ vec_len s.pieces) × All (λ size. 0 < size) s.pieces.items };
}

// Copies the first bytes of what is left, at most so many, and says how many they are.
fn give(into: &mut [u8], left: &[u8], most: usize) -> usize
    requires some { 0 < most }
    requires fits { most ≤ length into.old }
    ensures size { result ≡ min most (length left.now) }
    ensures fits { result ≤ length into.new }
    ensures given { left.now ≡ take result into.new ++ drop result left.now }
    ensures end { result ≡ 0 → left.now ≡ [] }
{
    let size = most.min(left.len());
    into[..size].copy_from_slice(&left[..size]);
    size
}

impl MemSource {
    /// A source of this content, in pieces of these sizes and then of all that fits, which fails at these calls,
    /// counted from 1.
    pub fn new(content: Vec<u8>, pieces: Vec<usize>, fail: Vec<u64>) -> MemSource
        requires { All (λ size. 0 < size) pieces.items }
        ensures { result ≡ record { left = content.items; pieces = pieces.items; log = record { fail = fail.items; made = 0; faults = 0 } } }
    {
        MemSource {
            content,
            pieces,
            at: 0,
            piece: 0,
            calls: Calls::new(fail),
        }
    }
}

impl Source for MemSource {
    ghost end = { λ s. record { left = Some s.left; count = s.log.faults } };

    fn faults(&self) -> u64 {
        self.calls.faults()
    }

    fn read(&mut self, into: &mut [u8]) -> Result<usize, Failed>
        requires { 0 < length into.old }
        ensures bound { ReadsAtMost result into.new }
        ensures bytes { ReadConsumes (Some self.old.left) (Some self.new.left) result into.new }
        ensures cause { HasCause self.old.log.faults self.new.log.faults result }
        ensures fails { IsErr result ↔ IsTrue (fails_next self.old.log) }
        ensures size { IfOk result (λ n. n ≡ read_size self.old (length into.old)) }
        ensures ok { IfOk result (λ n. self.new ≡ after_read self.old n) }
        ensures err { OnErr result (self.new ≡ record self.old { log = after_call (fails_next self.old.log) self.old.log }) }
    {
        let fails = self.calls.fails_next();
        self.calls.count(fails);
        if fails {
            return Err(Failed);
        }
        let mut most = into.len();
        if self.piece < self.pieces.len() {
            most = self.pieces[self.piece].min(most);
            self.piece += 1;
        }
        let size = give(into, &self.content[self.at..], most);
        self.at += size;
        Ok(size)
    }
}

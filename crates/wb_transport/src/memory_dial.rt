//! A dialer in memory.
ghost use Rattle.std.specs.Prelude.{◌≡◌, ◌<◌, ◌-◌, [], Some, None, is_some, IfOk, OnErr};
ghost use Rattle.wb_base.specs.Outside.{HasCause};
ghost use Rattle.wb_transport.specs.Lines.{Line, IsLine};
ghost use Rattle.wb_transport.specs.Dials.{Dialed, given, after_call, after_close};
ghost use Rattle.wb_transport.specs.MemoryDials.{DialState, dialed_of};
ghost use Rattle.wb_transport.specs.MemoryLinks.{link_end};

use crate::dialing::Dial;
use crate::memory_link::MemLink;
use std::marker::Model;
use wb_base::{Failed, Memory, Text};

/// A dialer that gives its links in order, each to a call of its endpoint, and fails at every other call.
#[derive(Drop)]
pub struct MemDial {
    offers: Vec<(Text, MemLink)>,
    out: usize,
    closed: Vec<MemLink>,
    faults: u64,
}

impl Model for MemDial {
    ghost use Rattle.std.specs.Prelude.{◌+◌, ◌≤◌};
    ghost use Rattle.std.specs.Vec.{vec_len, vec_capacity};
    ghost use Rattle.wb_transport.specs.MemoryDials.{DialState};

    ghost Value = { DialState };

    ghost view = { λ s. record { left = s.offers.items; out = s.out; closed = s.closed.items; faults = s.faults } };

    // There is room for each link that is given.
    ghost invariant = { λ s. vec_len s.closed + s.out + vec_len s.offers ≤ vec_capacity s.closed };
}

impl MemDial {
    /// A dialer of these links, each with its endpoint, with the room for each to be closed.
    pub fn new(offers: Vec<(Text, MemLink)>) -> Result<MemDial, Memory>
        ensures { IfOk result (λ dial. dial ≡ record { left = offers.items; out = 0; closed = []; faults = 0 }) }
    {
        let closed = Vec::with_capacity(*offers.allocator(), offers.len())?;
        Ok(MemDial {
            offers,
            out: 0,
            closed,
            faults: 0,
        })
    }

    /// The links that were closed, in order.
    pub fn closed(&self) -> &[MemLink]
        ensures { result.now ≡ self.now.closed }
    {
        self.closed.as_slice()
    }

    // Whether the next link is an endpoint's.
    fn gives(&self, endpoint: &str) -> bool
        ensures { result ≡ is_some (given endpoint.now (dialed_of self.now)) }
    {
        match self.offers.first() {
            Some((name, _)) => name.as_str() == endpoint,
            None => false,
        }
    }
}

impl Dial for MemDial {
    type End = MemLink;

    ghost end = { λ s. record { told = Some (dialed_of s); count = s.faults } };

    fn faults(&self) -> u64 {
        self.faults
    }

    fn dial(&mut self, endpoint: &str) -> Result<MemLink, Failed>
        ensures given { (x : Dialed) → Some (dialed_of self.old) ≡ Some x → IfOk result (λ link. (line : Line) × (given endpoint.now x ≡ Some line) × IsLine (link_end link) line) }
        ensures refused { (x : Dialed) → Some (dialed_of self.old) ≡ Some x → OnErr result (given endpoint.now x ≡ None) }
        ensures after { (x : Dialed) → Some (dialed_of self.old) ≡ Some x → Some (dialed_of self.new) ≡ Some (after_call endpoint.now x) }
        ensures cause { HasCause self.old.faults self.new.faults result }
    {
        if !self.gives(endpoint) {
            self.faults = self.faults.saturating_add(1);
            return Err(Failed);
        }
        let (_, link) = self.offers.remove(0);
        self.out += 1;
        Ok(link)
    }

    fn close(&mut self, link: MemLink)
        ensures after { (x : Dialed) (line : Line) → Some (dialed_of self.old) ≡ Some x → 0 < x.out → IsLine (link_end link) line → Some (dialed_of self.new) ≡ Some (after_close line x) }
        ensures count { self.new.faults ≡ self.old.faults }
    {
        if 0 < self.out {
            self.out -= 1;
            self.closed.push_reserved(link);
        }
    }
}

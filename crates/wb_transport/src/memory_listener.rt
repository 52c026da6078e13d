//! A listener in memory.
ghost use Rattle.std.specs.Prelude.{◌≡◌, ◌↔◌, ◌<◌, ◌-◌, ◌+◌, ◌++◌, ◌∷◌, [], Some, IsErr, IsTrue, IfOk, IfSome, IfNone, OnErr};
ghost use Rattle.wb_base.specs.Outside.{HasCause};
ghost use Rattle.wb_base.specs.MemoryEnds.{fails_next, after_call};
ghost use Rattle.wb_transport.specs.Lines.{HasGiven, IsLine, Line, Lines};
ghost use Rattle.wb_transport.specs.MemoryLinks.{ListenerState, lines_of, link_end, listener_end};

use crate::links::Listener;
use crate::memory_link::MemLink;
use std::marker::Model;
use std::vec::IntoIter;
use wb_base::{Calls, Failed, Memory};

/// A listener that gives its links, in order, takes them back, and fails at given calls.
#[derive(Drop)]
pub struct MemListener {
    links: IntoIter<MemLink>,
    out: usize,
    came: Vec<MemLink>,
    calls: Calls,
}

impl Model for MemListener {
    ghost use Rattle.std.specs.Prelude.{◌+◌, ◌≤◌};
    ghost use Rattle.std.specs.Vec.{vec_len, vec_capacity};
    ghost use Rattle.std.specs.Vec.Iter.{into_iter_items, into_iter_len};
    ghost use Rattle.wb_transport.specs.MemoryLinks.{ListenerState};

    ghost Value = { ListenerState };

    ghost view = { λ s. record { left = into_iter_items s.links; out = s.out; came = s.came.items; log = s.calls } };

    // There is room for each link to come back.
    ghost invariant = { λ s. vec_len s.came + s.out + into_iter_len s.links ≤ vec_capacity s.came };
}

impl MemListener {
    /// A listener of these links, with the room for each to come back, which fails at these calls, counted from 1.
    pub fn new(content: Vec<MemLink>, fail: Vec<u64>) -> Result<MemListener, Memory>
        ensures { IfOk result (λ listener. listener ≡ record { left = content.items; out = 0; came = []; log = record { fail = fail.items; made = 0; faults = 0 } }) }
    {
        let came = Vec::with_capacity(*content.allocator(), content.len())?;
        Ok(MemListener {
            links: content.into_iter(),
            out: 0,
            came,
            calls: Calls::new(fail),
        })
    }

    /// The links that came back, in order.
    pub fn came(&self) -> &[MemLink]
        ensures { result.now ≡ self.now.came }
    {
        self.came.as_slice()
    }
}

impl Listener for MemListener {
    type End = MemLink;

    ghost use Rattle.wb_transport.specs.MemoryLinks.{listener_end};

    ghost end = { listener_end };

    fn faults(&self) -> u64 {
        self.calls.faults()
    }

    fn next(&mut self) -> Result<Option<MemLink>, Failed>
        ensures given { (x : Lines) → Some (lines_of self.old) ≡ Some x → IfOk result (λ next. IfSome next (λ link. HasGiven x (link_end link) (listener_end self.new))) }
        ensures none { (x : Lines) → Some (lines_of self.old) ≡ Some x → IfOk result (λ next. IfNone next ((x.left ≡ []) × (Some (lines_of self.new) ≡ Some x))) }
        ensures failed { OnErr result (Some (lines_of self.new) ≡ Some (lines_of self.old)) }
        ensures cause { HasCause self.old.log.faults self.new.log.faults result }
        ensures fails { IsErr result ↔ IsTrue (fails_next self.old.log) }
        ensures log { self.new.log ≡ after_call (fails_next self.old.log) self.old.log }
        ensures first { IfOk result (λ next. IfSome next (λ link. self.old.left ≡ link ∷ self.new.left)) }
    {
        let fails = self.calls.fails_next();
        self.calls.count(fails);
        if fails {
            return Err(Failed);
        }
        match self.links.next() {
            Some(link) => {
                self.out += 1;
                Ok(Some(link))
            }
            None => Ok(None),
        }
    }

    fn back(&mut self, link: MemLink)
        requires { (x : Lines) → Some (lines_of self.old) ≡ Some x → 0 < x.out }
        ensures came { (x : Lines) (line : Line) → Some (lines_of self.old) ≡ Some x → IsLine (link_end link) line → Some (lines_of self.new) ≡ Some (record x { out = x.out - 1; came = x.came ++ line ∷ [] }) }
        ensures count { self.new.log.faults ≡ self.old.log.faults }
        ensures state { self.new ≡ record self.old { out = self.old.out - 1; came = self.old.came ++ link ∷ [] } }
    {
        self.out -= 1;
        self.came.push_reserved(link);
    }
}

//! A ticker in memory.
ghost use Rattle.std.specs.Prelude.{◌≡◌, ◌↔◌, ◌∷◌, List, Some, IsErr, IsTrue, IfOk, OnErr};
ghost use Rattle.wb_base.specs.Outside.{HasCause};
ghost use Rattle.wb_base.specs.MemoryEnds.{after_call};
ghost use Rattle.wb_transport.specs.Lines.{Tick};
ghost use Rattle.wb_transport.specs.MemoryLinks.{TickerState, tick_fails};

use crate::links::Ticker;
use std::marker::Model;
use std::vec::IntoIter;
use wb_base::{Calls, Failed, Moment, Words};

/// A ticker that gives its content and fails at given calls, and at each where nothing is left.
#[derive(Drop)]
pub struct MemTicker {
    ticks: IntoIter<(Moment, Words)>,
    calls: Calls,
}

impl Model for MemTicker {
    ghost use Rattle.std.specs.Vec.Iter.{into_iter_items};
    ghost use Rattle.wb_transport.specs.MemoryLinks.{TickerState};

    ghost Value = { TickerState };

    ghost view = { λ t. record { left = into_iter_items t.ticks; log = t.calls } };
}

impl MemTicker {
    /// A ticker of these moments and words, which fails at these calls, counted from 1.
    pub fn new(content: Vec<(Moment, Words)>, fail: Vec<u64>) -> MemTicker
        ensures { result ≡ record { left = content.items; log = record { fail = fail.items; made = 0; faults = 0 } } }
    {
        MemTicker {
            ticks: content.into_iter(),
            calls: Calls::new(fail),
        }
    }
}

impl Ticker for MemTicker {
    ghost end = { λ t. record { left = Some t.left; count = t.log.faults } };

    fn faults(&self) -> u64 {
        self.calls.faults()
    }

    fn tick(&mut self) -> Result<(Moment, Words), Failed>
        ensures next { (ticks : List Tick) → Some self.old.left ≡ Some ticks → IfOk result (λ tick. (rest : List Tick) × (ticks ≡ tick ∷ rest) × (Some self.new.left ≡ Some rest)) }
        ensures failed { OnErr result (Some self.new.left ≡ Some self.old.left) }
        ensures cause { HasCause self.old.log.faults self.new.log.faults result }
        ensures fails { IsErr result ↔ IsTrue (tick_fails self.old) }
        ensures log { self.new.log ≡ after_call (tick_fails self.old) self.old.log }
    {
        let fails = self.calls.fails_next() || self.ticks.len() == 0;
        self.calls.count(fails);
        if fails {
            return Err(Failed);
        }
        self.ticks.next().ok_or(Failed)
    }
}

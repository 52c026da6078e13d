//! The calls of an object in memory: those that it took, and those that are to fail.
ghost use Rattle.std.specs.Prelude.{◌≡◌, ◌≤◌};
ghost use Rattle.wb_base.specs.MemoryEnds.{CallLog, fails_next, after_call};

use std::marker::Model;

/// The calls that are to fail, counted from 1, how many were made, and how many failed.
#[derive(Drop)]
pub struct Calls {
    fail: Vec<u64>,
    made: u64,
    faults: u64,
}

impl Model for Calls {
    ghost use Rattle.wb_base.specs.MemoryEnds.{CallLog};

    ghost Value = { CallLog };

    ghost view = { λ c. record { fail = c.fail.items; made = c.made; faults = c.faults } };
}

impl Calls {
    /// No call was made, and these are to fail.
    pub fn new(fail: Vec<u64>) -> Calls
        ensures { result ≡ record { fail = fail.items; made = 0; faults = 0 } }
    {
        Calls {
            fail,
            made: 0,
            faults: 0,
        }
    }

    /// Whether the next call is to fail.
    pub fn fails_next(&self) -> bool
        ensures { result ≡ fails_next self.now }
    {
        let next = self.made.saturating_add(1);
        self.fail.contains(&next)
    }

    /// Counts a call, which failed or not.
    pub fn count(&mut self, failed: bool)
        ensures log { self.new ≡ after_call failed self.old }
        ensures later { self.old.faults ≤ self.new.faults }
    {
        let faults = self.faults;
        self.made = self.made.saturating_add(1);
        if failed {
            self.faults = faults.saturating_add(1);
        }
    }

    /// How many calls failed.
    pub fn faults(&self) -> u64
        ensures { result ≡ self.now.faults }
    {
        self.faults
    }
}

//! Gates to a host.
ghost use Rattle.std.specs.Prelude.{◌≡◌, ℕ};

use crate::job::Job;
use crate::origin::Origin;
use std::sync::Wait;
use std::sync::ledger::Ledger;
use wb_base::Keeper;

/// Lets jobs in to the one host that it stands before.
pub trait Gate<K: Keeper, A: Origin, B: Ledger, J: Job<K, A, B>> {
    /// What one who comes in has of a gate: a pass, or a seat with one.
    type Own: Drop;

    /// It is of this gate.
    ghost of: { Self → Self.Own → Type 0 };

    /// How many parts of the host's ledgers it has.
    ghost parts: { Self.Own → ℕ };

    /// A job ran on the gate's host, for one who had this of the gate before and that after, and gave this answer.
    ghost ran: { Self.Own → J → J.Told → Self.Own → Type 0 };

    /// Runs the job on this gate's host. It may wait for others that are in.
    fn enter<R: Wait>(&self, rt: &R, own: &mut Self::Own, job: J) -> J::Told
        requires of { of self.now own.old }
        ensures of { of self.now own.new }
        ensures ran { ran own.old job result own.new }
        ensures parts { parts own.new ≡ parts own.old };
}

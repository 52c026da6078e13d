//! What connects to endpoints.
ghost use Rattle.std.specs.Prelude.{◌≡◌, ◌<◌, Some, None, IfOk, OnErr};
ghost use Rattle.wb_base.specs.Outside.{HasCause};
ghost use Rattle.wb_transport.specs.Lines.{Line, IsLine};
ghost use Rattle.wb_transport.specs.Dials.{DialEnd, Dialed, given, after_call, after_close};

use crate::links::Link;
use wb_base::Failed;

/// What connects to endpoints. Where it tells, its links tell too.
pub trait Dial: Drop {
    type End: Link;

    /// What its calls give and gave, and how many of them failed.
    ghost end: { Self → DialEnd };

    /// How many of its calls failed, up to 2^64 - 1.
    fn faults(&self) -> u64
        ensures { result ≡ (end self.now).count };

    /// A link to an endpoint, `HOST:PORT`.
    fn dial(&mut self, endpoint: &str) -> Result<Self::End, Failed>
        ensures given { (x : Dialed) → (end self.old).told ≡ Some x → IfOk result (λ link. (line : Line) × (given endpoint.now x ≡ Some line) × IsLine (Self.End.end link) line) }
        ensures refused { (x : Dialed) → (end self.old).told ≡ Some x → OnErr result (given endpoint.now x ≡ None) }
        ensures after { (x : Dialed) → (end self.old).told ≡ Some x → (end self.new).told ≡ Some (after_call endpoint.now x) }
        ensures untold { (end self.old).told ≡ None → (end self.new).told ≡ None }
        ensures cause { HasCause (end self.old).count (end self.new).count result };

    /// Closes a link that it gave.
    fn close(&mut self, link: Self::End)
        ensures after { (x : Dialed) (line : Line) → (end self.old).told ≡ Some x → 0 < x.out → IsLine (Self.End.end link) line → (end self.new).told ≡ Some (after_close line x) }
        ensures untold { (end self.old).told ≡ None → (end self.new).told ≡ None }
        ensures count { (end self.new).count ≡ (end self.old).count };
}

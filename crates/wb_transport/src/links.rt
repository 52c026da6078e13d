//! What requests come over and replies go over, what brings such links, and what tells the time.
ghost use Rattle.std.specs.Prelude.{◌≡◌, ◌<◌, ◌-◌, ◌+◌, ◌++◌, ◌∷◌, [], List, Option, Some, None, length, IfOk, IfSome, IfNone, OnOk, OnErr};
ghost use Rattle.std.specs.Io.{ReadsAtMost};
ghost use Rattle.std.specs.Io.KnownBytes.{Appends, ReadConsumes};
ghost use Rattle.wb_base.specs.Outside.{AppendsFront, HasCause};
ghost use Rattle.wb_transport.specs.Lines.{Clock, HasGiven, IsLine, Line, Lines, LinkEnd, ListenerEnd, Tick};

use wb_base::{Failed, Moment, Words};

/// A connection: a source of requests and a sink of replies, with one count of faults.
pub trait Link: Drop {
    /// The bytes that are left and those that it got, and how many of its calls failed.
    ghost end: { Self → LinkEnd };

    /// How many of its calls failed, up to 2^64 - 1.
    fn faults(&self) -> u64
        ensures { result ≡ (end self.now).count };

    /// Takes the next bytes of what is left and says how many they are. 0 means the end.
    fn read(&mut self, into: &mut [u8]) -> Result<usize, Failed>
        requires { 0 < length into.old }
        ensures bound { ReadsAtMost result into.new }
        ensures bytes { ReadConsumes (end self.old).left (end self.new).left result into.new }
        ensures got { (end self.new).got ≡ (end self.old).got }
        ensures cause { HasCause (end self.old).count (end self.new).count result };

    /// Sends the bytes. Where it fails, it sends a part of them that begins at the front.
    fn write_all(&mut self, bytes: &[u8]) -> Result<(), Failed>
        ensures ok { OnOk result (Appends (end self.old).got (end self.new).got bytes.now) }
        ensures err { OnErr result (AppendsFront (end self.old).got (end self.new).got bytes.now) }
        ensures left { (end self.new).left ≡ (end self.old).left }
        ensures cause { HasCause (end self.old).count (end self.new).count result };
}

/// What brings links. Where it tells, its links tell too.
pub trait Listener: Drop {
    type End: Link;

    /// The links that are left, that are out, and that came back, and how many of its calls failed.
    ghost end: { Self → ListenerEnd };

    /// How many of its calls failed, up to 2^64 - 1.
    fn faults(&self) -> u64
        ensures { result ≡ (end self.now).count };

    /// The first link that is left. `None` means that no more come.
    fn next(&mut self) -> Result<Option<Self::End>, Failed>
        ensures given { (x : Lines) → (end self.old).told ≡ Some x → IfOk result (λ next. IfSome next (λ link. HasGiven x (Self.End.end link) (end self.new))) }
        ensures none { (x : Lines) → (end self.old).told ≡ Some x → IfOk result (λ next. IfNone next ((x.left ≡ []) × ((end self.new).told ≡ Some x))) }
        ensures failed { OnErr result ((end self.new).told ≡ (end self.old).told) }
        ensures untold { (end self.old).told ≡ None → (end self.new).told ≡ None }
        ensures cause { HasCause (end self.old).count (end self.new).count result };

    /// Takes a link back that it gave, as it is. It takes no memory.
    fn back(&mut self, link: Self::End)
        requires { (x : Lines) → (end self.old).told ≡ Some x → 0 < x.out }
        ensures came { (x : Lines) (line : Line) → (end self.old).told ≡ Some x → IsLine (Self.End.end link) line → (end self.new).told ≡ Some (record x { out = x.out - 1; came = x.came ++ line ∷ [] }) }
        ensures untold { (end self.old).told ≡ None → (end self.new).told ≡ None }
        ensures count { (end self.new).count ≡ (end self.old).count };
}

/// What tells the time, and gives random words with it.
pub trait Ticker: Drop {
    /// The ticks that are left, and how many of its calls failed.
    ghost end: { Self → Clock };

    /// How many of its calls failed, up to 2^64 - 1.
    fn faults(&self) -> u64
        ensures { result ≡ (end self.now).count };

    /// The next moment and random words.
    fn tick(&mut self) -> Result<(Moment, Words), Failed>
        ensures next { (ticks : List Tick) → (end self.old).left ≡ Some ticks → IfOk result (λ tick. (rest : List Tick) × (ticks ≡ tick ∷ rest) × ((end self.new).left ≡ Some rest)) }
        ensures failed { OnErr result ((end self.new).left ≡ (end self.old).left) }
        ensures untold { (end self.old).left ≡ None → (end self.new).left ≡ None }
        ensures cause { HasCause (end self.old).count (end self.new).count result };
}

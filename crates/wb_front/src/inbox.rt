//! The bytes of a connection that were read and are not answered yet.
ghost use Rattle.std.specs.Prelude.{◌≡◌, ◌≤◌, ◌<◌, ◌+◌, [], length, take, drop, IfOk, OnErr, nat_eq, if◌then◌else◌};
ghost use Rattle.std.specs.Io.KnownBytes.{IsAtEnd};
ghost use Rattle.wb_base.specs.Outside.{HasCause};
ghost use Rattle.wb_front.specs.Arrivals.{Flows, IsUnfinished, HasArrived, IsSeen};

use std::alloc::Global;
use std::marker::Model;
use wb_base::{Failed, Memory};
use wb_transport::Link;
use wb_wire::{HeadRead, WireFault, read_head};

/// The most bytes of a request: its head and its body.
const ROOM: usize = 270_336;

/// How a connection's bytes go on.
#[derive(Clone, Copy, Debug, PartialEq, Eq)]
pub enum Arrived {
    /// With a request of so many bytes.
    Request(usize),
    /// Not at all: they ended between two requests.
    End,
    /// They ended inside a request.
    Part,
    /// With what ends the connection.
    No(WireFault),
}

/// How the bytes that are held begin.
enum Seen {
    Request(usize),
    More,
    No(WireFault),
}

/// Bytes that came over a link, in room for one request, seen as these bytes.
#[derive(Drop)]
pub struct Inbox {
    buffer: Vec<u8>,
    held: usize,
}

impl Model for Inbox {
    ghost use Rattle.std.specs.Prelude.{◌≡◌, ◌≤◌, ℕ, List, take};
    ghost use Rattle.std.specs.Vec.{vec_len};

    ghost Value = { List ℕ };

    ghost view = { λ b. take b.held b.buffer.items };

    ghost invariant = { λ b. (vec_len b.buffer ≡ 270_336) × (b.held ≤ 270_336) };
}

impl Inbox {
    /// No bytes, with the room for one request. No other call of it takes memory.
    pub fn new(alloc: Global) -> Result<Inbox, Memory>
        ensures { IfOk result (λ inbox. inbox ≡ []) }
    {
        let mut buffer = Vec::with_capacity(alloc, ROOM)?;
        buffer.resize(ROOM, 0)?;
        Ok(Inbox { buffer, held: 0 })
    }

    // The bytes that are held.
    fn held(&self) -> &[u8]
        ensures { result.now ≡ self.now }
    {
        &self.buffer[..self.held]
    }

    /// The first so many of the bytes.
    pub fn first(&self, size: usize) -> &[u8]
        requires { size ≤ length self.now }
        ensures { result.now ≡ take size self.now }
    {
        &self.held()[..size]
    }

    /// Drops the first so many of the bytes.
    pub fn drop_first(&mut self, size: usize)
        requires { size ≤ length self.old }
        ensures { self.new ≡ drop size self.old }
    {
        self.buffer.copy_within(size..self.held, 0);
        self.held -= size;
    }

    // How the bytes that are held begin.
    fn seen(&self) -> Seen
        ensures { IsSeen self.now result }
    {
        let bytes = self.held();
        match read_head(bytes) {
            HeadRead::Whole { head, body, .. } => {
                let size = head + body;
                if size <= bytes.len() {
                    Seen::Request(size)
                } else {
                    Seen::More
                }
            }
            HeadRead::More => Seen::More,
            HeadRead::No(fault) => Seen::No(fault),
        }
    }

    // What arrived where no more bytes come: the end of them, or a part of a request.
    fn ended(&self) -> Arrived
        ensures { result ≡ (if nat_eq (length self.now) 0 then Arrived.End else Arrived.Part) }
    {
        if self.held == 0 {
            Arrived::End
        } else {
            Arrived::Part
        }
    }

    // Reads some more bytes, and says how many they are. 0 means that the link has none left.
    fn fill<L: Link>(&mut self, link: &mut L) -> Result<usize, Failed>
        requires { length self.old < 270_336 }
        ensures flows { Flows self.old (L.end link.old).left self.new (L.end link.new).left }
        ensures longer { IfOk result (λ n. length self.new ≡ length self.old + n) }
        ensures end { IfOk result (λ n. n ≡ 0 → (self.new ≡ self.old) × IsAtEnd (L.end link.new).left) }
        ensures failed { OnErr result (self.new ≡ self.old) }
        ensures got { (L.end link.new).got ≡ (L.end link.old).got }
        ensures cause { HasCause (L.end link.old).count (L.end link.new).count result }
    {
        let Ok(size) = link.read(&mut self.buffer[self.held..]) else {
            return Err(Failed);
        };
        self.held += size;
        Ok(size)
    }

    /// Reads until the first request is whole, or it is known how the connection ends.
    pub fn next<L: Link>(&mut self, link: &mut L) -> Result<Arrived, Failed>
        ensures flows { Flows self.old (L.end link.old).left self.new (L.end link.new).left }
        ensures got { (L.end link.new).got ≡ (L.end link.old).got }
        ensures arrived { IfOk result (λ arrived. HasArrived self.new (L.end link.new).left arrived) }
        // Where the link fails, what came before has no whole request.
        ensures unfinished { OnErr result (IsUnfinished self.new) }
        ensures cause { HasCause (L.end link.old).count (L.end link.new).count result }
    {
        loop {
            match self.seen() {
                Seen::Request(size) => return Ok(Arrived::Request(size)),
                Seen::No(fault) => return Ok(Arrived::No(fault)),
                Seen::More => {}
            }
            let Ok(size) = self.fill(link) else {
                return Err(Failed);
            };
            if size == 0 {
                return Ok(self.ended());
            }
        }
    }
}

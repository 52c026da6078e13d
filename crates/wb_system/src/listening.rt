//! What brings links over TCP.
ghost use Rattle.std.specs.Prelude.{◌≡◌, None, false, is_err, is_some, if◌then◌else◌, IfOk, IfSome, IsErr, IsSome};
ghost use Rattle.wb_base.specs.Outside.{HasCause, one_more};
ghost use Rattle.wb_system.specs.Listening.{Listening};

use crate::link::TcpLink;
use crate::transfer::counted;
use std::io;
use std::io::ErrorKind;
use std::marker::Model;
use std::net::{TcpListener, TcpStream};
use std::time::Clock;
use wb_base::Failed;
use wb_transport::Listener;

/// The links that come to one listening socket, which several share, or to an address that could not be bound.
#[derive(Drop)]
pub struct TcpLinks<'a, C: Clock> {
    clock: &'a C,
    listener: Option<&'a TcpListener>,
    faults: u64,
}

impl<'a, C: Clock> Model for TcpLinks<'a, C> {
    ghost use Rattle.std.specs.Prelude.{is_some};
    ghost use Rattle.wb_system.specs.Listening.{Listening};

    ghost Value = { Listening };

    ghost view = { λ s. record { is_bound = is_some s.listener; faults = s.faults } };
}

impl<'a, C: Clock> TcpLinks<'a, C> {
    /// The links that come to a socket, or to an address that could not be bound, with no fault so far. This clock tells their limits.
    pub fn new(clock: &'a C, listener: Option<&'a TcpListener>) -> TcpLinks<'a, C>
        ensures { result ≡ record { is_bound = is_some listener.entry; faults = 0 } }
    {
        TcpLinks {
            clock,
            listener,
            faults: 0,
        }
    }
}

// Waits for the next connection. What is written to it is sent at once.
fn accept(listener: Option<&TcpListener>) -> io::Result<TcpStream>
    ensures { is_some listener.entry ≡ false → IsErr result }
{
    let listener = listener.ok_or(ErrorKind::AddrNotAvailable)?;
    let (stream, _) = listener.accept()?;
    stream.set_nodelay(true)?;
    Ok(stream)
}

impl<'a, C: Clock> Listener for TcpLinks<'a, C> {
    type End = TcpLink<'a, C>;

    ghost end = { λ s. record { told = None; count = s.faults } };

    fn faults(&self) -> u64 {
        self.faults
    }

    /// Waits for the next connection. More may always come, so it never gives `None`.
    fn next(&mut self) -> Result<Option<TcpLink<'a, C>>, Failed>
        ensures some { IfOk result (λ next. IsSome next) }
        ensures fresh { IfOk result (λ next. IfSome next (λ link. link ≡ 0)) }
        ensures unbound { self.old.is_bound ≡ false → IsErr result }
        ensures bound { self.new.is_bound ≡ self.old.is_bound }
        ensures cause { HasCause self.old.faults self.new.faults result }
        ensures count { self.new.faults ≡ (if is_err result then one_more self.old.faults else self.old.faults) }
    {
        let stream = counted(&mut self.faults, accept(self.listener))?;
        Ok(Some(TcpLink::new(self.clock, stream)))
    }

    /// The connection is closed.
    fn back(&mut self, _link: TcpLink<'a, C>)
        ensures { self.new ≡ self.old }
    {}
}

//! What connects to endpoints over TCP.
ghost use Rattle.std.specs.Prelude.{◌≡◌, None, is_err, if◌then◌else◌, IfOk};
ghost use Rattle.wb_base.specs.Outside.{HasCause, one_more};

use crate::calls::TcpCall;
use crate::stages::left_of;
use crate::transfer::counted;
use std::io;
use std::io::ErrorKind;
use std::marker::Model;
use std::net::{Net, TcpStream, ToSocketAddrs};
use std::time::{Clock, Instant};
use wb_base::Failed;
use wb_transport::Dial;

/// Within how many seconds an endpoint takes a connection, once its name is looked up.
pub const CONNECT_SECONDS: u64 = 2;

/// A dialer over TCP, seen as the count of its faults. It tells nothing.
///
/// Looking a name up takes as long as the system's resolver lets it, so an endpoint is better an address.
#[derive(Drop)]
pub struct TcpDial<'a, N: Net<Stream = TcpStream>, C: Clock> {
    net: &'a N,
    clock: &'a C,
    faults: u64,
}

impl<'a, N: Net<Stream = TcpStream>, C: Clock> Model for TcpDial<'a, N, C> {
    ghost use Rattle.std.specs.Prelude.{ℕ};

    ghost Value = { ℕ };

    ghost view = { λ d. d.faults };
}

impl<'a, N: Net<Stream = TcpStream>, C: Clock> TcpDial<'a, N, C> {
    /// A dialer over a network, whose limits this clock tells, with no fault so far.
    pub fn new(net: &'a N, clock: &'a C) -> TcpDial<'a, N, C>
        ensures { result ≡ 0 }
    {
        TcpDial {
            net,
            clock,
            faults: 0,
        }
    }
}

// A connection to the first address of an endpoint that takes one, and when it was there. What is written to it is sent at once.
fn connect<N: Net<Stream = TcpStream>, C: Clock>(
    net: &N,
    clock: &C,
    endpoint: &str,
) -> io::Result<(TcpStream, Instant)> {
    let start = Instant::now(clock)?;
    for address in endpoint.to_socket_addrs(net)? {
        let limit = left_of(CONNECT_SECONDS, start, Instant::now(clock)?)?;
        if let Ok(stream) = TcpStream::connect_timeout(net, &address, limit) {
            stream.set_nodelay(true)?;
            return Ok((stream, Instant::now(clock)?));
        }
    }
    Err(ErrorKind::NotConnected.into())
}

impl<'a, N: Net<Stream = TcpStream>, C: Clock> Dial for TcpDial<'a, N, C> {
    type End = TcpCall<'a, C>;

    ghost end = { λ faults. record { told = None; count = faults } };

    fn faults(&self) -> u64 {
        self.faults
    }

    /// Tries each address of the endpoint, `HOST:PORT`, in turn. It fails where none takes a connection within `CONNECT_SECONDS`.
    fn dial(&mut self, endpoint: &str) -> Result<TcpCall<'a, C>, Failed>
        ensures fresh { IfOk result (λ link. link ≡ 0) }
        ensures cause { HasCause self.old self.new result }
        ensures count { self.new ≡ (if is_err result then one_more self.old else self.old) }
    {
        let (stream, since) = counted(&mut self.faults, connect(self.net, self.clock, endpoint))?;
        Ok(TcpCall::new(self.clock, stream, since))
    }

    /// The connection is closed.
    fn close(&mut self, _link: TcpCall<'a, C>)
        ensures { self.new ≡ self.old }
    {}
}

//! Tests over loopback, and of what clocks and sources of random bytes tell.

use crate::transfer::{read_some, send_all};
use crate::{RealTicker, TcpCall, TcpDial, TcpLink, TcpLinks};
use std::io;
use std::io::{Read, Write};
use std::net::{Shutdown, TcpListener, TcpStream};
use std::process::Abort;
use std::random::RandomSource;
use std::sync::atomic::{AtomicU64, Ordering};
use std::test::Fail;
use std::time::{Clock, Duration, Instant};
use wb_base::{Failed, Moment, Words};
use wb_transport::{Dial, Link, Listener, Ticker};

// A client of a socket on loopback.
fn client_of(rt: &HostRuntime, listener: &TcpListener) -> Result<TcpStream, Fail> {
    Ok(TcpStream::connect(rt, listener.local_addr()?)?)
}

// Takes what may go to another thread.
fn may_go<T: Send>(_value: &T) {}

// The next link, which is there.
fn next_link<'a, C: Clock>(rt: &impl Abort, links: &mut TcpLinks<'a, C>) -> TcpLink<'a, C> {
    links.next().expect(rt, "no fault").expect(rt, "a link")
}

#[test]
fn bytes_go_both_ways_and_end_where_the_client_ends(rt: HostRuntime) -> Result<(), Fail> {
    let listener = TcpListener::bind(&rt, "127.0.0.1:0")?;
    let mut links = TcpLinks::new(&rt, Some(&listener));
    let mut client = client_of(&rt, &listener)?;
    let mut link = next_link(&rt, &mut links);
    client.write_all(b"ping")?;
    let mut taken = [0; 8];
    assert_eq!(rt; link.read(&mut taken), Ok(4));
    assert_eq!(rt; &taken, b"ping\0\0\0\0");
    assert_eq!(rt; link.write_all(b"pong"), Ok(()));
    let mut got = [0; 4];
    client.read_exact(&mut got)?;
    assert_eq!(rt; &got, b"pong");
    client.shutdown(Shutdown::Write)?;
    assert_eq!(rt; link.read(&mut taken), Ok(0));
    assert_eq!(rt; link.faults(), 0);
    links.back(link);
    assert_eq!(rt; client.read(&mut got)?, 0);
    assert_eq!(rt; links.faults(), 0);
    Ok(())
}

#[test]
fn several_listeners_share_a_socket(rt: HostRuntime) -> Result<(), Fail> {
    let listener = TcpListener::bind(&rt, "127.0.0.1:0")?;
    let mut first = TcpLinks::new(&rt, Some(&listener));
    let mut second = TcpLinks::new(&rt, Some(&listener));
    let mut one = client_of(&rt, &listener)?;
    let mut two = client_of(&rt, &listener)?;
    let mut to_one = next_link(&rt, &mut first);
    let mut to_two = next_link(&rt, &mut second);
    assert_eq!(rt; to_one.write_all(b"1"), Ok(()));
    assert_eq!(rt; to_two.write_all(b"2"), Ok(()));
    let mut got = [0; 1];
    one.read_exact(&mut got)?;
    assert_eq!(rt; &got, b"1");
    two.read_exact(&mut got)?;
    assert_eq!(rt; &got, b"2");
    Ok(())
}

#[test]
fn links_and_what_brings_them_may_go_to_other_threads(rt: HostRuntime) -> Result<(), Fail> {
    let listener = TcpListener::bind(&rt, "127.0.0.1:0")?;
    let mut links = TcpLinks::new(&rt, Some(&listener));
    let _client = client_of(&rt, &listener)?;
    may_go(&next_link(&rt, &mut links));
    may_go(&links);
    may_go(&RealTicker::new(&rt));
    Ok(())
}

#[test]
fn a_write_to_a_client_that_is_gone_is_a_fault(rt: HostRuntime) -> Result<(), Fail> {
    let listener = TcpListener::bind(&rt, "127.0.0.1:0")?;
    let mut links = TcpLinks::new(&rt, Some(&listener));
    let client = client_of(&rt, &listener)?;
    let mut link = next_link(&rt, &mut links);
    drop(client);
    // The first write reaches a closed socket, whose system answers that it is closed.
    let mut failed = false;
    for _ in 0..1000 {
        failed = link.write_all(b"to nobody").is_err();
        if failed {
            break;
        }
    }
    assert!(rt; failed);
    assert_eq!(rt; link.faults(), 1);
    assert_eq!(rt; link.write_all(b"to nobody"), Err(Failed));
    assert_eq!(rt; link.faults(), 2);
    assert_eq!(rt; link.write_all(b""), Ok(()));
    Ok(())
}

// A clock that goes on by so many seconds with each reading. Two readings are made at a read, and one at a write.
#[derive(Drop)]
struct Hasty {
    seconds: AtomicU64,
    step: u64,
}

impl Hasty {
    fn new(step: u64) -> Hasty {
        Hasty {
            seconds: AtomicU64::new(0),
            step,
        }
    }
}

impl Clock for Hasty {
    fn monotonic(&self) -> io::Result<Duration> {
        Ok(Duration::from_secs(self.seconds.fetch_add(self.step, Ordering::SeqCst)))
    }

    fn since_1970(&self) -> io::Result<Duration> {
        Ok(Duration::ZERO)
    }
}

#[test]
fn a_request_that_is_not_whole_in_time_is_a_fault(rt: HostRuntime) -> Result<(), Fail> {
    let listener = TcpListener::bind(&rt, "127.0.0.1:0")?;
    let mut client = client_of(&rt, &listener)?;
    let clock = Hasty::new(5);
    let mut link = next_link(&rt, &mut TcpLinks::new(&clock, Some(&listener)));
    client.write_all(b"abcdefgh")?;
    // The first byte came at second 5, and the reads began at 0, 10 and 20.
    for _ in 0..3 {
        assert_eq!(rt; link.read(&mut [0; 1]), Ok(1));
    }
    // After a reply there is a new request. Its first byte came at second 40, and the reads began at 35, 45 and 55.
    assert_eq!(rt; link.write_all(b"reply"), Ok(()));
    for _ in 0..3 {
        assert_eq!(rt; link.read(&mut [0; 1]), Ok(1));
    }
    // At second 65 its time is over.
    assert_eq!(rt; link.read(&mut [0; 1]), Err(Failed));
    assert_eq!(rt; link.faults(), 1);
    Ok(())
}

#[test]
fn a_reply_that_is_not_taken_in_time_is_a_fault(rt: HostRuntime) -> Result<(), Fail> {
    let listener = TcpListener::bind(&rt, "127.0.0.1:0")?;
    let mut client = client_of(&rt, &listener)?;
    let clock = Hasty::new(5);
    let mut link = next_link(&rt, &mut TcpLinks::new(&clock, Some(&listener)));
    // The writes are made at seconds 0, 5, 10 and 15.
    for _ in 0..4 {
        assert_eq!(rt; link.write_all(b"part"), Ok(()));
    }
    client.write_all(b"ab")?;
    assert_eq!(rt; link.read(&mut [0; 1]), Ok(1));
    // A read ends the reply, and the next begins at second 30.
    for _ in 0..4 {
        assert_eq!(rt; link.write_all(b"part"), Ok(()));
    }
    assert_eq!(rt; link.write_all(b"part"), Err(Failed));
    assert_eq!(rt; link.faults(), 1);
    Ok(())
}

#[test]
fn a_read_waits_no_longer_than_what_is_left(rt: HostRuntime) -> Result<(), Fail> {
    let listener = TcpListener::bind(&rt, "127.0.0.1:0")?;
    let mut client = client_of(&rt, &listener)?;
    let clock = Hasty::new(19);
    let mut link = next_link(&rt, &mut TcpLinks::new(&clock, Some(&listener)));
    client.write_all(b"a")?;
    assert_eq!(rt; link.read(&mut [0; 4]), Ok(1));
    // One second of the request is left, and nothing comes.
    let start = rt.monotonic()?;
    assert_eq!(rt; link.read(&mut [0; 4]), Err(Failed));
    let waited = rt.monotonic()?.saturating_sub(start);
    assert!(rt; Duration::from_millis(900) < waited && waited < Duration::from_secs(4));
    assert_eq!(rt; link.faults(), 1);
    Ok(())
}

#[test]
fn a_link_without_a_clock_fails(rt: HostRuntime) -> Result<(), Fail> {
    let listener = TcpListener::bind(&rt, "127.0.0.1:0")?;
    let mut client = client_of(&rt, &listener)?;
    let clock = Told {
        seconds: None,
        has_bytes: false,
    };
    let mut link = next_link(&rt, &mut TcpLinks::new(&clock, Some(&listener)));
    client.write_all(b"a")?;
    assert_eq!(rt; link.read(&mut [0; 4]), Err(Failed));
    assert_eq!(rt; link.write_all(b"a"), Err(Failed));
    assert_eq!(rt; link.faults(), 2);
    Ok(())
}

#[test]
fn a_call_goes_both_ways_to_the_endpoint_that_is_dialed(rt: HostRuntime) -> Result<(), Fail> {
    let listener = TcpListener::bind(&rt, "127.0.0.1:0")?;
    let port = listener.local_addr()?.port();
    let endpoint = format!(in rt.alloc(); "127.0.0.1:{port}")?;
    let mut dial = TcpDial::new(&rt, &rt);
    let mut call = dial.dial(endpoint.as_str()).expect(&rt, "a link");
    may_go(&dial);
    may_go(&call);
    assert_eq!(rt; call.write_all(b"ping"), Ok(()));
    let (mut peer, _) = listener.accept()?;
    let mut got = [0; 4];
    peer.read_exact(&mut got)?;
    assert_eq!(rt; &got, b"ping");
    peer.write_all(b"pong")?;
    drop(peer);
    assert_eq!(rt; call.read(&mut got), Ok(4));
    assert_eq!(rt; &got, b"pong");
    assert_eq!(rt; call.read(&mut got), Ok(0));
    dial.close(call);
    assert_eq!(rt; dial.faults(), 0);
    Ok(())
}

#[test]
fn an_endpoint_that_takes_no_connection_is_a_fault(rt: HostRuntime) -> Result<(), Fail> {
    let listener = TcpListener::bind(&rt, "127.0.0.1:0")?;
    let port = listener.local_addr()?.port();
    drop(listener);
    let endpoint = format!(in rt.alloc(); "127.0.0.1:{port}")?;
    let mut dial = TcpDial::new(&rt, &rt);
    for (endpoint, count) in [(endpoint.as_str(), 1), ("127.0.0.1", 2), ("[::1]:x", 3)] {
        assert!(rt; dial.dial(endpoint).is_err());
        assert_eq!(rt; dial.faults(), count);
    }
    Ok(())
}

#[test]
fn a_connection_and_a_call_have_their_limits(rt: HostRuntime) -> Result<(), Fail> {
    let listener = TcpListener::bind(&rt, "127.0.0.1:0")?;
    let port = listener.local_addr()?.port();
    let endpoint = format!(in rt.alloc(); "127.0.0.1:{port}")?;
    assert!(rt;
        TcpDial::new(&rt, &Hasty::new(2))
            .dial(endpoint.as_str())
            .is_err()
    );
    let clock = Hasty::new(1);
    let mut call = TcpDial::new(&rt, &clock)
        .dial(endpoint.as_str())
        .expect(&rt, "a link");
    // The connection was there at second 2, and the writes begin at 3 to 11.
    for _ in 0..9 {
        assert_eq!(rt; call.write_all(b"part"), Ok(()));
    }
    assert_eq!(rt; call.write_all(b"part"), Err(Failed));
    assert_eq!(rt; call.read(&mut [0; 1]), Err(Failed));
    assert_eq!(rt; call.faults(), 2);
    Ok(())
}

#[test]
fn a_call_waits_no_longer_than_what_is_left(rt: HostRuntime) -> Result<(), Fail> {
    let listener = TcpListener::bind(&rt, "127.0.0.1:0")?;
    let clock = Hasty::new(9);
    let since = Instant::now(&clock)?;
    let mut call = TcpCall::new(&clock, client_of(&rt, &listener)?, since);
    // One second is left, and nothing comes.
    let start = rt.monotonic()?;
    assert_eq!(rt; call.read(&mut [0; 4]), Err(Failed));
    let waited = rt.monotonic()?.saturating_sub(start);
    assert!(rt; Duration::from_millis(900) < waited && waited < Duration::from_secs(4));
    Ok(())
}

#[test]
fn an_address_that_could_not_be_bound_fails_at_each_call(rt: HostRuntime) {
    let mut links = TcpLinks::new(&rt, None);
    for count in 1..=3 {
        assert!(rt; links.next().is_err());
        assert_eq!(rt; links.faults(), count);
    }
}

#[test]
fn the_system_tells_this_century_and_words_that_differ(rt: HostRuntime) {
    let mut ticker = RealTicker::new(&rt);
    let (first, words) = ticker.tick().expect(&rt, "a tick");
    let (second, others) = ticker.tick().expect(&rt, "a tick");
    // 2025-01-01 and 2100-01-01, 00:00 UTC.
    assert!(rt; 1_735_689_600 < first.seconds() && first.seconds() < 4_102_444_800);
    assert!(rt; first <= second);
    assert!(rt; words != others);
    for word in words.0 {
        assert!(rt; word != 0);
    }
    assert_eq!(rt; ticker.faults(), 0);
}

// A clock that stands at a second or cannot be read, and bytes that count up, or none.
#[derive(Drop)]
struct Told {
    seconds: Option<u64>,
    has_bytes: bool,
}

impl Clock for Told {
    fn monotonic(&self) -> io::Result<Duration> {
        self.since_1970()
    }

    fn since_1970(&self) -> io::Result<Duration> {
        match self.seconds {
            Some(seconds) => Ok(Duration::new(seconds, 999_999_999)),
            None => Err(io::ErrorKind::InvalidData.into()),
        }
    }
}

impl RandomSource for Told {
    fn fill_bytes(&self, buf: &mut [u8]) -> io::Result<()> {
        if !self.has_bytes {
            return Err(io::ErrorKind::WouldBlock.into());
        }
        for (byte, next) in buf.iter_mut().zip(0..) {
            *byte = next;
        }
        Ok(())
    }
}

// What one tick gives.
fn tick_of(seconds: Option<u64>, has_bytes: bool) -> Result<(Moment, Words), u64> {
    let told = Told { seconds, has_bytes };
    let mut ticker = RealTicker::new(&told);
    ticker.tick().map_err(|_| ticker.faults())
}

#[test]
fn a_tick_has_whole_seconds_and_each_byte_once(rt: HostRuntime) {
    let (moment, words) = tick_of(Some(1_735_689_600), true).expect(&rt, "a tick");
    assert_eq!(rt; moment.seconds(), 1_735_689_600);
    assert_eq!(rt;
        words.0,
        [
            0x07_06_05_04_03_02_01_00,
            0x0f_0e_0d_0c_0b_0a_09_08,
            0x17_16_15_14_13_12_11_10,
            0x1f_1e_1d_1c_1b_1a_19_18,
        ]
    );
    let (last, _) = tick_of(Some(100_000_000_000), true).expect(&rt, "a tick");
    assert_eq!(rt; last.seconds(), 99_999_999_999);
}

#[test]
fn no_clock_and_no_bytes_are_faults(rt: HostRuntime) {
    assert_eq!(rt; tick_of(None, true), Err(1));
    assert_eq!(rt; tick_of(Some(5), false), Err(1));
}

// An end at which a signal interrupts so many calls first. It gives bytes of 7, and takes one byte at a time, and in all so many.
#[derive(Drop)]
struct Interrupted {
    interrupts: u32,
    room: usize,
}

impl Interrupted {
    // Whether a signal interrupts this call.
    fn interrupts(&mut self) -> io::Result<()> {
        if self.interrupts == 0 {
            return Ok(());
        }
        self.interrupts -= 1;
        Err(io::ErrorKind::Interrupted.into())
    }
}

impl Read for Interrupted {
    fn read(&mut self, buf: &mut [u8]) -> io::Result<usize> {
        self.interrupts()?;
        buf.fill(7);
        Ok(buf.len())
    }
}

impl Write for Interrupted {
    fn write(&mut self, buf: &[u8]) -> io::Result<usize> {
        self.interrupts()?;
        let count = buf.len().min(self.room).min(1);
        self.room -= count;
        Ok(count)
    }

    fn flush(&mut self) -> io::Result<()> {
        Ok(())
    }
}

#[test]
fn a_call_that_a_signal_interrupts_is_made_again(rt: HostRuntime) -> Result<(), Fail> {
    let mut into = [0; 3];
    for (interrupts, is_read) in [(0, true), (15, true), (16, false)] {
        let mut end = Interrupted {
            interrupts,
            room: 4,
        };
        assert_eq!(rt; read_some(&mut end, &mut into).is_ok(), is_read);
        end.interrupts = interrupts;
        assert_eq!(rt; send_all(&mut end, b"four").is_ok(), is_read);
        assert_eq!(rt; end.room == 0, is_read);
    }
    assert_eq!(rt; into, [7; 3]);
    Ok(())
}

#[test]
fn a_write_that_takes_nothing_fails(rt: HostRuntime) {
    let mut end = Interrupted {
        interrupts: 0,
        room: 4,
    };
    assert!(rt; send_all(&mut end, b"five!").is_err());
    assert!(rt; send_all(&mut end, b"").is_ok());
}

//! A ticker over the system's clock and its random bytes.
ghost use Rattle.std.specs.Prelude.{◌≡◌, ◌∷◌, [], None, min, length, is_err, if◌then◌else◌};
ghost use Rattle.std.specs.Int.{w64, from_le_bytes};
ghost use Rattle.wb_base.specs.Outside.{HasCause, one_more};
ghost use Rattle.wb_system.specs.Drawing.{word_at};

use crate::transfer::counted;
use std::io;
use std::marker::Model;
use std::random::RandomSource;
use std::time::Clock;
use wb_base::{Failed, Moment, Words, limits};
use wb_transport::Ticker;

/// A ticker over a clock and a source of random bytes, seen as the count of its faults. It tells no ticks. Receipts and the secrets of
/// sessions are drawn from its words, so the source must be the system's: a `HostRuntime` calls `getentropy`, which gives bytes of the
/// kernel's cryptographic generator, and waits until that is seeded.
#[derive(Drop)]
pub struct RealTicker<'a, R: Clock + RandomSource> {
    rt: &'a R,
    faults: u64,
}

impl<'a, R: Clock + RandomSource> Model for RealTicker<'a, R> {
    ghost use Rattle.std.specs.Prelude.{ℕ};

    ghost Value = { ℕ };

    ghost view = { λ t. t.faults };
}

impl<'a, R: Clock + RandomSource> RealTicker<'a, R> {
    /// A ticker over this clock and source, with no fault so far.
    pub fn new(rt: &'a R) -> RealTicker<'a, R>
        ensures { result ≡ 0 }
    {
        RealTicker { rt, faults: 0 }
    }
}

// The moment of a count of seconds. One past the last moment is told as the last.
fn moment_of(seconds: u64) -> Moment
    ensures { result ≡ min seconds 99_999_999_999 }
{
    match Moment::try_new(seconds.min(limits::LAST_MOMENT)) {
        Some(moment) => moment,
        None => unreachable!(),
    }
}

// The word of these 8 bytes, the lowest first.
fn word_of(bytes: &[u8]) -> u64
    requires { length bytes.now ≡ 8 }
    ensures { result ≡ from_le_bytes w64 bytes.now }
{
    let mut word = [0; 8];
    word.copy_from_slice(bytes);
    u64::from_le_bytes(word)
}

// The words of 32 bytes: each of 8, in order.
fn words_of(bytes: &[u8; 32]) -> Words
    ensures { result.0 ≡ word_at bytes.now 0 ∷ word_at bytes.now 8 ∷ word_at bytes.now 16 ∷ word_at bytes.now 24 ∷ [] }
{
    Words([
        word_of(&bytes[..8]),
        word_of(&bytes[8..16]),
        word_of(&bytes[16..24]),
        word_of(&bytes[24..]),
    ])
}

// The moment that the clock tells, and fresh words.
fn draw<R: Clock + RandomSource>(rt: &R) -> io::Result<(Moment, Words)> {
    let now = rt.since_1970()?;
    let mut bytes = [0; 32];
    rt.fill_bytes(&mut bytes)?;
    Ok((moment_of(now.as_secs()), words_of(&bytes)))
}

impl<'a, R: Clock + RandomSource> Ticker for RealTicker<'a, R> {
    ghost end = { λ faults. record { left = None; count = faults } };

    fn faults(&self) -> u64 {
        self.faults
    }

    /// It fails where the clock cannot be read or is before 1970, and where there are no random bytes.
    fn tick(&mut self) -> Result<(Moment, Words), Failed>
        ensures cause { HasCause self.old self.new result }
        ensures count { self.new ≡ (if is_err result then one_more self.old else self.old) }
    {
        counted(&mut self.faults, draw(self.rt))
    }
}

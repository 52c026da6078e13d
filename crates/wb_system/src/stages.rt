//! What a connection is at, and how long its calls may wait.
ghost use Rattle.std.specs.Prelude.{◌≡◌, ◌<◌, MatchResult};
ghost use Rattle.std.specs.Duration.{as_nanos};
ghost use Rattle.wb_system.specs.Stages.{left_nanos, read_nanos, reply_start, request_start};

use std::io;
use std::io::ErrorKind;
use std::time::{Duration, Instant};

/// How many seconds a connection may send nothing before the first byte of a request, from its start or from its last reply on.
pub const IDLE_SECONDS: u64 = 5;

/// Within how many seconds of its first byte a request is whole.
pub const REQUEST_SECONDS: u64 = 20;

/// Within how many seconds of its first write a reply is taken.
pub const REPLY_SECONDS: u64 = 20;

/// What a connection is at, and when that began.
#[derive(Clone, Copy)]
pub enum Stage {
    /// Nothing came yet.
    New,
    /// A request, whose first byte came then.
    Request(Instant),
    /// A reply, whose first write was then.
    Reply(Instant),
}

impl Stage {
    // How long a read may wait: for the first byte of a request, or for the rest of one. Where no time is left, it fails.
    pub fn read_limit(self, now: Instant) -> io::Result<Duration>
        ensures { MatchResult result (λ limit. (0 < as_nanos limit) × (as_nanos limit ≡ read_nanos self now)) (λ _. read_nanos self now ≡ 0) }
    {
        match self {
            Stage::New | Stage::Reply(_) => Ok(Duration::from_secs(IDLE_SECONDS)),
            Stage::Request(since) => left_of(REQUEST_SECONDS, since, now),
        }
    }

    // When the request began of which bytes come now.
    pub fn request_since(self, now: Instant) -> Instant
        ensures { result ≡ request_start self now }
    {
        match self {
            Stage::New | Stage::Reply(_) => now,
            Stage::Request(since) => since,
        }
    }

    // When the reply began of which bytes go now.
    pub fn reply_since(self, now: Instant) -> Instant
        ensures { result ≡ reply_start self now }
    {
        match self {
            Stage::New | Stage::Request(_) => now,
            Stage::Reply(since) => since,
        }
    }
}

// How long a write may wait of a reply that began at a moment. Where no time is left, it fails.
pub fn reply_limit(since: Instant, now: Instant) -> io::Result<Duration>
    ensures { MatchResult result (λ limit. (0 < as_nanos limit) × (as_nanos limit ≡ left_nanos 20 since now)) (λ _. left_nanos 20 since now ≡ 0) }
{
    left_of(REPLY_SECONDS, since, now)
}

// What is left of a limit of so many seconds that began at a moment. Where nothing is left, it fails.
pub(crate) fn left_of(seconds: u64, since: Instant, now: Instant) -> io::Result<Duration>
    ensures { MatchResult result (λ left. (0 < as_nanos left) × (as_nanos left ≡ left_nanos seconds since now)) (λ _. left_nanos seconds since now ≡ 0) }
{
    let left = Duration::from_secs(seconds).saturating_sub(now.duration_since(since));
    if left.is_zero() {
        return Err(ErrorKind::TimedOut.into());
    }
    Ok(left)
}

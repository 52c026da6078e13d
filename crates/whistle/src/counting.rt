//! How often each status is among replies.
ghost use Rattle.std.specs.Prelude.{◌≡◌, ◌<◌, ◌++◌, ◌∷◌, [], List, length, OnOk};
ghost use Rattle.wb_model.specs.Scripts.{Reply};
ghost use Rattle.whistle.specs.Counted.{IsCounted, times};

use std::cmp::Ordering;
use wb_base::Memory;
use wb_list::{Keyed, Sorted};

/// How many replies have a status.
#[derive(Clone, Copy, Drop)]
pub struct StatusCount {
    /// The status code (RFC 9110, section 15).
    pub status: u16,
    /// How many replies have it.
    pub count: u32,
}

impl Keyed for StatusCount {
    type Key = u16;

    ghost key_of = { λ row. row.status };

    fn compare(&self, key: &u16) -> Ordering {
        self.status.cmp(key)
    }

    fn compare_to(&self, other: &StatusCount) -> Ordering {
        self.status.cmp(&other.status)
    }
}

// How many of the replies so far have a status.
fn count_of(counts: &Sorted<StatusCount>, status: u16) -> u32
    ensures { (replies : List Reply) → IsCounted replies counts.now.items → result ≡ times status replies }
{
    match counts.find(&status) {
        Some(row) => row.count,
        None => 0,
    }
}

/// Counts one more reply, which has this status.
pub fn count_reply(counts: &mut Sorted<StatusCount>, status: u16) -> Result<(), Memory>
    requires few { (replies : List Reply) × IsCounted replies counts.old.items × (length replies < 20_000) }
    ensures { OnOk result ((replies : List Reply) (reply : Reply) → IsCounted replies counts.old.items → reply.told.status ≡ status → IsCounted (replies ++ reply ∷ []) counts.new.items) }
{
    let before = count_of(counts, status);
    counts.reserve(1)?;
    counts.set(StatusCount {
        status,
        count: before + 1,
    });
    Ok(())
}

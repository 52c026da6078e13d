//! How much the host has made and keeps.
ghost use Rattle.std.specs.Prelude.{◌≡◌, ◌<◌, ◌^◌, List, map};
ghost use Rattle.wb_custody.specs.declared.sealed.SealedItem.{SealedItem};
ghost use Rattle.wb_tables.specs.Places.{ArePlaces};
ghost use Rattle.wb_tables.specs.Kept.{place_of, counts_at, sessions_at};

use crate::tenancy::Tenancy;

/// How many turns a host has made, and what the tables of all its tenants hold.
#[derive(Clone, Copy, Debug, PartialEq, Eq)]
pub struct Counts {
    /// Turns, the lost ones among them.
    pub turns: u64,
    /// Reports that have a trail.
    pub live: u64,
    /// Numbers that were drawn.
    pub numbers: u64,
    /// Standing sessions.
    pub sessions: u64,
}

/// The counts of a host with these tenants.
pub fn count(turns: u64, tenancies: &[Tenancy]) -> Counts
    requires places { (sealed : List SealedItem) × ArePlaces turns 0 sealed (map place_of tenancies.now) }
    requires sessions { sessions_at (map place_of tenancies.now) < 2 ^ 64 }
    ensures { result ≡ counts_at turns (map place_of tenancies.now) }
{
    let mut live = 0;
    let mut numbers = 0;
    let mut sessions = 0;
    for tenancy in tenancies {
        live += tenancy.cases.as_slice().len() as u64;
        numbers += tenancy.numbering.last as u64;
        sessions += tenancy.sessions.len() as u64;
    }
    Counts {
        turns,
        live,
        numbers,
        sessions,
    }
}

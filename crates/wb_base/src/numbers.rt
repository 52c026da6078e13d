//! Numbers in their ranges.
ghost use Rattle.std.specs.Prelude.{◌≡◌, ◌≤◌, ◌<◌, ◌^◌, ℕ, ℤ, pos, neg_ℤ, ◌≤ℤ◌, SomeIff};

use crate::limits;
use std::marker::Model;
use wb_list::{Memory, TryClone};

/// The id of a tenant, from 1 to 64.
#[derive(Clone, Copy, Debug, PartialEq, Eq, PartialOrd, Ord)]
pub struct Tenant(u32);

impl Model for Tenant {
    ghost Value = { ℕ };

    ghost view = { λ t. t.0 };

    ghost invariant = { λ t. (1 ≤ t.0) × (t.0 ≤ 64) };

    ghost inverse = { λ n. record { 0 = n } };
}

impl Tenant {
    /// The tenant of an id, where the id is in range.
    pub fn try_new(id: u32) -> Option<Tenant>
        ensures { SomeIff result ((1 ≤ id) × (id ≤ 64)) id }
    {
        if 1 <= id && id <= limits::TENANTS {
            Some(Tenant(id))
        } else {
            None
        }
    }

    /// Its id.
    pub fn id(self) -> u32
        ensures value { result ≡ self }
        ensures low { 1 ≤ self }
        ensures high { self ≤ 64 }
    {
        self.0
    }
}

/// The number of a report within its tenant, from 1.
#[derive(Clone, Copy, Debug, PartialEq, Eq, PartialOrd, Ord)]
pub struct Number(u32);

impl Model for Number {
    ghost Value = { ℕ };

    ghost view = { λ n. n.0 };

    ghost invariant = { λ n. 1 ≤ n.0 };

    ghost inverse = { λ n. record { 0 = n } };
}

impl Number {
    /// The number, where it is in range.
    pub fn try_new(number: u32) -> Option<Number>
        ensures { SomeIff result (1 ≤ number) number }
    {
        if 1 <= number {
            Some(Number(number))
        } else {
            None
        }
    }

    /// The number as a plain one.
    pub fn get(self) -> u32
        ensures value { result ≡ self }
        ensures low { 1 ≤ self }
        ensures high { self < 2 ^ 32 }
    {
        self.0
    }
}

/// The id of a user within its tenant, from 1 to 256.
#[derive(Clone, Copy, Debug, PartialEq, Eq, PartialOrd, Ord)]
pub struct UserId(u16);

impl Model for UserId {
    ghost Value = { ℕ };

    ghost view = { λ u. u.0 };

    ghost invariant = { λ u. (1 ≤ u.0) × (u.0 ≤ 256) };

    ghost inverse = { λ n. record { 0 = n } };
}

impl UserId {
    /// The user of an id, where the id is in range.
    pub fn try_new(id: u16) -> Option<UserId>
        ensures { SomeIff result ((1 ≤ id) × (id ≤ 256)) id }
    {
        if 1 <= id && id <= 256 {
            Some(UserId(id))
        } else {
            None
        }
    }

    /// Its id.
    pub fn id(self) -> u16
        ensures value { result ≡ self }
        ensures low { 1 ≤ self }
        ensures high { self ≤ 256 }
    {
        self.0
    }
}

impl TryClone for Day {
    fn try_clone(&self) -> Result<Day, Memory> {
        Ok(*self)
    }
}

impl TryClone for UserId {
    fn try_clone(&self) -> Result<UserId, Memory> {
        Ok(*self)
    }
}

/// A count of seconds since 1970-01-01 00:00 UTC, at most 99,999,999,999.
#[derive(Clone, Copy, Debug, PartialEq, Eq, PartialOrd, Ord)]
pub struct Moment(u64);

impl Model for Moment {
    ghost Value = { ℕ };

    ghost view = { λ m. m.0 };

    ghost invariant = { λ m. m.0 ≤ 99_999_999_999 };

    ghost inverse = { λ n. record { 0 = n } };
}

impl Moment {
    /// The moment of a count of seconds, where it is in range.
    pub fn try_new(seconds: u64) -> Option<Moment>
        ensures { SomeIff result (seconds ≤ 99_999_999_999) seconds }
    {
        if seconds <= limits::LAST_MOMENT {
            Some(Moment(seconds))
        } else {
            None
        }
    }

    /// Its count of seconds.
    pub fn seconds(self) -> u64
        ensures value { result ≡ self }
        ensures high { self ≤ 99_999_999_999 }
    {
        self.0
    }
}

/// A count of days since 1970-01-01, from -1 to 1,200,000.
#[derive(Clone, Copy, Debug, PartialEq, Eq, PartialOrd, Ord)]
pub struct Day(i32);

impl Model for Day {
    ghost Value = { ℤ };

    ghost view = { λ d. d.0 };

    ghost invariant = { λ d. (neg_ℤ (pos 1) ≤ℤ d.0) × (d.0 ≤ℤ pos 1_200_000) };

    ghost inverse = { λ z. record { 0 = z } };
}

impl Day {
    /// The day of a count of days that is in range.
    pub fn new(days: i32) -> Day
        requires low { neg_ℤ (pos 1) ≤ℤ days }
        requires high { days ≤ℤ pos 1_200_000 }
        ensures { result ≡ days }
    {
        Day(days)
    }

    /// The day of a count of days, where it is in range.
    pub fn try_new(days: i32) -> Option<Day>
        ensures { SomeIff result ((neg_ℤ (pos 1) ≤ℤ days) × (days ≤ℤ pos 1_200_000)) days }
    {
        if -1 <= days && days <= 1_200_000 {
            Some(Day(days))
        } else {
            None
        }
    }

    /// Its count of days.
    pub fn days(self) -> i32
        ensures value { result ≡ self }
        ensures low { neg_ℤ (pos 1) ≤ℤ self }
        ensures high { self ≤ℤ pos 1_200_000 }
    {
        self.0
    }
}

//! Days of moments, and the dates of days.
ghost use Rattle.std.specs.Prelude.{◌≡◌, ◌≤◌, ◌+ℤ◌, neg_ℤ, pos};
ghost use Rattle.jiff_core.specs.Calendar.{IsBetween};
ghost use Rattle.jiff_core.specs.Date.{epoch_day};
ghost use Rattle.wb_base.specs.Days.{IsDay, IsEarlyDay, IsOffset, date_of as civil_of, day_of as day_at};
ghost use Rattle.wb_base.specs.Terms.{months_later};

use jiff::ToSpan;
use jiff::civil::Date;
use jiff_core::civil;
use wb_base::{Day, Moment};

/// The day (since 1970-01-01) on which a moment (seconds since 1970-01-01 00:00 UTC) falls
/// at an offset from UTC in minutes, from -720 to 840.
pub fn day_of(moment: Moment, offset: i32) -> Day
    requires { IsOffset offset }
    ensures day { result ≡ day_at moment offset }
    // The terms of a moment's day may be added to it.
    ensures early { IsEarlyDay result }
{
    let seconds = moment.seconds() as i64 + 60 * offset as i64;
    Day::new(seconds.div_euclid(86_400) as i32)
}

/// The date of a day in the proleptic Gregorian calendar.
pub(crate) fn date_of(day: Day) -> Date
    ensures day { epoch_day result ≡ day }
    ensures year { result.year ≡ pos (civil_of day).year }
    ensures month { result.month ≡ (civil_of day).month }
    ensures day_of_month { result.day ≡ (civil_of day).day }
    ensures bounds { IsBetween (pos 0) (pos 6000) result.year }
{
    Date::from_plain(civil::Date::from_unix_epoch_day(day.days() as i64).unwrap())
}

/// The day of a date that the host has.
pub(crate) fn day_on(date: Date) -> Day
    requires { IsDay (epoch_day date) }
    ensures { result ≡ epoch_day date }
{
    Day::new(date.to_plain().to_unix_epoch_day())
}

/// The day so many days after a day.
pub(crate) fn days_after(day: Day, days: u16) -> Day
    requires { IsDay (day +ℤ pos days) }
    ensures { result ≡ day +ℤ pos days }
{
    day_on(date_of(day).checked_add((days as i64).days()).unwrap())
}

/// The day so many months after a day: the same day of the month, or the month's last where it lacks that day.
pub(crate) fn months_after(day: Day, months: u32) -> Day
    requires low { 3 ≤ months }
    requires high { months ≤ 6 }
    requires day { IsBetween (neg_ℤ (pos 1)) (pos 1_190_007) day }
    ensures value { result ≡ months_later months day }
    ensures bounds { IsBetween (neg_ℤ (pos 1)) (pos 1_190_690) result }
{
    day_on(date_of(day).checked_add((months as i64).months()).unwrap())
}

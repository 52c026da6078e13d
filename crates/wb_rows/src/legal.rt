//! Whether an entry's actor, days and readers are right.
ghost use Rattle.std.specs.Prelude.{◌≡◌, true, IfSome};
ghost use Rattle.std.specs.Ordering.{int_eq};
ghost use Rattle.wb_base.specs.Days.{IsOffset, IsEarlyDay};
ghost use Rattle.wb_base.specs.Terms.{feedback_due as feedback_due_of};
ghost use Rattle.wb_model.specs.Legal as legal;
ghost use Rattle.wb_model.specs.Trails.{received, acknowledged};
ghost use Rattle.wb_rows.specs.Reckoned.{reckoned};
ghost use Rattle.wb_rows.specs.Legality.{is_fit_after, right_days as right_days_of, right_acknowledgement as right_acknowledgement_of, right_postponement as right_postponement_of};

use crate::days::Days;
use wb_base::{Calendar, Day, Moment, Text, UserId, limits};
use wb_case::Case;
use wb_model::{Actor, Deed, Entry};
use wb_terms::{ack_due, day_of, expiry, feedback_due};

/// The seconds of a day.
const DAY: u64 = 86_400;

// Whether it was the reporter.
fn is_reporter(by: Actor) -> bool
    ensures { result ≡ legal.is_reporter by }
{
    match by {
        Actor::Reporter => true,
        Actor::User(_) => false,
    }
}

// Whether it is by whom it may be.
fn right_actor(deed: &Deed, by: Actor) -> bool
    ensures { result ≡ legal.right_actor deed.now by }
{
    match deed {
        Deed::Submitted { .. } | Deed::Identity => is_reporter(by),
        Deed::Comment { .. } => true,
        _ => !is_reporter(by),
    }
}

// Whether users ascend from above an id.
fn ascend_from(low: UserId, users: &[UserId]) -> bool
    ensures { result ≡ legal.ascends_from low users.now }
{
    let mut last = low;
    for user in users {
        if user.id() <= last.id() {
            return false;
        }
        last = *user;
    }
    true
}

// Whether users ascend.
fn ascend(users: &[UserId]) -> bool
    ensures { result ≡ legal.ascends users.now }
{
    match users.first() {
        Some(first) => ascend_from(*first, &users[1..]),
        None => true,
    }
}

// Whether there are 1 to 32 users, which ascend.
fn are_readers(users: &[UserId]) -> bool
    ensures { result ≡ legal.are_readers users.now }
{
    1 <= users.len() && users.len() <= limits::READERS && ascend(users)
}

// Whether a day is 1 to 3,650 days after another.
fn is_within(from: Day, until: Day) -> bool
    requires { IsEarlyDay from }
    ensures { result ≡ legal.is_within from 1 3_650 until }
{
    expiry(from, 1) <= until && until <= expiry(from, limits::RETENTION_DAYS as u16)
}

// Whether the days of a submission are right.
fn right_days(
    calendar: &Calendar,
    today: Day,
    received: Day,
    ack: Day,
    feedback: Day,
    until: Day,
) -> bool
    requires { IsEarlyDay today }
    ensures { result ≡ right_days_of calendar.now today received ack feedback until }
{
    received == today
        && ack == ack_due(today, calendar)
        && feedback == feedback_due(today, None, false, calendar)
        && is_within(today, until)
}

// Whether the days of an acknowledgement are right, where the time for feedback was extended or not.
fn right_acknowledgement(
    calendar: &Calendar,
    extended: bool,
    today: Day,
    day: Day,
    feedback: Day,
) -> bool
    requires { IsEarlyDay today }
    ensures { result ≡ right_acknowledgement_of calendar.now extended today day feedback }
{
    day == today && feedback == feedback_due(today, Some(day), extended, calendar)
}

// Whether the day of an extension is right after a trail.
fn right_extension(calendar: &Calendar, case: &Case, feedback: Day) -> bool
    requires received { IsEarlyDay (received case.now.items) }
    requires acknowledged { IfSome (acknowledged case.now.items) IsEarlyDay }
    ensures { result ≡ int_eq feedback (feedback_due_of (received case.now.items) (acknowledged case.now.items) true calendar.now) }
{
    let summary = case.summary();
    feedback == feedback_due(summary.received, summary.acknowledged, true, calendar)
}

// Whether the day of a postponement is right, after the one before.
fn right_postponement(today: Day, before: Day, until: Day) -> bool
    requires { IsEarlyDay today }
    ensures { result ≡ right_postponement_of today before until }
{
    before <= until && (until == before || until <= expiry(today, limits::RETENTION_DAYS as u16))
}

// Whether a grant is in force at once where its notice is withheld, and else after 0 to 30 whole days.
fn is_effective(at: Moment, effective: u64, withheld: &Option<Text>) -> bool
    ensures { result ≡ legal.is_effective at effective withheld.now }
{
    let time = at.seconds();
    match withheld {
        Some(_) => effective == time,
        None => {
            time <= effective
                && effective - time <= DAY * limits::NOTICE_DAYS as u64
                && (effective - time) % DAY == 0
        }
    }
}

/// Whether a deed's days, readers and moment are right after a trail, as a tenant reckons days.
pub fn right_values(days: &Days, case: &Case, at: Moment, deed: &Deed) -> bool
    requires offset { IsOffset days.now.offset }
    requires received { IsEarlyDay (received case.now.items) }
    requires acknowledged { IfSome (acknowledged case.now.items) IsEarlyDay }
    ensures { result ≡ legal.right_values (reckoned days.now) case.now.items at deed.now }
{
    let today = day_of(at, days.offset);
    match deed {
        Deed::Submitted {
            ack_due,
            expires,
            feedback_due,
            readers,
            received,
            ..
        } => {
            right_days(
                days.calendar,
                today,
                *received,
                *ack_due,
                *feedback_due,
                *expires,
            ) && are_readers(readers.as_slice())
        }
        Deed::Acknowledged { day, feedback_due } => right_acknowledgement(
            days.calendar,
            case.summary().extension.is_some(),
            today,
            *day,
            *feedback_due,
        ),
        Deed::Transferred { readers, .. } => are_readers(readers.as_slice()),
        Deed::Postponed { expires } => right_postponement(today, case.summary().expires, *expires),
        Deed::Extended { feedback_due, .. } => right_extension(days.calendar, case, *feedback_due),
        Deed::Granted {
            effective,
            withheld,
            ..
        } => is_effective(at, *effective, withheld),
        _ => true,
    }
}

/// Whether an entry begins a trail: a submission by the reporter whose days and readers are right.
pub fn is_first(days: &Days, entry: &Entry) -> bool
    requires { IsOffset days.now.offset }
    ensures { result ≡ legal.is_first (reckoned days.now) entry.now }
{
    match &entry.deed {
        Deed::Submitted {
            ack_due,
            expires,
            feedback_due,
            readers,
            received,
            ..
        } => {
            if !is_reporter(entry.by) {
                return false;
            }
            let today = day_of(entry.at, days.offset);
            right_days(
                days.calendar,
                today,
                *received,
                *ack_due,
                *feedback_due,
                *expires,
            ) && are_readers(readers.as_slice())
        }
        _ => false,
    }
}

/// Whether an entry is not before a moment, is by whom it may be, and has right days and readers.
pub fn is_fit(days: &Days, case: &Case, last: Moment, entry: &Entry) -> bool
    requires offset { IsOffset days.now.offset }
    requires received { IsEarlyDay (received case.now.items) }
    requires acknowledged { IfSome (acknowledged case.now.items) IsEarlyDay }
    ensures { result ≡ is_fit_after (reckoned days.now) last case.now.items entry.now }
{
    if entry.at < last || !right_actor(&entry.deed, entry.by) {
        return false;
    }
    right_values(days, case, entry.at, &entry.deed)
}

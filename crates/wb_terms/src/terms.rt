//! When an acknowledgement, feedback and expiry are due.
ghost use Rattle.std.specs.Prelude.{◌≡◌, ◌≤◌, ◌≤ℤ◌, ◌+ℤ◌, pos, neg_ℤ, IfSome};
ghost use Rattle.jiff_core.specs.Calendar.{IsBetween};
ghost use Rattle.wb_base.specs.Calendars.{end, after_weekend as next_open, after_holiday as next_after};
ghost use Rattle.wb_base.specs.Days.{IsEarlyDay};
ghost use Rattle.wb_base.specs.Terms.{feedback_months as months_of, ack_due as ack_due_of, expiry as expiry_of, feedback_due as feedback_due_of};

use crate::days::{date_of, days_after, months_after};
use jiff::civil::Weekday;
use wb_base::{Calendar, Day};

/// The day itself, or the Monday after it where it is a Saturday or a Sunday.
fn after_weekend(day: Day) -> Day
    requires low { neg_ℤ (pos 1) ≤ℤ day }
    requires high { day ≤ℤ pos 1_199_998 }
    ensures value { result ≡ next_open day }
    ensures low { neg_ℤ (pos 1) ≤ℤ result }
    ensures high { result ≤ℤ (day +ℤ pos 2) }
{
    match date_of(day).weekday() {
        Weekday::Saturday => days_after(day, 2),
        Weekday::Sunday => days_after(day, 1),
        _ => day,
    }
}

/// The day, or what follows where it is this holiday.
fn after_holiday(day: Day, holiday: Day) -> Day
    requires low { neg_ℤ (pos 1) ≤ℤ day }
    requires high { day ≤ℤ pos 1_199_997 }
    ensures value { result ≡ next_after day holiday }
    ensures low { neg_ℤ (pos 1) ≤ℤ result }
    ensures high { result ≤ℤ (day +ℤ pos 3) }
{
    if holiday.days() == day.days() {
        after_weekend(days_after(holiday, 1))
    } else {
        day
    }
}

/// The day on which a term ends that would end on this day: where the calendar rolls, the next day that is no Saturday,
/// Sunday or holiday (after Regulation (EEC, Euratom) No 1182/71, Article 3(4)).
pub fn roll(day: Day, calendar: &Calendar) -> Day
    requires { IsBetween (neg_ℤ (pos 1)) (pos 1_190_690) day }
    ensures { result ≡ end calendar.now day }
{
    if !calendar.rolls() {
        return day;
    }
    let mut last = after_weekend(day);
    for holiday in calendar.holidays() {
        last = after_holiday(last, *holiday);
    }
    last
}

/// The last day on which receipt may be acknowledged: seven days after the day of that receipt
/// (Directive (EU) 2019/1937, Article 9(1)(b)), on the tenant's calendar.
pub fn ack_due(received: Day, calendar: &Calendar) -> Day
    requires { IsEarlyDay received }
    ensures { result ≡ ack_due_of received calendar.now }
{
    roll(days_after(received, 7), calendar)
}

/// How many months there are for feedback.
fn feedback_months(extended: bool) -> u32
    ensures value { result ≡ months_of extended }
    ensures low { 3 ≤ result }
    ensures high { result ≤ 6 }
{
    if extended { 6 } else { 3 }
}

/// The last day for feedback: three months after the acknowledgement, or, where there was none, after the seven days for it
/// (Directive (EU) 2019/1937, Article 9(1)(f)); six where that was extended (Article 11(2)(d)); on the tenant's calendar.
pub fn feedback_due(
    received: Day,
    acknowledged: Option<Day>,
    extended: bool,
    calendar: &Calendar,
) -> Day
    requires received { IsEarlyDay received }
    requires acknowledged { IfSome acknowledged IsEarlyDay }
    ensures { result ≡ feedback_due_of received acknowledged extended calendar.now }
{
    let from = acknowledged.unwrap_or(days_after(received, 7));
    roll(months_after(from, feedback_months(extended)), calendar)
}

/// The day on which a report expires that is kept for `retention` days, from 1 to 3650, after a day.
pub fn expiry(from: Day, retention: u16) -> Day
    requires from { IsEarlyDay from }
    requires low { 1 ≤ retention }
    requires high { retention ≤ 3650 }
    ensures { result ≡ expiry_of from retention }
{
    days_after(from, retention)
}

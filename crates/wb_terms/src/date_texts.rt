//! Dates as texts `YYYY-MM-DD` (ISO 8601, calendar date in extended format).
ghost use Rattle.std.specs.Prelude.{◌≡◌, ◌<◌, IfSome};
ghost use Rattle.wb_base.specs.DateTexts.{date_text as date_text_of, day_if_real, number_of, read_date as read_date_of};

use crate::days::{date_of, day_on};
use jiff::civil::Date;
use wb_base::Day;

/// The text of a day's date: ten ASCII bytes `YYYY-MM-DD`.
pub fn date_text(day: Day) -> [u8; 10]
    ensures { result ≡ date_text_of day }
{
    let date = date_of(day);
    let year = date.year() as u16;
    let (month, day_of_month) = (date.month() as u8, date.day() as u8);
    let (century, rest) = (year / 100, year % 100);
    [
        b'0' + (century / 10) as u8,
        b'0' + (century % 10) as u8,
        b'0' + (rest / 10) as u8,
        b'0' + (rest % 10) as u8,
        b'-',
        b'0' + month / 10,
        b'0' + month % 10,
        b'-',
        b'0' + day_of_month / 10,
        b'0' + day_of_month % 10,
    ]
}

/// The number of two bytes, if they are ASCII digits.
fn number(tens: u8, ones: u8) -> Option<u8>
    ensures value { result ≡ number_of tens ones }
    ensures bound { IfSome result (λ n. n < 100) }
{
    if tens.is_ascii_digit() && ones.is_ascii_digit() {
        Some((tens - b'0') * 10 + (ones - b'0'))
    } else {
        None
    }
}

/// The day of a date, if it is of the years 1970 to 5199 and the calendar has it.
fn real_day(year: u16, month: u8, day: u8) -> Option<Day>
    requires year { year < 10_000 }
    requires month { month < 100 }
    requires day { day < 100 }
    ensures { result ≡ day_if_real (record { year = year; month = month; day = day }) }
{
    if year < 1970 || year > 5199 {
        return None;
    }
    match Date::new(year as i16, month as i8, day as i8) {
        Ok(date) => Some(day_on(date)),
        Err(_) => None,
    }
}

/// The day that a text names: ten ASCII bytes `YYYY-MM-DD` that are a date from 1970-01-01 to 5199-12-31.
#[tactic(auto, unfolding(wb_base::specs::DateTexts::read_date))]
pub fn read_date(text: &[u8]) -> Option<Day>
    ensures { result ≡ read_date_of text.now }
{
    if text.len() != 10 || text[4] != b'-' || text[7] != b'-' {
        return None;
    }
    let century = number(text[0], text[1])?;
    let year = number(text[2], text[3])?;
    let month = number(text[5], text[6])?;
    let day = number(text[8], text[9])?;
    real_day(century as u16 * 100 + year as u16, month, day)
}

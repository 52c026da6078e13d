//! Calendars: whether due days roll, and the holidays.
ghost use Rattle.std.specs.Prelude.{◌≡◌, true};
ghost use Rattle.wb_base.specs.Calendars.{plain, are_holidays as may_be_holidays};

use crate::Day;
use std::alloc::Global;
use std::marker::Model;
use wb_list::{Items, Memory, TryClone};

/// A tenant's calendar: whether its due days roll past Saturdays, Sundays and holidays, and its holidays, at most 64,
/// ascending.
#[derive(Drop)]
pub struct Calendar {
    rolls: bool,
    days: Items<Day>,
}

impl Model for Calendar {
    ghost use Rattle.std.specs.Prelude.{◌≡◌, true};
    ghost use Rattle.wb_base.specs.Calendars.{Calendar as Days, are_holidays};

    ghost Value = { Days };

    ghost view = { λ c. record { roll = c.rolls; holidays = c.days } };

    ghost invariant = { λ c. are_holidays c.days ≡ true };
}

impl Calendar {
    /// The calendar that does not roll and lists no holiday. It takes no memory.
    pub fn plain(alloc: Global) -> Calendar
        ensures { result ≡ plain }
    {
        Calendar {
            rolls: false,
            days: Items::new(alloc),
        }
    }

    /// A calendar with these holidays, at most 64, ascending and each once. It takes no memory.
    pub fn of(roll: bool, holidays: Vec<Day>) -> Calendar
        requires { may_be_holidays holidays.items ≡ true }
        ensures { result ≡ record { roll = roll; holidays = holidays.items } }
    {
        Calendar {
            rolls: roll,
            days: Items::of(holidays),
        }
    }

    /// Whether due days roll.
    pub fn rolls(&self) -> bool
        ensures { result ≡ self.now.roll }
    {
        self.rolls
    }

    /// The holidays.
    pub fn holidays(&self) -> &[Day]
        ensures value { result.now ≡ self.now.holidays }
        ensures range { may_be_holidays self.now.holidays ≡ true }
    {
        self.days.as_slice()
    }
}

/// Whether a calendar may have these holidays: at most 64, ascending, each once.
pub fn are_holidays(days: &[Day]) -> bool
    ensures { result ≡ may_be_holidays days.now }
{
    if days.len() > 64 {
        return false;
    }
    let Some(first) = days.first() else {
        return true;
    };
    let mut last = *first;
    for at in 1..days.len() {
        if days[at] <= last {
            return false;
        }
        last = days[at];
    }
    true
}

impl TryClone for Calendar {
    fn try_clone(&self) -> Result<Calendar, Memory> {
        Ok(Calendar {
            rolls: self.rolls,
            days: self.days.try_clone()?,
        })
    }
}

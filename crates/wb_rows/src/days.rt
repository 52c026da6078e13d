//! How a tenant reckons days.

use wb_base::Calendar;

/// How a tenant reckons days, looked at.
#[derive(Clone, Copy)]
pub struct Days<'a> {
    /// Minutes from UTC.
    pub offset: i32,
    /// On which days terms end.
    pub calendar: &'a Calendar,
}

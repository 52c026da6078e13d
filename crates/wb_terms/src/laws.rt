//! What the definitions of dates, terms and texts say in jiff's words, and that texts read back.
ghost use Rattle.std.specs.Prelude.{◌≡◌, ℕ, ℤ, List, Some, pos, ◌+ℤ◌};
ghost use Rattle.jiff_core.specs.Calendar.{IsBetween, days_from_civil};
ghost use Rattle.jiff_core.specs.Date.{epoch_day};
ghost use Rattle.jiff_core.specs.declared.civil.date.Date.{Date};
ghost use Rattle.jiff_fmt.specs.Text as jiff_text;
ghost use Rattle.jiff_span.specs.Months.{add_months};
ghost use Rattle.wb_base.specs.DateTexts.{date_text, read_date};
ghost use Rattle.wb_base.specs.Days.{IsDay, date_at, date_of};
ghost use Rattle.wb_base.specs.Terms.{months_later};

/// The date n days after 1969-12-31 is the one that jiff counts as day n - 1, so the date of a day is the one
/// that jiff counts as that day; and a date of jiff that is counted as a day has that day's year, month and
/// day of the month.
pub fn dates_are_jiffs()
    ensures count { (n : ℕ) → days_from_civil (pos (date_at n).year) (date_at n).month (date_at n).day +ℤ pos 1 ≡ pos n }
    ensures back { (day : ℤ) → IsDay day → days_from_civil (pos (date_of day).year) (date_of day).month (date_of day).day ≡ day }
    ensures year { (a : Date) (day : ℤ) → epoch_day a ≡ day → IsDay day → a.year ≡ pos (date_of day).year }
    ensures month { (a : Date) (day : ℤ) → epoch_day a ≡ day → IsDay day → a.month ≡ (date_of day).month }
    ensures day_of_month { (a : Date) (day : ℤ) → epoch_day a ≡ day → IsDay day → a.day ≡ (date_of day).day }
{}

/// The day so many months after a day, from none on, is the one that jiff gets by adding those months to the
/// day's date.
pub fn months_are_jiffs()
    ensures { (a : Date) (day : ℤ) (k : ℕ) → epoch_day a ≡ day → IsDay day → add_months a (pos k) ≡ months_later k day }
{}

/// The text of a day is the one that jiff writes for its date.
pub fn texts_are_jiffs()
    ensures { (a : Date) (day : ℤ) → epoch_day a ≡ day → IsDay day → jiff_text.date_text a ≡ date_text day }
{}

/// The text of a day from 1970-01-01 to 5199-12-31 reads as that day.
pub fn date_text_reads_back()
    ensures { (day : ℤ) → IsBetween (pos 0) (pos 1_179_732) day → read_date (date_text day) ≡ Some day }
{}

/// A list of bytes that reads as a day is the text of that day, which is one from 1970-01-01 to 5199-12-31:
/// reading takes the texts of these days and no others.
pub fn read_date_is_exact()
    ensures text { (text : List ℕ) (day : ℤ) → read_date text ≡ Some day → text ≡ date_text day }
    ensures bounds { (text : List ℕ) (day : ℤ) → read_date text ≡ Some day → IsBetween (pos 0) (pos 1_179_732) day }
{}

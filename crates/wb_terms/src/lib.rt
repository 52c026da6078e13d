//! The terms of a report: days and their texts, when an acknowledgement, feedback and expiry are due, and the
//! index of the terms of all reports.
#![tactic(auto)]

mod date_texts;
mod days;
mod laws;
mod term_index;
mod terms;

pub use date_texts::{date_text, read_date};
pub use days::day_of;
pub use laws::{
    date_text_reads_back, dates_are_jiffs, months_are_jiffs, read_date_is_exact, texts_are_jiffs,
};
pub use term_index::{Term, TermIndex};
pub use terms::{ack_due, expiry, feedback_due, roll};
pub use wb_base::{Calendar, Kind};

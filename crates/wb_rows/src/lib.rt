//! Kept rows as a set: the tables that are kept of all tenants, their rows written and read, and what changes make of rows.
#![tactic(auto)]

mod cases;
mod days;
mod done;
mod faults;
mod items;
mod keys;
mod laws;
mod legal;
mod list_rules;
mod named;
mod numbers;
mod open;
mod reading;
mod repeated;
mod report_rules;
mod seals;
mod tables;
mod trails;
mod writing;

pub use cases::CaseItem;
pub use faults::RowFault;
pub use keys::{entry_key, numbering_key, sealed_key};
pub use laws::{
    a_setting_puts_its_row, an_entry_puts_its_rows, new_tenants_put_their_rows,
    openings_are_read_back, what_hosts_leave_is_read, what_is_written_is_read,
    what_was_written_in_format_1_is_read,
};
pub use named::is_right_entry;
pub use numbers::{is_drawn, is_right_numbering};
pub use reading::{format_of, read};
pub use seals::{has_its_seal, is_right_seal};
pub use tables::Tables;
pub use trails::reports;
pub use wb_row_codec::{NumberingItem, entry_row, format_row, numbering_row, sealed_row};
pub use writing::{convert, write, write_own};

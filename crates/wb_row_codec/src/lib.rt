//! Kept rows, one at a time: what a row of each kind stands for, and its compact JSON text (RFC 8259), written and read.
#![tactic(auto)]

mod contexts;
mod entries;
mod item;
mod laws;
mod members;
mod numberings;
mod read_deed;
mod read_moves;
mod reading;
mod rows;
mod settings;
mod tenant_rows;
mod users;
mod write_deed;

pub use item::{EntryItem, Item, NumberingItem};
pub use laws::good_rows_are_read_as_their_items;
pub use reading::{item_row, read_item};
pub use rows::{entry_row, format_row, numbering_row, sealed_row};
pub use tenant_rows::{context_row, form_row, settings_row, user_row};

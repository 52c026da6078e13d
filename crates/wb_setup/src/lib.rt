//! The setup of a host: its bytes read and judged by its rules, and the lists that it gives, each in the order of its keys.
#![tactic(auto)]

mod given;
mod laws;
mod ordered;
mod parts;
mod put;
mod reading;
mod rules;
mod setup;
mod toml_values;

pub use laws::{
    a_setup_gives_an_opening, kept_rows_and_a_setup_make_an_opening, what_a_setup_gives_can_be_kept,
};
pub use ordered::{Placed, add, find_in, form_place, insert_at, place, place_of, replace_at};
pub use setup::{Setup, SetupFault};

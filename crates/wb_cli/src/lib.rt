//! The command line: what the words after the program's name ask, the tables that a call reads, and how a call ends.
#![tactic(auto)]

mod apps;
mod command_line;
mod loading;
mod places;
mod plans;
mod status;
mod store_word;
mod values;

pub use command_line::plan;
pub use loading::load_tables;
pub use places::Place;
pub use plans::{Lock, Plan, PlanFault};
pub use status::{Status, exit_line};
pub use store_word::StoreWord;

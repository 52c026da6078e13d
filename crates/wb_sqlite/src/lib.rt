//! Keepers of rows over SQLite: one over a connection, and one over the file at a path.
#![tactic(auto)]

mod database;
mod one_byte;
mod opening;
mod path_file;
mod path_keeper;
mod refusal;
mod sql_keeper;
mod statements;
mod stored;
mod table;

pub use path_keeper::PathKeeper;
pub use sql_keeper::SqlKeeper;

//! Rows in memory: a table in chunks, and a keeper of rows over it.
#![tactic(auto)]

mod chunk;
mod chunked;
mod keeper;

pub use chunked::Chunked;
pub use keeper::RowsInMemory;

//! A host that serves links at its stations: the setup and the kept rows that open it, a worker in a thread of its own for each station,
//! and how it ends.
#![tactic(auto)]

mod attending;
mod opening;
mod placing;
mod serving;
mod starting;
mod stations;
mod worker;

pub use opening::open_by;
pub use serving::{Served, serve};
pub use stations::{ServeEnd, serve_by};

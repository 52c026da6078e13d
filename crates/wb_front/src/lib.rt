//! Connections: requests are taken from a link as they come, each is a turn of the host behind a gate, and its reply is sent.
#![tactic(auto)]

mod answers;
mod connection;
mod inbox;
mod worker;

pub use answers::{Replied, reply_to, send};
pub use connection::{Ended, serve_connection};
pub use inbox::{Arrived, Inbox};
pub use worker::{Station, Worked, work};

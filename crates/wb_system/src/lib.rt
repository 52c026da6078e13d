//! The outside of a host over real things: links over TCP, what brings them, what connects to others, and the system's time and random bytes.
#![tactic(auto)]

mod calls;
mod clock;
mod dialing;
mod link;
mod listening;
mod stages;
#[cfg(test)]
mod tests;
mod timed;
mod transfer;

pub use calls::{CALL_SECONDS, TcpCall};
pub use clock::RealTicker;
pub use dialing::{CONNECT_SECONDS, TcpDial};
pub use link::{StreamLink, TcpLink};
pub use listening::TcpLinks;
pub use stages::{IDLE_SECONDS, REPLY_SECONDS, REQUEST_SECONDS};

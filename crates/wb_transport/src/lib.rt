//! The outside of a host: links, what brings them, what connects to others, and what tells the time, with their objects in memory.
#![tactic(auto)]

mod dialing;
mod links;
mod memory_dial;
mod memory_link;
mod memory_listener;
mod memory_ticker;

pub use dialing::Dial;
pub use links::{Link, Listener, Ticker};
pub use memory_dial::MemDial;
pub use memory_link::MemLink;
pub use memory_listener::MemListener;
pub use memory_ticker::MemTicker;

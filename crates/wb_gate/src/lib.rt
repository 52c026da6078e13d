//! A gate that is a lock, and its end.
#![tactic(auto)]

mod lock;

pub use lock::{LockGate, NotAll, close};

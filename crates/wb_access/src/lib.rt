//! Receipts, session secrets and digests, and the tables of receipts and sessions.
#![tactic(auto)]

mod digests;
mod faults;
mod receipts;
mod secrets;
mod session_counts;
mod sessions;

pub use digests::{check_secret, digest};
pub use faults::AccessFault;
pub use receipts::ReceiptBox;
pub use secrets::{draw, secret};
pub use sessions::{Session, SessionTable};

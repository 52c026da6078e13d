//! Identities, apart from everything else: the sealed table, and the requests of readers for them.
#![tactic(auto)]

mod desk;
mod laws;
mod plan;
mod requests;
mod rules;
mod sealed;

pub use desk::AccessDesk;
pub use laws::what_legal_trails_say_of_requests;
pub use sealed::{SealedItem, SealedTable};

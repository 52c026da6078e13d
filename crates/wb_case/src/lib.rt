//! One report's trail, what it says so far, the acts on it and its terms.
#![tactic(auto)]

mod case;
mod deeds;
mod laws;
mod plan;
mod readers;
mod rules;
mod summary;
mod terms;

pub use case::Case;
pub use laws::{a_legal_entry_names_few_readers, a_legal_trail_has_early_days};
pub use readers::Readers;
pub use summary::Summary;
pub use terms::Terms;

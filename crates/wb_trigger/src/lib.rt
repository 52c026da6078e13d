//! Which fields of a form are shown, and what is wrong with answers.
#![tactic(auto)]

mod checks;
mod fields;
mod judge;
mod kinds;
mod laws;
mod split;
mod visible;

pub use checks::{check, check_identity};
pub use laws::{alike_answers, public_answers_stand_by_themselves};
pub use split::Split;
pub use visible::shown;

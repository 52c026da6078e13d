//! Reading a questionnaire from JSON, and writing it.
#![tactic(auto)]

mod faults;
mod fields;
mod form_text;
mod index;
mod laws;
mod limits;
mod look;
mod rules;
mod shape;
mod shaped;
mod show;

pub use fields::has_score;
pub use form_text::FormText;
pub use laws::{good_forms_are_those_that_are_read, reading_back};
pub use look::{flag_at, has_only, size};

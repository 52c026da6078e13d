//! What a host begins with, made of what is kept and of a setup; and the rows of what it holds.
#![tactic(auto)]

mod moments;
mod opening;
mod reports;
mod rows;

pub use moments::{later, latest_kept};
pub use opening::{Opened, begin};
pub use rows::{Kind, held_rows};

//! What a request is shown that changes nothing.
#![tactic(auto)]

mod health;
mod lists;
mod reading;

pub use health::{healthy, without_tenant};
pub use lists::{look, look_as};
pub use reading::{read, read_identity, read_own};

//! What is told of kept reports as CSV (RFC 4180): a user's register, and what expires by a day. Neither ever has an identity answer.
#![tactic(auto)]

mod exports;
mod forecasts;
mod laws;
mod lines;
mod registers;

pub use exports::{export_forecast, export_register};
pub use forecasts::{Expiring, forecast};
pub use laws::{a_forecast_is_what_goes, exports_tell_no_identity_answer};
pub use registers::register;

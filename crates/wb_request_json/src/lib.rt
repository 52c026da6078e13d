//! The bodies of requests: the command that each route's body asks, in JSON (RFC 8259).
#![tactic(auto)]

mod members;
mod sets;
mod shapes;

pub use sets::{context_set, new_form, settings_set, user_set};
pub use shapes::{
    ask, comment, decide, extend, feedback, identity, label, login, new_status, own_comment, share,
    submission, transfer,
};

//! The JSON bodies of replies, each of one definition, the rows that lists show, and how a request is refused.
#![tactic(auto)]

mod admin;
mod asked;
mod lists;
mod parts;
mod recipient;
mod refusals;
mod refused;
mod remarks;
mod reporter;
mod rows;
mod short;
mod submission;
mod submitted;
mod tenant;

pub use admin::admin_view;
pub use asked::push_custodied;
pub use lists::{custody_view, due_view, list_view};
pub use recipient::recipient_view;
pub use refused::{Refusal, not_found, refuse, refuse_answers, refuse_form};
pub use reporter::{identity_view, reporter_view};
pub use rows::{listed, push_dues, sort_dues};
pub use short::{done_view, request_view, session_view, version_view};
pub use submission::submission_view;
pub use submitted::{form, version};
pub use tenant::{context_view, public_view};

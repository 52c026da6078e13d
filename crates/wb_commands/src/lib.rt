//! What a request is planned to answer and to change, over the tables as they stand, one file a family of requests; and what a change takes,
//! keeps and makes, one file a family of changes.
#![tactic(auto)]

mod acts;
mod configuring;
mod custody;
mod deletion;
mod doings;
mod draft;
mod identity;
mod login;
mod mutation;
mod noted;
mod opening;
mod parts;
mod plan;
mod sessions;
mod settings;
mod submission;

pub use acts::{acting, commenting};
pub use configuring::Configuring;
pub use custody::{asking, deciding};
pub use doings::{erasing, write_down};
pub use draft::{Asks, Doing, Draft, Judged, Setting, Writing, refusing, telling};
pub use identity::give_identity;
pub use mutation::Mutation;
pub use noted::Noted;
pub use opening::Opening;
pub use plan::{TurnPlan, refused};
pub use sessions::{enter, leave};
pub use settings::{set_context, set_form, set_settings, set_user};
pub use submission::submit;

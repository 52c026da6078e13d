//! The registry of a host's tenants, with their users, forms and contexts.
#![tactic(auto)]

mod contexts;
mod copies;
mod form_copies;
mod forms;
mod joined;
mod laws;
mod owned;
mod registry;
mod settings;
mod spare;
mod tenant_part;
mod users;

pub use copies::{copy_context, copy_settings, copy_user};
pub use form_copies::copy_form;
pub use laws::{
    a_context_is_set_in_its_tenant_alone, a_form_is_set_in_its_tenant_alone,
    a_kept_tenant_stays_whole, a_user_is_set_in_its_tenant_alone,
    settings_are_set_in_their_tenant_alone,
};
pub use registry::Registry;
pub use wb_setup::{Setup, SetupFault};

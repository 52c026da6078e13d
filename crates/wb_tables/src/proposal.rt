//! What an administrator asks to set of a tenant.

use wb_base::{Form, UserId};
use wb_model::{ContextSet, SettingsSet, UserSet};

/// What is asked to be set: the tenant's settings, a user, a context, or one more version of a form. The numbers of a context
/// and of a form are as the request has them.
#[derive(Drop)]
pub enum Proposal {
    ToTenant(SettingsSet),
    ToUser(UserId, UserSet),
    ToContext(u32, ContextSet),
    ToForm(u32, Form),
}

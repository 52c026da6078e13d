//! Why what an admin sets is refused.

use wb_base::{Role, UserId};

/// Why a setting is refused. After each of them the tenant is set up as it was before.
#[derive(Clone, Copy, Debug, PartialEq, Eq)]
pub enum AdminFault {
    /// The number is out of range, or a named form or recipient is not there.
    NotFound,
    /// A new user has no password.
    NoPassword,
    /// This user has the name.
    NameTaken(UserId),
    /// The user has this role and keeps it.
    RoleFixed(Role),
    /// The form has 99 versions, or the user was disabled 10,000 times.
    Full,
    /// Memory was wanted.
    Memory,
}

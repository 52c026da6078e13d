//! Who calls, and what they show for it.

use crate::{Number, Tenant, UserId};

/// The session that a request presents.
#[derive(Clone, Copy, Debug, PartialEq, Eq)]
pub enum Presented {
    /// None.
    None,
    /// Something that no session has.
    Bad,
    /// The turn that made the session, and the 32 lower-case hexadecimal digits of its secret.
    Token { turn: u64, secret: [u8; 32] },
}

/// What a caller may be.
#[derive(Clone, Copy, Debug, PartialEq, Eq, PartialOrd, Ord)]
pub enum Role {
    /// Who made a report.
    Reporter,
    /// Who reads and follows up reports.
    Recipient,
    /// Who opens identities.
    Custodian,
    /// Who sets up the tenant.
    Admin,
}

/// Who a session belongs to.
#[derive(Clone, Copy, Debug, PartialEq, Eq, PartialOrd, Ord)]
pub enum Principal {
    /// A user of a tenant.
    User(Tenant, UserId),
    /// The reporter of a report of a tenant.
    Report(Tenant, Number),
}

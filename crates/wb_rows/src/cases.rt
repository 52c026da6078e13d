//! A report as it is kept of a tenant.

use std::cmp::Ordering;
use wb_base::{Number, Tenant};
use wb_case::Case;
use wb_list::Keyed;

/// A report of a tenant.
#[derive(Drop)]
pub struct CaseItem {
    pub tenant: Tenant,
    pub number: Number,
    pub case: Case,
}

impl Keyed for CaseItem {
    type Key = (Tenant, Number);

    ghost key_of = { λ item. (item.tenant, item.number) };

    fn compare(&self, key: &(Tenant, Number)) -> Ordering {
        self.tenant.cmp(&key.0).then(self.number.cmp(&key.1))
    }

    fn compare_to(&self, other: &CaseItem) -> Ordering {
        self.tenant
            .cmp(&other.tenant)
            .then(self.number.cmp(&other.number))
    }
}

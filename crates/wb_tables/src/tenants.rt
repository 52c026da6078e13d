//! Where a tenant is among those that are kept.
ghost use Rattle.std.specs.Prelude.{◌≡◌, None, find, map, MatchOption};
ghost use Rattle.wb_tables.specs.Kept.{place_of};
ghost use Rattle.wb_tables.specs.Places.{is_tenant, IsAt};

use crate::tenancy::Tenancy;

/// Where the tenant of a number is.
pub fn place_at(tenancies: &[Tenancy], t: u32) -> Option<usize>
    ensures { MatchOption result (find (is_tenant t) (map place_of tenancies.now) ≡ None) (λ i. IsAt t tenancies.now i) }
{
    for (at, tenancy) in tenancies.iter().enumerate() {
        if tenancy.configuration.tenant().id() == t {
            return Some(at);
        }
    }
    None
}

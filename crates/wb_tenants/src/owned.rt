//! A tenant's part of a list of all tenants, found by binary search.
ghost use Rattle.std.specs.Prelude.{◌≡◌, ◌==◌, ◌-◌, ◌≤◌, ℕ, filter, take, drop, length, true, false};
ghost use Rattle.std.specs.List.Sorted.{IsPartitionPoint};
ghost use Rattle.std.specs.Ordering.{nat_cmp, is_lt, is_le};
ghost use Rattle.wb_list.specs.Keyed.{IsAscending};
ghost use Rattle.wb_setup.specs.Keys.{key_cmp};

use wb_base::Tenant;
use wb_model::{FormItem, UserItem};

/// What is of a tenant, in the order of tenants and then of a number.
pub trait Owned {
    /// Its tenant, and its place in the tenant.
    ghost tenant_of: { Self → ℕ };

    ghost place_of: { Self → ℕ };

    /// Its tenant.
    fn tenant(&self) -> Tenant
        ensures { result ≡ tenant_of self.now };
}

impl Owned for UserItem {
    ghost tenant_of = { λ x. x.tenant };

    ghost place_of = { λ x. x.id };

    fn tenant(&self) -> Tenant {
        self.tenant
    }
}

impl Owned for FormItem {
    ghost use Rattle.wb_model.specs.Settings.{form_key};

    ghost tenant_of = { λ x. x.tenant };

    ghost place_of = { form_key };

    fn tenant(&self) -> Tenant {
        self.tenant
    }
}

// How many items are of tenants below this one.
fn start_of<T: Owned>(items: &[T], tenant: Tenant) -> usize
    requires { IsAscending key_cmp (λ x. (T.tenant_of x, T.place_of x)) items.now }
    ensures start { IsPartitionPoint (λ x. is_lt (nat_cmp (T.tenant_of x) tenant) ≡ true) (λ x. is_lt (nat_cmp (T.tenant_of x) tenant) ≡ false) items.now result }
    ensures bound { result ≤ length items.now }
{
    items.partition_point(|item| item.tenant().cmp(&tenant).is_lt())
}

// How many items are of this tenant or of one below it.
fn end_of<T: Owned>(items: &[T], tenant: Tenant) -> usize
    requires { IsAscending key_cmp (λ x. (T.tenant_of x, T.place_of x)) items.now }
    ensures end { IsPartitionPoint (λ x. is_le (nat_cmp (T.tenant_of x) tenant) ≡ true) (λ x. is_le (nat_cmp (T.tenant_of x) tenant) ≡ false) items.now result }
    ensures bound { result ≤ length items.now }
{
    items.partition_point(|item| item.tenant().cmp(&tenant).is_le())
}

// Where a tenant's part starts, and where it ends.
fn bounds<T: Owned>(items: &[T], tenant: Tenant) -> (usize, usize)
    requires { IsAscending key_cmp (λ x. (T.tenant_of x, T.place_of x)) items.now }
    ensures part { take (result.1 - result.0) (drop result.0 items.now) ≡ filter (λ x. T.tenant_of x == tenant) items.now }
    ensures start { result.0 ≤ result.1 }
    ensures end { result.1 ≤ length items.now }
{
    (start_of(items, tenant), end_of(items, tenant))
}

/// The items of a tenant, whose two ends are found by binary search.
pub fn part<T: Owned>(items: &[T], tenant: Tenant) -> &[T]
    requires { IsAscending key_cmp (λ x. (T.tenant_of x, T.place_of x)) items.now }
    ensures { result.now ≡ filter (λ x. T.tenant_of x == tenant) items.now }
{
    let (start, end) = bounds(items, tenant);
    &items[start..end]
}

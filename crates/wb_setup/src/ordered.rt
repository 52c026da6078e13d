//! Lists in the order of a key, which are searched by halves.
ghost use Rattle.std.specs.Prelude.{◌≡◌, ◌<◌, ◌+◌, ◌*◌, [], find, IfOk, IfErr, OnOk};
ghost use Rattle.std.specs.Option.{option_copied};
ghost use Rattle.std.specs.Vec.{vec_len, vec_capacity};
ghost use Rattle.wb_list.specs.Keyed.{IsAscending, has_key, insert_item, IsPlace, IsGap};
ghost use Rattle.wb_setup.specs.Keys.{tenant_key, user_key, version_key, context_key};

use std::alloc::Global;
use wb_base::{Memory, Tenant, UserId};
use wb_model::{ContextItem, FormItem, TenantItem, UserItem};

/// What stands in a list in the order of its key.
pub trait Placed: Drop {
    type Key: Ord + Drop;

    /// Its key.
    ghost key_of: { Self → Self.Key };

    /// Its key.
    fn key(&self) -> Self::Key
        ensures { result ≡ key_of self.now };
}

impl Placed for TenantItem {
    type Key = Tenant;

    ghost key_of = { tenant_key };

    fn key(&self) -> Tenant {
        self.tenant
    }
}

impl Placed for UserItem {
    type Key = (Tenant, UserId);

    ghost key_of = { user_key };

    fn key(&self) -> (Tenant, UserId) {
        (self.tenant, self.id)
    }
}

impl Placed for FormItem {
    type Key = (Tenant, u64);

    ghost key_of = { version_key };

    fn key(&self) -> (Tenant, u64) {
        (self.tenant, form_place(self.id, self.version))
    }
}

impl Placed for ContextItem {
    type Key = (Tenant, u32);

    ghost key_of = { context_key };

    fn key(&self) -> (Tenant, u32) {
        (self.tenant, self.id)
    }
}

impl Placed for UserId {
    type Key = UserId;

    ghost key_of = { λ id. id };

    fn key(&self) -> UserId {
        *self
    }
}

/// The place of a form's version among those of its tenant: versions of one form follow each other.
pub fn form_place(id: u32, version: u32) -> u64
    ensures { result ≡ id * 100 + version }
{
    id as u64 * 100 + version as u64
}

/// Where the key is, or where it would go.
pub fn place<T: Placed>(items: &[T], key: &T::Key) -> Result<usize, usize>
    requires { IsAscending T.Key.cmp T.key_of items.now }
    ensures found { IfOk result (IsPlace T.Key.cmp T.key_of items.now key.now) }
    ensures absent { IfErr result (IsGap T.Key.cmp T.key_of items.now key.now) }
{
    items.binary_search_by(|item| item.key().cmp(key))
}

/// Where an item with this one's key is, or where it would go.
pub fn place_of<T: Placed>(items: &[T], item: &T) -> Result<usize, usize>
    requires { IsAscending T.Key.cmp T.key_of items.now }
    ensures found { IfOk result (IsPlace T.Key.cmp T.key_of items.now (T.key_of item.now)) }
    ensures absent { IfErr result (IsGap T.Key.cmp T.key_of items.now (T.key_of item.now)) }
{
    let key = item.key();
    place(items, &key)
}

/// The item of a key.
pub fn find_in<'a, T: Placed>(items: &'a [T], key: &T::Key) -> Option<&'a T>
    requires { IsAscending T.Key.cmp T.key_of items.now }
    ensures { option_copied result ≡ find (has_key T.Key.cmp T.key_of key.now) items.now }
{
    match place(items, key) {
        Ok(at) => Some(&items[at]),
        Err(_) => None,
    }
}

/// No item, with the memory that adding wants still to come.
pub fn nothing<T: Placed>(alloc: Global) -> Vec<T>
    ensures items { result.items ≡ [] }
    ensures order { IsAscending T.Key.cmp T.key_of result.items }
{
    Vec::new(alloc)
}

/// Puts an item in the place of the one with its key.
pub fn replace_at<T: Placed>(items: &mut Vec<T>, at: usize, item: T)
    requires order { IsAscending T.Key.cmp T.key_of items.old.items }
    requires place { IsPlace T.Key.cmp T.key_of items.old.items (T.key_of item) at }
    ensures { items.new.items ≡ insert_item T.Key.cmp T.key_of items.old.items item }
{
    items[at] = item;
}

/// Puts an item where its key goes. It takes no memory.
pub fn insert_at<T: Placed>(items: &mut Vec<T>, at: usize, item: T)
    requires gap { IsGap T.Key.cmp T.key_of items.old.items (T.key_of item) at }
    requires room { vec_len items.old < vec_capacity items.old }
    ensures { items.new.items ≡ insert_item T.Key.cmp T.key_of items.old.items item }
{
    let inserted = items.insert(at, item);
    inserted.unwrap()
}

// Puts an item at its place, instead of one with its key if there is one. It takes no memory.
fn put<T: Placed>(items: &mut Vec<T>, item: T)
    requires order { IsAscending T.Key.cmp T.key_of items.old.items }
    requires room { vec_len items.old < vec_capacity items.old }
    ensures { items.new.items ≡ insert_item T.Key.cmp T.key_of items.old.items item }
{
    match place_of(items.as_slice(), &item) {
        Ok(at) => replace_at(items, at, item),
        Err(at) => insert_at(items, at, item),
    }
}

/// Puts an item at its place, with the memory that this wants.
pub fn add<T: Placed>(items: &mut Vec<T>, item: T) -> Result<(), Memory>
    requires { IsAscending T.Key.cmp T.key_of items.old.items }
    ensures ok { OnOk result (items.new.items ≡ insert_item T.Key.cmp T.key_of items.old.items item) }
    ensures order { OnOk result (IsAscending T.Key.cmp T.key_of items.new.items) }
{
    items.reserve(1)?;
    put(items, item);
    Ok(())
}

//! How many sessions each principal has.
ghost use Rattle.std.specs.Prelude.{◌≡◌, ◌+◌, ◌<◌, ◌≤◌, [], IsOk, OnOk, IfErr, cond};
ghost use Rattle.wb_base.specs.declared.callers.Principal.{Principal as Caller};
ghost use Rattle.wb_access.specs.SessionCounts.{key_of, count_in};
ghost use Rattle.wb_access.specs.Sessions.{same_principal};

use crate::AccessFault;
use std::alloc::Global;
use std::collections::HashMap;
use std::marker::Model;
use wb_base::Principal;

// What a principal's count is found by: whether it is a user's or a reporter's, the tenant, and the user's id or the report's number.
fn key(principal: &Principal) -> (u32, u32, u32)
    ensures { result ≡ key_of principal.now }
{
    match principal {
        Principal::User(tenant, user) => (0, tenant.id(), u32::from(user.id())),
        Principal::Report(tenant, number) => (1, tenant.id(), number.get()),
    }
}

/// How many sessions each principal has, found by hash, so that one login looks at no other principal's. Seen as its entries, in no
/// order that is told, and its spare room.
#[derive(Drop)]
pub struct SessionCounts {
    counts: HashMap<(u32, u32, u32), usize>,
}

impl Model for SessionCounts {
    ghost use Rattle.std.specs.HashMap.{spare};
    ghost use Rattle.wb_list.specs.Room.{Room};
    ghost use Rattle.wb_access.specs.SessionCounts.{Counted};

    ghost Value = { Room Counted };

    ghost view = { λ c. record { items = c.counts.entries; spare = spare c.counts } };
}

impl SessionCounts {
    /// No session. It takes no memory.
    pub fn new(alloc: Global) -> SessionCounts
        ensures { result.items ≡ [] }
    {
        SessionCounts {
            counts: HashMap::new(alloc),
        }
    }

    /// Makes room for one more principal.
    pub fn reserve(&mut self) -> Result<(), AccessFault>
        ensures counts { (q : Caller) → count_in q self.new.items ≡ count_in q self.old.items }
        ensures room { OnOk result (1 ≤ self.new.spare) }
        ensures enough { 1 ≤ self.old.spare → IsOk result }
        ensures kept { self.old.spare ≤ self.new.spare }
        ensures memory { IfErr result (λ fault. fault ≡ AccessFault.Memory) }
    {
        match self.counts.reserve(1) {
            Ok(()) => Ok(()),
            Err(_) => Err(AccessFault::Memory),
        }
    }

    /// How many sessions a principal has.
    pub fn of(&self, principal: &Principal) -> usize
        ensures { result ≡ count_in principal.now self.now.items }
    {
        self.counts.get(&key(principal)).copied().unwrap_or(0)
    }

    // Sets how many sessions a principal has.
    fn set(&mut self, principal: &Principal, count: usize)
        requires room { 0 < self.old.spare }
        ensures counts { (q : Caller) → count_in q self.new.items ≡ cond (same_principal principal.now q) count (count_in q self.old.items) }
        ensures room { self.old.spare ≤ self.new.spare + 1 }
    {
        let set: Result<_, _> = self.counts.insert(key(principal), count);
        set.unwrap();
    }

    /// One more session of a principal, into room that was made. It takes no memory.
    pub fn add(&mut self, principal: &Principal)
        requires room { 0 < self.old.spare }
        requires few { count_in principal.now self.old.items < 18_446_744_073_709_551_615 }
        ensures counts { (q : Caller) → count_in q self.new.items ≡ cond (same_principal principal.now q) 1 0 + count_in q self.old.items }
        ensures room { self.old.spare ≤ self.new.spare + 1 }
    {
        let count = self.of(principal);
        self.set(principal, count + 1);
    }

    /// One session less of a principal that has one.
    pub fn take(&mut self, principal: &Principal)
        requires has { 0 < count_in principal.now self.old.items }
        ensures counts { (q : Caller) → cond (same_principal principal.now q) 1 0 + count_in q self.new.items ≡ count_in q self.old.items }
        ensures kept { self.old.spare ≤ self.new.spare }
    {
        if self.of(principal) == 1 {
            self.counts.remove(&key(principal));
        } else if let Some(count) = self.counts.get_mut(&key(principal)) {
            *count -= 1;
        }
    }
}

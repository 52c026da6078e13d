//! The receipts of live reports.
ghost use Rattle.std.specs.Prelude.{◌≡◌, ◌+◌, ◌<◌, ◌≤◌, ◌==◌, ◌&&◌, ◌↔◌, ℕ, [], None, Some, IsOk, OnOk, IfErr, if◌then◌else◌};
ghost use Rattle.wb_base.specs.declared.words.Digest.{Digest as Code};
ghost use Rattle.wb_base.specs.Secrets.{same_digest};
ghost use Rattle.wb_access.specs.Receipts.{number_of, entry_key};

use crate::AccessFault;
use std::alloc::Global;
use std::collections::HashMap;
use std::marker::Model;
use wb_base::{Digest, Number, Tenant};

// What a receipt is found by.
fn key(tenant: Tenant, digest: &Digest) -> (u32, [u8; 32])
    ensures { result ≡ entry_key tenant digest.now }
{
    let bytes = digest.0;
    (tenant.id(), bytes)
}

/// The receipts of reports, each tenant and digest once, seen as their list, in no order that is told, and its spare room.
/// Nothing moves as one is put in, so its cost does not grow with the others.
#[derive(Drop)]
pub struct ReceiptBox {
    numbers: HashMap<(u32, [u8; 32]), Number>,
}

impl Model for ReceiptBox {
    ghost use Rattle.std.specs.Prelude.{map};
    ghost use Rattle.std.specs.HashMap.{spare};
    ghost use Rattle.wb_list.specs.Room.{Room};
    ghost use Rattle.wb_access.specs.Receipts.{Receipt, receipt_at};

    ghost Value = { Room Receipt };

    ghost view = { λ box. record { items = map receipt_at box.numbers.entries; spare = spare box.numbers } };
}

impl ReceiptBox {
    /// No receipt. It takes no memory.
    pub fn new(alloc: Global) -> ReceiptBox
        ensures { result.items ≡ [] }
    {
        ReceiptBox {
            numbers: HashMap::new(alloc),
        }
    }

    /// Makes room for one more.
    pub fn reserve(&mut self) -> Result<(), AccessFault>
        ensures found { (t : ℕ) (d : Code) → number_of t d self.new.items ≡ number_of t d self.old.items }
        ensures room { OnOk result (1 ≤ self.new.spare) }
        ensures enough { 1 ≤ self.old.spare → IsOk result }
        ensures kept { self.old.spare ≤ self.new.spare }
        ensures memory { IfErr result (λ fault. fault ≡ AccessFault.Memory) }
    {
        match self.numbers.reserve(1) {
            Ok(()) => Ok(()),
            Err(_) => Err(AccessFault::Memory),
        }
    }

    /// Whether a receipt may still be given to a report of a tenant.
    pub fn free(&self, tenant: Tenant, digest: &Digest) -> Result<(), AccessFault>
        ensures free { IsOk result ↔ (number_of tenant digest.now self.now.items ≡ None) }
        ensures taken { IfErr result (λ fault. fault ≡ AccessFault.ReceiptTaken) }
    {
        match self.find(tenant, digest) {
            None => Ok(()),
            Some(_) => Err(AccessFault::ReceiptTaken),
        }
    }

    /// Adds a receipt that is free, into room that was made. It takes no memory.
    pub fn add(&mut self, tenant: Tenant, digest: Digest, number: Number)
        requires room { 0 < self.old.spare }
        requires free { number_of tenant digest self.old.items ≡ None }
        ensures found { (t : ℕ) (d : Code) → number_of t d self.new.items ≡ (if (tenant == t) && same_digest digest d then Some number else number_of t d self.old.items) }
        ensures room { self.old.spare ≤ self.new.spare + 1 }
    {
        let added: Result<_, _> = self.numbers.insert(key(tenant, &digest), number);
        added.unwrap();
    }

    /// The number of the report with a receipt.
    pub fn find(&self, tenant: Tenant, digest: &Digest) -> Option<Number>
        ensures { result ≡ number_of tenant digest.now self.now.items }
    {
        self.numbers.get(&key(tenant, digest)).copied()
    }

    /// Drops a receipt of a tenant, as its report is purged. It looks at no other.
    pub fn remove(&mut self, tenant: Tenant, digest: &Digest)
        ensures found { (t : ℕ) (d : Code) → number_of t d self.new.items ≡ (if (tenant == t) && same_digest digest.now d then None else number_of t d self.old.items) }
        ensures kept { self.old.spare ≤ self.new.spare }
    {
        self.numbers.remove(&key(tenant, digest));
    }
}

//! Identity answers by the tenant and number of their report.
ghost use Rattle.std.specs.Prelude.{◌≡◌, ◌≢◌, ◌⊎◌, ◌<◌, ◌≤◌, ◌+◌, [], ℕ, Some, None, OnOk};
ghost use Rattle.std.specs.Option.{option_copied};
ghost use Rattle.wb_custody.specs.SealedAnswers.{answers_of};

use std::alloc::Global;
use std::cmp::Ordering;
use std::collections::HashMap;
use std::marker::Model;
use wb_base::{Answers, Memory, Number, Tenant};
use wb_list::Keyed;

/// The identity answers of a report.
#[derive(Drop)]
pub struct SealedItem {
    pub tenant: Tenant,
    pub number: Number,
    pub answers: Answers,
}

impl Keyed for SealedItem {
    type Key = (Tenant, Number);

    ghost key_of = { λ item. (item.tenant, item.number) };

    fn compare(&self, key: &(Tenant, Number)) -> Ordering {
        self.tenant.cmp(&key.0).then(self.number.cmp(&key.1))
    }

    fn compare_to(&self, other: &SealedItem) -> Ordering {
        self.tenant
            .cmp(&other.tenant)
            .then(self.number.cmp(&other.number))
    }
}

// What the answers of a report are found by in the table.
fn key(tenant: Tenant, number: Number) -> (u32, u32)
    ensures { result ≡ (tenant, number) }
{
    (tenant.id(), number.get())
}

/// The identity answers of all reports, seen as their list in the order of tenant and number, and the room for more. They are
/// found by hash: putting some in or taking some out moves no others.
#[derive(Drop)]
pub struct SealedTable {
    answers: HashMap<(u32, u32), Answers>,
}

impl Model for SealedTable {
    ghost use Rattle.std.specs.HashMap.{spare};
    ghost use Rattle.wb_list.specs.Room.{Room};
    ghost use Rattle.wb_custody.specs.SealedAnswers.{in_order};
    ghost use Rattle.wb_custody.specs.declared.sealed.SealedItem.{SealedItem as Item};

    ghost Value = { Room Item };

    ghost view = { λ table. record { items = in_order table.answers.entries; spare = spare table.answers } };
}

impl SealedTable {
    /// No identity answers. It takes no memory.
    pub fn new(alloc: Global) -> SealedTable
        ensures { result.items ≡ [] }
    {
        SealedTable {
            answers: HashMap::new(alloc),
        }
    }

    /// Makes room for the answers of one more report.
    pub fn reserve(&mut self) -> Result<(), Memory>
        ensures items { self.new.items ≡ self.old.items }
        ensures room { OnOk result (0 < self.new.spare) }
        ensures kept { self.old.spare ≤ self.new.spare }
    {
        match self.answers.reserve(1) {
            Ok(()) => Ok(()),
            Err(_) => Err(Memory),
        }
    }

    /// Puts the identity answers of a report, in place of earlier ones, into room that was made. It takes no memory.
    pub fn put(&mut self, tenant: Tenant, number: Number, answers: Answers)
        requires { 0 < self.old.spare }
        ensures here { answers_of self.new.items tenant number ≡ Some answers }
        ensures others { (t n : ℕ) → (t ≢ tenant) ⊎ (n ≢ number) → answers_of self.new.items t n ≡ answers_of self.old.items t n }
        ensures room { self.old.spare ≤ self.new.spare + 1 }
    {
        let put: Result<_, _> = self.answers.insert(key(tenant, number), answers);
        put.unwrap();
    }

    /// The identity answers of a report.
    pub fn get(&self, tenant: Tenant, number: Number) -> Option<&Answers>
        ensures { option_copied result ≡ answers_of self.now.items tenant number }
    {
        self.answers.get(&key(tenant, number))
    }

    /// Drops the identity answers of a report. It takes no memory.
    pub fn remove(&mut self, tenant: Tenant, number: Number)
        ensures here { answers_of self.new.items tenant number ≡ None }
        ensures others { (t n : ℕ) → (t ≢ tenant) ⊎ (n ≢ number) → answers_of self.new.items t n ≡ answers_of self.old.items t n }
        ensures room { self.old.spare ≤ self.new.spare }
    {
        self.answers.remove(&key(tenant, number));
    }
}

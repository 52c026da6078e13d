//! What a kept row stands for.

use wb_base::{Number, Tenant};
use wb_custody::SealedItem;
use wb_model::{ContextItem, Entry, FormItem, Numbering, TenantItem, UserItem};

/// The numbering of a tenant.
#[derive(Drop)]
pub struct NumberingItem {
    pub tenant: Tenant,
    pub numbering: Numbering,
}

/// An entry of a report's trail.
#[derive(Drop)]
pub struct EntryItem {
    pub tenant: Tenant,
    pub number: Number,
    /// Its place in the trail, from 1.
    pub place: u32,
    pub entry: Entry,
}

/// What a kept row stands for, by its kind.
#[derive(Drop)]
pub enum Item {
    /// The settings of a tenant (kind 1).
    Settings(TenantItem),
    /// The numbers that a tenant has drawn (kind 2).
    Numbering(NumberingItem),
    /// A user of a tenant (kind 3).
    User(UserItem),
    /// A version of a form of a tenant (kind 4).
    Form(FormItem),
    /// A context of a tenant (kind 5).
    Context(ContextItem),
    /// An entry of a report's trail (kind 6).
    Entry(EntryItem),
    /// The identity answers of a report (kind 7).
    Sealed(SealedItem),
}

//! Kept rows and their changes.

use crate::{Number, Tenant, Text};
use std::cmp::Ordering;
use wb_list::{Keyed, Memory, TryClone};

/// The key of a kept row, ordered by its fields.
#[derive(Clone, Copy, Debug, PartialEq, Eq, PartialOrd, Ord)]
pub struct Key {
    /// What the row is about: one of the kinds of this type.
    pub kind: u8,
    pub tenant: u32,
    /// The id or number within the tenant.
    pub a: u32,
    /// The version of a form, or the place of a trail's entry from 1.
    pub b: u32,
}

impl Key {
    /// The format of the rows.
    pub const FORMAT: u8 = 0;
    /// What a tenant is set up with, but for the kinds that follow.
    pub const SETTINGS: u8 = 1;
    /// The last draw of a tenant's numbers.
    pub const NUMBERING: u8 = 2;
    /// A user.
    pub const USER: u8 = 3;
    /// A version of a form.
    pub const FORM: u8 = 4;
    /// A context.
    pub const CONTEXT: u8 = 5;
    /// An entry of a report's trail.
    pub const ENTRY: u8 = 6;
    /// A report's identity answers.
    pub const SEALED: u8 = 7;
}

/// A kept row.
#[derive(Drop, PartialEq, Eq)]
pub struct Row {
    pub key: Key,
    /// Its JSON.
    pub text: Text,
}

impl TryClone for Row {
    fn try_clone(&self) -> Result<Row, Memory> {
        Ok(Row {
            key: self.key,
            text: self.text.try_clone()?,
        })
    }
}

impl Keyed for Row {
    type Key = Key;

    ghost key_of = { λ row. row.key };

    fn compare(&self, key: &Key) -> Ordering {
        self.key.cmp(key)
    }

    fn compare_to(&self, other: &Row) -> Ordering {
        self.key.cmp(&other.key)
    }
}

/// A change of the kept rows.
#[derive(Drop, PartialEq, Eq)]
pub enum Change {
    /// Sets the text under the row's key.
    Put(Row),
    /// Removes the trail and the sealed answers of a report.
    DropReport(Tenant, Number),
}

impl TryClone for Change {
    fn try_clone(&self) -> Result<Change, Memory> {
        Ok(match self {
            Change::Put(row) => Change::Put(row.try_clone()?),
            Change::DropReport(tenant, number) => Change::DropReport(*tenant, *number),
        })
    }
}

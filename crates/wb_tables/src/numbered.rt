//! An index of some of a tenant's reports: their numbers, in order.
ghost use Rattle.std.specs.Prelude.{◌≡◌, ◌+◌, ◌<◌, ◌≤◌};
ghost use Rattle.wb_tables.specs.Indexed.{number_where};

use std::cmp::Ordering;
use wb_base::Number;
use wb_list::{Keyed, Sorted};

/// The number of a report.
#[derive(Drop)]
pub(crate) struct Numbered {
    pub(crate) number: Number,
}

impl Keyed for Numbered {
    type Key = u32;

    ghost key_of = { λ numbered. numbered.number };

    fn compare(&self, key: &u32) -> Ordering {
        self.number.get().cmp(key)
    }

    fn compare_to(&self, other: &Numbered) -> Ordering {
        self.number.cmp(&other.number)
    }
}

/// Puts the number of a report into an index that it belongs to, into room that was made, and takes it out of one that it
/// does not belong to. It takes no memory.
pub(crate) fn put_where(index: &mut Sorted<Numbered>, number: Number, belongs: bool)
    requires room { 0 < index.old.spare }
    ensures items { index.new.items ≡ number_where belongs number index.old.items }
    ensures room { index.old.spare ≤ index.new.spare + 1 }
{
    if belongs {
        index.set(Numbered { number });
    } else {
        index.take(&number.get());
    }
}

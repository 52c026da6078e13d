//! What a seat knows, and what the slot holds.
use std::collections::LinkedList;
use std::marker::Model;

/// One entry: its place, the value before it, what was done, and the value after it. No value of it is made.
pub struct Entry<T, D> {
    pub place: u64,
    pub before: T,
    pub deed: D,
    pub after: T,
}

/// What a seat knows: its parts of the right to close, its ticket, whether it has its turn and which value it took, and its entries.
/// No value of it is made.
pub struct View<T, D> {
    pub parts: u64,
    pub tickets: LinkedList<u64>,
    pub turn: bool,
    pub took: Option<T>,
    pub mine: LinkedList<Entry<T, D>>,
}

/// The value with the count of entries beside it, and what was done in the last one.
#[derive(Drop)]
pub struct Guarded<T: Drop, D: Drop> {
    pub(crate) value: T,
    pub(crate) entries: u64,
    pub(crate) last: Option<D>,
}

impl<T: Drop, D: Drop> Model for Guarded<T, D> {
    ghost use Rattle.std.specs.Prelude.{◌≡◌};
    ghost use Rattle.wb_ticket_lock.specs.Contents.{Content};

    ghost Value = { Content T D };

    ghost view = { λ f. record { value = f.value; entries = f.entries; last = f.last } };
}

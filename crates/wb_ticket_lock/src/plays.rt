//! The rule of a lock, and what its steps tell.
ghost use Rattle.wb_ticket_lock.specs.Histories.{InOrder, newcomer, Stays, Draws, Looks, PassesOn, one_less, merged};

use crate::entry::{Guarded, View};
use atomic_table::{Join, Play, Split, TableRule};
use std::marker::PhantomData;
use std::snapshot::Snapshot;

/// What a deed may make of a value.
pub trait Transition<T, D> {
    /// The value before it, the deed, and the value after it.
    ghost does: { T → D → T → Type 0 };
}

/// The rule: the tickets that are out and the places of all entries are distinct, the value is entered in their order, and it went from
/// what it was at the start through all of them. Its key is the number of seats, and that value.
pub struct TicketRule<P> {
    steps: PhantomData<P>,
}

impl<T: Drop, D: Drop, P: Transition<T, D>> TableRule<
    Option<Guarded<T, D>>,
    View<T, D>,
    (u64, Snapshot<T>),
> for TicketRule<P> {
    ghost holds = { λ key. InOrder P.does key.0 key.1.value };

    ghost first = { λ key. newcomer key.0 };
}

// Any step that tells nothing.
pub(crate) struct Ask;

impl<T: Drop, D: Drop> Play<Option<Guarded<T, D>>, View<T, D>> for Ask {
    ghost then = { Stays };
}

pub(crate) struct Draw;

impl<T: Drop, D: Drop> Play<Option<Guarded<T, D>>, View<T, D>> for Draw {
    ghost then = { Draws };
}

pub(crate) struct Look;

impl<T: Drop, D: Drop> Play<Option<Guarded<T, D>>, View<T, D>> for Look {
    ghost then = { Looks };
}

pub(crate) struct PassOn;

impl<T: Drop, D: Drop> Play<Option<Guarded<T, D>>, View<T, D>> for PassOn {
    ghost then = { PassesOn };
}

pub(crate) struct Cut;

impl<T, D> Split<View<T, D>> for Cut {
    ghost left = { one_less };

    ghost right = { λ _. newcomer 1 };
}

pub(crate) struct Both;

impl<T, D> Join<View<T, D>> for Both {
    ghost both = { merged };

    ghost spent = { newcomer 0 };
}

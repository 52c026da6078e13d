//! Room kept beside a list in the order of a key, into which it moves when an item is added.
ghost use Rattle.std.specs.Prelude.{◌≡◌, ◌<◌, length, IsOk, OnOk};
ghost use Rattle.std.specs.Vec.{vec_len, vec_capacity};
ghost use Rattle.wb_list.specs.Keyed.{IsAscending, insert_item};

use std::alloc::Global;
use std::marker::Model;
use std::mem;
use wb_base::Memory;
use wb_list::Items;
use wb_setup::{Placed, insert_at, place_of, replace_at};

/// An empty `Vec`, seen as how many items it takes without memory.
#[derive(Drop)]
pub struct Spare<T> {
    items: Vec<T>,
}

impl<T> Model for Spare<T> {
    ghost use Rattle.std.specs.Prelude.{ℕ, ◌≡◌, []};
    ghost use Rattle.std.specs.Vec.{vec_capacity};

    ghost Value = { ℕ };

    ghost view = { λ s. vec_capacity s.items };

    ghost invariant = { λ s. s.items.items ≡ [] };
}

impl<T> Spare<T> {
    /// No room. It takes no memory.
    pub fn new(alloc: Global) -> Spare<T> {
        Spare {
            items: Vec::new(alloc),
        }
    }

    /// Makes room for more than n items.
    pub fn reserve_over(&mut self, n: usize) -> Result<(), Memory>
        ensures room { OnOk result (n < self.new) }
        ensures enough { n < self.old → IsOk result }
    {
        if n < self.items.capacity() {
            return Ok(());
        }
        match n.checked_add(1) {
            Some(more) => {
                self.items.reserve(more)?;
                Ok(())
            }
            None => Err(Memory),
        }
    }
}

impl<T: Placed> Spare<T> {
    // The items, moved into the room. Where they were is the room from now on.
    fn widened(&mut self, items: Vec<T>) -> Vec<T>
        requires { length items.items < self.old }
        ensures items { result.items ≡ items.items }
        ensures room { vec_len result < vec_capacity result }
    {
        let mut items = items;
        let alloc = *items.allocator();
        let mut wider = mem::replace(&mut self.items, Vec::new(alloc));
        let moved = wider.append(&mut items);
        moved.unwrap();
        self.items = items;
        wider
    }

    // Puts an item into a list at its place, instead of one with its key if there is one.
    fn placed_in(&mut self, list: &mut Items<T>, item: T)
        requires order { IsAscending T.Key.cmp T.key_of list.old }
        requires room { length list.old < self.old }
        ensures { list.new ≡ insert_item T.Key.cmp T.key_of list.old item }
    {
        let alloc = list.allocator();
        let mut items = mem::replace(list, Items::new(alloc)).into_vec();
        match place_of(items.as_slice(), &item) {
            Ok(at) => replace_at(&mut items, at, item),
            Err(at) => {
                items = self.widened(items);
                insert_at(&mut items, at, item);
            }
        }
        *list = Items::of(items);
    }

    /// Puts an item into a list at its place, instead of one with its key if there is one. It takes no memory.
    pub fn put_in(&mut self, list: &mut Items<T>, item: T)
        requires order { IsAscending T.Key.cmp T.key_of list.old }
        requires room { length list.old < self.old }
        ensures list { list.new ≡ insert_item T.Key.cmp T.key_of list.old item }
        ensures order { IsAscending T.Key.cmp T.key_of list.new }
    {
        self.placed_in(list, item);
    }
}

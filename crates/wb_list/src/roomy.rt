//! A list with room.
ghost use Rattle.std.specs.Prelude.{◌≡◌, ◌+◌, ◌<◌, ◌≤◌, ◌++◌, ◌∷◌, [], length, OnOk, IsOk, slice_get, Some};
ghost use Rattle.std.specs.List.{insert, remove};

use crate::Memory;
use std::alloc::Global;
use std::marker::Model;

/// A list that takes items without memory where room was made, seen as its items and its spare room.
#[derive(Drop)]
pub struct Roomy<T> {
    items: Vec<T>,
}

impl<T> Model for Roomy<T> {
    ghost use Rattle.std.specs.Prelude.{◌-◌};
    ghost use Rattle.std.specs.Vec.{vec_len, vec_capacity};
    ghost use Rattle.wb_list.specs.Room.{Room};

    ghost Value = { Room T };

    ghost view = { λ s. record { items = s.items.items; spare = vec_capacity s.items - vec_len s.items } };
}

impl<T> Roomy<T> {
    /// No item. It takes no memory.
    pub fn new(alloc: Global) -> Roomy<T>
        ensures { result.items ≡ [] }
    {
        Roomy {
            items: Vec::new(alloc),
        }
    }

    /// The items of a `Vec`. It takes no memory.
    pub fn of(items: Vec<T>) -> Roomy<T>
        ensures { result.items ≡ items.items }
    {
        Roomy { items }
    }

    /// How many items there are.
    pub fn len(&self) -> usize
        ensures { result ≡ length self.now.items }
    {
        self.items.len()
    }

    /// The item at a place, counted from 0.
    pub fn get(&self, at: usize) -> &T
        requires { at < length self.now.items }
        ensures { slice_get self.now.items at ≡ Some result.now }
    {
        &self.items[at]
    }

    /// All items.
    pub fn as_slice(&self) -> &[T]
        ensures { result.now ≡ self.now.items }
    {
        self.items.as_slice()
    }

    /// Makes room for n more items.
    pub fn reserve(&mut self, n: usize) -> Result<(), Memory>
        ensures items { self.new.items ≡ self.old.items }
        ensures room { OnOk result (n ≤ self.new.spare) }
        ensures enough { n ≤ self.old.spare → IsOk result }
        ensures kept { self.old.spare ≤ self.new.spare }
    {
        self.items.reserve(n)?;
        Ok(())
    }

    /// Takes the item at a place out. Its room is spare again.
    pub fn remove(&mut self, at: usize) -> T
        requires { at < length self.old.items }
        ensures item { slice_get self.old.items at ≡ Some result }
        ensures items { self.new.items ≡ remove self.old.items at }
        ensures room { self.new.spare ≡ self.old.spare + 1 }
    {
        self.items.remove(at)
    }
}

impl<T: Drop> Roomy<T> {
    /// Puts an item at the end, into room that was made. It takes no memory.
    pub fn push(&mut self, item: T)
        requires { 0 < self.old.spare }
        ensures items { self.new.items ≡ self.old.items ++ item ∷ [] }
        ensures room { self.old.spare ≤ self.new.spare + 1 }
    {
        let pushed = self.items.push(item);
        pushed.unwrap()
    }

    /// Puts an item at a place, into room that was made. It takes no memory.
    pub fn insert(&mut self, at: usize, item: T)
        requires room { 0 < self.old.spare }
        requires place { at ≤ length self.old.items }
        ensures items { self.new.items ≡ insert self.old.items at item }
        ensures room { self.old.spare ≤ self.new.spare + 1 }
    {
        let inserted = self.items.insert(at, item);
        inserted.unwrap()
    }
}

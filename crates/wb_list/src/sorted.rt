//! A table sorted by a key.
ghost use Rattle.std.specs.Prelude.{◌≡◌, ◌+◌, ◌-◌, ◌<◌, ◌≤◌, ◌++◌, ◌∷◌, [], length, take, drop, slice_get, Some, None, OnOk, OnSome, IsOk, IfOk, IfErr, Bool, true, false, not, All, find, filter, position, if◌then◌else◌, IsTrue, ◌↔◌};
ghost use Rattle.std.specs.Ordering.{is_eq, is_le, is_lt};
ghost use Rattle.std.specs.List.Sorted.{IsPartitionPoint};
ghost use Rattle.std.specs.declared.cmp.Ordering.TheVariants.{Less};
ghost use Rattle.std.specs.Option.{option_copied};
ghost use Rattle.std.specs.Vec.{vec_capacity};
ghost use Rattle.wb_list.specs.Keyed.{IsAscending, has_key, insert_item, without_first, IsPlace, IsGap, IsRun, Finds};

use crate::{Memory, TryClone};
use std::alloc::Global;
use std::cmp::Ordering;
use std::marker::Model;

/// What has a key, which may be computed from several of its fields.
pub trait Keyed {
    type Key: Ord;

    /// Its key.
    ghost key_of: { Self → Self.Key };

    /// How its key compares to a key.
    fn compare(&self, key: &Self::Key) -> Ordering
        ensures { result ≡ Self.Key.cmp (key_of self.now) key.now };

    /// How its key compares to that of another.
    fn compare_to(&self, other: &Self) -> Ordering
        ensures { result ≡ Self.Key.cmp (key_of self.now) (key_of other.now) };
}

/// A pair has its first part as its key.
impl<K: Ord, V> Keyed for (K, V) {
    type Key = K;

    ghost key_of = { λ pair. pair.0 };

    fn compare(&self, key: &K) -> Ordering {
        self.0.cmp(key)
    }

    fn compare_to(&self, other: &(K, V)) -> Ordering {
        self.0.cmp(&other.0)
    }
}

/// A test of items.
pub trait ItemTest<T> {
    /// Whether an item passes.
    ghost passes: { Self → T → Bool };

    /// Whether an item passes.
    fn passes(&self, item: &T) -> bool
        ensures { result ≡ passes self.now item.now };
}

/// A run of items that lie side by side in the order of their keys.
pub trait ItemRun<T> {
    ghost use Rattle.std.specs.declared.cmp.Ordering.{Ordering as Side};

    /// Where an item lies: before the run, in it, or after it.
    ghost side: { Self → T → Side };

    /// Where an item lies: `Less` before the run, `Equal` in it, `Greater` after it.
    fn side(&self, item: &T) -> Ordering
        ensures { result ≡ side self.now item.now };
}

/// A change of an item, which leaves its key.
pub trait ItemChange<T: Keyed> {
    /// What comes of it.
    type Answer;

    /// What it asks of the item.
    ghost asks: { Self → T → Type 0 };

    /// What it makes of the item, and what comes of it.
    ghost makes: { Self → T → T → Self.Answer → Type 0 };

    /// Changes an item.
    fn change(self, item: &mut T) -> Self::Answer
        requires { asks self item.old }
        ensures key { T.key_of item.new ≡ T.key_of item.old }
        ensures made { makes self item.old item.new result };
}

/// Items that ascend by their keys, each key once, found by binary search, seen as their list and its spare room.
#[derive(Drop)]
pub struct Sorted<T: Keyed> {
    items: Vec<T>,
}

impl<T: Keyed> Model for Sorted<T> {
    ghost use Rattle.std.specs.Prelude.{◌-◌};
    ghost use Rattle.std.specs.Vec.{vec_len, vec_capacity};
    ghost use Rattle.wb_list.specs.Room.{Room};
    ghost use Rattle.wb_list.specs.Keyed.{IsAscending};

    ghost Value = { Room T };

    ghost view = { λ s. record { items = s.items.items; spare = vec_capacity s.items - vec_len s.items } };

    ghost invariant = { λ s. IsAscending T.Key.cmp T.key_of s.items.items };
}

// Moves the last n items, in their order, into an empty list that has room for them.
#[tactic(auto, using(crate::proofs::LastItems::moved_one))]
fn move_back<T>(items: &mut Vec<T>, n: usize, into: &mut Vec<T>)
    requires there { n ≤ length items.old.items }
    requires empty { into.old.items ≡ [] }
    requires room { n ≤ vec_capacity into.old }
    ensures items { items.new.items ++ into.new.items ≡ items.old.items }
    ensures moved { length into.new.items ≡ n }
    ensures from { vec_capacity items.new ≡ vec_capacity items.old }
    ensures to { vec_capacity into.old ≤ vec_capacity into.new }
{
    for _ in 0..n {
        match items.pop() {
            Some(last) => {
                let pushed = into.push(last);
                pushed.unwrap()
            }
            None => unreachable!(),
        }
    }
    into.reverse();
}

impl<T: Keyed> Sorted<T> {
    /// No item. It takes no memory.
    pub fn new(alloc: Global) -> Sorted<T>
        ensures { result.items ≡ [] }
    {
        Sorted {
            items: Vec::new(alloc),
        }
    }

    /// These items, which ascend. It takes no memory.
    pub fn of(items: Vec<T>) -> Sorted<T>
        requires { IsAscending T.Key.cmp T.key_of items.items }
        ensures { result.items ≡ items.items }
    {
        Sorted { items }
    }

    /// How many items there are.
    pub fn len(&self) -> usize
        ensures { result ≡ length self.now.items }
    {
        self.items.len()
    }

    /// The item at a place, counted from 0 in the order of keys.
    pub fn get(&self, at: usize) -> &T
        requires { at < length self.now.items }
        ensures { slice_get self.now.items at ≡ Some result.now }
    {
        &self.items[at]
    }

    /// All items in the order of their keys.
    pub fn as_slice(&self) -> &[T]
        ensures all { result.now ≡ self.now.items }
        ensures ascending { IsAscending T.Key.cmp T.key_of self.now.items }
    {
        self.items.as_slice()
    }

    /// The items as a `Vec`, in the order of their keys. It takes no memory.
    pub fn into_vec(self) -> Vec<T>
        ensures all { result.items ≡ self.items }
        ensures ascending { IsAscending T.Key.cmp T.key_of self.items }
    {
        self.items
    }

    /// The allocator that it was made with.
    pub fn allocator(&self) -> Global {
        *self.items.allocator()
    }

    /// Makes room for n more items.
    pub fn reserve(&mut self, n: usize) -> Result<(), Memory>
        ensures items { self.new.items ≡ self.old.items }
        ensures room { OnOk result (n ≤ self.new.spare) }
        ensures enough { n ≤ self.old.spare → IsOk result }
        ensures kept { self.old.spare ≤ self.new.spare }
    {
        self.items.reserve(n)?;
        Ok(())
    }

    /// Whether there is room for one more item.
    pub fn has_room(&self) -> bool
        ensures { IsTrue result ↔ (0 < self.now.spare) }
    {
        self.items.len() < self.items.capacity()
    }

    /// Whether all keys are below that of an item.
    pub fn ends_below(&self, item: &T) -> bool
        ensures { result ≡ true ↔ All (λ other. T.Key.cmp (T.key_of other) (T.key_of item.now) ≡ Less) self.now.items }
    {
        match self.items.last() {
            Some(last) => last.compare_to(item).is_lt(),
            None => true,
        }
    }

    /// Moves the last n items into an empty table that has room for them. It takes no memory.
    pub fn move_last(&mut self, n: usize, into: &mut Sorted<T>)
        requires there { n ≤ length self.old.items }
        requires empty { into.old.items ≡ [] }
        requires room { n ≤ into.old.spare }
        ensures items { self.new.items ++ into.new.items ≡ self.old.items }
        ensures moved { length into.new.items ≡ n }
        ensures room { self.old.spare + n ≤ self.new.spare }
        ensures left { into.old.spare ≤ into.new.spare + n }
        ensures ascending { IsAscending T.Key.cmp T.key_of self.old.items }
    {
        move_back(&mut self.items, n, &mut into.items);
    }

    // Where the key is, or where it would go.
    fn place(&self, key: &T::Key) -> Result<usize, usize>
        ensures found { IfOk result (IsPlace T.Key.cmp T.key_of self.now.items key.now) }
        ensures absent { IfErr result (IsGap T.Key.cmp T.key_of self.now.items key.now) }
    {
        self.items.binary_search_by(|item| item.compare(key))
    }

    // Where an item with this one's key is, or where it would go.
    fn place_of(&self, item: &T) -> Result<usize, usize>
        ensures found { IfOk result (IsPlace T.Key.cmp T.key_of self.now.items (T.key_of item.now)) }
        ensures absent { IfErr result (IsGap T.Key.cmp T.key_of self.now.items (T.key_of item.now)) }
    {
        self.items.binary_search_by(|other| other.compare_to(item))
    }

    // How many items lie before a run.
    fn start_of<X: ItemRun<T>>(&self, run: &X) -> usize
        requires { IsRun T.Key.cmp T.key_of (X.side run.now) }
        ensures start { IsPartitionPoint (λ item. is_lt (X.side run.now item) ≡ true) (λ item. is_lt (X.side run.now item) ≡ false) self.now.items result }
        ensures bound { result ≤ length self.now.items }
    {
        self.items.partition_point(|item| run.side(item).is_lt())
    }

    // How many items lie before a run or in it.
    fn end_of<X: ItemRun<T>>(&self, run: &X) -> usize
        requires { IsRun T.Key.cmp T.key_of (X.side run.now) }
        ensures end { IsPartitionPoint (λ item. is_le (X.side run.now item) ≡ true) (λ item. is_le (X.side run.now item) ≡ false) self.now.items result }
        ensures bound { result ≤ length self.now.items }
    {
        self.items.partition_point(|item| run.side(item).is_le())
    }

    // Where a run starts, and where it ends.
    fn bounds<X: ItemRun<T>>(&self, run: &X) -> (usize, usize)
        requires { IsRun T.Key.cmp T.key_of (X.side run.now) }
        ensures run { take (result.1 - result.0) (drop result.0 self.now.items) ≡ filter (λ item. is_eq (X.side run.now item)) self.now.items }
        ensures start { result.0 ≤ result.1 }
        ensures end { result.1 ≤ length self.now.items }
    {
        (self.start_of(run), self.end_of(run))
    }

    /// The items of a run, whose two ends are found by binary search.
    pub fn run<X: ItemRun<T>>(&self, run: &X) -> &[T]
        requires { IsRun T.Key.cmp T.key_of (X.side run.now) }
        ensures { result.now ≡ filter (λ item. is_eq (X.side run.now item)) self.now.items }
    {
        let (start, end) = self.bounds(run);
        &self.items[start..end]
    }

    /// The item of a key.
    pub fn find(&self, key: &T::Key) -> Option<&T>
        ensures item { option_copied result ≡ find (has_key T.Key.cmp T.key_of key.now) self.now.items }
        ensures ascending { IsAscending T.Key.cmp T.key_of self.now.items }
    {
        match self.place(key) {
            Ok(at) => Some(&self.items[at]),
            Err(_) => None,
        }
    }
}

impl<T: Keyed + Drop> Sorted<T> {
    /// Adds an item whose key is above all others, into room that was made. It takes no memory and moves nothing.
    pub fn push(&mut self, item: T)
        requires room { 0 < self.old.spare }
        requires last { All (λ other. T.Key.cmp (T.key_of other) (T.key_of item) ≡ Less) self.old.items }
        ensures items { self.new.items ≡ self.old.items ++ item ∷ [] }
        ensures room { self.old.spare ≤ self.new.spare + 1 }
    {
        let pushed = self.items.push(item);
        pushed.unwrap()
    }

    /// Adds an item whose key is free, into room that was made. It takes no memory.
    pub fn add(&mut self, item: T)
        requires room { 0 < self.old.spare }
        requires free { find (has_key T.Key.cmp T.key_of (T.key_of item)) self.old.items ≡ None }
        ensures items { self.new.items ≡ insert_item T.Key.cmp T.key_of self.old.items item }
        ensures found { (key : T.Key) → find (has_key T.Key.cmp T.key_of key) self.new.items ≡ (if has_key T.Key.cmp T.key_of key item then Some item else find (has_key T.Key.cmp T.key_of key) self.old.items) }
        ensures room { self.old.spare ≤ self.new.spare + 1 }
    {
        match self.place_of(&item) {
            Ok(_) => unreachable!(),
            Err(at) => {
                let inserted = self.items.insert(at, item);
                inserted.unwrap()
            }
        }
    }

    /// Puts an item at its place, instead of one with its key if there is one, into room that was made.
    /// It takes no memory.
    pub fn set(&mut self, item: T)
        requires { 0 < self.old.spare }
        ensures items { self.new.items ≡ insert_item T.Key.cmp T.key_of self.old.items item }
        ensures found { (key : T.Key) → find (has_key T.Key.cmp T.key_of key) self.new.items ≡ (if has_key T.Key.cmp T.key_of key item then Some item else find (has_key T.Key.cmp T.key_of key) self.old.items) }
        ensures room { self.old.spare ≤ self.new.spare + 1 }
    {
        match self.place_of(&item) {
            Ok(at) => self.items[at] = item,
            Err(at) => {
                let inserted = self.items.insert(at, item);
                inserted.unwrap()
            }
        }
    }

    /// Takes the item of a key out. Its room is spare again.
    pub fn take(&mut self, key: &T::Key) -> Option<T>
        ensures item { result ≡ find (has_key T.Key.cmp T.key_of key.now) self.old.items }
        ensures items { self.new.items ≡ without_first (has_key T.Key.cmp T.key_of key.now) self.old.items }
        ensures others { self.new.items ≡ filter (λ item. not (has_key T.Key.cmp T.key_of key.now item)) self.old.items }
        ensures gone { find (has_key T.Key.cmp T.key_of key.now) self.new.items ≡ None }
        ensures kept { self.old.spare ≤ self.new.spare }
        ensures room { OnSome result (self.old.spare + 1 ≤ self.new.spare) }
    {
        match self.place(key) {
            Ok(at) => {
                let item = self.items.remove(at);
                Some(item)
            }
            Err(_) => None,
        }
    }

    // The place of the first item that passes a test.
    fn first_place<X: ItemTest<T>>(&self, test: &X) -> Option<usize>
        ensures { result ≡ position (X.passes test.now) self.now.items }
    {
        self.items.iter().position(|item| test.passes(item))
    }

    /// Takes the first item that passes a test out. Its room is spare again. It looks at each item up to that one.
    pub fn take_first<X: ItemTest<T>>(&mut self, test: &X) -> Option<T>
        ensures item { result ≡ find (X.passes test.now) self.old.items }
        ensures items { self.new.items ≡ without_first (X.passes test.now) self.old.items }
        ensures kept { self.old.spare ≤ self.new.spare }
        ensures room { OnSome result (self.old.spare + 1 ≤ self.new.spare) }
    {
        match self.first_place(test) {
            Some(at) => {
                let first = self.items.remove(at);
                Some(first)
            }
            None => None,
        }
    }

    /// Changes the item of a key in its place. It takes no memory beside what the change takes.
    pub fn change<X: ItemChange<T>>(&mut self, key: &T::Key, change: X) -> X::Answer
        requires there { (item : T) × Finds T.Key.cmp T.key_of key.now self.old.items item × X.asks change item }
        ensures changed { (item : T) × (next : T) × Finds T.Key.cmp T.key_of key.now self.old.items item × (T.key_of next ≡ T.key_of item) × X.makes change item next result × (self.new.items ≡ insert_item T.Key.cmp T.key_of self.old.items next) }
        ensures ascending { IsAscending T.Key.cmp T.key_of self.old.items }
        ensures room { self.new.spare ≡ self.old.spare }
    {
        match self.place(key) {
            Ok(at) => {
                let item = &mut self.items[at];
                change.change(item)
            }
            Err(_) => unreachable!(),
        }
    }

    /// Drops the items of a run. It takes no memory, and looks at each item.
    pub fn drop_run<X: ItemRun<T>>(&mut self, run: &X)
        ensures items { self.new.items ≡ filter (λ item. not (is_eq (X.side run.now item))) self.old.items }
        ensures kept { self.old.spare ≤ self.new.spare }
    {
        self.items.retain(|item| !run.side(item).is_eq());
    }

    /// Drops the items that pass a test. It takes no memory.
    pub fn drop_passing<X: ItemTest<T>>(&mut self, test: &X)
        ensures items { self.new.items ≡ filter (λ item. not (X.passes test.now item)) self.old.items }
        ensures kept { self.old.spare ≤ self.new.spare }
    {
        self.items.retain(|item| !test.passes(item));
    }
}

impl<T: Keyed + TryClone> Sorted<T> {
    /// The same table once more, with or without its spare room.
    pub fn try_clone(&self) -> Result<Sorted<T>, Memory>
        ensures { IfOk result (λ copy. copy.items ≡ self.now.items) }
    {
        let mut copy = Vec::new(*self.items.allocator());
        for item in &self.items {
            copy.push(item.try_clone()?)?;
        }
        Ok(Sorted { items: copy })
    }
}

//! A table sorted by a key, in chunks.
ghost use Rattle.std.specs.Prelude.{◌≡◌, ℕ, ◌+◌, ◌<◌, ◌≤◌, ◌++◌, [], length, take, drop, slice_index_or, min, true, false, not, filter, OnOk, IfOk, IfSome, MatchOption};
ghost use Rattle.std.specs.List.{AllByRecursion, insert};
ghost use Rattle.wb_list.specs.Room.{Room};
ghost use Rattle.std.specs.List.Sorted.{IsPartitionPoint};
ghost use Rattle.std.specs.Ordering.{is_eq, is_lt, is_le};
ghost use Rattle.std.specs.Vec.{vec_capacity};
ghost use Rattle.wb_list.specs.Keyed.{IsAscending, IsRun, insert_item};
ghost use Rattle.wb_memory.specs.Chunks.{joined, begins, begins_by, AreFilled, IsReady};

use crate::chunk::{begins_before, begins_by, begins_within, is_filled};
use std::alloc::Global;
use std::marker::Model;
use wb_list::{ItemRun, Keyed, Memory, Sorted, TryClone};

// How many items a chunk takes.
const CHUNK: usize = 64;

// How many of its items go into the next one when it is full.
const HALF: usize = 32;

/// Items that ascend by their keys, each key once, in chunks, so that a put moves no items but those of one chunk.
/// It is seen as the list of its items, and how many puts it takes without memory.
#[derive(Drop)]
pub struct Chunked<T: Keyed> {
    first: Sorted<T>,
    later: Vec<Sorted<T>>,
    spare: Vec<Sorted<T>>,
}

impl<T: Keyed> Model for Chunked<T> {
    ghost use Rattle.std.specs.Prelude.{◌++◌, length};
    ghost use Rattle.std.specs.Vec.{vec_capacity};
    ghost use Rattle.wb_list.specs.Room.{Room};
    ghost use Rattle.wb_memory.specs.Chunks.{joined, IsChunked};

    ghost Value = { Room T };

    ghost view = { λ s. record { items = s.first.items ++ joined s.later.items; spare = length s.spare.items } };

    ghost invariant = { λ s. IsChunked T.Key.cmp T.key_of s.first.items s.later.items s.spare.items (vec_capacity s.later) };
}

// How many chunks begin at or before the place of an item.
fn beginning_by<T: Keyed>(chunks: &Vec<Sorted<T>>, item: &T) -> usize
    requires ascending { IsAscending T.Key.cmp T.key_of (joined chunks.now.items) }
    requires filled { AreFilled chunks.now.items }
    ensures parted { IsPartitionPoint (λ chunk. begins_by T.Key.cmp T.key_of (T.key_of item.now) chunk.items ≡ true) (λ chunk. begins_by T.Key.cmp T.key_of (T.key_of item.now) chunk.items ≡ false) chunks.now.items result }
    ensures bound { result ≤ length chunks.now.items }
{
    chunks.partition_point(|chunk| begins_by(chunk, item))
}

// Makes empty chunks until there are n.
fn stock<T: Keyed + Drop>(alloc: Global, spare: &mut Vec<Sorted<T>>, n: usize) -> Result<(), Memory>
    requires { AllByRecursion IsReady spare.old.items }
    ensures ready { AllByRecursion IsReady spare.new.items }
    ensures kept { length spare.old.items ≤ length spare.new.items }
    ensures room { OnOk result (n ≤ length spare.new.items) }
    ensures bound { (most : ℕ) → length spare.old.items ≤ most → n ≤ most → length spare.new.items ≤ most }
{
    for _ in spare.len()..n {
        let mut chunk = Sorted::new(alloc);
        chunk.reserve(CHUNK)?;
        spare.push(chunk)?;
    }
    Ok(())
}

// Puts an item into a chunk without room that is at most half a chunk, which an empty one takes over.
#[tactic(auto, using(crate::proofs::ChunkLemmas::all_moved))]
fn take_over<T: Keyed + Drop>(chunk: &mut Sorted<T>, mut empty: Sorted<T>, item: T)
    requires empty { empty.items ≡ [] }
    requires room { 64 ≤ empty.spare }
    requires small { length chunk.old.items ≤ 32 }
    ensures items { chunk.new.items ≡ insert_item T.Key.cmp T.key_of chunk.old.items item }
{
    let all = chunk.len();
    chunk.move_last(all, &mut empty);
    empty.set(item);
    *chunk = empty;
}

// Puts an item into a chunk whose last items go into an empty one, or into that.
#[tactic(auto, using(crate::proofs::Putting::put_before, crate::proofs::Putting::insert_filled))]
fn part<T: Keyed + Drop>(chunk: &mut Sorted<T>, next: &mut Sorted<T>, item: T)
    requires empty { next.old.items ≡ [] }
    requires room { 64 ≤ next.old.spare }
    requires large { 32 < length chunk.old.items }
    ensures items { chunk.new.items ++ next.new.items ≡ insert_item T.Key.cmp T.key_of chunk.old.items item }
    ensures filled { 0 < length chunk.new.items }
    ensures next { 0 < length next.new.items }
{
    chunk.move_last(HALF, next);
    if begins_by(next, &item) {
        next.set(item);
    } else {
        chunk.set(item);
    }
}

// Puts an item into a chunk without room. What comes after it then is the empty one, where it was not small.
#[tactic(auto, using(crate::proofs::Putting::insert_filled))]
fn put_into_two<T: Keyed + Drop>(
    chunk: &mut Sorted<T>,
    mut empty: Sorted<T>,
    item: T,
) -> Option<Sorted<T>>
    requires empty { empty.items ≡ [] }
    requires room { 64 ≤ empty.spare }
    ensures items { MatchOption result (chunk.new.items ≡ insert_item T.Key.cmp T.key_of chunk.old.items item) (λ next. chunk.new.items ++ next.items ≡ insert_item T.Key.cmp T.key_of chunk.old.items item) }
    ensures filled { 0 < length chunk.new.items }
    ensures next { IfSome result (λ next. 0 < length next.items) }
{
    if chunk.len() <= HALF {
        take_over(chunk, empty, item);
        return None;
    }
    part(chunk, &mut empty, item);
    Some(empty)
}

// Puts an item into a chunk. What comes after it then, where the chunk had no room, is a chunk of its own.
#[tactic(auto, using(crate::proofs::Putting::insert_filled, crate::proofs::ChunkLemmas::ready_empty, crate::proofs::ChunkLemmas::ready_room, crate::proofs::ChunkLemmas::ready_rest))]
fn put<T: Keyed + Drop>(
    chunk: &mut Sorted<T>,
    spare: &mut Vec<Sorted<T>>,
    item: T,
) -> Option<Sorted<T>>
    requires ready { AllByRecursion IsReady spare.old.items }
    requires some { 0 < length spare.old.items }
    ensures items { MatchOption result (chunk.new.items ≡ insert_item T.Key.cmp T.key_of chunk.old.items item) (λ next. chunk.new.items ++ next.items ≡ insert_item T.Key.cmp T.key_of chunk.old.items item) }
    ensures filled { 0 < length chunk.new.items }
    ensures next { IfSome result (λ next. 0 < length next.items) }
    ensures ready { AllByRecursion IsReady spare.new.items }
    ensures taken { MatchOption result (length spare.new.items ≤ length spare.old.items) (λ _. length spare.new.items + 1 ≤ length spare.old.items) }
    ensures room { length spare.old.items ≤ length spare.new.items + 1 }
{
    if chunk.has_room() {
        chunk.set(item);
        return None;
    }
    match spare.pop() {
        Some(empty) => put_into_two(chunk, empty, item),
        None => unreachable!(),
    }
}

// Puts an item into the chunk at a place. Where that had no room, one more comes after it.
fn put_at<T: Keyed + Drop>(
    chunks: &mut Vec<Sorted<T>>,
    spare: &mut Vec<Sorted<T>>,
    at: usize,
    item: T,
)
    requires place { at < length chunks.old.items }
    requires some { 0 < length spare.old.items }
    requires filled { AreFilled chunks.old.items }
    requires ready { AllByRecursion IsReady spare.old.items }
    requires placed { length chunks.old.items + length spare.old.items ≤ vec_capacity chunks.old }
    ensures items { (d : Room T) → joined chunks.new.items ≡ joined (take at chunks.old.items) ++ (insert_item T.Key.cmp T.key_of (slice_index_or chunks.old.items at d).items item ++ joined (drop (at + 1) chunks.old.items)) }
    ensures filled { AreFilled chunks.new.items }
    ensures ready { AllByRecursion IsReady spare.new.items }
    ensures placed { length chunks.new.items + length spare.new.items ≤ vec_capacity chunks.new }
    ensures room { length spare.old.items ≤ length spare.new.items + 1 }
{
    if let Some(next) = put(&mut chunks[at], spare, item) {
        add(chunks, at + 1, next);
    }
}

// Adds a chunk at a place that was made for it.
fn add<T: Keyed + Drop>(chunks: &mut Vec<Sorted<T>>, at: usize, chunk: Sorted<T>)
    requires place { at ≤ length chunks.old.items }
    requires room { length chunks.old.items < vec_capacity chunks.old }
    ensures items { chunks.new.items ≡ insert chunks.old.items at chunk }
    ensures places { vec_capacity chunks.new ≡ vec_capacity chunks.old }
{
    let added = chunks.insert(at, chunk);
    added.unwrap()
}

// How many chunks begin before a run.
fn beginning_before<T: Keyed, X: ItemRun<T>>(chunks: &Vec<Sorted<T>>, run: &X) -> usize
    requires run { IsRun T.Key.cmp T.key_of (X.side run.now) }
    requires ascending { IsAscending T.Key.cmp T.key_of (joined chunks.now.items) }
    requires filled { AreFilled chunks.now.items }
    ensures parted { IsPartitionPoint (λ chunk. begins (λ item. is_lt (X.side run.now item)) chunk.items ≡ true) (λ chunk. begins (λ item. is_lt (X.side run.now item)) chunk.items ≡ false) chunks.now.items result }
    ensures bound { result ≤ length chunks.now.items }
{
    chunks.partition_point(|chunk| begins_before(chunk, run))
}

// How many chunks begin before a run or in it.
fn beginning_within<T: Keyed, X: ItemRun<T>>(chunks: &Vec<Sorted<T>>, run: &X) -> usize
    requires run { IsRun T.Key.cmp T.key_of (X.side run.now) }
    requires ascending { IsAscending T.Key.cmp T.key_of (joined chunks.now.items) }
    requires filled { AreFilled chunks.now.items }
    ensures parted { IsPartitionPoint (λ chunk. begins (λ item. is_le (X.side run.now item)) chunk.items ≡ true) (λ chunk. begins (λ item. is_le (X.side run.now item)) chunk.items ≡ false) chunks.now.items result }
    ensures bound { result ≤ length chunks.now.items }
{
    chunks.partition_point(|chunk| begins_within(chunk, run))
}

// The places between which the chunks lie that have items of a run.
fn bounds<T: Keyed, X: ItemRun<T>>(chunks: &Vec<Sorted<T>>, run: &X) -> (usize, usize)
    requires run { IsRun T.Key.cmp T.key_of (X.side run.now) }
    requires ascending { IsAscending T.Key.cmp T.key_of (joined chunks.now.items) }
    requires filled { AreFilled chunks.now.items }
    ensures before { filter (λ item. not (is_eq (X.side run.now item))) (joined (take result.0 chunks.now.items)) ≡ joined (take result.0 chunks.now.items) }
    ensures behind { filter (λ item. not (is_eq (X.side run.now item))) (joined (drop result.1 chunks.now.items)) ≡ joined (drop result.1 chunks.now.items) }
    ensures order { result.0 ≤ result.1 }
    ensures end { result.1 ≤ length chunks.now.items }
{
    let before = beginning_before(chunks, run);
    let within = beginning_within(chunks, run);
    (before.saturating_sub(1), within)
}

// Drops the items of a run from the chunk at a place, and the chunk where it is empty then.
fn drop_at<T: Keyed + Drop, X: ItemRun<T>>(chunks: &mut Vec<Sorted<T>>, at: usize, run: &X)
    requires place { at < length chunks.old.items }
    requires filled { AreFilled chunks.old.items }
    ensures before { (n : ℕ) → n ≤ at → take n chunks.new.items ≡ take n chunks.old.items }
    ensures items { (d : Room T) → joined (drop at chunks.new.items) ≡ filter (λ item. not (is_eq (X.side run.now item))) (slice_index_or chunks.old.items at d).items ++ joined (drop (at + 1) chunks.old.items) }
    ensures filled { AreFilled chunks.new.items }
    ensures place { at ≤ length chunks.new.items }
    ensures count { length chunks.new.items ≤ length chunks.old.items }
    ensures places { vec_capacity chunks.new ≡ vec_capacity chunks.old }
{
    chunks[at].drop_run(run);
    if !is_filled(&chunks[at]) {
        let _empty = chunks.remove(at);
    }
}

// Drops the items of a run from the chunks between two places.
fn drop_between<T: Keyed + Drop, X: ItemRun<T>>(
    chunks: &mut Vec<Sorted<T>>,
    start: usize,
    end: usize,
    run: &X,
)
    requires order { start ≤ end }
    requires end { end ≤ length chunks.old.items }
    requires before { filter (λ item. not (is_eq (X.side run.now item))) (joined (take start chunks.old.items)) ≡ joined (take start chunks.old.items) }
    requires behind { filter (λ item. not (is_eq (X.side run.now item))) (joined (drop end chunks.old.items)) ≡ joined (drop end chunks.old.items) }
    requires filled { AreFilled chunks.old.items }
    ensures items { joined chunks.new.items ≡ filter (λ item. not (is_eq (X.side run.now item))) (joined chunks.old.items) }
    ensures filled { AreFilled chunks.new.items }
    ensures count { length chunks.new.items ≤ length chunks.old.items }
    ensures places { vec_capacity chunks.new ≡ vec_capacity chunks.old }
{
    let mut at = end;
    while start < at {
        at -= 1;
        drop_at(chunks, at, run);
    }
}

// Adds copies of items at the end of a list.
#[tactic(auto, using(crate::proofs::ChunkLemmas::copied_more))]
fn append_copies<T: TryClone>(copy: &mut Vec<T>, items: &[T]) -> Result<(), Memory>
    ensures { OnOk result (copy.new.items ≡ copy.old.items ++ items.now) }
{
    for item in items {
        copy.push(item.try_clone()?)?;
    }
    Ok(())
}

// Adds copies of the items of chunks at the end of a list.
#[tactic(auto, using(crate::proofs::ChunkLemmas::joined_more))]
fn append_chunks<T: Keyed + TryClone>(copy: &mut Vec<T>, chunks: &[Sorted<T>]) -> Result<(), Memory>
    ensures { OnOk result (copy.new.items ≡ copy.old.items ++ joined chunks.now) }
{
    for chunk in chunks {
        append_copies(copy, chunk.as_slice())?;
    }
    Ok(())
}

impl<T: Keyed> Chunked<T> {
    /// No item. It takes no memory.
    pub fn new(alloc: Global) -> Chunked<T>
        ensures { result.items ≡ [] }
    {
        Chunked {
            first: Sorted::new(alloc),
            later: Vec::new(alloc),
            spare: Vec::new(alloc),
        }
    }

    /// The allocator that it was made with.
    pub fn allocator(&self) -> Global {
        self.first.allocator()
    }
}

impl<T: Keyed + Drop> Chunked<T> {
    /// Makes room for n puts.
    pub fn reserve(&mut self, n: usize) -> Result<(), Memory>
        ensures items { self.new.items ≡ self.old.items }
        ensures room { OnOk result (n ≤ self.new.spare) }
        ensures kept { self.old.spare ≤ self.new.spare }
    {
        let alloc = self.first.allocator();
        self.later.reserve(n)?;
        stock(alloc, &mut self.spare, n)
    }

    /// Lets go of the room for more than n puts.
    pub fn trim(&mut self, n: usize)
        ensures items { self.new.items ≡ self.old.items }
        ensures room { self.new.spare ≡ min n self.old.spare }
    {
        self.spare.truncate(n);
    }

    /// Puts an item at its place, instead of one with its key if there is one, into room that was made.
    /// It takes no memory, and moves the items of one chunk.
    pub fn set(&mut self, item: T)
        requires { 0 < self.old.spare }
        ensures items { self.new.items ≡ insert_item T.Key.cmp T.key_of self.old.items item }
        ensures room { self.old.spare ≤ self.new.spare + 1 }
    {
        let before = beginning_by(&self.later, &item);
        if before == 0 {
            if let Some(next) = put(&mut self.first, &mut self.spare, item) {
                add(&mut self.later, 0, next);
            }
        } else {
            put_at(&mut self.later, &mut self.spare, before - 1, item);
        }
    }

    /// Drops the items of a run. It takes no memory, and looks into the first chunk, those that have some, and one before.
    pub fn drop_run<X: ItemRun<T>>(&mut self, run: &X)
        requires { IsRun T.Key.cmp T.key_of (X.side run.now) }
        ensures items { self.new.items ≡ filter (λ item. not (is_eq (X.side run.now item))) self.old.items }
        ensures kept { self.old.spare ≤ self.new.spare }
    {
        let (start, end) = bounds(&self.later, run);
        self.first.drop_run(run);
        drop_between(&mut self.later, start, end, run);
    }
}

impl<T: Keyed + TryClone> Chunked<T> {
    /// The items once more, in the order of their keys.
    pub fn try_to_vec(&self) -> Result<Vec<T>, Memory>
        ensures all { IfOk result (λ copy. copy.items ≡ self.now.items) }
        ensures ascending { IsAscending T.Key.cmp T.key_of self.now.items }
    {
        let mut copy = Vec::new(self.first.allocator());
        append_copies(&mut copy, self.first.as_slice())?;
        append_chunks(&mut copy, self.later.as_slice())?;
        Ok(copy)
    }
}

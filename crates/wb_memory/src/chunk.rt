//! A chunk of a table, which is a sorted table: with what it begins.
ghost use Rattle.std.specs.Prelude.{◌≡◌};
ghost use Rattle.std.specs.Ordering.{is_lt, is_le};
ghost use Rattle.wb_memory.specs.Chunks.{begins, begins_by, is_filled};

use wb_list::{ItemRun, Keyed, Sorted};

// Whether there is an item.
pub(crate) fn is_filled<T: Keyed>(chunk: &Sorted<T>) -> bool
    ensures { result ≡ is_filled chunk.now.items }
{
    match chunk.as_slice().first() {
        Some(_) => true,
        None => false,
    }
}

// Whether the first item stands at or before the place of this one.
pub(crate) fn begins_by<T: Keyed>(chunk: &Sorted<T>, item: &T) -> bool
    ensures { result ≡ begins_by T.Key.cmp T.key_of (T.key_of item.now) chunk.now.items }
{
    match chunk.as_slice().first() {
        Some(first) => first.compare_to(item).is_le(),
        None => false,
    }
}

// Whether the first item stands before a run.
pub(crate) fn begins_before<T: Keyed, X: ItemRun<T>>(chunk: &Sorted<T>, run: &X) -> bool
    ensures { result ≡ begins (λ item. is_lt (X.side run.now item)) chunk.now.items }
{
    match chunk.as_slice().first() {
        Some(first) => run.side(first).is_lt(),
        None => false,
    }
}

// Whether the first item stands before a run or in it.
pub(crate) fn begins_within<T: Keyed, X: ItemRun<T>>(chunk: &Sorted<T>, run: &X) -> bool
    ensures { result ≡ begins (λ item. is_le (X.side run.now item)) chunk.now.items }
{
    match chunk.as_slice().first() {
        Some(first) => run.side(first).is_le(),
        None => false,
    }
}

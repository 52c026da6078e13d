//! The first of a list that a later one is the same as.
ghost use Rattle.std.specs.Prelude.{◌≡◌, ◌∷◌, List, IfOk};
ghost use Rattle.std.specs.List.{list_any};
ghost use Rattle.wb_rows.specs.Blame.{first_repeated as first_repeated_in};
ghost use Rattle.wb_rows.specs.Marks.{AreMarks};

use std::alloc::Global;
use std::collections::BTreeSet;
use wb_base::{Key, Memory};

/// What may have a mark, by which it is told from others.
pub trait Marked {
    ghost use Rattle.std.specs.Prelude.{◌≡◌, Bool, Option};
    ghost use Rattle.wb_base.specs.declared.rows.Key.{Key as KeyData};
    ghost use Rattle.wb_rows.specs.Marks.{same_mark};

    type Mark: Ord + Drop;

    /// Its mark.
    ghost mark_of: { Self → Option Self.Mark };

    /// The key of its row.
    ghost key_of: { Self → KeyData };

    /// Whether it is the same as another.
    ghost same: { Self → Self → Bool };

    /// Its mark.
    fn mark(&self, alloc: Global) -> Result<Option<Self::Mark>, Memory>
        ensures { IfOk result (λ mark. mark ≡ mark_of self.now) };

    /// The key of its row.
    fn key(&self) -> Key
        ensures { result ≡ key_of self.now };

    /// It is the same as another where both have the same mark.
    ghost ties: { (x y : Self) → same x y ≡ same_mark Self.Mark.cmp (mark_of x) (mark_of y) };
}

// Puts the mark of an item among those of later ones, and tells whether one of these is the same.
fn note<T: Marked>(alloc: Global, marks: &mut BTreeSet<T::Mark>, item: &T) -> Result<bool, Memory>
    ensures there { IfOk result (λ there. (later : List T) → AreMarks T.Mark.cmp T.mark_of marks.old later → there ≡ list_any (T.same item.now) later) }
    ensures marks { IfOk result (λ there. (later : List T) → AreMarks T.Mark.cmp T.mark_of marks.old later → AreMarks T.Mark.cmp T.mark_of marks.new (item.now ∷ later)) }
{
    match item.mark(alloc)? {
        Some(mark) => {
            let is_new = marks.insert(mark)?;
            Ok(!is_new)
        }
        None => Ok(false),
    }
}

/// The first of a list that a later one is the same as.
pub fn first_repeated<T: Marked>(alloc: Global, items: &[T]) -> Result<Option<Key>, Memory>
    ensures { IfOk result (λ found. found ≡ first_repeated_in T.same T.key_of items.now) }
{
    let mut marks = BTreeSet::new(alloc);
    let mut found = None;
    let mut at = items.len();
    while 0 < at {
        at -= 1;
        let item = &items[at];
        if note(alloc, &mut marks, item)? {
            found = Some(item.key());
        }
    }
    Ok(found)
}

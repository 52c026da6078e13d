//! Copies that equal what is copied.
ghost use Rattle.std.specs.Prelude.{◌≡◌, IfOk};

use crate::{Items, Memory};

/// What can be copied, where there is memory.
pub trait TryClone: Drop {
    /// The same value once more.
    fn try_clone(&self) -> Result<Self, Memory>
    where
        Self: Sized,
        ensures { IfOk result (λ copy. copy ≡ self.now) };
}

impl<K: TryClone, V: TryClone> TryClone for (K, V) {
    fn try_clone(&self) -> Result<(K, V), Memory> {
        Ok((self.0.try_clone()?, self.1.try_clone()?))
    }
}

impl<T: TryClone> TryClone for Items<T> {
    fn try_clone(&self) -> Result<Items<T>, Memory> {
        let mut copy = Items::new(self.allocator());
        for item in self.as_slice() {
            copy.push(item.try_clone()?)?;
        }
        Ok(copy)
    }
}

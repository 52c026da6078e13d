//! Lists and tables over `Vec`, which contracts see as lists, with the room that they have for more.
#![tactic(auto)]

mod items;
mod memory;
mod roomy;
mod sorted;
mod try_clone;

pub use items::Items;
pub use memory::Memory;
pub use roomy::Roomy;
pub use sorted::{ItemChange, ItemRun, ItemTest, Keyed, Sorted};
pub use try_clone::TryClone;

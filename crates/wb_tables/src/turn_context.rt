//! What a turn is known by.
use wb_base::{Moment, Words};

/// A turn: its time, its number and its random words.
#[derive(Clone, Copy, Debug, PartialEq, Eq)]
pub struct TurnContext {
    pub time: Moment,
    pub turn: u64,
    pub words: Words,
}

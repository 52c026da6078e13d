//! A lock with tickets: whoever comes draws one, and is let in to the value at its turn. One history has all entries: the value went from
//! what it was at the start through each of them, in the order of their places.
#![tactic(auto)]

mod closing;
mod deed;
mod entering;
mod entry;
mod lock;
mod opening;
mod plays;
mod seat;
mod steps;

pub use closing::{SeatsOut, close};
pub use deed::{ByWork, Deed, Work};
pub use entering::enter;
pub use entry::{Entry, Guarded, View};
pub use lock::TicketLock;
pub use opening::over;
pub use plays::{TicketRule, Transition};
pub use seat::LockSeat;

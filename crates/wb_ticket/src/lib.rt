//! A gate that is a lock with tickets: turns come in to the host in the order of the tickets that were drawn, and the host goes through
//! one history, in which each turn is one entry.
#![tactic(auto)]

mod closing;
mod gate;
mod laws;
mod opening;
mod seat;
mod turns;

pub use closing::{ClosingRoom, SeatsOut, close_tickets};
pub use gate::TicketGate;
pub use laws::a_history_is_a_script;
pub use opening::{TicketMemory, Tickets};
pub use seat::TicketSeat;

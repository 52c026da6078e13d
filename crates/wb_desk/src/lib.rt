//! The host: one turn after another over its tables, each kept before it is made; and a host whose turns are booked, which passes alone
//! can reach, and jobs on it, which gates let in.
#![tactic(auto)]

mod authorize;
mod batch;
mod closing;
mod desk;
mod gate;
mod job;
mod kept;
mod needs;
mod open;
mod origin;
mod pass;
mod ready;
mod stepping;
mod sums;
mod tally;
mod turn;
mod turning;

pub use closing::{Closed, KeptBack};
pub use desk::Desk;
pub use gate::Gate;
pub use job::{Job, Turn};
pub use kept::Kept;
pub use open::OpenFault;
pub use origin::Origin;
pub use pass::Pass;
pub use tally::Tally;

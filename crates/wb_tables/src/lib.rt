//! The tables of all tenants: what is kept, looked up at a time, purged and counted. They know no route.
#![tactic(auto)]

mod boxed_report;
mod cases;
mod configuration;
mod counts;
mod dead;
mod deletion;
mod noting;
mod numbered;
mod proposal;
mod purge;
mod reports;
mod sessions;
mod tenancy;
mod tenants;
mod turn_context;

pub use boxed_report::{BoxedReport, UnnumberedReport};
pub use cases::Cases;
pub use configuration::Configuration;
pub use counts::{Counts, count};
pub use dead::dead_batch;
pub use deletion::delete_report;
pub use proposal::Proposal;
pub use purge::purge_all;
pub use reports::{live_report, lives, reads, report_of_receipt, today_at};
pub use sessions::{Sessions, live_session};
pub use tenancy::{Login, Report, Tenancy, Who};
pub use tenants::place_at;
pub use turn_context::TurnContext;

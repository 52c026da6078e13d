//! The types that every crate of the host speaks of, the definitions of days, terms, forms and answers,
//! and the traits of the outside with their objects in memory and over std.
#![tactic(auto)]

mod answers;
mod calendar;
mod callers;
mod calls;
mod faults;
mod form;
mod kind;
mod laws;
pub mod limits;
mod memory_keeper;
mod memory_sink;
mod memory_source;
mod numbers;
mod outside;
mod rows;
mod std_ends;
mod text;
mod words;

pub use answers::{Answers, Given};
pub use calendar::{Calendar, are_holidays};
pub use callers::{Presented, Principal, Role};
pub use calls::Calls;
pub use faults::{AnswerFault, Failed, FormFault, KeepErr, TextFault};
pub use form::{Choice, Cond, Field, FieldKind, Form, Format, Part, PartOf, Step, Trigger};
pub use kind::Kind;
pub use laws::{good_forms, points_tell_any_and_all, terms_end_on_the_next_open_day};
pub use memory_keeper::MemKeeper;
pub use memory_sink::MemSink;
pub use memory_source::MemSource;
pub use numbers::{Day, Moment, Number, Tenant, UserId};
pub use outside::{Keeper, Sink, Source};
pub use rows::{Change, Key, Row};
pub use std_ends::{StdSink, StdSource};
pub use text::Text;
pub use wb_list::Memory;
pub use words::{Digest, Salt, Words};

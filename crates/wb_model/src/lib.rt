//! What the host means: its commands, entries and tables as types, and in `specs/` the definitions that every
//! theorem of it speaks of, with their laws.
#![tactic(auto)]

mod access;
mod act;
mod body;
mod command;
mod entry;
mod event;
mod laws;
mod numbering;
mod registry;
mod route;
mod setting;
mod trail;
mod view;
mod wire;

pub use access::{AccessRequest, State};
pub use act::{Act, CaseFault, CustodyFault, Move, Was};
pub use body::{Body, Told};
pub use command::{Asked, Command, ContextSet, Decision, SettingsSet, UserSet};
pub use entry::{Actor, Deed, Entry, Status};
pub use event::{Event, What};
pub use laws::{
    a_dialogue_stands_at_its_places, a_gapped_past_lacks_the_report,
    a_host_is_all_that_is_told_of_its_past, a_host_opens_again, a_numbering_is_left_by_draws,
    a_refusal_changes_nothing_else, a_submission_begins_a_report, a_submission_makes_hosts_alike,
    a_turn_is_a_step_on_the_tables, a_turn_is_not_answered_as_spent, a_turn_is_told_by_the_tables,
    a_turn_keeps_all_hosts_alike, a_turn_keeps_hosts_alike, a_turn_keeps_trails_legal,
    absence_on_one_past, absence_over_openings, absence_over_scripts,
    alike_openings_get_the_same_replies, alike_scripts_get_the_same_replies,
    an_accepted_submission_draws_a_number, an_opening_is_told_by_its_tables,
    answers_that_are_read_stand_in_order, hosts_hold_what_is_read_back, hosts_stand_for_their_past,
    identity_answers_stand_where_the_trail_says_so, losses_are_told, rows_become_those_of_format_2,
    sessions_stand_turn_by_turn, setups_and_kept_rows_make_openings, verdicts_keep_trails_legal,
    what_is_not_refused_is_legal, what_is_set_stands_in_order,
};
pub use numbering::Numbering;
pub use registry::{ContextItem, FormItem, Lists, Rights, TenantItem, UserItem};
pub use route::Route;
pub use setting::AdminFault;
pub use trail::Trail;
pub use view::{Custodied, Due, DueKind, Listed};
pub use wire::{PathNo, ScriptFrame, WireFault};

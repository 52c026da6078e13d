//! What a host promises of each script that it plays, in bytes: both halves of the promise, of reports that are submitted in the script and
//! of those that were kept before the start.
#![tactic(auto)]

mod laws;

pub use laws::{
    a_desk_leaves_rows_that_are_read, each_script_is_as_promised,
    kept_rows_and_a_setup_open_one_past,
};

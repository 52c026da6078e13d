//! JSON (RFC 8259), written and read: members of objects, lists, dates and answers, as the bodies of requests and replies and the
//! kept rows have them; and the names of roles, rights, statuses, states and kinds, from and to texts.
#![tactic(auto)]

mod answers;
mod json_text;
mod members;
mod names;
mod read_error;
mod read_lists;
mod read_members;
mod values;

pub use answers::{answers_under, read_answers};
pub use json_text::read_json;
pub use members::{
    put_date, put_date_or_null, put_flag, put_null, put_text, put_value, put_whole,
    put_whole_or_null, text_of,
};
pub use names::{
    kind_name, rights_value, role_name, role_named, state_name, status_name, status_named,
    with_right,
};
pub use read_error::ReadError;
pub use read_lists::{Part, list_if_under, list_under, read_list};
pub use read_members::{
    flag_under, long_under, read_text, rights_under, role_under, status_under, str_under,
    text_if_under, text_under, user_under, whole_under,
};
pub use values::{Showing, answers_value, list_value};

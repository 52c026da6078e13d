//! Notices: what users are told of their reports, by number alone, and an outbox of them. Nothing here sees an identity answer.
#![tactic(auto)]

mod arising;
mod laws;
mod lines;
mod live;
mod notice;
mod notifying;
mod outbox;
mod owing;
mod reading;
mod users;

pub use laws::{
    a_delivery_may_be_tried_again, after_a_delivery_each_owed_notice_stands_once,
    notices_tell_nothing_of_identity_answers, what_is_delivered_is_read,
};
pub use notice::{Notice, NoticeKind, notice_row};
pub use notifying::notify;
pub use outbox::{NoticeNo, deliver};
pub use owing::owed;

//! The rows that bodies list.

use crate::{State, Status};
use wb_base::{Day, Text, UserId};

/// A report in the list of a recipient.
#[derive(Drop)]
pub struct Listed {
    pub number: u32,
    pub context: u32,
    pub label: Text,
    pub status: Status,
    /// The tenant's days of the submission, of the due acknowledgement and of the expiry.
    pub received: Day,
    pub ack_due: Day,
    pub expires: Day,
}

/// What is due to a report's reporter (Directive (EU) 2019/1937, Article 9).
#[derive(Clone, Copy, Debug, PartialEq, Eq)]
pub enum DueKind {
    /// The acknowledgement of its receipt.
    Ack,
    /// Feedback.
    Feedback,
}

/// A report on which something is due on a day.
#[derive(Clone, Copy, Debug, PartialEq, Eq)]
pub struct Due {
    pub day: Day,
    pub number: u32,
    pub kind: DueKind,
}

/// A request for the identity of a report's reporter.
#[derive(Drop)]
pub struct Custodied {
    /// The report.
    pub number: u32,
    /// The request, counted from 1 on each report.
    pub id: u32,
    /// Who asked.
    pub by: UserId,
    pub reason: Text,
    pub state: State,
    /// The moment from which on the grant is in force, in seconds, where one was given.
    pub effective: Option<u64>,
}

//! The kinds of terms of a report.

/// What is due on a day: the acknowledgement of receipt and feedback to the reporter
/// (Directive (EU) 2019/1937, Article 9(1)(b) and (f)), or that the report goes (Article 18(1)).
#[derive(Clone, Copy, Debug, PartialEq, Eq, PartialOrd, Ord)]
pub enum Kind {
    /// The last day for the acknowledgement.
    Ack,
    /// The last day for feedback.
    Feedback,
    /// The day on which the report expires.
    Expiry,
}

//! What one deed says of its report.
ghost use Rattle.std.specs.Prelude.{◌≡◌, is_some};
ghost use Rattle.std.specs.Option.{option_map};
ghost use Rattle.wb_model.specs.Trails.{status_in, context_in, acknowledged_in, extension_in, feedback_due_in, expires_in, submission_in, is_feedback, is_marked, remark_of, Submission};
ghost use Rattle.wb_case.specs.Summaries.{needed_by, postponing, labelled_after as labelled_after_by};

use wb_base::Day;
use wb_model::{Deed, Entry, Status};

/// The status that it sets.
pub(crate) fn status_of(deed: &Deed) -> Option<Status>
    ensures { result ≡ status_in deed.now }
{
    match deed {
        Deed::SetStatus { status } => Some(*status),
        _ => None,
    }
}

/// The context that the report comes into.
pub(crate) fn context_of(deed: &Deed) -> Option<u32>
    ensures { result ≡ context_in deed.now }
{
    match deed {
        Deed::Submitted { context, .. } | Deed::Transferred { context, .. } => Some(*context),
        _ => None,
    }
}

/// The day on which the report was received.
pub(crate) fn received_of(deed: &Deed) -> Option<Day>
    ensures { result ≡ option_map (λ (s : Submission). s.received) (submission_in deed.now) }
{
    match deed {
        Deed::Submitted { received, .. } => Some(*received),
        _ => None,
    }
}

/// The last day for the acknowledgement.
pub(crate) fn ack_due_of(deed: &Deed) -> Option<Day>
    ensures { result ≡ option_map (λ (s : Submission). s.ack_due) (submission_in deed.now) }
{
    match deed {
        Deed::Submitted { ack_due, .. } => Some(*ack_due),
        _ => None,
    }
}

/// The day on which receipt was acknowledged.
pub(crate) fn acknowledged_of(deed: &Deed) -> Option<Option<Day>>
    ensures { result ≡ acknowledged_in deed.now }
{
    match deed {
        Deed::Acknowledged { day, .. } => Some(Some(*day)),
        _ => None,
    }
}

/// The feedback day of an extension.
pub(crate) fn extension_of(deed: &Deed) -> Option<Option<Day>>
    ensures { result ≡ extension_in deed.now }
{
    match deed {
        Deed::Extended { feedback_due, .. } => Some(Some(*feedback_due)),
        _ => None,
    }
}

/// The last day for feedback.
pub(crate) fn feedback_due_of(deed: &Deed) -> Option<Day>
    ensures { result ≡ feedback_due_in deed.now }
{
    match deed {
        Deed::Submitted { feedback_due, .. }
        | Deed::Acknowledged { feedback_due, .. }
        | Deed::Extended { feedback_due, .. } => Some(*feedback_due),
        _ => None,
    }
}

/// The day on which the report expires.
pub(crate) fn expires_of(deed: &Deed) -> Option<Day>
    ensures { result ≡ expires_in deed.now }
{
    match deed {
        Deed::Submitted { expires, .. } | Deed::Postponed { expires } => Some(*expires),
        _ => None,
    }
}

/// The place of the label, where it was at a place before and the deed is at another.
pub(crate) fn labelled_after(before: usize, at: usize, deed: &Deed) -> usize
    ensures { result ≡ labelled_after_by before at deed.now }
{
    match deed {
        Deed::Label { .. } => at,
        _ => before,
    }
}

/// Whether it is feedback.
pub(crate) fn gives_feedback(deed: &Deed) -> bool
    ensures { result ≡ is_feedback deed.now }
{
    match deed {
        Deed::Feedback { .. } => true,
        _ => false,
    }
}

/// Whether an identity answer came with it.
pub(crate) fn gives_identity(deed: &Deed) -> bool
    ensures { result ≡ is_marked deed.now }
{
    match deed {
        Deed::Submitted { mark, .. } => *mark,
        Deed::Identity => true,
        _ => false,
    }
}

/// How many postponements it is.
pub(crate) fn postpones(deed: &Deed) -> usize
    ensures { result ≡ postponing deed.now }
{
    match deed {
        Deed::Postponed { .. } => 1,
        _ => 0,
    }
}

/// For how many more readers it needs room.
pub(crate) fn needs(deed: &Deed) -> usize
    ensures { result ≡ needed_by deed.now }
{
    match deed {
        Deed::Submitted { readers, .. } | Deed::Transferred { readers, .. } => readers.len(),
        Deed::Shared { .. } => 1,
        _ => 0,
    }
}

/// Whether an entry is a remark of the dialogue.
pub(crate) fn is_remark(entry: &Entry) -> bool
    ensures { result ≡ is_some (remark_of entry.now) }
{
    match &entry.deed {
        Deed::Comment { .. }
        | Deed::Acknowledged { .. }
        | Deed::Feedback { .. }
        | Deed::Extended { .. } => true,
        Deed::Granted { withheld, .. } => withheld.is_none(),
        _ => false,
    }
}

//! The dialogue of a report: its comments, acknowledgements, feedback, extensions and notices.
ghost use Rattle.std.specs.Prelude.{◌≡◌, map, option_map, option_and_then, slice_get, IfOk};
ghost use Rattle.wb_model.specs.Trails as trails;
ghost use Rattle.wb_views.specs.Seen.{remark_seen};

use std::alloc::Global;
use wb_base::{Memory, Moment, UserId};
use wb_case::Case;
use wb_model::{Actor, Deed, Entry, a_dialogue_stands_at_its_places};

/// A remark, by whom and of what kind; the user is none for the reporter.
#[derive(Clone, Copy)]
pub(crate) struct Remark<'a> {
    pub(crate) at: Moment,
    pub(crate) from: &'a str,
    pub(crate) kind: &'a str,
    pub(crate) text: &'a str,
    pub(crate) internal: bool,
    pub(crate) user: Option<UserId>,
}

// Whose side the author of a comment is on.
fn commenter(actor: Actor) -> &'static str
    ensures { result.now ≡ trails.commenter actor }
{
    match actor {
        Actor::Reporter => "reporter",
        Actor::User(_) => "recipient",
    }
}

// The user who acted, if it was one.
fn some_user(actor: Actor) -> Option<UserId>
    ensures { result ≡ trails.some_user actor }
{
    match actor {
        Actor::Reporter => None,
        Actor::User(user) => Some(user),
    }
}

// The remark that an entry is. The notice of a grant is one only where it was not withheld.
fn remark_of(entry: &Entry) -> Option<Remark<'_>>
    ensures { option_map remark_seen result ≡ trails.remark_of entry.now }
{
    let (from, kind, text, internal) = match &entry.deed {
        Deed::Comment { internal, text } => (
            commenter(entry.by),
            "comment",
            text.as_str(),
            *internal,
        ),
        Deed::Acknowledged { .. } => ("recipient", "acknowledgement", "", false),
        Deed::Feedback { text } => ("recipient", "feedback", text.as_str(), false),
        Deed::Extended { reason, .. } => ("recipient", "extension", reason.as_str(), false),
        Deed::Granted {
            reason,
            withheld: None,
            ..
        } => ("custodian", "notice", reason.as_str(), false),
        _ => return None,
    };
    Some(Remark {
        at: entry.at,
        from,
        kind,
        text,
        internal,
        user: some_user(entry.by),
    })
}

// The remark at a place of a trail, where there is one.
fn remark_at(trail: &[Entry], place: usize) -> Option<Remark<'_>>
    ensures { option_map remark_seen result ≡ option_and_then trails.remark_of (slice_get trail.now place) }
{
    match trail.get(place) {
        Some(entry) => remark_of(entry),
        None => None,
    }
}

// The remarks at these places of a trail.
fn remarks_at<'a>(
    alloc: Global,
    trail: &'a [Entry],
    places: &[usize],
) -> Result<Vec<Remark<'a>>, Memory>
    ensures { IfOk result (λ found. map remark_seen found.items ≡ trails.remarks_at trail.now places.now) }
{
    let mut found = Vec::new(alloc);
    for place in places {
        if let Some(remark) = remark_at(trail, *place) {
            if found.push(remark).is_err() {
                return Err(Memory);
            }
        }
    }
    Ok(found)
}

/// The dialogue of a report, the oldest remark first, by the places that are kept of it.
pub(crate) fn dialogue<'a>(alloc: Global, case: &'a Case) -> Result<Vec<Remark<'a>>, Memory>
    ensures { IfOk result (λ found. map remark_seen found.items ≡ trails.dialogue case.now.items) }
{
    a_dialogue_stands_at_its_places();
    remarks_at(
        alloc,
        case.trail().as_slice(),
        case.summary().dialogue.as_slice(),
    )
}

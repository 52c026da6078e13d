//! The act or move that a kept deed was, as far as the report's rules look at it.
ghost use Rattle.std.specs.Prelude.{◌≡◌, List, IfOk};
ghost use Rattle.std.specs.Option.{option_map_or};
ghost use Rattle.wb_model.specs.declared.entry.Entry.{Entry};
ghost use Rattle.wb_model.specs.Access.{requests, request_at};
ghost use Rattle.wb_model.specs.Legal.{done};
ghost use Rattle.wb_rows.specs.Legality.{IsActLike, IsMoveLike, IsRoomLike, IsOfUsers};

use std::alloc::Global;
use wb_base::{Day, Memory, Text};
use wb_custody::AccessDesk;
use wb_list::{Items, TryClone};
use wb_model::{Act, Deed, Move};

/// The act that a deed was, without texts, days and readers.
pub fn act_of(alloc: Global, deed: &Deed) -> Option<Act>
    ensures { (trail : List Entry) → IsActLike (done trail deed.now) result }
{
    match deed {
        Deed::Identity => Some(Act::Identity),
        Deed::Comment { .. } => Some(Act::Comment {
            internal: false,
            text: Text::empty(alloc),
        }),
        Deed::Label { .. } => Some(Act::Label(Text::empty(alloc))),
        Deed::SetStatus { status } => Some(Act::SetStatus(*status)),
        Deed::Acknowledged { .. } => Some(Act::Acknowledge { today: Day::new(0) }),
        Deed::Feedback { .. } => Some(Act::Feedback(Text::empty(alloc))),
        Deed::Shared { user } => Some(Act::Share(*user)),
        Deed::Unshared { user } => Some(Act::Unshare(*user)),
        Deed::Transferred { context, .. } => Some(Act::Transfer {
            context: *context,
            is_open: true,
            readers: Items::new(alloc),
        }),
        Deed::Postponed { .. } => Some(Act::Postpone {
            today: Day::new(0),
            retention: 0,
        }),
        Deed::Extended { .. } => Some(Act::Extend {
            reason: Text::empty(alloc),
            external: true,
        }),
        _ => None,
    }
}

// The stamp of a request, 0 where it is not there.
fn own_stamp(desk: &AccessDesk, request: u32) -> u32
    ensures { result ≡ option_map_or (λ r. r.stamp) (request_at request desk.now.items) 0 }
{
    let request = request as usize;
    if 0 < request && request <= desk.len() {
        desk.get(request).stamp
    } else {
        0
    }
}

/// The move that a deed was, without notice and reason but an ask's.
pub fn move_of(alloc: Global, desk: &AccessDesk, deed: &Deed) -> Result<Option<Move>, Memory>
    ensures like { IfOk result (λ found. (trail : List Entry) → requests trail ≡ desk.now.items → IsMoveLike desk.now.items (done trail deed.now) found) }
    ensures room { IfOk result (λ found. IsRoomLike found deed.now) }
    ensures users { IfOk result (λ found. IsOfUsers found deed.now) }
{
    match deed {
        Deed::Asked { reason, stamp } => Ok(Some(Move::Ask {
            reason: reason.try_clone()?,
            stamp: *stamp,
        })),
        Deed::Granted { request, .. } => Ok(Some(Move::Grant {
            request: *request,
            stamp: own_stamp(desk, *request),
            notice_days: 0,
            reason: Text::empty(alloc),
            withheld: None,
        })),
        Deed::Denied { request, .. } => Ok(Some(Move::Deny {
            request: *request,
            stamp: own_stamp(desk, *request),
            reason: Text::empty(alloc),
        })),
        Deed::Revoked { request, .. } => Ok(Some(Move::Revoke {
            request: *request,
            stamp: own_stamp(desk, *request),
            reason: Text::empty(alloc),
        })),
        _ => Ok(None),
    }
}

//! What a move puts on a trail.
ghost use Rattle.std.specs.Prelude.{◌≡◌, ◌≤◌, List, length, false, true, IfOk};
ghost use Rattle.wb_model.specs.declared.entry.Entry.{Entry as EntryData};
ghost use Rattle.wb_model.specs.Moves as moves;
ghost use Rattle.wb_model.specs.Doings.{Moves};
ghost use Rattle.wb_model.specs.Legal.{Reckoning, last_at, is_reporter, right_actor, AsksRightly, GoesOn};
ghost use Rattle.wb_custody.specs.Desks.{HasRoom};
ghost use Rattle.wb_custody.specs.Plans.{IsPlanned, GivesPlan, IsTrailOf};

use crate::AccessDesk;
use crate::rules::id_of;
use wb_base::{Moment, Text};
use wb_model::{Actor, CustodyFault, Deed, Entry, Move, what_is_not_refused_is_legal};

/// The seconds of a day.
const DAY: u64 = 86_400;

// The moment from which on a grant is in force, in seconds: at once where the notice is withheld.
fn effective(at: Moment, notice_days: u8, withheld: &Option<Text>) -> u64
    ensures { result ≡ moves.effective at notice_days withheld.now }
{
    match withheld {
        Some(_) => at.seconds(),
        None => at.seconds() + DAY * u64::from(notice_days),
    }
}

// The deed that a move is.
fn deed(at: Moment, move_: Move) -> Deed
    ensures { result ≡ moves.move_deed at move_ }
{
    match move_ {
        Move::Ask { reason, stamp } => Deed::Asked { reason, stamp },
        Move::Grant {
            request,
            notice_days,
            reason,
            withheld,
            ..
        } => Deed::Granted {
            effective: effective(at, notice_days, &withheld),
            reason,
            request,
            withheld,
        },
        Move::Deny {
            request,
            reason,
            ..
        } => Deed::Denied { reason, request },
        Move::Revoke {
            request,
            reason,
            ..
        } => Deed::Revoked { reason, request },
    }
}

// The entry that a move is.
fn entry(at: Moment, by: Actor, move_: Move) -> Entry
    ensures { result ≡ record { at = at; by = by; deed = moves.move_deed at move_ } }
{
    Entry {
        at,
        by,
        deed: deed(at, move_),
    }
}

impl AccessDesk {
    // The entry of a move, or the first rule that refuses it. It takes no memory.
    fn judge(
        &self,
        trail: usize,
        mark: bool,
        at: Moment,
        by: Actor,
        move_: Move,
    ) -> Result<Entry, CustodyFault>
        requires { length self.now.items ≤ 100 }
        ensures { IsPlanned trail mark self.now.items at by move_ result }
    {
        if let Some(fault) = self.fault(trail, mark, id_of(&by), &move_) {
            return Err(fault);
        }
        Ok(entry(at, by, move_))
    }

    /// The entry of a user's move, and room for it, or the first rule that refuses it.
    ///
    /// The trail has so many entries, and the mark tells whether an identity answer was given with the report or later. The
    /// stamp in the move is how often the asker was disabled by now: in an ask the caller, else who asked the request.
    /// Where the requests are those of the trail, the entry is legal after it.
    pub fn plan(
        &mut self,
        trail: usize,
        mark: bool,
        at: Moment,
        by: Actor,
        move_: Move,
    ) -> Result<Entry, CustodyFault>
        requires few { length self.old.items ≤ 100 }
        requires user { is_reporter by ≡ false }
        ensures plan { GivesPlan trail mark self.old.items at by move_ result }
        ensures items { self.new.items ≡ self.old.items }
        ensures room { IfOk result (λ entry. HasRoom self.new entry.deed) }
        ensures actor { IfOk result (λ entry. right_actor entry.deed entry.by ≡ true) }
        ensures legal { IfOk result (λ entry. (days : Reckoning) (before : List EntryData) → IsTrailOf self.old.items trail mark before → AsksRightly days at by (Moves move_) → last_at 0 before ≤ at → GoesOn days before entry) }
    {
        what_is_not_refused_is_legal();
        match self.judge(trail, mark, at, by, move_) {
            Ok(entry) => match self.reserve(&entry.deed) {
                Ok(()) => Ok(entry),
                Err(_) => Err(CustodyFault::Memory),
            },
            Err(fault) => Err(fault),
        }
    }
}

//! What an act puts on a trail.
ghost use Rattle.std.specs.Prelude.{◌≡◌, ◌<◌, ◌≤◌, ℤ, true, OnOk, IfOk, IfSome};
ghost use Rattle.wb_base.specs.Days.{IsEarlyDay};
ghost use Rattle.wb_base.specs.Terms as terms;
ghost use Rattle.wb_model.specs.Trails as trails;
ghost use Rattle.wb_model.specs.Acts.{act_deed};
ghost use Rattle.wb_model.specs.Doings.{Acts};
ghost use Rattle.wb_model.specs.Legal.{last_at, AsksRightly, GoesOn, reckoning_by};
ghost use Rattle.wb_case.specs.Plans.{IsInRange, IsPlanned, GivesPlan};
ghost use Rattle.wb_case.specs.Summaries.{needed_by};

use crate::Case;
use wb_base::{Calendar, Day, Moment};
use wb_model::{Act, Actor, CaseFault, Deed, Entry, what_is_not_refused_is_legal};
use wb_terms::{expiry, feedback_due};

impl Case {
    // The time for feedback was extended.
    fn is_extended(&self) -> bool
        ensures { result ≡ trails.is_extended self.now.items }
    {
        self.summary().extension.is_some()
    }

    // The last day for feedback with an extension.
    fn extended_due(&self, calendar: &Calendar) -> Day
        requires received { IsEarlyDay (trails.received self.now.items) }
        requires acknowledged { IfSome (trails.acknowledged self.now.items) IsEarlyDay }
        ensures { result ≡ terms.feedback_due (trails.received self.now.items) (trails.acknowledged self.now.items) true calendar.now }
    {
        let summary = self.summary();
        feedback_due(summary.received, summary.acknowledged, true, calendar)
    }

    // The deed that an act is.
    fn deed(&self, act: Act, calendar: &Calendar) -> Deed
        requires { IsInRange self.now.items act }
        ensures { result ≡ act_deed calendar.now self.now.items act }
    {
        match act {
            Act::Comment { internal, text } => Deed::Comment { internal, text },
            Act::Label(text) => Deed::Label { text },
            Act::SetStatus(status) => Deed::SetStatus { status },
            Act::Acknowledge { today } => Deed::Acknowledged {
                day: today,
                // The months are counted from the acknowledgement alone.
                feedback_due: feedback_due(today, Some(today), self.is_extended(), calendar),
            },
            Act::Feedback(text) => Deed::Feedback { text },
            Act::Share(user) => Deed::Shared { user },
            Act::Unshare(user) => Deed::Unshared { user },
            Act::Transfer {
                context,
                readers,
                ..
            } => Deed::Transferred { context, readers },
            Act::Postpone { today, retention } => Deed::Postponed {
                expires: self.summary().expires.max(expiry(today, retention)),
            },
            Act::Extend { reason, .. } => Deed::Extended {
                feedback_due: self.extended_due(calendar),
                reason,
            },
            Act::Identity => Deed::Identity,
        }
    }

    // The entry of an act, or the first rule that refuses it. It takes no memory.
    fn judge(
        &self,
        at: Moment,
        by: Actor,
        act: Act,
        calendar: &Calendar,
    ) -> Result<Entry, CaseFault>
        requires { IsInRange self.now.items act }
        ensures { IsPlanned calendar.now self.now.items at by act result }
    {
        match self.fault(&act) {
            Some(fault) => Err(fault),
            None => Ok(Entry {
                at,
                by,
                deed: self.deed(act, calendar),
            }),
        }
    }

    /// The entry of an act, and room for it, or the first rule that refuses it.
    ///
    /// It looks at no entry of the trail. Where who acts, the day and the moment are right, the entry is legal after the trail, on
    /// this calendar.
    pub fn plan(
        &mut self,
        at: Moment,
        by: Actor,
        act: Act,
        calendar: &Calendar,
    ) -> Result<Entry, CaseFault>
        requires { IsInRange self.old.items act }
        ensures plan { GivesPlan calendar.now self.old.items at by act result }
        ensures items { self.new.items ≡ self.old.items }
        ensures room { OnOk result (0 < self.new.spare) }
        ensures kept { self.old.spare ≤ self.new.spare }
        ensures few { IfOk result (λ entry. needed_by entry.deed ≤ 32) }
        ensures legal { IfOk result (λ entry. (offset : ℤ) → AsksRightly (reckoning_by offset calendar.now) at by (Acts act) → last_at 0 self.old.items ≤ at → GoesOn (reckoning_by offset calendar.now) self.old.items entry) }
    {
        what_is_not_refused_is_legal();
        match self.judge(at, by, act, calendar) {
            Ok(entry) => match self.reserve() {
                Ok(()) => Ok(entry),
                Err(_) => Err(CaseFault::Memory),
            },
            Err(fault) => Err(fault),
        }
    }
}

//! The rules of acts: each refuses one, or does not.
ghost use Rattle.std.specs.Prelude.{◌≡◌};
ghost use Rattle.std.specs.Option.{option_or};
ghost use Rattle.wb_model.specs.Acts as acts;

use crate::Case;
use wb_base::{UserId, limits};
use wb_model::{Act, CaseFault, Status, Was};

// The first of two refusals.
fn first(refusal: Option<CaseFault>, other: Option<CaseFault>) -> Option<CaseFault>
    ensures { result ≡ option_or refusal other }
{
    match refusal {
        Some(fault) => Some(fault),
        None => other,
    }
}

// The other context is not open.
fn context_closed(is_open: bool) -> Option<CaseFault>
    ensures { result ≡ acts.context_closed is_open }
{
    if is_open {
        None
    } else {
        Some(CaseFault::ContextClosed)
    }
}

// The tenant is no external channel.
fn not_external(external: bool) -> Option<CaseFault>
    ensures { result ≡ acts.not_external external }
{
    if external {
        None
    } else {
        Some(CaseFault::NotExternal)
    }
}

impl Case {
    // The report is closed.
    fn closed(&self) -> Option<CaseFault>
        ensures { result ≡ acts.closed self.now.items }
    {
        if self.summary().status == Status::Closed {
            Some(CaseFault::Closed)
        } else {
            None
        }
    }

    // It has the status.
    fn has_status(&self, status: Status) -> Option<CaseFault>
        ensures { result ≡ acts.has_status status self.now.items }
    {
        if self.summary().status == status {
            Some(CaseFault::Already(Was::Status(status)))
        } else {
            None
        }
    }

    // It was acknowledged.
    fn acknowledged(&self) -> Option<CaseFault>
        ensures { result ≡ acts.acknowledged self.now.items }
    {
        match self.summary().acknowledged {
            Some(day) => Some(CaseFault::Already(Was::Day(day))),
            None => None,
        }
    }

    // The time for feedback was extended.
    fn extended(&self) -> Option<CaseFault>
        ensures { result ≡ acts.extended self.now.items }
    {
        match self.summary().extension {
            Some(day) => Some(CaseFault::Already(Was::Day(day))),
            None => None,
        }
    }

    // The user reads it.
    fn has_reader(&self, user: UserId) -> Option<CaseFault>
        ensures { result ≡ acts.has_reader user self.now.items }
    {
        if self.summary().readers.contains(user) {
            Some(CaseFault::Already(Was::User(user)))
        } else {
            None
        }
    }

    // The user does not read it.
    fn not_reader(&self, user: UserId) -> Option<CaseFault>
        ensures { result ≡ acts.not_reader user self.now.items }
    {
        if self.summary().readers.contains(user) {
            None
        } else {
            Some(CaseFault::NotReader)
        }
    }

    // At most one user reads it.
    fn last_reader(&self) -> Option<CaseFault>
        ensures { result ≡ acts.last_reader self.now.items }
    {
        if self.summary().readers.len() <= 1 {
            Some(CaseFault::LastReader)
        } else {
            None
        }
    }

    // It is of that context.
    fn same_context(&self, context: u32) -> Option<CaseFault>
        ensures { result ≡ acts.same_context context self.now.items }
    {
        if self.summary().context == context {
            Some(CaseFault::SameContext)
        } else {
            None
        }
    }

    // It was postponed as often as it may be.
    fn postpone_spent(&self) -> Option<CaseFault>
        ensures { result ≡ acts.postpone_spent self.now.items }
    {
        if limits::POSTPONEMENTS <= self.summary().postponements {
            Some(CaseFault::PostponeSpent)
        } else {
            None
        }
    }

    // The trail has room for no act.
    fn full(&self) -> Option<CaseFault>
        ensures { result ≡ acts.full self.now.items }
    {
        if self.trail().len() < limits::TRAIL_ENTRIES {
            None
        } else {
            Some(CaseFault::TrailFull)
        }
    }

    /// What refuses an act: the first of its rules that does. It looks at no entry of the trail.
    pub fn fault(&self, act: &Act) -> Option<CaseFault>
        ensures { result ≡ acts.case_fault self.now.items act.now }
    {
        match act {
            Act::Comment { .. } | Act::Feedback(_) | Act::Identity => {
                first(self.closed(), self.full())
            }
            Act::Label(_) => self.full(),
            Act::SetStatus(status) => first(self.has_status(*status), self.full()),
            Act::Acknowledge { .. } => {
                first(self.closed(), first(self.acknowledged(), self.full()))
            }
            Act::Share(user) => first(self.has_reader(*user), self.full()),
            Act::Unshare(user) => first(self.not_reader(*user), self.last_reader()),
            Act::Transfer {
                context,
                is_open,
                ..
            } => first(self.closed(), self.transfer(*context, *is_open)),
            Act::Postpone { .. } => first(self.postpone_spent(), self.full()),
            Act::Extend { external, .. } => first(self.closed(), self.extension(*external)),
        }
    }

    // What refuses an extension of a report that is not closed.
    fn extension(&self, external: bool) -> Option<CaseFault>
        ensures { result ≡ option_or (acts.not_external external) (option_or (acts.extended self.now.items) (acts.full self.now.items)) }
    {
        first(not_external(external), first(self.extended(), self.full()))
    }

    // What refuses a transfer of a report that is not closed.
    fn transfer(&self, context: u32, is_open: bool) -> Option<CaseFault>
        ensures { result ≡ option_or (acts.same_context context self.now.items) (option_or (acts.context_closed is_open) (acts.full self.now.items)) }
    {
        first(
            self.same_context(context),
            first(context_closed(is_open), self.full()),
        )
    }
}

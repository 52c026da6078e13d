//! A report whose trail is read entry by entry.
ghost use Rattle.std.specs.Prelude.{◌≡◌, ◌++◌, ◌∷◌, [], not, is_some, length, true, false, Ok, ◌≤◌, IfOk, OnOk};
ghost use Rattle.wb_base.specs.Days.{IsOffset};
ghost use Rattle.wb_custody.specs.Desks.{HasRoom};
ghost use Rattle.wb_model.specs.Access.{user_by};
ghost use Rattle.wb_model.specs.Acts.{case_fault};
ghost use Rattle.wb_model.specs.Legal.{is_reporter, is_next, is_first as is_first_of};
ghost use Rattle.wb_model.specs.Moves.{custody_fault, move_deed};
ghost use Rattle.wb_model.specs.Trails.{has_identity};
ghost use Rattle.wb_rows.specs.OpenReports.{IsOpen, IsStill};
ghost use Rattle.wb_rows.specs.Reckoned.{reckoned};

use crate::days::Days;
use crate::done::{act_of, move_of};
use crate::legal::is_fit;
use std::alloc::Global;
use wb_base::{Memory, Moment, Number, Tenant};
use wb_case::{Case, a_legal_entry_names_few_readers, a_legal_trail_has_early_days};
use wb_custody::{AccessDesk, what_legal_trails_say_of_requests};
use wb_model::{Act, Actor, CustodyFault, Entry, Move};

/// A report whose trail is read so far, with its requests and the moment of its last entry.
#[derive(Drop)]
pub struct Open {
    pub tenant: Tenant,
    pub number: Number,
    pub case: Case,
    desk: AccessDesk,
    last: Moment,
}

impl Open {
    /// The report that begins with an entry.
    pub fn start(
        alloc: Global,
        days: &Days,
        tenant: Tenant,
        number: Number,
        entry: Entry,
    ) -> Result<Open, Memory>
        requires { is_first_of (reckoned days.now) entry ≡ true }
        ensures tenant { IfOk result (λ o. o.tenant ≡ tenant) }
        ensures number { IfOk result (λ o. o.number ≡ number) }
        ensures trail { IfOk result (λ o. o.case.items ≡ entry ∷ []) }
        ensures open { IfOk result (IsOpen (reckoned days.now)) }
    {
        let last = entry.at;
        match Case::start(alloc, entry) {
            Ok(case) => Ok(Open {
                tenant,
                number,
                case,
                desk: AccessDesk::new(alloc),
                last,
            }),
            Err(_) => Err(Memory),
        }
    }

    // Whether nothing in the report refuses an act.
    fn is_act_free(&self, act: &Act) -> bool
        ensures { result ≡ not (is_some (case_fault self.now.case.items act.now)) }
    {
        self.case.fault(act).is_none()
    }

    // Whether nothing in the report refuses a user's move. Then there is room for it.
    fn is_move_free(&mut self, at: Moment, by: Actor, move_: Move) -> Result<bool, Memory>
        requires few { length self.old.desk.items ≤ 100 }
        requires user { is_reporter by ≡ false }
        ensures free { IfOk result (λ is_free. is_free ≡ not (is_some (custody_fault (length self.old.case.items) (has_identity self.old.case.items) self.old.desk.items (user_by by) move_))) }
        ensures still { IsStill self.old self.new }
        ensures room { result ≡ Ok true → HasRoom self.new.desk (move_deed at move_) }
    {
        let entries = self.case.trail().len();
        let mark = self.case.summary().has_identity;
        match self.desk.plan(entries, mark, at, by, move_) {
            Ok(_) => Ok(true),
            Err(CustodyFault::Memory) => Err(Memory),
            Err(_) => Ok(false),
        }
    }

    /// Whether an entry is legal after the trail. Then there is room for its request.
    pub fn judge(&mut self, alloc: Global, days: &Days, entry: &Entry) -> Result<bool, Memory>
        requires offset { IsOffset days.now.offset }
        requires open { IsOpen (reckoned days.now) self.old }
        ensures next { IfOk result (λ is. is ≡ is_next (reckoned days.now) self.old.last self.old.case.items entry.now) }
        ensures still { IsStill self.old self.new }
        ensures room { result ≡ Ok true → HasRoom self.new.desk entry.now.deed }
    {
        what_legal_trails_say_of_requests();
        a_legal_trail_has_early_days();
        let _moment = self.last.seconds();
        if !is_fit(days, &self.case, self.last, entry) {
            return Ok(false);
        }
        if let Some(act) = act_of(alloc, &entry.deed) {
            return Ok(self.is_act_free(&act));
        }
        match move_of(alloc, &self.desk, &entry.deed)? {
            Some(move_) => self.is_move_free(entry.at, entry.by, move_),
            None => Ok(false),
        }
    }

    /// Puts an entry at the end that is legal after the trail and that there is room for.
    pub fn put(&mut self, days: &Days, entry: Entry) -> Result<(), Memory>
        requires open { IsOpen (reckoned days.now) self.old }
        requires next { is_next (reckoned days.now) self.old.last self.old.case.items entry ≡ true }
        requires room { HasRoom self.old.desk entry.deed }
        ensures tenant { self.new.tenant ≡ self.old.tenant }
        ensures number { self.new.number ≡ self.old.number }
        ensures trail { OnOk result (self.new.case.items ≡ self.old.case.items ++ entry ∷ []) }
        ensures open { OnOk result (IsOpen (reckoned days.now) self.new) }
    {
        a_legal_entry_names_few_readers();
        what_legal_trails_say_of_requests();
        if self.case.reserve().is_err() {
            return Err(Memory);
        }
        self.desk.take(&entry);
        self.last = entry.at;
        self.case.take(entry);
        Ok(())
    }
}

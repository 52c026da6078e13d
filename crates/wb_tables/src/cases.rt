//! The reports of a tenant, the days on which they expire, those that have requests or something due, and their receipts.
ghost use Rattle.std.specs.Prelude.{◌≡◌, ◌+◌, ◌<◌, ◌≤◌, ◌++◌, ◌∷◌, [], ℕ, true, false, not, length, map, filter, slice_get, List, None, Some, IfOk, OnOk, OnErr, IfSome, OnSome, IfNone, option_map};
ghost use Rattle.std.specs.List.{list_any};
ghost use Rattle.std.specs.Option.{option_copied};
ghost use Rattle.std.specs.Ordering.{int_eq, nat_cmp};
ghost use Rattle.wb_case.specs.Plans.{GivesPlan, IsInRange};
ghost use Rattle.wb_custody.specs.Plans as custody;
ghost use Rattle.wb_list.specs.Keyed.{IsAscending};
ghost use Rattle.wb_model.specs.Access.{requests};
ghost use Rattle.wb_model.specs.Host.{noted};
ghost use Rattle.wb_model.specs.Legal.{is_reporter, right_actor};
ghost use Rattle.wb_model.specs.Opened.{AtMost};
ghost use Rattle.wb_model.specs.Tables.{has_number, is_there, others, report as report_by, with_receipt as with_receipt_by};
ghost use Rattle.wb_model.specs.Trails.{has_identity, submitted};
ghost use Rattle.wb_model.specs.declared.entry.Entry.{Entry as EntryData};
ghost use Rattle.wb_tables.specs.Indexed.{AreCustodied, AreExpired, AreFewRequests, IsTakenOut, expiry_of, has_dues as has_dues_by, has_requests, moved};
ghost use Rattle.wb_tables.specs.Lives.{AreEarly, HasEarlyDays, case_of, lives_on};
ghost use Rattle.wb_tables.specs.Noted.{IsReadyNote};
ghost use Rattle.wb_tables.specs.Receipted.{HasOwnReceipt, is_submitted};
ghost use Rattle.wb_terms.specs.Index.{same_term};
ghost use Rattle.wb_terms.specs.declared.term_index.Term.{Term as TermData};

use crate::boxed_report::{BoxedReport, report_in};
use crate::noting::{Acting, Moving, Noting, expires, has_dues};
use crate::numbered::{Numbered, put_where};
use crate::tenancy::Report;
use std::alloc::Global;
use std::marker::Model;
use wb_access::ReceiptBox;
use wb_base::{Calendar, Day, Digest, Kind, Memory, Moment, Number, Tenant};
use wb_list::Sorted;
use wb_model::{Act, Actor, CaseFault, CustodyFault, Deed, Entry, Move};
use wb_terms::{Term, TermIndex};

/// The reports of a tenant, in the order of their numbers. Those that do not live on a day, those that have requests for
/// their identity, those on which something is due, and that with a receipt, are found without a walk over the others.
#[derive(Drop)]
pub struct Cases {
    tenant: Tenant,
    cases: Sorted<BoxedReport>,
    asked: Sorted<Numbered>,
    due: Sorted<Numbered>,
    terms: TermIndex,
    receipts: ReceiptBox,
}

impl Model for Cases {
    ghost use Rattle.std.specs.Prelude.{map, min};
    ghost use Rattle.wb_tables.specs.Indexed.{Reports, IsIndexed, AreCustodied, AreNumbersOf, has_requests, has_dues};
    ghost use Rattle.wb_tables.specs.Lives.{case_of};
    ghost use Rattle.wb_tables.specs.Receipted.{AreReceipted};

    ghost Value = { Reports };

    ghost view = { λ c. record { tenant = c.tenant; items = c.cases.items; spare = min (min c.cases.spare (min c.asked.spare c.due.spare)) (min c.terms.spare c.receipts.spare) } };

    ghost invariant = { λ c. IsIndexed c.tenant (map case_of c.cases.items) c.terms.items
        × AreCustodied c.cases.items
        × AreReceipted c.tenant (map case_of c.cases.items) c.receipts.items
        × AreNumbersOf has_requests (map case_of c.cases.items) c.asked.items
        × AreNumbersOf has_dues (map case_of c.cases.items) c.due.items };
}

// The day on which a report expires, as a term.
fn expiry(tenant: Tenant, report: &Report) -> Term
    ensures { result ≡ expiry_of tenant (case_of report.now) }
{
    Term {
        tenant,
        day: expires(report),
        number: report.number,
        kind: Kind::Expiry,
    }
}

// The digest of the receipt that a trail's submission has, where there is one.
fn receipt(trail: &[Entry]) -> Option<Digest>
    ensures { option_map (λ digest. digest.0) result ≡ submitted (λ s. Some s.receipt) None trail.now }
{
    let mut found = None;
    for entry in trail {
        if let Deed::Submitted { receipt, .. } = &entry.deed {
            found = Some(*receipt);
        }
    }
    found
}

// Moves a term to a day, into room that was made. On another day it is not there yet.
fn move_term(terms: &mut TermIndex, term: Term, day: Day)
    requires room { 0 < terms.old.spare }
    requires free { int_eq term.day day ≡ false → list_any (same_term (record term { day = day })) terms.old.items ≡ false }
    requires there { list_any (same_term term) terms.old.items ≡ true }
    ensures { (t : TermData) → list_any (same_term t) terms.new.items ≡ moved term (record term { day = day }) t (list_any (same_term t) terms.old.items) }
{
    if term.day != day {
        terms.remove(&term);
        terms.add(Term { day, ..term });
    }
}

impl Cases {
    /// No report. It takes no memory.
    pub fn new(alloc: Global, tenant: Tenant) -> Cases
        ensures tenant { result.tenant ≡ tenant }
        ensures items { result.items ≡ [] }
    {
        Cases {
            tenant,
            cases: Sorted::new(alloc),
            asked: Sorted::new(alloc),
            due: Sorted::new(alloc),
            terms: TermIndex::new(alloc),
            receipts: ReceiptBox::new(alloc),
        }
    }

    /// All reports, in the order of their numbers.
    pub fn as_slice(&self) -> &[BoxedReport]
        ensures all { result.now ≡ self.now.items }
        ensures ascending { IsAscending nat_cmp (λ report. report.number) self.now.items }
        ensures custodied { AreCustodied self.now.items }
    {
        self.cases.as_slice()
    }

    /// The report of a number, found by binary search.
    pub fn find(&self, number: u32) -> Option<&Report>
        ensures found { option_map case_of (option_copied result) ≡ report_by number (map case_of self.now.items) }
        ensures custodied { IfSome result (λ report. report.now.desk.items ≡ requests report.now.case.items) }
    {
        report_in(self.cases.find(&number))
    }

    /// The report whose receipt has a digest, found by the hash of the receipt and a binary search.
    pub fn with_receipt(&self, digest: &Digest) -> Option<&Report>
        ensures found { option_map case_of (option_copied result) ≡ with_receipt_by digest.now (map case_of self.now.items) }
        ensures custodied { IfSome result (λ report. report.now.desk.items ≡ requests report.now.case.items) }
    {
        let number = self.receipts.find(self.tenant, digest)?;
        report_in(self.cases.find(&number.get()))
    }

    /// How many reports have requests for their identity.
    pub fn asked_len(&self) -> usize
        ensures { result ≡ length (filter has_requests (map case_of self.now.items)) }
    {
        self.asked.len()
    }

    /// The report at a place among those that have requests, counted from 0 in the order of their numbers, found by
    /// binary search.
    pub fn asked_at(&self, at: usize) -> &Report
        requires there { at < length (filter has_requests (map case_of self.now.items)) }
        ensures report { slice_get (filter has_requests (map case_of self.now.items)) at ≡ Some (case_of result.now) }
        ensures custodied { result.now.desk.items ≡ requests result.now.case.items }
    {
        let number = self.asked.get(at).number;
        match report_in(self.cases.find(&number.get())) {
            Some(report) => report,
            None => unreachable!(),
        }
    }

    /// On how many reports something is due.
    pub fn due_len(&self) -> usize
        ensures { result ≡ length (filter has_dues_by (map case_of self.now.items)) }
    {
        self.due.len()
    }

    /// The report at a place among those on which something is due, counted from 0 in the order of their numbers, found by
    /// binary search.
    pub fn due_at(&self, at: usize) -> &Report
        requires there { at < length (filter has_dues_by (map case_of self.now.items)) }
        ensures { slice_get (filter has_dues_by (map case_of self.now.items)) at ≡ Some (case_of result.now) }
    {
        let number = self.due.get(at).number;
        match report_in(self.cases.find(&number.get())) {
            Some(report) => report,
            None => unreachable!(),
        }
    }

    /// Makes room for one more report, or one more entry of one.
    pub fn reserve(&mut self) -> Result<(), Memory>
        ensures tenant { self.new.tenant ≡ self.old.tenant }
        ensures items { self.new.items ≡ self.old.items }
        ensures room { OnOk result (0 < self.new.spare) }
        ensures kept { self.old.spare ≤ self.new.spare }
    {
        self.terms.reserve(1)?;
        self.asked.reserve(1)?;
        self.due.reserve(1)?;
        if self.receipts.reserve().is_err() {
            return Err(Memory);
        }
        self.cases.reserve(1)
    }

    /// Adds a report with the greatest number and a receipt of its own, into room that was made. It takes no memory.
    pub fn add(&mut self, filed: BoxedReport)
        requires room { 0 < self.old.spare }
        requires above { (last : ℕ) × (AtMost last (map case_of self.old.items) × (last < filed.number)) }
        requires submitted { is_submitted filed.case.items ≡ true }
        requires own { HasOwnReceipt filed.case.items (map case_of self.old.items) }
        requires custodied { filed.desk.items ≡ requests filed.case.items }
        ensures tenant { self.new.tenant ≡ self.old.tenant }
        ensures items { self.new.items ≡ self.old.items ++ filed ∷ [] }
        ensures room { self.old.spare ≤ self.new.spare + 1 }
    {
        let report = filed.report();
        let Some(digest) = receipt(report.case.trail().as_slice()) else {
            unreachable!();
        };
        let term = expiry(self.tenant, report);
        let number = report.number;
        let has_requests = report.desk.len() != 0;
        let has_dues = has_dues(report);
        self.cases.add(filed);
        put_where(&mut self.asked, number, has_requests);
        put_where(&mut self.due, number, has_dues);
        self.terms.add(term);
        self.receipts.add(self.tenant, digest, number);
    }

    /// The entry of an act on the report of a number, on the tenant's calendar, with room for it there, or the first rule
    /// that refuses it.
    pub fn act(
        &mut self,
        number: Number,
        at: Moment,
        by: Actor,
        act: Act,
        calendar: &Calendar,
    ) -> Result<Entry, CaseFault>
        requires there { is_there number (map case_of self.old.items) ≡ true }
        requires early { AreEarly (map case_of self.old.items) }
        requires range { (trail : List EntryData) → HasEarlyDays trail → IsInRange trail act }
        ensures tenant { self.new.tenant ≡ self.old.tenant }
        ensures cases { map case_of self.new.items ≡ map case_of self.old.items }
        ensures plan { (trail : List EntryData) → report_by number (map case_of self.old.items) ≡ Some (record { number = number; trail = trail }) → GivesPlan calendar.now trail at by act result }
        ensures ready { IfOk result (λ entry. right_actor entry.deed entry.by ≡ true → IsReadyNote number entry self.new.items) }
    {
        self.cases.change(
            &number.get(),
            Acting {
                at,
                by,
                act,
                calendar,
            },
        )
    }

    /// The entry of a user's move with the requests for the identity of the report of a number, with room for it there,
    /// or the first rule that refuses it.
    pub fn move_requests(
        &mut self,
        number: Number,
        at: Moment,
        by: Actor,
        move_: Move,
    ) -> Result<Entry, CustodyFault>
        requires there { is_there number (map case_of self.old.items) ≡ true }
        requires few { AreFewRequests (map case_of self.old.items) }
        requires user { is_reporter by ≡ false }
        ensures tenant { self.new.tenant ≡ self.old.tenant }
        ensures cases { map case_of self.new.items ≡ map case_of self.old.items }
        ensures plan { (trail : List EntryData) → report_by number (map case_of self.old.items) ≡ Some (record { number = number; trail = trail })
            → custody.GivesPlan (length trail) (has_identity trail) (requests trail) at by move_ result }
        ensures ready { IfOk result (λ entry. IsReadyNote number entry self.new.items) }
    {
        self.cases.change(&number.get(), Moving { at, by, move_ })
    }

    /// Puts an entry on the report of a number, into room that was made there and here. It takes no memory.
    pub fn note(&mut self, number: Number, entry: Entry)
        requires ready { IsReadyNote number entry self.old.items }
        requires room { 0 < self.old.spare }
        ensures tenant { self.new.tenant ≡ self.old.tenant }
        ensures cases { map case_of self.new.items ≡ map (noted number entry) (map case_of self.old.items) }
    {
        let noted = self.cases.change(&number.get(), Noting(entry));
        let term = Term {
            tenant: self.tenant,
            day: noted.before,
            number,
            kind: Kind::Expiry,
        };
        move_term(&mut self.terms, term, noted.after);
        put_where(&mut self.asked, number, noted.has_requests);
        put_where(&mut self.due, number, noted.has_dues);
    }

    /// The numbers of the reports that do not live on this day. It takes no memory where there are none.
    pub fn expired(&self, today: Day) -> Result<Vec<Number>, Memory>
        ensures dead { IfOk result (λ numbers. AreExpired today (map case_of self.now.items) numbers.items) }
        ensures err { OnErr result (list_any (λ c. not (lives_on today c)) (map case_of self.now.items) ≡ true) }
    {
        self.terms.up_to(self.tenant, today, Kind::Expiry)
    }

    /// Takes the report of a number out, where it is there, and what the indexes have of it. It takes no memory, and looks
    /// at no other report.
    pub fn remove(&mut self, number: Number)
        ensures tenant { self.new.tenant ≡ self.old.tenant }
        ensures left { map case_of self.new.items ≡ others number (map case_of self.old.items) }
        ensures reports { self.new.items ≡ filter (λ r. not (has_number number (case_of r))) self.old.items }
        ensures kept { self.old.spare ≤ self.new.spare }
    {
        let Some(filed) = self.cases.take(&number.get()) else {
            return;
        };
        let report = filed.report();
        let Some(digest) = receipt(report.case.trail().as_slice()) else {
            unreachable!();
        };
        self.asked.take(&number.get());
        self.due.take(&number.get());
        self.terms.remove(&expiry(self.tenant, report));
        self.receipts.remove(self.tenant, &digest);
    }

    /// Takes a report out that does not live on this day, where there is one, and gives its number. It takes no memory.
    pub fn take_expired(&mut self, today: Day) -> Option<Number>
        ensures tenant { self.new.tenant ≡ self.old.tenant }
        ensures taken { IfSome result (λ n. IsTakenOut today n (map case_of self.old.items) (map case_of self.new.items)) }
        ensures living { OnSome result (filter (λ r. lives_on today (case_of r)) self.new.items ≡ filter (λ r. lives_on today (case_of r)) self.old.items) }
        ensures none { IfNone result (list_any (λ c. not (lives_on today c)) (map case_of self.old.items) ≡ false) }
        ensures left { IfNone result (self.new.items ≡ self.old.items) }
        ensures kept { self.old.spare ≤ self.new.spare }
    {
        let term = self.terms.first_up_to(self.tenant, today, Kind::Expiry)?;
        self.remove(term.number);
        Some(term.number)
    }
}

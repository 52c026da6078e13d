//! The terms of all reports, in order.
ghost use Rattle.std.specs.Prelude.{◌≡◌, ◌+◌, ◌<◌, ◌≤◌, [], length, None, Some, IsOk, OnOk, IfOk, IfErr, find, filter, not, if◌then◌else◌};
ghost use Rattle.std.specs.Option.{is_some};
ghost use Rattle.wb_list.specs.Keyed.{IsAscending, insert_item};
ghost use Rattle.wb_terms.specs.Index.{same_kind, same_term, is_up_to, first_of, numbers_of as of_kind, numbers_up_to, side_of};
ghost use Rattle.wb_terms.specs.declared.term_index.Term.{Term as Item};

use std::alloc::Global;
use std::cmp::Ordering;
use std::marker::Model;
use wb_base::{Day, Kind, Number, Tenant};
use wb_list::{ItemRun, Keyed, Memory, Sorted};

/// What is due for a report of a tenant on a day. Terms are ordered by these fields.
#[derive(Clone, Copy, Debug, PartialEq, Eq, PartialOrd, Ord)]
pub struct Term {
    pub tenant: Tenant,
    pub day: Day,
    pub number: Number,
    pub kind: Kind,
}

impl Keyed for Term {
    type Key = Term;

    ghost key_of = { λ term. term };

    fn compare(&self, key: &Term) -> Ordering {
        self.cmp(key)
    }

    fn compare_to(&self, other: &Term) -> Ordering {
        self.cmp(other)
    }
}

/// The terms of a tenant at or before a day.
#[derive(Drop)]
struct UpTo {
    tenant: Tenant,
    day: Day,
}

impl ItemRun<Term> for UpTo {
    ghost use Rattle.wb_terms.specs.Index.{side_of};

    ghost side = { λ run term. side_of run.tenant run.day term };

    fn side(&self, term: &Term) -> Ordering {
        let day = if term.day <= self.day {
            Ordering::Equal
        } else {
            Ordering::Greater
        };
        term.tenant.cmp(&self.tenant).then(day)
    }
}

// The numbers of the terms of a kind.
fn numbers_of(alloc: Global, terms: &[Term], kind: Kind) -> Result<Vec<Number>, Memory>
    ensures numbers { IfOk result (λ numbers. numbers.items ≡ of_kind kind terms.now) }
    ensures some { IfErr result (λ _. 0 < length (of_kind kind terms.now)) }
{
    let mut numbers = Vec::new(alloc);
    for term in terms {
        if is_kind(term.kind, kind) {
            numbers.push(term.number)?;
        }
    }
    Ok(numbers)
}

// The first of the terms that is of a kind.
fn first_among(terms: &[Term], kind: Kind) -> Option<Term>
    ensures { result ≡ first_of kind terms.now }
{
    for first in terms {
        if is_kind(first.kind, kind) {
            return Some(*first);
        }
    }
    None
}

// Whether two kinds are the same.
fn is_kind(kind: Kind, other: Kind) -> bool
    ensures { result ≡ same_kind kind other }
{
    kind == other
}

/// Terms in the order of tenant, day, number and kind, each once, seen as their list and its spare room.
#[derive(Drop)]
pub struct TermIndex {
    terms: Sorted<Term>,
}

impl Model for TermIndex {
    ghost use Rattle.wb_list.specs.Room.{Room};
    ghost use Rattle.wb_terms.specs.declared.term_index.Term.{Term as Item};

    ghost Value = { Room Item };

    ghost view = { λ index. index.terms };
}

impl TermIndex {
    /// No term. It takes no memory.
    pub fn new(alloc: Global) -> TermIndex
        ensures { result.items ≡ [] }
    {
        TermIndex {
            terms: Sorted::new(alloc),
        }
    }

    /// All terms, in order.
    pub fn as_slice(&self) -> &[Term]
        ensures all { result.now ≡ self.now.items }
        ensures ascending { IsAscending ⟦<Term as Ord>⟧.cmp (λ term. term) self.now.items }
    {
        self.terms.as_slice()
    }

    /// Makes room for n more.
    pub fn reserve(&mut self, n: usize) -> Result<(), Memory>
        ensures items { self.new.items ≡ self.old.items }
        ensures room { OnOk result (n ≤ self.new.spare) }
        ensures enough { n ≤ self.old.spare → IsOk result }
        ensures kept { self.old.spare ≤ self.new.spare }
    {
        self.terms.reserve(n)
    }

    /// Adds a term that is not there, into room that was made. It takes no memory.
    pub fn add(&mut self, term: Term)
        requires room { 0 < self.old.spare }
        requires free { find (same_term term) self.old.items ≡ None }
        ensures items { self.new.items ≡ insert_item ⟦<Term as Ord>⟧.cmp (λ term. term) self.old.items term }
        ensures found { (other : Item) → find (same_term other) self.new.items ≡ (if same_term other term then Some term else find (same_term other) self.old.items) }
        ensures room { self.old.spare ≤ self.new.spare + 1 }
    {
        self.terms.add(term);
    }

    /// Takes a term out, found by binary search, and tells whether it was there.
    pub fn remove(&mut self, term: &Term) -> bool
        ensures there { result ≡ is_some (find (same_term term.now) self.old.items) }
        ensures items { self.new.items ≡ filter (λ other. not (same_term term.now other)) self.old.items }
        ensures gone { find (same_term term.now) self.new.items ≡ None }
        ensures kept { self.old.spare ≤ self.new.spare }
    {
        self.terms.take(term).is_some()
    }

    /// The first of the tenant's terms of a kind at or before a day. It takes no memory, and looks at the tenant's
    /// terms up to the day alone.
    pub fn first_up_to(&self, tenant: Tenant, day: Day, kind: Kind) -> Option<Term>
        ensures { result ≡ first_of kind (filter (is_up_to tenant day) self.now.items) }
    {
        let until = UpTo { tenant, day };
        first_among(self.terms.run(&until), kind)
    }

    /// The numbers of the tenant's terms of a kind at or before a day, by day and number. It takes memory only
    /// where there is a number to give. The terms of the tenant up to the day are found by binary search; those
    /// of other kinds among them are passed over.
    pub fn up_to(&self, tenant: Tenant, day: Day, kind: Kind) -> Result<Vec<Number>, Memory>
        ensures numbers { IfOk result (λ numbers. numbers.items ≡ numbers_up_to tenant day kind self.now.items) }
        ensures some { IfErr result (λ _. 0 < length (numbers_up_to tenant day kind self.now.items)) }
    {
        let up_to = UpTo { tenant, day };
        numbers_of(self.terms.allocator(), self.terms.run(&up_to), kind)
    }
}

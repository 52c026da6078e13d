//! A report.
ghost use Rattle.std.specs.Prelude.{◌≡◌, ◌+◌, ◌<◌, ◌≤◌, ◌++◌, ◌∷◌, [], OnOk, IfOk, IfErr, true};
ghost use Rattle.wb_model.specs.Trails.{label as label_by};
ghost use Rattle.wb_model.specs.Legal.{Reckoning, is_legal, is_next, last_at};
ghost use Rattle.wb_model.specs.declared.act.CaseFault.TheVariants as faults;
ghost use Rattle.wb_case.specs.Summaries.{IsSummary, needed_by};

use crate::Summary;
use std::alloc::Global;
use std::marker::Model;
use wb_base::{Memory, limits};
use wb_model::{
    CaseFault, Deed, Entry, Trail, a_dialogue_stands_at_its_places, what_is_not_refused_is_legal,
};

/// A report's trail, seen as the list of its entries and the room that it has for more. Beside it stands what the trail says.
#[derive(Drop)]
pub struct Case {
    trail: Trail,
    summary: Summary,
}

impl Model for Case {
    ghost use Rattle.wb_list.specs.Room.{Room};
    ghost use Rattle.wb_model.specs.declared.entry.Entry.{Entry};
    ghost use Rattle.wb_case.specs.Summaries.{IsSummary, needed_by};
    ghost use Rattle.wb_case.specs.Rooms.{room_of};

    ghost Value = { Room Entry };

    ghost view = { λ case. record { items = case.trail.items; spare = room_of case.trail.spare case.summary } };

    ghost invariant = { λ case. IsSummary case.summary case.trail.items };
}

impl Case {
    // The report of a trail.
    fn of(alloc: Global, trail: Trail) -> Result<Case, Memory>
        ensures { IfOk result (λ case. case.items ≡ trail.items) }
    {
        let summary = Summary::of(alloc, trail.as_slice())?;
        Ok(Case { trail, summary })
    }

    // The report that begins with an entry.
    fn begun(alloc: Global, entry: Entry) -> Result<Case, Memory>
        ensures { IfOk result (λ case. case.items ≡ entry ∷ []) }
    {
        let mut trail = Trail::new(alloc);
        trail.reserve()?;
        trail.push(entry);
        Case::of(alloc, trail)
    }

    /// The report that begins with an entry, the submission.
    pub fn start(alloc: Global, entry: Entry) -> Result<Case, CaseFault>
        ensures case { IfOk result (λ case. case.items ≡ entry ∷ []) }
        ensures fault { IfErr result (λ fault. fault ≡ faults.Memory) }
    {
        match Case::begun(alloc, entry) {
            Ok(case) => Ok(case),
            Err(_) => Err(CaseFault::Memory),
        }
    }

    /// The report of a trail that was kept.
    pub fn rebuild(alloc: Global, trail: Trail) -> Result<Case, CaseFault>
        ensures case { IfOk result (λ case. case.items ≡ trail.items) }
        ensures fault { IfErr result (λ fault. fault ≡ faults.Memory) }
    {
        match Case::of(alloc, trail) {
            Ok(case) => Ok(case),
            Err(_) => Err(CaseFault::Memory),
        }
    }

    /// Its trail.
    pub fn trail(&self) -> &Trail
        ensures { result.now.items ≡ self.now.items }
    {
        &self.trail
    }

    /// What its trail says.
    pub fn summary(&self) -> &Summary
        ensures { IsSummary result.now self.now.items }
    {
        &self.summary
    }

    /// Its label, which may be empty.
    pub fn label(&self) -> &str
        ensures { result.now ≡ label_by self.now.items }
    {
        match self.trail.as_slice().get(self.summary.labelled) {
            Some(
                Entry {
                    deed: Deed::Label { text },
                    ..
                },
            ) => text.as_str(),
            _ => "",
        }
    }

    // Makes room for one more entry, whichever it is.
    fn make_room(&mut self) -> Result<(), Memory>
        ensures items { self.new.items ≡ self.old.items }
        ensures room { OnOk result (0 < self.new.spare) }
        ensures kept { self.old.spare ≤ self.new.spare }
    {
        self.trail.reserve()?;
        self.summary.reserve(limits::READERS)
    }

    /// Makes room for one more entry, whichever legal one it is.
    pub fn reserve(&mut self) -> Result<(), CaseFault>
        ensures items { self.new.items ≡ self.old.items }
        ensures room { OnOk result (0 < self.new.spare) }
        ensures kept { self.old.spare ≤ self.new.spare }
        ensures fault { IfErr result (λ fault. fault ≡ faults.Memory) }
    {
        match self.make_room() {
            Ok(()) => Ok(()),
            Err(_) => Err(CaseFault::Memory),
        }
    }

    /// Puts an entry at the end, into room that was made. It names at most 32 readers, as each legal one does. It takes no
    /// memory, and a legal trail stays legal with a legal entry.
    pub fn take(&mut self, entry: Entry)
        requires few { needed_by entry.deed ≤ 32 }
        requires room { 0 < self.old.spare }
        ensures items { self.new.items ≡ self.old.items ++ entry ∷ [] }
        ensures legal { (days : Reckoning) → is_legal days self.old.items ≡ true → is_next days (last_at 0 self.old.items) self.old.items entry ≡ true → is_legal days self.new.items ≡ true }
        ensures room { self.old.spare ≤ self.new.spare + 1 }
    {
        a_dialogue_stands_at_its_places();
        what_is_not_refused_is_legal();
        self.trail.push(entry);
        let at = self.trail.len() - 1;
        self.summary.note(at, self.trail.get(at));
    }
}

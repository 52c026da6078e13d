//! What a trail says so far, kept beside it.
ghost use Rattle.std.specs.Prelude.{◌≡◌, ◌+◌, ◌≤◌, ◌<◌, ◌++◌, ◌∷◌, ◌^◌, [], OnOk, IfOk};
ghost use Rattle.wb_model.specs.Trails.{readers_by, remark_places};
ghost use Rattle.wb_case.specs.Summaries.{IsSummary, IsAfter, needed_by};

use crate::Readers;
use crate::deeds::{
    ack_due_of, acknowledged_of, context_of, expires_of, extension_of, feedback_due_of,
    gives_feedback, gives_identity, is_remark, labelled_after, needs, postpones, received_of,
    status_of,
};
use std::alloc::Global;
use wb_base::{Day, Memory};
use wb_list::Roomy;
use wb_model::{Deed, Entry, Status, a_dialogue_stands_at_its_places};

/// What a trail says so far, so that no act and no list walks the trail.
#[derive(Drop)]
pub struct Summary {
    pub status: Status,
    /// The place in the trail of the entry that has the label, 0 where none has one.
    pub labelled: usize,
    pub context: u32,
    pub readers: Readers,
    pub received: Day,
    /// The last day for the acknowledgement (Directive (EU) 2019/1937, Article 9(1)(b)).
    pub ack_due: Day,
    pub acknowledged: Option<Day>,
    /// The feedback day of the extension, where there was one (Directive (EU) 2019/1937, Article 11(2)(d)).
    pub extension: Option<Day>,
    /// The last day for feedback (Directive (EU) 2019/1937, Article 9(1)(f)).
    pub feedback_due: Day,
    pub feedback_given: bool,
    pub expires: Day,
    /// How often it was postponed.
    pub postponements: usize,
    /// Whether an identity answer was given, with the report or later.
    pub has_identity: bool,
    /// The places in the trail, counted from 0, of the entries that the dialogue shows.
    pub dialogue: Roomy<usize>,
}

impl Summary {
    // What no entry says.
    pub(crate) fn start(alloc: Global) -> Summary
        ensures { IsSummary result [] }
    {
        let first = Day::new(0);
        Summary {
            status: Status::New,
            labelled: 0,
            context: 0,
            readers: Readers::new(alloc),
            received: first,
            ack_due: first,
            acknowledged: None,
            extension: None,
            feedback_due: first,
            feedback_given: false,
            expires: first,
            postponements: 0,
            has_identity: false,
            dialogue: Roomy::new(alloc),
        }
    }

    // Makes room for one more place of the dialogue, and for so many more readers.
    pub(crate) fn reserve(&mut self, readers: usize) -> Result<(), Memory>
        ensures facts { (trail : _) → IsSummary self.old trail → IsSummary self.new trail }
        ensures dialogue { OnOk result (0 < self.new.dialogue.spare) }
        ensures readers { OnOk result (readers ≤ self.new.readers.spare) }
        ensures dialogue_kept { self.old.dialogue.spare ≤ self.new.dialogue.spare }
        ensures readers_kept { self.old.readers.spare ≤ self.new.readers.spare }
    {
        self.dialogue.reserve(1)?;
        self.readers.reserve(readers)
    }

    // The readers after a deed.
    fn note_readers(&mut self, deed: &Deed)
        requires { needed_by deed.now ≤ self.old.readers.spare }
        ensures others { self.new ≡ record self.old { readers = self.new.readers } }
        ensures readers { self.new.readers.items ≡ readers_by self.old.readers.items deed.now }
        ensures room { self.old.readers.spare ≤ self.new.readers.spare + needed_by deed.now }
    {
        match deed {
            Deed::Submitted { readers, .. } | Deed::Transferred { readers, .. } => {
                self.readers.replace(readers.as_slice())
            }
            Deed::Shared { user } => self.readers.insert(*user),
            Deed::Unshared { user } => self.readers.remove(*user),
            _ => (),
        }
    }

    // The dialogue after an entry at a place.
    fn note_remark(&mut self, at: usize, entry: &Entry)
        requires { 0 < self.old.dialogue.spare }
        ensures others { self.new ≡ record self.old { dialogue = self.new.dialogue } }
        ensures places { self.new.dialogue.items ≡ self.old.dialogue.items ++ remark_places at (entry.now ∷ []) }
        ensures room { self.old.dialogue.spare ≤ self.new.dialogue.spare + 1 }
    {
        if is_remark(entry) {
            self.dialogue.push(at);
        }
    }

    // What the trail says with one more entry, at this place.
    pub(crate) fn note(&mut self, at: usize, entry: &Entry)
        requires place { 0 < self.old.dialogue.spare }
        requires readers { needed_by entry.now.deed ≤ self.old.readers.spare }
        requires postponements { self.old.postponements ≤ at }
        requires more { at + 1 < 2 ^ 64 }
        ensures after { IsAfter self.old self.new at entry.now }
        ensures dialogue { self.old.dialogue.spare ≤ self.new.dialogue.spare + 1 }
        ensures readers { self.old.readers.spare ≤ self.new.readers.spare + needed_by entry.now.deed }
    {
        let deed = &entry.deed;
        self.note_readers(deed);
        self.note_remark(at, entry);
        self.status = status_of(deed).unwrap_or(self.status);
        self.labelled = labelled_after(self.labelled, at, deed);
        self.context = context_of(deed).unwrap_or(self.context);
        self.received = received_of(deed).unwrap_or(self.received);
        self.ack_due = ack_due_of(deed).unwrap_or(self.ack_due);
        self.acknowledged = acknowledged_of(deed).unwrap_or(self.acknowledged);
        self.extension = extension_of(deed).unwrap_or(self.extension);
        self.feedback_due = feedback_due_of(deed).unwrap_or(self.feedback_due);
        self.feedback_given = self.feedback_given || gives_feedback(deed);
        self.expires = expires_of(deed).unwrap_or(self.expires);
        self.postponements = self.postponements + postpones(deed);
        self.has_identity = self.has_identity || gives_identity(deed);
    }

    // What these entries say.
    pub(crate) fn of(alloc: Global, entries: &[Entry]) -> Result<Summary, Memory>
        ensures { IfOk result (λ summary. IsSummary summary entries.now) }
    {
        a_dialogue_stands_at_its_places();
        let mut summary = Summary::start(alloc);
        for (at, entry) in entries.iter().enumerate() {
            summary.reserve(needs(&entry.deed))?;
            summary.note(at, entry);
        }
        Ok(summary)
    }
}

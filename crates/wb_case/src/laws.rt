//! Laws of legal trails, each a function with no body.
ghost use Rattle.std.specs.Prelude.{◌≡◌, ◌≤◌, ℕ, List, true, IfSome};
ghost use Rattle.wb_base.specs.Days.{IsEarlyDay, IsOffset};
ghost use Rattle.wb_model.specs.Trails.{received, acknowledged};
ghost use Rattle.wb_model.specs.declared.entry.Entry.{Entry};
ghost use Rattle.wb_model.specs.Legal.{Reckoning, is_legal, is_next, last_at};
ghost use Rattle.wb_case.specs.Summaries.{needed_by};

/// An entry that is legal after others names at most 32 readers, so a case with room takes it.
pub fn a_legal_entry_names_few_readers()
    ensures { (days : Reckoning) (time : ℕ) (trail : List Entry) (e : Entry) → is_next days time trail e ≡ true → needed_by e.deed ≤ 32 }
{}

/// The days of a legal trail from which terms are counted are days to which terms may be added.
pub fn a_legal_trail_has_early_days()
    ensures received { (days : Reckoning) (trail : List Entry) → IsOffset days.offset → last_at 0 trail ≤ 99_999_999_999 → is_legal days trail ≡ true → IsEarlyDay (received trail) }
    ensures acknowledged { (days : Reckoning) (trail : List Entry) → IsOffset days.offset → last_at 0 trail ≤ 99_999_999_999 → is_legal days trail ≡ true → IfSome (acknowledged trail) IsEarlyDay }
{}

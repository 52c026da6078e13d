//! A law of the requests of legal trails, a function with no body.
ghost use Rattle.std.specs.Prelude.{◌≡◌, ◌≤◌, ℕ, List, length, true};
ghost use Rattle.wb_model.specs.declared.entry.Entry.{Entry};
ghost use Rattle.wb_model.specs.Access.{requests};
ghost use Rattle.wb_model.specs.Legal.{Reckoning, is_legal, is_next, right_actor};
ghost use Rattle.wb_custody.specs.Desks.{have_right_actors};

/// What a legal trail says of its requests: there are at most 100, and each entry is by whom it may be, so a desk is made
/// of it, plans after it, and takes each legal entry that it has room for.
pub fn what_legal_trails_say_of_requests()
    ensures few { (days : Reckoning) (trail : List Entry) → is_legal days trail ≡ true → length (requests trail) ≤ 100 }
    ensures actors { (days : Reckoning) (trail : List Entry) → is_legal days trail ≡ true → have_right_actors trail ≡ true }
    ensures actor { (days : Reckoning) (time : ℕ) (trail : List Entry) (e : Entry) → is_next days time trail e ≡ true → right_actor e.deed e.by ≡ true }
{}

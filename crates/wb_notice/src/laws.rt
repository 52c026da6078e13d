//! Laws of notices and of an outbox, each a function with no body.
ghost use Rattle.std.specs.Prelude.{◌≡◌, ◌≤◌, ℕ, Bool, true, List, map, fold, find, All, Option};
ghost use Rattle.std.specs.List.{list_all, list_any};
ghost use Rattle.wb_base.specs.AnswerList.{Answered};
ghost use Rattle.wb_base.specs.declared.rows.Key.{Key};
ghost use Rattle.wb_base.specs.declared.rows.Row.{Row};
ghost use Rattle.wb_base.specs.KeptRows.{key_cmp, key_of};
ghost use Rattle.wb_list.specs.Keyed.{IsAscending, has_key};
ghost use Rattle.wb_model.specs.KeptRules.{AreKept};
ghost use Rattle.wb_rows.specs.Held.{Held};
ghost use Rattle.wb_rows.specs.Openings.{tables_of, time_of};
ghost use Rattle.wb_notice.specs.declared.notice.Notice.{Notice};
ghost use Rattle.wb_notice.specs.Calls.{Call, delivered, left_after, made, try};
ghost use Rattle.wb_notice.specs.Notices.{IsNotice, notice_row};
ghost use Rattle.wb_notice.specs.Outbox.{box, is_of_live, lives, stands};
ghost use Rattle.wb_notice.specs.Owed.{Unsealed, owed, unsealed};

/// What is owed, and what a delivery makes of an outbox, is the same for tables that differ in identity answers alone.
pub fn notices_tell_nothing_of_identity_answers()
    ensures owed { (h : Held) (answers : ℕ → ℕ → Option Answered) (now : ℕ) → owed (unsealed (record h { sealed = answers })) now ≡ owed (unsealed h) now }
    ensures delivered { (h : Held) (answers : ℕ → ℕ → Option Answered) (now : ℕ) (rows : List Row) → box (unsealed (record h { sealed = answers })) now rows ≡ box (unsealed h) now rows }
{}

/// After a delivery each notice that is owed stands, and stands once, and each row is of a live report. A row of a live report
/// that stood is the same: it is not written anew.
pub fn after_a_delivery_each_owed_notice_stands_once()
    ensures stand { (x : Unsealed) (now : ℕ) (rows : List Row) → list_all (λ (n : Notice). stands (box x now rows) (notice_row n).key) (owed x now) ≡ true }
    ensures once { (x : Unsealed) (now : ℕ) (rows : List Row) → IsAscending key_cmp key_of rows → IsAscending key_cmp key_of (box x now rows) }
    ensures live { (x : Unsealed) (now : ℕ) (rows : List Row) → list_all (is_of_live x now) (box x now rows) ≡ true }
    ensures same { (x : Unsealed) (now : ℕ) (rows : List Row) (key : Key) → stands rows key ≡ true → lives x now key.tenant key.a ≡ true → find (has_key key_cmp key_of key) (box x now rows) ≡ find (has_key key_cmp key_of key) rows }
{}

/// After a list of calls, refused ones among them, an outbox is as after a delivery for each call that was made, in turn. Where
/// all are over the same tables at the same moment and one was made, it is as after one delivery, however often it was tried.
pub fn a_delivery_may_be_tried_again()
    ensures each { (rows : List Row) (calls : List Call) → left_after rows calls ≡ fold delivered rows (made calls) }
    ensures again { (x : Unsealed) (now : ℕ) (rows : List Row) → box x now (box x now rows) ≡ box x now rows }
    ensures tries { (x : Unsealed) (now : ℕ) (rows : List Row) (tries : List Bool) → list_any (λ is_made. is_made) tries ≡ true → left_after rows (map (try x now) tries) ≡ box x now rows }
{}

/// What a delivery over kept tables leaves is read by the next: each row is that of a notice.
pub fn what_is_delivered_is_read()
    ensures { (h : Held) (now : ℕ) (rows : List Row) → ((t : ℕ) → AreKept (time_of h) h.lists t (tables_of h t)) → now ≤ 99_999_999_999 → All IsNotice rows → All IsNotice (box (unsealed h) now rows) }
{}

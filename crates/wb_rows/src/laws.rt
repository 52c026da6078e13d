//! Laws of rows, each a function with no body: that what is written is read, and what the rows that a change puts make of
//! the rows of a host.
ghost use Rattle.std.specs.Prelude.{◌≡◌, ℕ, List, map, All, Bool, true, false, Some, Ok};
ghost use Rattle.wb_model.specs.Host.{changed};
ghost use Rattle.wb_model.specs.Legal.{ascends};
ghost use Rattle.wb_model.specs.Opened.{Ascend, AreVersions};
ghost use Rattle.wb_model.specs.Past.{Past};
ghost use Rattle.wb_model.specs.Pasts.{AllOpened};
ghost use Rattle.wb_model.specs.Readable.{are_stored};
ghost use Rattle.wb_model.specs.Reopened.{left_time};
ghost use Rattle.wb_model.specs.Rows.{row, rows};
ghost use Rattle.wb_model.specs.SetUps.{AreSetUp};
ghost use Rattle.wb_model.specs.declared.registry.Lists.{Lists};
ghost use Rattle.wb_model.specs.Settings.{Setting};
ghost use Rattle.wb_model.specs.Tables.{Case, report};
ghost use Rattle.wb_model.specs.Tenants.{Tenancy};
ghost use Rattle.wb_rows.specs.Good.{AreGood};
ghost use Rattle.wb_rows.specs.Held.{Held};
ghost use Rattle.wb_rows.specs.HeldRows.{rows_of as rows_held, rows_in};
ghost use Rattle.wb_rows.specs.HeldItems.{items_of};
ghost use Rattle.wb_rows.specs.Judged.{judged};
ghost use Rattle.wb_rows.specs.Left.{left, HoldsWhatIsLeft, IsReadBack};
ghost use Rattle.wb_rows.specs.Openings.{with_setup, AreReadableIn, HasNothingElse};
ghost use Rattle.wb_setup.specs.Joined.{joined};
ghost use Rattle.std.specs.List.{list_all};
ghost use Rattle.wb_base.specs.declared.form.Format.TheVariants.{Plain};
ghost use Rattle.wb_row_codec.specs.Items.{is_kept_in};
ghost use Rattle.wb_rows.specs.Puts.{IsVersion, StandBefore, StandAfter, EntriesPutTheirRows, SettingPutsItsRow, IsNew, NewTenantsPutTheirRows};

/// The rows of tables that keep the rules, with each value in its range, are refused by no rule, and are read as these tables.
pub fn what_is_written_is_read()
    ensures { (at : ℕ) (h : Held) → AreGood at h → judged (rows_held h) ≡ Ok h }
{}

/// So are the rows of format 1 of such tables that have no scored form.
pub fn what_was_written_in_format_1_is_read()
    ensures { (at : ℕ) (h : Held) → AreGood at h → list_all (is_kept_in Plain) (items_of h) ≡ true → judged (rows_in Plain h) ≡ Ok h }
{}

/// The rows that the hosts of a past leave are refused by no rule, and are read as what the hosts hold: tables that keep the
/// rules, with each value in its range. What they hold is what they left: all but sessions, at the greatest moment.
///
/// Verdicts made the past, of requests in their ranges and at moments in theirs, from an opening whose rows are read back.
pub fn what_hosts_leave_is_read()
    ensures good { (past : Past AllOpened) → IsReadBack past → AreGood (left_time past) (left past) }
    ensures rows { (past : Past AllOpened) → IsReadBack past → rows_held (left past) ≡ rows past }
    ensures read { (past : Past AllOpened) → IsReadBack past → judged (rows past) ≡ Ok (left past) }
    ensures left { (past : Past AllOpened) → IsReadBack past → HoldsWhatIsLeft past (left past) }
{}

/// What a host is opened with, over tables that were read and a setup, is such that the rows of its hosts are read back.
pub fn openings_are_read_back()
    ensures { (setup : Lists) (h : Held) → AreSetUp setup → are_stored setup ≡ true → AreSetUp h.lists → are_stored h.lists ≡ true → AreReadableIn h.lists h → HasNothingElse h → AreReadableIn (joined setup h.lists) (with_setup setup h) }
{}

/// One more entry on a report puts its row, and that of the identity answers that come with it. The rows after these are
/// those of the changed tables.
///
/// Tenants stand in the order of their ids, and a tenant's reports in that of their numbers.
pub fn an_entry_puts_its_rows()
    ensures { (before after : List Tenancy) (x : Tenancy) → StandBefore before x → StandAfter after x → Ascend 0 x.tables.plain.cases → (n : ℕ) (case : Case) → report n x.tables.plain.cases ≡ Some case → EntriesPutTheirRows before x after n case }
{}

/// A setting of a tenant puts one row, and the rows after it are those of the changed tables.
///
/// Tenants stand in the order of their ids, and no form has more than 99 versions.
pub fn a_setting_puts_its_row()
    ensures { (before after : List Tenancy) (x : Tenancy) → StandBefore before x → StandAfter after x → AreVersions x.tables.plain.registry.forms → (setting : Setting) → IsVersion setting → SettingPutsItsRow before x after setting }
{}

/// Tenants that are added to others put their rows, tenant by tenant; they have no report yet, and what they are set up
/// with is in order. The rows after these are those of all of them, which stand in the order of their ids.
pub fn new_tenants_put_their_rows()
    ensures { (is_old : Tenancy → Bool) (all : List Tenancy) → ascends (map (λ (x : Tenancy). x.id) all) ≡ true → All (λ (x : Tenancy). is_old x ≡ false → IsNew x) all → NewTenantsPutTheirRows is_old all }
{}

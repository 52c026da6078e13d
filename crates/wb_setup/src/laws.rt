//! What a setup gives, alone or beside what is kept, is such as an opening asks for.
ghost use Rattle.std.specs.Prelude.{◌≡◌, ℕ, true, List, Ok};
ghost use Rattle.wb_model.specs.declared.registry.Lists.{Lists};
ghost use Rattle.wb_model.specs.Readable.{are_stored};
ghost use Rattle.wb_model.specs.SetUps.{AreSetUp};
ghost use Rattle.wb_setup.specs.Joined.{joined};
ghost use Rattle.wb_setup.specs.Setups.{setup};

/// The lists that a setup gives are such as an opening asks for.
pub fn a_setup_gives_an_opening()
    ensures { (bytes : List ℕ) (lists : Lists) → setup bytes ≡ Ok lists → AreSetUp lists }
{}

/// What is kept, with what a setup adds of other tenants, is such as an opening asks for where both are.
pub fn kept_rows_and_a_setup_make_an_opening()
    ensures { (setup kept : Lists) → AreSetUp setup → AreSetUp kept → AreSetUp (joined setup kept) }
{}

/// What a setup gives can be kept: salts and digests have their lengths, 16 and 32 bytes, and holidays are dates. So can what is
/// kept with what a setup adds, where both can.
pub fn what_a_setup_gives_can_be_kept()
    ensures given { (bytes : List ℕ) (lists : Lists) → setup bytes ≡ Ok lists → are_stored lists ≡ true }
    ensures added { (setup kept : Lists) → are_stored setup ≡ true → are_stored kept ≡ true → are_stored (joined setup kept) ≡ true }
{}

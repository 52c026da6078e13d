//! The rules of reports and numberings.
ghost use Rattle.std.specs.Prelude.{◌≡◌, None, map, true, IfOk};
ghost use Rattle.std.specs.List.{list_all};
ghost use Rattle.std.specs.Option.{option_or};
ghost use Rattle.wb_model.specs.SetUps.{is_form_item};
ghost use Rattle.wb_rows.specs.Blame.{first_breaking, first_repeated as first_repeated_in, blamed};
ghost use Rattle.wb_rows.specs.Reports.{case_report};
ghost use Rattle.wb_rows.specs.Places.{entry_key as entry_key_of, sealed_key as sealed_key_of, numbering_key as numbering_key_of};
ghost use Rattle.wb_rows.specs.ReportRules.{is_right_entry as is_right_entry_in, is_drawn as is_drawn_in, has_its_seal as has_its_seal_in, is_right_seal as is_right_seal_in, same_receipt, is_right_numbering as is_right_numbering_in, first_undrawn_in};

use crate::repeated::{Marked, first_repeated};
use crate::{
    CaseItem, RowFault, entry_key, has_its_seal, is_drawn, is_right_entry, is_right_numbering,
    is_right_seal, numbering_key, sealed_key,
};
use std::alloc::Global;
use wb_base::{Digest, Key, Memory, Tenant};
use wb_custody::SealedItem;
use wb_list::Sorted;
use wb_model::Deed;
use wb_row_codec::{EntryItem, NumberingItem};
use wb_tenants::Registry;

impl Marked for EntryItem {
    ghost use Rattle.std.specs.Option.{option_map};
    ghost use Rattle.wb_model.specs.Trails.{submission_in};
    ghost use Rattle.wb_rows.specs.Places.{entry_key as entry_key_of};
    ghost use Rattle.wb_rows.specs.ReceiptTies.{receipts_tie};
    ghost use Rattle.wb_rows.specs.ReportRules.{same_receipt};

    type Mark = (Tenant, Digest);

    ghost mark_of = { λ item. option_map (λ submission. (item.tenant, record { 0 = submission.receipt })) (submission_in item.entry.deed) };

    ghost key_of = { entry_key_of };

    ghost same = { same_receipt };

    ghost ties = { receipts_tie };

    fn mark(&self, alloc: Global) -> Result<Option<(Tenant, Digest)>, Memory> {
        match &self.entry.deed {
            Deed::Submitted { receipt, .. } => Ok(Some((self.tenant, *receipt))),
            _ => Ok(None),
        }
    }

    fn key(&self) -> Key {
        entry_key(self)
    }
}

// The first entry that names what is not there, or whose answers are not right.
fn first_wrong_entry(
    alloc: Global,
    registry: &Registry,
    entries: &[EntryItem],
) -> Result<Option<Key>, Memory>
    requires { list_all is_form_item registry.now.lists.forms ≡ true }
    ensures { IfOk result (λ found. found ≡ first_breaking (is_right_entry_in registry.now.lists) entry_key_of entries.now) }
{
    for entry in entries {
        if !is_right_entry(alloc, registry, entry)? {
            return Ok(Some(entry_key(entry)));
        }
    }
    Ok(None)
}

// The first entry of a number that was not drawn.
fn first_undrawn_entry(numberings: &[NumberingItem], entries: &[EntryItem]) -> Option<Key>
    ensures { result ≡ first_breaking (λ x. is_drawn_in numberings.now x.tenant x.number) entry_key_of entries.now }
{
    for entry in entries {
        if !is_drawn(numberings, entry.tenant, entry.number) {
            return Some(entry_key(entry));
        }
    }
    None
}

// The first identity answers of a number that was not drawn.
fn first_undrawn_seal(numberings: &[NumberingItem], sealed: &[SealedItem]) -> Option<Key>
    ensures { result ≡ first_breaking (λ x. is_drawn_in numberings.now x.tenant x.number) sealed_key_of sealed.now }
{
    for item in sealed {
        if !is_drawn(numberings, item.tenant, item.number) {
            return Some(sealed_key(item));
        }
    }
    None
}

// The first entry that says that identity answers were given, where they are not there.
fn first_unsealed_entry(sealed: &Sorted<SealedItem>, entries: &[EntryItem]) -> Option<Key>
    ensures { result ≡ first_breaking (has_its_seal_in sealed.now.items) entry_key_of entries.now }
{
    for entry in entries {
        if !has_its_seal(sealed, entry) {
            return Some(entry_key(entry));
        }
    }
    None
}

/// The first identity answers that no trail says were given, or that are not valid.
pub fn first_wrong_seal(
    alloc: Global,
    registry: &Registry,
    cases: &Sorted<CaseItem>,
    sealed: &[SealedItem],
) -> Result<Option<Key>, Memory>
    requires { list_all is_form_item registry.now.lists.forms ≡ true }
    ensures { IfOk result (λ found. found ≡ first_breaking (is_right_seal_in registry.now.lists (map case_report cases.now.items)) sealed_key_of sealed.now) }
{
    for item in sealed {
        if !is_right_seal(alloc, registry, cases, item)? {
            return Ok(Some(sealed_key(item)));
        }
    }
    Ok(None)
}

// The first numbering that draws do not leave, or that a submission is after.
fn first_wrong_numbering(numberings: &[NumberingItem], entries: &[EntryItem]) -> Option<Key>
    ensures { result ≡ first_breaking (is_right_numbering_in entries.now) numbering_key_of numberings.now }
{
    for item in numberings {
        if !is_right_numbering(item, entries) {
            return Some(numbering_key(item));
        }
    }
    None
}

/// The first entry, or other row, that breaks each of the rules that look at entries one by one.
#[derive(Clone, Copy)]
pub struct Blames {
    /// An entry that names what is not there.
    pub wrong: Option<Key>,
    /// A number that was not drawn.
    pub undrawn: Option<Key>,
    /// An entry without its identity answers.
    pub unsealed: Option<Key>,
    /// A receipt that a later submission has.
    pub receipt: Option<Key>,
    /// A numbering that draws do not leave.
    pub numbering: Option<Key>,
}

/// The first row that breaks each of the rules that look at entries one by one.
pub fn find_blames(
    alloc: Global,
    registry: &Registry,
    numberings: &[NumberingItem],
    entries: &[EntryItem],
    sealed: &Sorted<SealedItem>,
) -> Result<Blames, Memory>
    requires { list_all is_form_item registry.now.lists.forms ≡ true }
    ensures wrong { IfOk result (λ b. b.wrong ≡ first_breaking (is_right_entry_in registry.now.lists) entry_key_of entries.now) }
    ensures undrawn { IfOk result (λ b. b.undrawn ≡ first_undrawn_in numberings.now entries.now sealed.now.items) }
    ensures unsealed { IfOk result (λ b. b.unsealed ≡ first_breaking (has_its_seal_in sealed.now.items) entry_key_of entries.now) }
    ensures receipt { IfOk result (λ b. b.receipt ≡ first_repeated_in same_receipt entry_key_of entries.now) }
    ensures numbering { IfOk result (λ b. b.numbering ≡ first_breaking (is_right_numbering_in entries.now) numbering_key_of numberings.now) }
{
    let wrong = first_wrong_entry(alloc, registry, entries)?;
    let receipt = first_repeated(alloc, entries)?;
    let undrawn_entry = first_undrawn_entry(numberings, entries);
    let undrawn_seal = first_undrawn_seal(numberings, sealed.as_slice());
    Ok(Blames {
        wrong,
        undrawn: undrawn_entry.or(undrawn_seal),
        unsealed: first_unsealed_entry(sealed, entries),
        receipt,
        numbering: first_wrong_numbering(numberings, entries),
    })
}

/// The first of these rules that is broken, and the first row that breaks it, with the first wrong identity answers.
pub fn report_fault(blames: Blames, seal: Option<Key>) -> Option<RowFault>
    ensures { result ≡ blamed 6 blames.wrong (blamed 7 blames.undrawn (blamed 8 (option_or blames.unsealed seal) (blamed 9 blames.receipt (blamed 10 blames.numbering None)))) }
{
    if let Some(key) = blames.wrong {
        return Some(RowFault::BadSet(6, key));
    }
    if let Some(key) = blames.undrawn {
        return Some(RowFault::BadSet(7, key));
    }
    if let Some(key) = blames.unsealed.or(seal) {
        return Some(RowFault::BadSet(8, key));
    }
    if let Some(key) = blames.receipt {
        return Some(RowFault::BadSet(9, key));
    }
    if let Some(key) = blames.numbering {
        return Some(RowFault::BadSet(10, key));
    }
    None
}

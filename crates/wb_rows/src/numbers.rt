//! Whether numbers were drawn, and numberings are such as draws leave.
ghost use Rattle.std.specs.Prelude.{◌≡◌, ◌==◌, ◌&&◌, not, is_some, true, find};
ghost use Rattle.std.specs.List.{list_all};
ghost use Rattle.std.specs.Option.{option_copied};
ghost use Rattle.wb_model.specs.Opened.{is_numbering as is_numbering_in};
ghost use Rattle.wb_model.specs.Trails.{submission_in};
ghost use Rattle.wb_rows.specs.ReportRules.{is_numbering_of, is_drawn as is_drawn_in, is_by_draw as is_by_draw_in, is_right_numbering as is_right_numbering_in};

use wb_base::{Number, Tenant};
use wb_model::{Deed, Numbering};
use wb_row_codec::{EntryItem, NumberingItem};

// The numbering of a tenant. There are at most 64.
fn find_numbering(numberings: &[NumberingItem], tenant: Tenant) -> Option<&NumberingItem>
    ensures { option_copied result ≡ find (is_numbering_of tenant) numberings.now }
{
    numberings.iter().find(|item| item.tenant == tenant)
}

/// Whether a tenant has drawn a number.
#[tactic(auto, unfolding(crate::specs::ReportRules::is_drawn))]
pub fn is_drawn(numberings: &[NumberingItem], tenant: Tenant, number: Number) -> bool
    ensures { result ≡ is_drawn_in numberings.now tenant number }
{
    match find_numbering(numberings, tenant) {
        Some(item) => number.get() <= item.numbering.last,
        None => false,
    }
}

// Whether no number was drawn.
fn is_undrawn(numbering: &Numbering) -> bool
    ensures { result ≡ ((numbering.now.at == 0) && (numbering.now.drawn == 0) && (numbering.now.last == 0)) }
{
    numbering.at.seconds() == 0 && numbering.drawn == 0 && numbering.last == 0
}

// Whether a numbering is one that draws may have left.
fn is_numbering(numbering: &Numbering) -> bool
    ensures { result ≡ is_numbering_in numbering.now }
{
    if is_undrawn(numbering) {
        return true;
    }
    1 <= numbering.drawn && numbering.drawn <= numbering.last
}

// Whether a deed is a submission.
fn is_submission(deed: &Deed) -> bool
    ensures { result ≡ is_some (submission_in deed.now) }
{
    match deed {
        Deed::Submitted { .. } => true,
        _ => false,
    }
}

// Whether an entry is no submission to a tenant, or not after the moment of its last draw.
#[tactic(auto, unfolding(crate::specs::ReportRules::is_by_draw))]
fn is_by_draw(item: &NumberingItem, entry: &EntryItem) -> bool
    ensures { result ≡ is_by_draw_in item.now entry.now }
{
    if entry.tenant != item.tenant {
        return true;
    }
    if !is_submission(&entry.entry.deed) {
        return true;
    }
    entry.entry.at <= item.numbering.at
}

// Whether no submission to a tenant is after the moment of its last draw.
fn are_by_draws(item: &NumberingItem, entries: &[EntryItem]) -> bool
    ensures { result ≡ list_all (is_by_draw_in item.now) entries.now }
{
    entries.iter().all(|entry| is_by_draw(item, entry))
}

/// Whether a numbering is one that draws may have left, and no submission is after its moment.
#[tactic(auto, unfolding(crate::specs::ReportRules::is_right_numbering))]
pub fn is_right_numbering(item: &NumberingItem, entries: &[EntryItem]) -> bool
    ensures { result ≡ is_right_numbering_in entries.now item.now }
{
    is_numbering(&item.numbering) && are_by_draws(item, entries)
}

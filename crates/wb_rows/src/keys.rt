//! The keys of rows.
ghost use Rattle.std.specs.Prelude.{◌≡◌};
ghost use Rattle.wb_rows.specs.Places.{entry_key as entry_key_of, sealed_key as sealed_key_of, numbering_key as numbering_key_of};

use wb_base::Key;
use wb_custody::SealedItem;
use wb_row_codec::{EntryItem, NumberingItem};

/// The key of a numbering's row.
pub fn numbering_key(item: &NumberingItem) -> Key
    ensures { result ≡ numbering_key_of item.now }
{
    Key {
        kind: Key::NUMBERING,
        tenant: item.tenant.id(),
        a: 0,
        b: 0,
    }
}

/// The key of an entry's row.
pub fn entry_key(item: &EntryItem) -> Key
    ensures { result ≡ entry_key_of item.now }
{
    Key {
        kind: Key::ENTRY,
        tenant: item.tenant.id(),
        a: item.number.get(),
        b: item.place,
    }
}

/// The key of the row of identity answers.
pub fn sealed_key(item: &SealedItem) -> Key
    ensures { result ≡ sealed_key_of item.now }
{
    Key {
        kind: Key::SEALED,
        tenant: item.tenant.id(),
        a: item.number.get(),
        b: 0,
    }
}

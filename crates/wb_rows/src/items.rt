//! What rows stand for, row by row, and the same kind by kind.
ghost use Rattle.std.specs.Prelude.{◌≡◌, ◌≢◌, [], IfOk, IfErr, OnOk, Ok, Err, true};
ghost use Rattle.std.specs.List.{list_all};
ghost use Rattle.wb_row_codec.specs.Items.{is_in_range};
ghost use Rattle.wb_rows.specs.declared.faults.RowFault.TheVariants as faults;
ghost use Rattle.wb_rows.specs.ReadItems.{items_in};
ghost use Rattle.wb_rows.specs.KeptItems.{with_item, kept_of};

use crate::RowFault;
use std::alloc::Global;
use wb_base::{Format, Memory, Row};
use wb_custody::SealedItem;
use wb_list::Items;
use wb_model::{ContextItem, FormItem, Lists, TenantItem, UserItem};
use wb_row_codec::{EntryItem, Item, NumberingItem, read_item};

/// What rows of a format stand for, or the first key whose row is not good.
pub fn read_items(alloc: Global, format: Format, rows: &[Row]) -> Result<Vec<Item>, RowFault>
    ensures ok { IfOk result (λ items. items_in format rows.now ≡ Ok items.items) }
    ensures fits { IfOk result (λ items. list_all is_in_range items.items ≡ true) }
    ensures err { IfErr result (λ fault. fault ≢ faults.Memory → items_in format rows.now ≡ Err fault) }
{
    let mut items = Vec::new(alloc);
    for row in rows {
        match read_item(alloc, format, row)? {
            Some(item) => items.push(item)?,
            None => return Err(RowFault::BadRow(row.key)),
        }
    }
    Ok(items)
}

/// What rows stand for, kind by kind.
#[derive(Drop)]
pub struct ItemsByKind {
    pub lists: Lists,
    pub numberings: Items<NumberingItem>,
    pub entries: Items<EntryItem>,
    pub sealed: Items<SealedItem>,
}

impl ItemsByKind {
    // Nothing.
    fn new(alloc: Global) -> ItemsByKind
        ensures { result ≡ kept_of [] }
    {
        ItemsByKind {
            lists: Lists {
                tenants: Items::new(alloc),
                users: Items::new(alloc),
                forms: Items::new(alloc),
                contexts: Items::new(alloc),
            },
            numberings: Items::new(alloc),
            entries: Items::new(alloc),
            sealed: Items::new(alloc),
        }
    }

    // One more item.
    fn push(&mut self, item: Item) -> Result<(), Memory>
        ensures { OnOk result (self.new ≡ with_item self.old item) }
    {
        match item {
            Item::Settings(x) => self.lists.tenants.push(x),
            Item::Numbering(x) => self.numberings.push(x),
            Item::User(x) => self.lists.users.push(x),
            Item::Form(x) => self.lists.forms.push(x),
            Item::Context(x) => self.lists.contexts.push(x),
            Item::Entry(x) => self.entries.push(x),
            Item::Sealed(x) => self.sealed.push(x),
        }
    }
}

/// Items kind by kind, in their order.
pub fn sort_items(alloc: Global, items: Vec<Item>) -> Result<ItemsByKind, Memory>
    ensures { IfOk result (λ kept. kept ≡ kept_of items.items) }
{
    let mut kept = ItemsByKind::new(alloc);
    for item in items {
        kept.push(item)?;
    }
    Ok(kept)
}

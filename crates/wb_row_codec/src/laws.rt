//! Laws of single rows, each a function with no body.
ghost use Rattle.std.specs.Prelude.{◌≡◌, true, Some};
ghost use Rattle.wb_base.specs.declared.form.Format.{Format};
ghost use Rattle.wb_row_codec.specs.declared.item.Item.{Item};
ghost use Rattle.wb_row_codec.specs.Good.{is_good};
ghost use Rattle.wb_row_codec.specs.Items.{item_row, item_of, is_kept_in};

/// The row of an item whose values are in their ranges is read as that item, in each format that has it.
pub fn good_rows_are_read_as_their_items()
    ensures { (format : Format) (x : Item) → is_good x ≡ true → is_kept_in format x ≡ true → item_of format (item_row format x) ≡ Some x }
{}

//! The tables that are kept.

use crate::CaseItem;
use wb_custody::SealedTable;
use wb_list::Items;
use wb_row_codec::NumberingItem;
use wb_tenants::Registry;

/// What is kept of all tenants: what they are set up with, the numbers that they have drawn, their reports in the order of
/// tenant and number, and the identity answers of these.
#[derive(Drop)]
pub struct Tables {
    pub registry: Registry,
    pub numberings: Items<NumberingItem>,
    pub cases: Items<CaseItem>,
    pub sealed: SealedTable,
}

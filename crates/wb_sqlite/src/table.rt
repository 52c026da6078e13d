//! The two tables of kept rows, as they are read.
ghost use Rattle.std.specs.Prelude.{◌≡◌, IfOk};
ghost use Rattle.wb_sqlite.specs.Readings.{IsRowOf, selection_of};

use crate::refusal::Refusal;
use crate::statements::{READ_RECORD, READ_SEALED};
use crate::stored::{record_row, sealed_row};
use sqlite::Row as Stored;
use std::alloc::Global;
use wb_base::Row;

/// A table of kept rows.
#[derive(Clone, Copy)]
pub(crate) enum Table {
    /// The rows of all kinds but 7.
    Record,
    /// The sealed answers.
    Sealed,
}

impl Table {
    /// The selection of its rows, by ascending key.
    pub(crate) fn selection(self) -> &'static str
        ensures { result.now ≡ selection_of self }
    {
        match self {
            Table::Record => READ_RECORD,
            Table::Sealed => READ_SEALED,
        }
    }

    /// The row of a stored row of it.
    pub(crate) fn kept_row(self, alloc: Global, stored: &Stored) -> Result<Row, Refusal>
        ensures { IfOk result (IsRowOf self stored.now) }
    {
        match self {
            Table::Record => record_row(alloc, stored),
            Table::Sealed => sealed_row(alloc, stored),
        }
    }
}

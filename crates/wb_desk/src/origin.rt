//! What a host was opened with, as the type of its books says it.
use std::marker::Brand;
use std::sync::ledger::Ledger;

/// The ledger of a host's turns. With it goes what the host was opened with, which a lock then keeps as it keeps the type.
pub trait Origin: Ledger {
    ghost use Rattle.wb_tables.specs.Standing.{Standing};

    /// The desk over which the books were opened.
    ghost desk: { Standing };

    /// What the keeper told of its rows then can be relied on.
    ghost honest: { Type 0 };
}

/// A brand says nothing of a desk by itself: where books are opened at one, the proof of that call picks what they were opened
/// with, and these members are those of a brand that opens none.
impl Origin for Brand {
    ghost use Rattle.std.specs.Prelude.{[]};
    ghost use Rattle.wb_tables.specs.Standing.{Standing};

    ghost desk = { record { turns = 0; time = 0; tenants = []; sealed = [] } };

    ghost honest = { Unit {0} };
}

//! A host over the setup whose books are not opened yet.
ghost use Rattle.std.specs.Prelude.{◌≡◌};
ghost use Rattle.wb_server_tests.specs.NewHosts.{IsOpenedAt};

use crate::hosts::opened;
use std::alloc::Global;
use std::marker::Model;
use std::sync::ledger::{Blank, Ledger};
use std::test::Fail;
use wb_base::MemKeeper;
use wb_desk::{Desk, Kept, Origin, Pass};

/// A desk, the keeper of its rows, and two ledgers of two parts each.
#[derive(Drop)]
pub struct NewHost {
    desk: Desk,
    keeper: MemKeeper,
    turns: Blank,
    numbers: Blank,
}

impl Model for NewHost {
    ghost use Rattle.std.specs.Prelude.{◌≡◌};
    ghost use Rattle.wb_model.specs.Rows.{rows_of};
    ghost use Rattle.wb_server_tests.specs.NewHosts.{NewHost as Given};
    ghost use Rattle.wb_tables.specs.Standing.{hosts_of};

    ghost Value = { Given };

    ghost view = { λ h. record { desk = h.desk; turns = h.turns.name; numbers = h.numbers.name } };

    ghost invariant = { λ h. (h.keeper.rows ≡ rows_of (hosts_of h.desk).list) × (h.turns.parts ≡ 2) × (h.numbers.parts ≡ 2) };
}

impl NewHost {
    /// A host over the setup.
    pub fn new(alloc: Global) -> Result<NewHost, Fail> {
        let (desk, keeper) = opened(alloc)?;
        Ok(NewHost {
            desk,
            keeper,
            turns: Blank::new(2),
            numbers: Blank::new(2),
        })
    }

    /// Opens its books, which is done where a type stands for each ledger. The pass has both parts.
    pub fn open<A: Origin, B: Ledger>(self) -> (Kept<MemKeeper, A, B>, Pass<A, B>)
        requires at { IsOpenedAt self A.desk A.honest A.name A.parts B.name B.parts }
        ensures pass { result.1 ≡ record { parts = 2; turns = 0; numbers = 0 } }
    {
        let NewHost {
            desk,
            keeper,
            turns,
            numbers,
        } = self;
        Kept::new(desk, keeper, 2, turns, numbers)
    }
}

//! A host is taken apart where the passes that come back account for its books.
ghost use Rattle.std.specs.Prelude.{◌≡◌, ◌≢◌, ◌+◌, IfOk, IfErr, IsOk};
ghost use Rattle.wb_model.specs.Drawn.{numbers_of};
ghost use Rattle.wb_model.specs.Rows.{rows_of};
ghost use Rattle.wb_tables.specs.Standing.{hosts_of};
ghost use Rattle.wb_desk.specs.GoneOn.{IsLater};
ghost use Rattle.wb_desk.specs.Hosted.{parts_of, turns_of, numbers_drawn};

use crate::Desk;
use crate::kept::Kept;
use crate::origin::Origin;
use crate::pass::Pass;
use crate::sums::sum_shares;
use crate::tally::Tally;
use std::sync::ledger::Ledger;
use wb_base::Keeper;

/// A host that was taken apart, with its two books.
#[derive(Drop)]
pub struct Closed<K: Keeper> {
    pub desk: Desk,
    pub keeper: K,
    pub turns: u64,
    pub numbers: u64,
}

/// A host and its passes, which do not add up to the books.
#[derive(Drop)]
pub struct KeptBack<K: Keeper, A: Origin, B: Ledger> {
    pub kept: Kept<K, A, B>,
    pub passes: Vec<Pass<A, B>>,
    /// The two books.
    pub book: Tally,
    /// The sums of the passes' shares.
    pub sum: Tally,
}

impl<K: Keeper, A: Origin, B: Ledger> Kept<K, A, B> {
    /// Takes the host apart where the passes' shares add up to the books, and else gives all back. They do where the passes have all
    /// the parts of the ledgers.
    pub fn close(self, passes: Vec<Pass<A, B>>) -> Result<Closed<K>, KeptBack<K, A, B>>
        ensures ok { IfOk result (λ c. (c.turns ≡ self.turns) × (c.numbers ≡ self.numbers) × (turns_of passes.items ≡ self.turns) × (numbers_drawn passes.items ≡ self.numbers)) }
        ensures desk { IfOk result (λ c. (c.desk ≡ self.desk) × ((K.end c.keeper).count ≡ self.faults)) }
        ensures kept { IfOk result (λ c. (K.end c.keeper).honest → (K.end c.keeper).holds (rows_of (hosts_of c.desk).list)) }
        ensures opened { IfOk result (λ c. (c.desk.turns ≡ A.desk.turns + c.turns) × (numbers_of (hosts_of c.desk) ≡ numbers_of (hosts_of A.desk) + c.numbers) × IsLater A.desk c.turns c.desk) }
        ensures honest { IfOk result (λ c. (K.end c.keeper).honest → A.honest) }
        ensures back { IfErr result (λ k. (k.kept ≡ self) × (k.passes.items ≡ passes.items)) }
        ensures sums { IfErr result (λ k. (k.book.turns ≡ self.turns) × (k.book.numbers ≡ self.numbers) × (k.sum.turns ≡ turns_of passes.items) × (k.sum.numbers ≡ numbers_drawn passes.items)) }
        ensures differ { IfErr result (λ k. k.sum.turns ≡ k.book.turns → k.sum.numbers ≢ k.book.numbers) }
        ensures exact { turns_of passes.items ≡ self.turns → numbers_drawn passes.items ≡ self.numbers → IsOk result }
        ensures all { parts_of passes.items ≡ A.parts → parts_of passes.items ≡ B.parts → IsOk result }
    {
        let mut kept = self;
        let mut passes = passes;
        let sum = sum_shares(
            &mut kept.turn_book,
            &mut kept.number_book,
            &mut kept.turn_mark,
            &mut kept.number_mark,
            passes.as_mut_slice(),
        );
        let book = Tally {
            turns: kept.turns,
            numbers: kept.numbers,
        };
        if sum != book {
            return Err(KeptBack {
                kept,
                passes,
                book,
                sum,
            });
        }
        let Kept {
            desk,
            keeper,
            first: _,
            turns,
            numbers,
            turn_book: _,
            number_book: _,
            turn_mark: _,
            number_mark: _,
        } = kept;
        Ok(Closed {
            desk,
            keeper,
            turns,
            numbers,
        })
    }
}
